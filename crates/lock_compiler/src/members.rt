ghost use Rattle.std.specs.Prelude.{◌≡◌, ◌++◌, ◌∷◌, map, nat_le, OnOk, IfOk, Some};
ghost use Rattle.std.specs.List.{position_from};
ghost use Rattle.gx_base.specs.declared.conditions.Side.TheVariants.{First, Second};
ghost use Rattle.gx_base.specs.declared.conditions.Term.TheVariants.{Value};
ghost use Rattle.gx_base.specs.Conditions.{condition_of, is_false};
ghost use Rattle.gx_base.specs.Kinds.{kind_number};
ghost use Rattle.gx_base.specs.TableRows.{row_of};
ghost use Rattle.cond_lattice.specs.Same.{same_sides};
ghost use Rattle.cond_lattice.specs.Simple.{stands_in};
ghost use Rattle.lock_compiler.specs.Compiled.{with_its_number, with_term, with_condition, locked_numbers, method_members, members_of, members_refuse};

use gx_base::{Cond, Kind, NoMemory, Side, Table, Term, method_at};
use std::alloc::Global;

/// The place of the first that isn't below a number.
fn number_index(numbers: &[u32], number: u32) -> Option<usize>
    ensures { result ≡ position_from (nat_le number) 0 numbers.now }
{
    numbers.iter().position(|other| number <= *other)
}

/// Puts a number in its place among rising ones, once.
fn add_number(numbers: &mut Vec<u32>, number: u32) -> Result<(), NoMemory>
    ensures { OnOk result (numbers.new.items ≡ with_its_number number numbers.old.items) }
{
    match number_index(numbers, number) {
        None => numbers.push(number)?,
        Some(place) => {
            if numbers[place] != number {
                numbers.insert(place, number)?;
            }
        }
    }
    Ok(())
}

/// Adds the number of a value of the call on this side, where the term is one.
fn add_term(numbers: &mut Vec<u32>, side: Side, term: Term) -> Result<(), NoMemory>
    ensures { OnOk result (numbers.new.items ≡ with_term side term numbers.old.items) }
{
    match (side, term) {
        (Side::First, Term::Value(Side::First, place)) => add_number(numbers, place),
        (Side::Second, Term::Value(Side::Second, place)) => add_number(numbers, place),
        _ => Ok(()),
    }
}

/// Adds the numbers of the values that stand in the inequalities of a conjunction, of the call on this side.
fn add_condition(numbers: &mut Vec<u32>, side: Side, cond: &Cond) -> Result<(), NoMemory>
    ensures { OnOk result (numbers.new.items ≡ with_condition side (condition_of cond.now) numbers.old.items) }
{
    match cond {
        Cond::Ne(x, y) => {
            add_term(numbers, side, *x)?;
            add_term(numbers, side, *y)?;
            Ok(())
        }
        Cond::And(a, b) => {
            add_condition(numbers, side, a)?;
            add_condition(numbers, side, b)?;
            Ok(())
        }
        _ => Ok(()),
    }
}

/// The numbers of the values that stand in some inequality of a method, rising.
fn locked_numbers(
    alloc: Global,
    kind: Kind,
    table: &Table,
    method: u32,
) -> Result<Vec<u32>, NoMemory>
    ensures { IfOk result (λ numbers. numbers.items ≡ locked_numbers (kind_number kind) (row_of table.now) method) }
{
    let mut numbers = Vec::new(alloc);
    let mut place = 0;
    'others: while let Some(other) = method_at(kind, place) {
        add_condition(&mut numbers, Side::First, table.row(method, other))?;
        add_condition(&mut numbers, Side::Second, table.row(other, method))?;
        place += 1;
    }
    Ok(numbers)
}

/// Adds a method as a whole, and then its values.
fn add_members(
    members: &mut Vec<(u32, Option<u32>)>,
    method: u32,
    numbers: &[u32],
) -> Result<(), NoMemory>
    ensures { OnOk result (members.new.items
        ≡ members.old.items ++ (method, None) ∷ map (λ number. (method, Some number)) numbers.now) }
{
    members.push((method, None))?;
    for number in numbers {
        members.push((method, Some(*number)))?;
    }
    Ok(())
}

/// All that may be locked, by rising method.
pub(crate) fn all_members(
    alloc: Global,
    kind: Kind,
    table: &Table,
) -> Result<Vec<(u32, Option<u32>)>, NoMemory>
    ensures { IfOk result (λ members. members.items ≡ members_of (kind_number kind) (row_of table.now)) }
{
    let mut members = Vec::new(alloc);
    let mut place = 0;
    'methods: while let Some(method) = method_at(kind, place) {
        let numbers = locked_numbers(alloc, kind, table, method)?;
        add_members(&mut members, method, &numbers)?;
        place += 1;
    }
    Ok(members)
}

/// Whether these are the value of the first call and the value of the second with these numbers, either side first.
fn are_values(x: Term, y: Term, i: u32, j: u32) -> bool
    ensures { result ≡ same_sides (Value First i) (Value Second j) x y }
{
    match (x, y) {
        (Term::Value(Side::First, k), Term::Value(Side::Second, l)) => i == k && j == l,
        (Term::Value(Side::Second, l), Term::Value(Side::First, k)) => i == k && j == l,
        _ => false,
    }
}

/// Whether a conjunction has the inequality of these values, of the first call and of the second.
fn has_inequality(cond: &Cond, i: u32, j: u32) -> bool
    ensures { result ≡ stands_in (Value First i) (Value Second j) (condition_of cond.now) }
{
    match cond {
        Cond::Ne(x, y) => are_values(*x, *y, i, j),
        Cond::And(a, b) => has_inequality(a, i, j) || has_inequality(b, i, j),
        _ => false,
    }
}

fn is_false(cond: &Cond) -> bool
    ensures { result ≡ is_false (condition_of cond.now) }
{
    match cond {
        Cond::False => true,
        _ => false,
    }
}

/// Whether two members exclude each other, the first held and the second asked for.
pub(crate) fn members_refuse(
    table: &Table,
    held: (u32, Option<u32>),
    asked: (u32, Option<u32>),
) -> bool
    ensures { result ≡ members_refuse (row_of table.now) held asked }
{
    let row = table.row(held.0, asked.0);
    match (held.1, asked.1) {
        (None, None) => is_false(row),
        (Some(i), Some(j)) => has_inequality(row, i, j),
        _ => false,
    }
}
