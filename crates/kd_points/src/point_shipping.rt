//! The tables of conditions that points ship.
ghost use Rattle.std.specs.Prelude.{◌≡◌, ℕ, negsuc, pos, IfOk, if◌then◌else◌};
ghost use Rattle.gx_base.specs.Conditions.{condition_of, Or, And, Ne, Eq};
ghost use Rattle.gx_base.specs.declared.conditions.Side.{Side};
ghost use Rattle.gx_base.specs.declared.conditions.Part.{Part};
ghost use Rattle.gx_base.specs.declared.conditions.Term.TheVariants.{Value, Const, Beyond};
ghost use Rattle.gx_base.specs.PointKind.{Add, Remove, Nearest};
ghost use Rattle.gx_base.specs.ShippedTables.{rows_chosen};
ghost use Rattle.gx_base.specs.TableRows.{row_of};
ghost use Rattle.kind_tables.specs.PairConditions.{same_number};
ghost use Rattle.kd_points.specs.PointMethods.{deed_in};
ghost use Rattle.kd_points.specs.PointTables.{point_tables, precise_point, simple_point, reader_writer_point};

use crate::point_methods::{FIRST_METHOD, METHODS_END, PointDeed, deed_of};
use gx_base::{Choice, Cond, NoMemory, Part, Side, Table, Term};
use kind_tables::pair_conditions::{both, changed_nothing, elsewhere, elsewhere_or};
use std::alloc::Global;

/// One of two tests is passed.
fn either(alloc: Global, left: Cond, right: Cond) -> Result<Cond, NoMemory>
    ensures { IfOk result (λ cond. condition_of cond ≡ Or (condition_of left) (condition_of right)) }
{
    let left = Box::new(alloc, left)?;
    let right = Box::new(alloc, right)?;
    Ok(Cond::Or(left, right))
}

/// The calls use one number.
fn own_number() -> Cond
    ensures { condition_of result ≡ same_number }
{
    Cond::Eq(Term::Value(Side::First, 0), Term::Value(Side::Second, 0))
}

/// The call on the `nearest` side found a point, and the spot of the other call's arguments is farther.
fn found_nearer(
    alloc: Global,
    nearest: Side,
    asked: Part,
    changed: Part,
    found: Part,
) -> Result<Cond, NoMemory>
    ensures { IfOk result (λ cond. condition_of cond ≡ And (Ne (Value nearest 4) (Const (negsuc 0))) (Eq (Beyond asked changed found) (Const (pos 1)))) }
{
    let some = Cond::Ne(Term::Value(nearest, 4), Term::Const(-1));
    let farther = Cond::Eq(Term::Beyond(asked, changed, found), Term::Const(1));
    both(alloc, some, farther)
}

/// The row of `nearest` and an add, with either first.
fn nearest_and_add(alloc: Global, nearest_first: bool) -> Result<Cond, NoMemory>
    ensures { IfOk result (λ cond. condition_of cond ≡ (if nearest_first then precise_point Nearest Add else precise_point Add Nearest)) }
{
    if nearest_first {
        let unseen = either(alloc, changed_nothing(Side::Second), own_number())?;
        let farther = found_nearer(
            alloc,
            Side::First,
            Part::ArgFirst,
            Part::ArgSecond,
            Part::RepFirst,
        )?;
        either(alloc, unseen, farther)
    } else {
        let another = Cond::Ne(Term::Value(Side::First, 0), Term::Value(Side::Second, 4));
        either(alloc, changed_nothing(Side::First), another)
    }
}

/// The row of `nearest` and a remove, with either first.
fn nearest_and_remove(alloc: Global, nearest_first: bool) -> Result<Cond, NoMemory>
    ensures { IfOk result (λ cond. condition_of cond ≡ (if nearest_first then precise_point Nearest Remove else precise_point Remove Nearest)) }
{
    if nearest_first {
        let another = Cond::Ne(Term::Value(Side::First, 4), Term::Value(Side::Second, 0));
        either(alloc, changed_nothing(Side::Second), another)
    } else {
        let unseen = either(alloc, changed_nothing(Side::First), own_number())?;
        let farther = found_nearer(
            alloc,
            Side::Second,
            Part::ArgSecond,
            Part::ArgFirst,
            Part::RepSecond,
        )?;
        either(alloc, unseen, farther)
    }
}

/// The calls use different numbers, or neither changed anything.
fn neither_changed(alloc: Global) -> Result<Cond, NoMemory>
    ensures { IfOk result (λ cond. condition_of cond ≡ precise_point Add Remove) }
{
    let first = changed_nothing(Side::First);
    let test = both(alloc, first, changed_nothing(Side::Second))?;
    elsewhere_or(alloc, test)
}

/// The precise row of two deeds.
fn precise_row(alloc: Global, first: PointDeed, second: PointDeed) -> Result<Cond, NoMemory>
    ensures { IfOk result (λ cond. condition_of cond ≡ precise_point (deed_in first) (deed_in second)) }
{
    match (first, second) {
        (PointDeed::At | PointDeed::Nearest, PointDeed::At | PointDeed::Nearest) => Ok(Cond::True),
        (PointDeed::Nearest, PointDeed::Add) => nearest_and_add(alloc, true),
        (PointDeed::Add, PointDeed::Nearest) => nearest_and_add(alloc, false),
        (PointDeed::Nearest, PointDeed::Remove) => nearest_and_remove(alloc, true),
        (PointDeed::Remove, PointDeed::Nearest) => nearest_and_remove(alloc, false),
        (_, PointDeed::At) => elsewhere_or(alloc, changed_nothing(Side::First)),
        (PointDeed::At, _) => elsewhere_or(alloc, changed_nothing(Side::Second)),
        (_, _) => neither_changed(alloc),
    }
}

/// What locks can keep of the precise row.
fn simple_row(first: PointDeed, second: PointDeed) -> Cond
    ensures { condition_of result ≡ simple_point (deed_in first) (deed_in second) }
{
    match (first, second) {
        (PointDeed::At | PointDeed::Nearest, PointDeed::At | PointDeed::Nearest) => Cond::True,
        (PointDeed::Nearest, PointDeed::Add) | (PointDeed::Remove, PointDeed::Nearest) =>
            Cond::False,
        (PointDeed::Nearest, PointDeed::Remove) => {
            Cond::Ne(Term::Value(Side::First, 4), Term::Value(Side::Second, 0))
        }
        (PointDeed::Add, PointDeed::Nearest) => {
            Cond::Ne(Term::Value(Side::First, 0), Term::Value(Side::Second, 4))
        }
        _ => elsewhere(),
    }
}

/// The row of readers and writers.
fn rw_row(first: PointDeed, second: PointDeed) -> Cond
    ensures { condition_of result ≡ reader_writer_point (deed_in first) (deed_in second) }
{
    match (first, second) {
        (PointDeed::At | PointDeed::Nearest, PointDeed::At | PointDeed::Nearest) => Cond::True,
        (PointDeed::Nearest, _) | (_, PointDeed::Nearest) => Cond::False,
        _ => elsewhere(),
    }
}

/// The row of two methods in the table of a choice.
fn row(alloc: Global, choice: Choice, first: u32, second: u32) -> Result<Cond, NoMemory>
    ensures { IfOk result (λ cond. condition_of cond ≡ rows_chosen point_tables choice first second) }
{
    match (deed_of(first), deed_of(second)) {
        (Some(first), Some(second)) => match choice {
            Choice::Precise => precise_row(alloc, first, second),
            Choice::Simple => Ok(simple_row(first, second)),
            Choice::Rw => Ok(rw_row(first, second)),
            Choice::Global => Ok(Cond::False),
        },
        _ => Ok(Cond::False),
    }
}

/// The shipped table of points.
pub(crate) fn point_table(alloc: Global, choice: Choice) -> Result<Table, NoMemory>
    ensures { IfOk result (λ table. (first second : ℕ) → row_of table first second ≡ rows_chosen point_tables choice first second) }
{
    let mut table = Table::blank(alloc);
    for first in FIRST_METHOD..METHODS_END {
        for second in FIRST_METHOD..METHODS_END {
            let cond = row(alloc, choice, first, second)?;
            table.put(first, second, cond)?;
        }
    }
    Ok(table)
}
