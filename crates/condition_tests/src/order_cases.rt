//! What no clause says: that calls succeed and end soon, and values worked by hand.

ghost use Rattle.std.specs.Prelude.{◌≡◌, IfOk};
ghost use Rattle.gx_base.specs.declared.conditions.Side.TheVariants.{First, Second};
ghost use Rattle.gx_base.specs.declared.conditions.Term.TheVariants.{Value as ValueTerm};
ghost use Rattle.gx_base.specs.Conditions.{condition_of, Ne as NeCondition, And as AndCondition};

use cond_lattice::laws::{
    below_keeps_out_general_rows, simple_holds_by_its_inequalities, table_grade_is_greatest,
};
use cond_lattice::{
    Grade, below, class, join, meet, row_below, simple_below, strengthen, table_class,
};
use gx_base::{Cond, Kind, NoMemory, Side, Table, Term};
use std::alloc::Global;
use std::test::Fail;

const A1: Term = Term::Value(Side::First, 0);

const A2: Term = Term::Value(Side::Second, 0);

const P1: Term = Term::Value(Side::First, 4);

const P2: Term = Term::Value(Side::Second, 4);

/// The values with this number differ.
fn differ(place: u32) -> Cond
    ensures { condition_of result ≡ NeCondition (ValueTerm First place) (ValueTerm Second place) }
{
    Cond::Ne(
        Term::Value(Side::First, place),
        Term::Value(Side::Second, place),
    )
}

fn and(alloc: Global, x: Cond, y: Cond) -> Result<Cond, NoMemory>
    ensures { IfOk result (λ whole. condition_of whole ≡ AndCondition (condition_of x) (condition_of y)) }
{
    let left = Box::new(alloc, x)?;
    let right = Box::new(alloc, y)?;
    Ok(Cond::And(left, right))
}

fn or(alloc: Global, x: Cond, y: Cond) -> Result<Cond, NoMemory> {
    let left = Box::new(alloc, x)?;
    let right = Box::new(alloc, y)?;
    Ok(Cond::Or(left, right))
}

fn nothing(term: Term) -> Cond {
    Cond::Eq(term, Term::Const(0))
}

fn number(n: i64) -> Cond {
    Cond::Eq(A1, Term::Const(n))
}

/// Whether each of two conditions is below the other by the rules.
fn are_alike(c: &Cond, d: &Cond) -> bool {
    row_below(c, d) && row_below(d, c)
}

/// How many atoms a conjunction has.
fn atoms(cond: &Cond) -> u64 {
    match cond {
        Cond::And(x, y) => atoms(x).saturating_add(atoms(y)),
        _ => 1,
    }
}

fn is_of(cond: &Cond, grade: Grade) -> bool {
    class(cond) == grade
}

#[test]
fn bounds_of_simple_conditions(rt: HostRuntime) -> Result<(), Fail> {
    let alloc = rt.alloc();
    let a = differ(0);
    let b = differ(1);
    let turned = and(alloc, Cond::Ne(A2, A1), differ(1))?;
    let both = meet(alloc, &a, &turned)?;
    assert_eq!(rt; atoms(&both), 2);
    assert!(rt; are_alike(&both, &turned));
    assert!(rt; are_alike(&join(alloc, &both, &a)?, &a));
    assert!(rt; are_alike(&join(alloc, &a, &b)?, &Cond::True));
    assert!(rt; simple_below(&both, &a));
    assert!(rt; !simple_below(&a, &both));
    Ok(())
}

#[test]
fn rows_are_strengthened(rt: HostRuntime) -> Result<(), Fail> {
    let alloc = rt.alloc();
    // p2 = 0 or p1 != a2
    let nearest_remove = or(alloc, nothing(P2), Cond::Ne(P1, A2))?;
    assert!(rt; are_alike(&strengthen(alloc, &nearest_remove)?, &Cond::Ne(P1, A2)));
    // p2 = 0 or a1 = a2
    let nearest_add = or(alloc, nothing(P2), Cond::Eq(A1, A2))?;
    assert!(rt; are_alike(&strengthen(alloc, &nearest_add)?, &Cond::False));
    Ok(())
}

#[test]
fn conditions_have_their_classes(rt: HostRuntime) {
    assert!(rt; is_of(&differ(3), Grade::Simple));
    assert!(rt; is_of(&Cond::Lt(A1, A2), Grade::Online));
    assert!(rt; is_of(&Cond::Ne(Term::State(Side::First), A2), Grade::Online));
    assert!(rt; is_of(&Cond::Ne(A1, Term::State(Side::Second)), Grade::General));
    simple_holds_by_its_inequalities();
    below_keeps_out_general_rows();
    table_grade_is_greatest();
}

/// Whether the first set's table has a row that isn't below the other's, for these two methods.
fn fails_at(c: &Table, d: &Table, first: u32, second: u32) -> bool {
    match below(Kind::Set, c, d) {
        Err(pair) => pair.first == first && pair.second == second,
        Ok(()) => false,
    }
}

// The later of two rows counts, and none of another kind's methods.
#[test]
fn tables_are_below(rt: HostRuntime) -> Result<(), Fail> {
    let alloc = rt.alloc();
    let mut precise = Table::blank(alloc);
    let still = and(alloc, nothing(P1), nothing(P2))?;
    precise.put(0, 0, or(alloc, differ(0), still)?)?;
    let mut simple = Table::blank(alloc);
    simple.put(0, 0, differ(0))?;
    simple.put(8, 8, Cond::Lt(A1, A2))?;
    assert!(rt; below(Kind::Set, &simple, &precise).is_ok());
    assert!(rt; fails_at(&precise, &simple, 0, 0));
    assert!(rt; table_class(Kind::Set, &precise) == Grade::Online);
    assert!(rt; table_class(Kind::Set, &simple) == Grade::Simple);
    simple.put(2, 1, Cond::True)?;
    assert!(rt; fails_at(&simple, &precise, 2, 1));
    Ok(())
}

/// Joins a condition with a copy of itself, so many times over, by `and` and by `or` in turn.
fn doubled(alloc: Global, start: Cond, times: u32, by_and: bool) -> Result<Cond, NoMemory> {
    let mut whole = start;
    let mut is_and = by_and;
    for _ in 0..times {
        let twin = whole.copy(alloc)?;
        whole = if is_and {
            and(alloc, whole, twin)?
        } else {
            or(alloc, whole, twin)?
        };
        is_and = !is_and;
    }
    Ok(whole)
}

// x and (y or (x and (y or ..))) against y or (x and (y or (x and ..))), each 64 deep: what a plain recursion
// would decide along each of some 10^18 interleavings of the two.
#[test]
fn alternations_are_decided_soon(rt: HostRuntime) -> Result<(), Fail> {
    let alloc = rt.alloc();
    let mut lower = number(3);
    let mut upper = number(4);
    for _ in 0..31 {
        lower = and(alloc, number(1), or(alloc, number(2), lower)?)?;
        upper = or(alloc, number(2), and(alloc, number(1), upper)?)?;
    }
    assert!(rt; !row_below(&lower, &upper));
    assert!(rt; row_below(&lower, &lower));
    Ok(())
}

// Trees of 511 parts, and a small condition below a large one.
#[test]
fn full_trees_are_decided_soon(rt: HostRuntime) -> Result<(), Fail> {
    let alloc = rt.alloc();
    let lower = doubled(alloc, number(1), 8, true)?;
    let upper = doubled(alloc, number(2), 8, false)?;
    assert!(rt; !row_below(&lower, &upper));
    assert!(rt; row_below(&lower, &or(alloc, upper, number(1))?));
    let large = doubled(alloc, or(alloc, number(2), number(3))?, 12, true)?;
    assert!(rt; row_below(&number(3), &large) && !row_below(&number(4), &large));
    Ok(())
}
