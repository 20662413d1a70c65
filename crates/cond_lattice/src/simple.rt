ghost use Rattle.std.specs.Prelude.{◌≡◌, ◌↔◌, true, IfOk, IsTrue};
ghost use Rattle.gx_base.specs.Below.{IsBelow};
ghost use Rattle.gx_base.specs.Conditions.{condition_of, is_false};
ghost use Rattle.cond_lattice.specs.Grades.{is_simple};
ghost use Rattle.cond_lattice.specs.Simple as order;
ghost use Rattle.cond_lattice.specs.Simple.{simply_below, meet_of, join_of, strengthened, is_near, Implies, IsMeet, IsJoin};

use crate::classes::are_across;
use crate::same::same_sides;
use gx_base::{Cond, NoMemory, Term};
use std::alloc::Global;

pub(crate) fn is_true(cond: &Cond) -> bool
    ensures { result ≡ order.is_true (condition_of cond.now) }
{
    match cond {
        Cond::True => true,
        _ => false,
    }
}

pub(crate) fn is_false(cond: &Cond) -> bool
    ensures { result ≡ is_false (condition_of cond.now) }
{
    match cond {
        Cond::False => true,
        _ => false,
    }
}

/// Whether a conjunction has this inequality, either side first.
fn stands_in(x: Term, y: Term, cond: &Cond) -> bool
    ensures { result ≡ order.stands_in x y (condition_of cond.now) }
{
    match cond {
        Cond::Ne(u, v) => same_sides(x, y, *u, *v),
        Cond::And(a, b) => stands_in(x, y, a) || stands_in(x, y, b),
        _ => false,
    }
}

/// Whether each inequality of a conjunction stands in another.
fn all_stand_in(cond: &Cond, other: &Cond) -> bool
    ensures { result ≡ order.all_stand_in (condition_of cond.now) (condition_of other.now) }
{
    match cond {
        Cond::Ne(x, y) => stands_in(*x, *y, other),
        Cond::And(a, b) => all_stand_in(a, other) && all_stand_in(b, other),
        _ => true,
    }
}

/// Whether one simple condition is below another: the first is `False`, or the second isn't and each of its
/// inequalities stands in the first.
pub fn simple_below(c: &Cond, d: &Cond) -> bool
    requires first { is_simple (condition_of c.now) ≡ true }
    requires second { is_simple (condition_of d.now) ≡ true }
    ensures rule { result ≡ simply_below (condition_of c.now) (condition_of d.now) }

    // Over all integers, where no value has a number past the last.
    ensures implication { is_near (condition_of c.now) ≡ true → is_near (condition_of d.now) ≡ true
        → (IsTrue result ↔ Implies (condition_of c.now) (condition_of d.now)) }
{
    is_false(c) || (!is_false(d) && all_stand_in(d, c))
}

/// A conjunction with one more inequality at its right end, unless it has it already.
fn with_inequality(alloc: Global, built: Cond, x: Term, y: Term) -> Result<Cond, NoMemory>
    ensures { IfOk result (λ whole. condition_of whole ≡ order.with_inequality (condition_of built) x y) }
{
    if let Cond::True = built {
        return Ok(Cond::Ne(x, y));
    }
    if stands_in(x, y, &built) {
        return Ok(built);
    }
    let left = Box::new(alloc, built)?;
    let right = Box::new(alloc, Cond::Ne(x, y))?;
    Ok(Cond::And(left, right))
}

/// A conjunction with those inequalities of another, in its order, that stand in a third.
fn joined_with(alloc: Global, built: Cond, from: &Cond, kept: &Cond) -> Result<Cond, NoMemory>
    ensures { IfOk result (λ whole. condition_of whole
        ≡ order.joined_with (condition_of built) (condition_of from.now) (condition_of kept.now)) }
{
    match from {
        Cond::Ne(x, y) => {
            if stands_in(*x, *y, kept) {
                with_inequality(alloc, built, *x, *y)
            } else {
                Ok(built)
            }
        }
        Cond::And(a, b) => {
            let left = joined_with(alloc, built, a, kept)?;
            joined_with(alloc, left, b, kept)
        }
        _ => Ok(built),
    }
}

/// The greatest simple condition below both. Its inequalities are those of the first in their order, and
/// then those of the second that the first hasn't, each once and joined to the left.
pub fn meet(alloc: Global, c: &Cond, d: &Cond) -> Result<Cond, NoMemory>
    requires first { is_simple (condition_of c.now) ≡ true }
    requires second { is_simple (condition_of d.now) ≡ true }
    ensures spelled { IfOk result (λ m. condition_of m ≡ meet_of (condition_of c.now) (condition_of d.now)) }
    ensures bound { IfOk result (λ m. IsMeet (condition_of c.now) (condition_of d.now) (condition_of m)) }
{
    if is_false(c) || is_false(d) {
        return Ok(Cond::False);
    }
    if is_true(c) {
        return d.copy(alloc);
    }
    if is_true(d) {
        return c.copy(alloc);
    }
    let built = joined_with(alloc, Cond::True, c, c)?;
    joined_with(alloc, built, d, d)
}

/// The least simple condition above both. Its inequalities are those of the first that stand in the second,
/// in the first's order, each once and joined to the left.
pub fn join(alloc: Global, c: &Cond, d: &Cond) -> Result<Cond, NoMemory>
    requires first { is_simple (condition_of c.now) ≡ true }
    requires second { is_simple (condition_of d.now) ≡ true }
    ensures spelled { IfOk result (λ m. condition_of m ≡ join_of (condition_of c.now) (condition_of d.now)) }
    ensures bound { IfOk result (λ m. IsJoin (condition_of c.now) (condition_of d.now) (condition_of m)) }
{
    if is_false(c) {
        return d.copy(alloc);
    }
    if is_false(d) {
        return c.copy(alloc);
    }
    joined_with(alloc, Cond::True, c, d)
}

/// A simple condition below any condition. `True` and `False` stay, and so does an inequality of a value of
/// the first call and one of the second. Every other comparison and each `Not` becomes `False`. Of an `And`
/// both sides are strengthened, and it is their meet. Of an `Or` it is the strengthened left side, and where
/// that is `False` the strengthened right one.
pub fn strengthen(alloc: Global, cond: &Cond) -> Result<Cond, NoMemory>
    ensures rule { IfOk result (λ c. condition_of c ≡ strengthened (condition_of cond.now)) }
    ensures simple { IfOk result (λ c. is_simple (condition_of c) ≡ true) }
    ensures below { IfOk result (λ c. IsBelow (condition_of c) (condition_of cond.now)) }
{
    match cond {
        Cond::True => Ok(Cond::True),
        Cond::Ne(x, y) => {
            if are_across(*x, *y) {
                Ok(Cond::Ne(*x, *y))
            } else {
                Ok(Cond::False)
            }
        }
        Cond::And(x, y) => {
            let left = strengthen(alloc, x)?;
            let right = strengthen(alloc, y)?;
            meet(alloc, &left, &right)
        }
        Cond::Or(x, y) => {
            let left = strengthen(alloc, x)?;
            if is_false(&left) {
                strengthen(alloc, y)
            } else {
                Ok(left)
            }
        }
        _ => Ok(Cond::False),
    }
}
