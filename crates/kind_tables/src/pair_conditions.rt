//! The conditions of which the rows of several kinds are made.
ghost use Rattle.std.specs.Prelude.{◌≡◌, pos, IfOk};
ghost use Rattle.gx_base.specs.Conditions.{condition_of, Eq, Or, And};
ghost use Rattle.gx_base.specs.declared.conditions.Term.TheVariants.{Value, Const};
ghost use Rattle.kind_tables.specs.PairConditions.{different_numbers};

use gx_base::{Cond, NoMemory, Side, Term};
use std::alloc::Global;

/// The calls use different numbers.
pub fn elsewhere() -> Cond
    ensures { condition_of result ≡ different_numbers }
{
    Cond::Ne(Term::Value(Side::First, 0), Term::Value(Side::Second, 0))
}

/// The calls use different numbers, or pass a test.
pub fn elsewhere_or(alloc: Global, test: Cond) -> Result<Cond, NoMemory>
    ensures { IfOk result (λ cond. condition_of cond ≡ Or different_numbers (condition_of test)) }
{
    let left = Box::new(alloc, elsewhere())?;
    let right = Box::new(alloc, test)?;
    Ok(Cond::Or(left, right))
}

/// The calls pass two tests.
pub fn both(alloc: Global, left: Cond, right: Cond) -> Result<Cond, NoMemory>
    ensures { IfOk result (λ cond. condition_of cond ≡ And (condition_of left) (condition_of right)) }
{
    let left = Box::new(alloc, left)?;
    let right = Box::new(alloc, right)?;
    Ok(Cond::And(left, right))
}

/// The call on this side replied 0, so it changed nothing where a reply of 1 says that it did.
pub fn changed_nothing(side: Side) -> Cond
    ensures { condition_of result ≡ Eq (Value side 4) (Const (pos 0)) }
{
    Cond::Eq(Term::Value(side, 4), Term::Const(0))
}
