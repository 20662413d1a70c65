//! The rows of methods that use one number each, as those of cells and of flow shards.
ghost use Rattle.std.specs.Prelude.{◌≡◌, pos, IfOk};
ghost use Rattle.gx_base.specs.Conditions.{condition_of, Eq};
ghost use Rattle.gx_base.specs.declared.conditions.Side.{Side};
ghost use Rattle.gx_base.specs.declared.conditions.Term.TheVariants.{Value, Const};
ghost use Rattle.kind_tables.specs.RegisterTables.{precise_deeds, simple_deeds, reader_writer_deeds};
ghost use Rattle.kind_tables.specs.Deeds.{deed_of};

use crate::pair_conditions::{both, elsewhere, elsewhere_or};
use gx_base::{Cond, NoMemory, Side, Term};
use std::alloc::Global;

/// What a method does with a number.
#[derive(Clone, Copy, Drop)]
pub enum Deed {
    Reads,
    Adds,
    Sets,
}

/// The call on this side adds 0.
fn adds_nothing(side: Side) -> Cond
    ensures { condition_of result ≡ Eq (Value side 1) (Const (pos 0)) }
{
    Cond::Eq(Term::Value(side, 1), Term::Const(0))
}

/// The number that the first call found is the one that the call on this side writes.
fn found_as_written(side: Side) -> Cond
    ensures { condition_of result ≡ Eq (Value Side.First 4) (Value side 1) }
{
    Cond::Eq(Term::Value(Side::First, 4), Term::Value(side, 1))
}

/// The precise row of two deeds with numbers of one sort.
pub fn precise_row(alloc: Global, first: Deed, second: Deed) -> Result<Cond, NoMemory>
    ensures { IfOk result (λ cond. condition_of cond ≡ precise_deeds (deed_of first) (deed_of second)) }
{
    match (first, second) {
        (Deed::Reads, Deed::Reads) | (Deed::Adds, Deed::Adds) => Ok(Cond::True),
        (Deed::Adds, Deed::Reads | Deed::Sets) => elsewhere_or(alloc, adds_nothing(Side::First)),
        (Deed::Reads | Deed::Sets, Deed::Adds) => elsewhere_or(alloc, adds_nothing(Side::Second)),
        (Deed::Reads, Deed::Sets) => elsewhere_or(alloc, found_as_written(Side::Second)),
        (Deed::Sets, Deed::Reads) => elsewhere_or(alloc, found_as_written(Side::First)),
        (Deed::Sets, Deed::Sets) => {
            let same = Cond::Eq(Term::Value(Side::First, 1), Term::Value(Side::Second, 1));
            let test = both(alloc, same, found_as_written(Side::First))?;
            elsewhere_or(alloc, test)
        }
    }
}

/// What locks can keep of the precise row.
pub fn simple_row(first: Deed, second: Deed) -> Cond
    ensures { condition_of result ≡ simple_deeds (deed_of first) (deed_of second) }
{
    match (first, second) {
        (Deed::Reads, Deed::Reads) | (Deed::Adds, Deed::Adds) => Cond::True,
        _ => elsewhere(),
    }
}

/// The row of readers and writers.
pub fn rw_row(first: Deed, second: Deed) -> Cond
    ensures { condition_of result ≡ reader_writer_deeds (deed_of first) (deed_of second) }
{
    match (first, second) {
        (Deed::Reads, Deed::Reads) => Cond::True,
        _ => elsewhere(),
    }
}
