//! The tables of conditions that a set ships.
ghost use Rattle.std.specs.Prelude.{◌≡◌, ℕ, IfOk};
ghost use Rattle.gx_base.specs.Conditions.{condition_of};
ghost use Rattle.gx_base.specs.ShippedTables.{rows_chosen};
ghost use Rattle.gx_base.specs.TableRows.{row_of};
ghost use Rattle.shared_sets.specs.SetMethods.{deed_in};
ghost use Rattle.shared_sets.specs.SetTables.{set_tables, precise_set, simple_set};

use crate::set_methods::{FIRST_METHOD, METHODS_END, SetDeed, deed_of};
use gx_base::{Choice, Cond, NoMemory, Side, Table};
use kind_tables::pair_conditions::{both, changed_nothing, elsewhere, elsewhere_or};
use std::alloc::Global;

/// The precise row of two deeds.
fn precise_row(alloc: Global, first: SetDeed, second: SetDeed) -> Result<Cond, NoMemory>
    ensures { IfOk result (λ cond. condition_of cond ≡ precise_set (deed_in first) (deed_in second)) }
{
    match (first, second) {
        (SetDeed::Contains, SetDeed::Contains) => Ok(Cond::True),
        (SetDeed::Add, SetDeed::Remove) | (SetDeed::Remove, SetDeed::Add) => Ok(elsewhere()),
        (SetDeed::Add, SetDeed::Add) | (SetDeed::Remove, SetDeed::Remove) => {
            let first = changed_nothing(Side::First);
            let test = both(alloc, first, changed_nothing(Side::Second))?;
            elsewhere_or(alloc, test)
        }
        (_, SetDeed::Contains) => elsewhere_or(alloc, changed_nothing(Side::First)),
        (SetDeed::Contains, _) => elsewhere_or(alloc, changed_nothing(Side::Second)),
    }
}

/// What locks can keep of the precise row. Readers and writers keep the same.
fn simple_row(first: SetDeed, second: SetDeed) -> Cond
    ensures { condition_of result ≡ simple_set (deed_in first) (deed_in second) }
{
    match (first, second) {
        (SetDeed::Contains, SetDeed::Contains) => Cond::True,
        _ => elsewhere(),
    }
}

/// The row of two methods in the table of a choice.
fn row(alloc: Global, choice: Choice, first: u32, second: u32) -> Result<Cond, NoMemory>
    ensures { IfOk result (λ cond. condition_of cond ≡ rows_chosen set_tables choice first second) }
{
    match (deed_of(first), deed_of(second)) {
        (Some(first), Some(second)) => match choice {
            Choice::Precise => precise_row(alloc, first, second),
            Choice::Simple | Choice::Rw => Ok(simple_row(first, second)),
            Choice::Global => Ok(Cond::False),
        },
        _ => Ok(Cond::False),
    }
}

/// The shipped table of sets.
pub(crate) fn set_table(alloc: Global, choice: Choice) -> Result<Table, NoMemory>
    ensures { IfOk result (λ table. (first second : ℕ) → row_of table first second ≡ rows_chosen set_tables choice first second) }
{
    let mut table = Table::blank(alloc);
    for first in FIRST_METHOD..METHODS_END {
        for second in FIRST_METHOD..METHODS_END {
            let cond = row(alloc, choice, first, second)?;
            table.put(first, second, cond)?;
        }
    }
    Ok(table)
}
