//! The tables of conditions that a flow shard ships.
ghost use Rattle.std.specs.Prelude.{◌≡◌, ℕ, IfOk};
ghost use Rattle.gx_base.specs.Conditions.{condition_of};
ghost use Rattle.gx_base.specs.ShippedTables.{rows_chosen};
ghost use Rattle.gx_base.specs.TableRows.{row_of};
ghost use Rattle.kind_tables.specs.FlowTables.{flow_tables};

use crate::uses::{FIRST_METHOD, METHODS_END, use_of};
use gx_base::{Choice, Cond, NoMemory, Table};
use kind_tables::register_rows::{precise_row, rw_row, simple_row};
use std::alloc::Global;

/// The row of two methods in the table of a choice.
fn row(alloc: Global, choice: Choice, first: u32, second: u32) -> Result<Cond, NoMemory>
    ensures { IfOk result (λ cond. condition_of cond ≡ rows_chosen flow_tables choice first second) }
{
    match (use_of(first), use_of(second)) {
        (Some((one, first)), Some((other, second))) => {
            let together = one.sort() == other.sort();
            match choice {
                Choice::Precise if together => precise_row(alloc, first, second),
                Choice::Simple if together => Ok(simple_row(first, second)),
                Choice::Rw if together => Ok(rw_row(first, second)),
                Choice::Global => Ok(Cond::False),
                _ => Ok(Cond::True),
            }
        }
        _ => Ok(Cond::False),
    }
}

/// The shipped table of flow shards.
pub(crate) fn flow_table(alloc: Global, choice: Choice) -> Result<Table, NoMemory>
    ensures { IfOk result (λ table. (first second : ℕ) → row_of table first second ≡ rows_chosen flow_tables choice first second) }
{
    let mut table = Table::blank(alloc);
    for first in FIRST_METHOD..METHODS_END {
        for second in FIRST_METHOD..METHODS_END {
            let cond = row(alloc, choice, first, second)?;
            table.put(first, second, cond)?;
        }
    }
    Ok(table)
}
