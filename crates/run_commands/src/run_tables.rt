//! The tables of the gates of a run.

ghost use Rattle.std.specs.Prelude.{◌≡◌, ◌≢◌, true, IsTrue, IfOk, IfErr, OnOk, option_map};
ghost use Rattle.gx_base.specs.declared.kinds.Choice.{Choice};
ghost use Rattle.gx_base.specs.Kinds.{kind_number};
ghost use Rattle.gx_base.specs.Methods.{is_method};
ghost use Rattle.gx_base.specs.ShippedTables.{rows_chosen};
ghost use Rattle.gx_base.specs.TableRows.{row_of};
ghost use Rattle.cond_lattice.specs.declared.grades.Grade.TheVariants.{General};
ghost use Rattle.cond_lattice.specs.Grades.{table_grade};
ghost use Rattle.run_commands.specs.RunFaults.{FaultsWhere};
ghost use Rattle.loop_runs.specs.GateTables.{ServesGates};
ghost use Rattle.run_commands.specs.RunTables.{GainsRows, IsWholeTable, TellsTable, IsRunTable, IsBadTable};
ghost use Rattle.run_commands.specs.declared.run_faults.RunFault.TheVariants as faults;
ghost use Rattle.run_commands.specs.declared.run_faults.TableFault.{TableFault};

use crate::run_faults::RunFault;
use gx_base::{Choice, Kind, NoMemory, SeqType, Table, method_at};
use std::alloc::Global;
use table_choice::table_of_run;

/// The table of a kind's gates in a run: that of a user's conditions, where there are some, and else the shipped one.
pub(crate) fn run_table<T: SeqType>(
    alloc: Global,
    kind: Kind,
    choice: Choice,
    conditions: Option<&[u8]>,
) -> Result<Table, RunFault>
    requires held { IsTrue (T.holds_kind kind) }
    requires scanned { (shipped : Choice) → table_grade (kind_number kind) (rows_chosen (T.tables kind) shipped) ≢ General }
    ensures table { IfOk result (IsRunTable kind (T.tables kind) choice (option_map (λ conditions. conditions.now) conditions.entry)) }
    ensures serves { IfOk result (ServesGates kind) }
    ensures bad_table { (why : TableFault) → FaultsWhere (IsBadTable kind (T.tables kind) (option_map (λ conditions. conditions.now) conditions.entry) why) (faults.BadTable why) result }
    ensures no_others { IfErr result TellsTable }
{
    match table_of_run::<T>(alloc, kind, choice, conditions) {
        Ok(rows) => Ok(whole_table(alloc, kind, &rows)?),
        Err(refused) => Err(RunFault::from(refused)),
    }
}

/// A table that has the rows of another one for a kind's pairs of methods, and no others.
pub(crate) fn whole_table(alloc: Global, kind: Kind, rows: &Table) -> Result<Table, NoMemory>
    ensures { IfOk result (IsWholeTable (kind_number kind) (row_of rows.now)) }
{
    let mut table = Table::blank(alloc);
    let mut place = 0;
    'firsts: while let Some(first) = method_at(kind, place) {
        put_rows(alloc, &mut table, kind, rows, first)?;
        place += 1;
    }
    Ok(table)
}

/// Puts the rows of a kind's pairs with this method first.
fn put_rows(
    alloc: Global,
    table: &mut Table,
    kind: Kind,
    rows: &Table,
    first: u32,
) -> Result<(), NoMemory>
    requires { is_method (kind_number kind) first ≡ true }
    ensures { OnOk result (GainsRows (kind_number kind) (row_of rows.now) first table.old table.new) }
{
    let mut place = 0;
    'seconds: while let Some(second) = method_at(kind, place) {
        table.put(first, second, rows.row(first, second).copy(alloc)?)?;
        place += 1;
    }
    Ok(())
}
