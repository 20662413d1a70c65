//! The tables of the gates of a clustering.

ghost use Rattle.std.specs.Prelude.{◌≡◌, ◌⊎◌, None, Some, IfOk, IfErr, option_map};
ghost use Rattle.gx_base.specs.declared.kinds.Choice.TheVariants.{Precise};
ghost use Rattle.gx_base.specs.declared.kinds.Kind.{Kind};
ghost use Rattle.gx_base.specs.declared.kinds.Kind.TheVariants.{Points, Cells};
ghost use Rattle.kd_points.specs.PointTables.{point_tables};
ghost use Rattle.shared_sets.specs.CellsTables.{cells_tables};
ghost use Rattle.run_commands.specs.RunFaults.{FaultsWhere, fault_of_conditions};
ghost use Rattle.loop_runs.specs.GateTables.{ServesGates};
ghost use Rattle.run_commands.specs.RunTables.{IsBadTable, IsRunTable, TellsTable};
ghost use Rattle.run_commands.specs.commands.Cluster.{AreBadConditions, AreChosen, AreRunTables, IsTextOf, IsBadText};
ghost use Rattle.run_commands.specs.declared.run_faults.TableFault.{TableFault};
ghost use Rattle.run_commands.specs.declared.run_faults.RunFault.TheVariants as faults;

use crate::run_faults::{RunFault, TableFault};
use crate::run_tables::run_table;
use clustering::Cloud;
use cond_syntax::laws::read_tables_are_of_wanted_kinds;
use cond_text::{TextFault, read_table};
use gx_base::{Choice, Kind, Table};
use loop_runs::CloudTables;
use std::alloc::Global;

/// Whatever is wrong with the text of conditions, its line is told.
fn bad_text(fault: TextFault) -> RunFault
    ensures { result ≡ fault_of_conditions fault }
{
    match fault {
        TextFault::Syntax { line }
        | TextFault::UnknownMethod { line }
        | TextFault::UnknownName { line }
        | TextFault::Twice { line }
        | TextFault::TooDeep { line } => RunFault::BadTable {
            why: TableFault::Line(line),
        },
        TextFault::NoMemory => RunFault::NoMemory,
    }
}

/// The kind that conditions are for.
fn kind_of(alloc: Global, conditions: &[u8]) -> Result<Kind, RunFault>
    ensures kind { IfOk result (IsTextOf conditions.now) }
    ensures wanted { IfOk result (λ kind. (kind ≡ Points) ⊎ (kind ≡ Cells)) }
    ensures bad_table { (why : TableFault) → FaultsWhere (IsBadText conditions.now why) (faults.BadTable why) result }
    ensures no_others { IfErr result TellsTable }
{
    read_tables_are_of_wanted_kinds();
    match read_table(alloc, conditions, &[Kind::Points, Kind::Cells]) {
        Ok((kind, _)) => Ok(kind),
        Err(fault) => Err(bad_text(fault)),
    }
}

fn points_table(alloc: Global, choice: Choice, conditions: Option<&[u8]>) -> Result<Table, RunFault>
    ensures table { IfOk result (IsRunTable Points point_tables choice (option_map (λ conditions. conditions.now) conditions.entry)) }
    ensures serves { IfOk result (ServesGates Points) }
    ensures bad_table { (why : TableFault) → FaultsWhere (IsBadTable Points point_tables (option_map (λ conditions. conditions.now) conditions.entry) why) (faults.BadTable why) result }
    ensures no_others { IfErr result TellsTable }
{
    run_table::<Cloud>(alloc, Kind::Points, choice, conditions)
}

fn cells_table(alloc: Global, choice: Choice, conditions: Option<&[u8]>) -> Result<Table, RunFault>
    ensures table { IfOk result (IsRunTable Cells cells_tables choice (option_map (λ conditions. conditions.now) conditions.entry)) }
    ensures serves { IfOk result (ServesGates Cells) }
    ensures bad_table { (why : TableFault) → FaultsWhere (IsBadTable Cells cells_tables (option_map (λ conditions. conditions.now) conditions.entry) why) (faults.BadTable why) result }
    ensures no_others { IfErr result TellsTable }
{
    run_table::<Cloud>(alloc, Kind::Cells, choice, conditions)
}

/// The tables of both kinds, of which one may have a user's own.
fn tables_of(
    alloc: Global,
    choice: Choice,
    for_points: Option<&[u8]>,
    for_cells: Option<&[u8]>,
) -> Result<CloudTables, RunFault>
    requires { (option_map (λ conditions. conditions.now) for_points ≡ None) ⊎ (option_map (λ conditions. conditions.now) for_cells ≡ None) }
    ensures tables { IfOk result (λ tables. AreRunTables choice (option_map (λ conditions. conditions.now) for_points.entry) (option_map (λ conditions. conditions.now) for_cells.entry) tables.points tables.cells) }
    ensures points { IfOk result (λ tables. ServesGates Points tables.points) }
    ensures cells { IfOk result (λ tables. ServesGates Cells tables.cells) }
    ensures bad_table { (why : TableFault) → FaultsWhere (IsBadTable Points point_tables (option_map (λ conditions. conditions.now) for_points.entry) why ⊎ IsBadTable Cells cells_tables (option_map (λ conditions. conditions.now) for_cells.entry) why) (faults.BadTable why) result }
    ensures no_others { IfErr result TellsTable }
{
    match points_table(alloc, choice, for_points) {
        Ok(points) => match cells_table(alloc, choice, for_cells) {
            Ok(cells) => Ok(CloudTables { points, cells }),
            Err(fault) => Err(fault),
        },
        Err(fault) => Err(fault),
    }
}

/// The tables with a user's conditions, which are for one of the kinds.
fn own_tables(alloc: Global, conditions: &[u8]) -> Result<CloudTables, RunFault>
    ensures tables { IfOk result (λ tables. AreChosen Precise (Some conditions.now) tables.points tables.cells) }
    ensures points { IfOk result (λ tables. ServesGates Points tables.points) }
    ensures cells { IfOk result (λ tables. ServesGates Cells tables.cells) }
    ensures bad_table { (why : TableFault) → FaultsWhere (AreBadConditions (Some conditions.now) why) (faults.BadTable why) result }
    ensures no_others { IfErr result TellsTable }
{
    match kind_of(alloc, conditions) {
        Ok(kind) => match kind {
            Kind::Points => tables_of(alloc, Choice::Precise, Some(conditions), None),
            _ => tables_of(alloc, Choice::Precise, None, Some(conditions)),
        },
        Err(fault) => Err(fault),
    }
}

/// The tables of the gates of a run: shipped ones, but for the kind of a user's conditions, where there are some.
pub(crate) fn cloud_tables(
    alloc: Global,
    choice: Choice,
    conditions: Option<&[u8]>,
) -> Result<CloudTables, RunFault>
    ensures tables { IfOk result (λ tables. AreChosen choice (option_map (λ conditions. conditions.now) conditions.entry) tables.points tables.cells) }
    ensures points { IfOk result (λ tables. ServesGates Points tables.points) }
    ensures cells { IfOk result (λ tables. ServesGates Cells tables.cells) }
    ensures bad_table { (why : TableFault) → FaultsWhere (AreBadConditions (option_map (λ conditions. conditions.now) conditions.entry) why) (faults.BadTable why) result }
    ensures no_others { IfErr result TellsTable }
{
    match conditions {
        None => tables_of(alloc, choice, None, None),
        Some(conditions) => own_tables(alloc, conditions),
    }
}
