//! The command `cluster`: from the bytes of a file of points to those of the report on its run.

ghost use Rattle.std.specs.Prelude.{◌≡◌, ◌≤◌, ℕ, Err, IfOk, option_map};
ghost use Rattle.gx_base.specs.declared.inputs.What.{What};
ghost use Rattle.gx_base.specs.declared.inputs.InputFault.TheVariants.{Line, Large};
ghost use Rattle.gx_base.specs.declared.kinds.Kind.TheVariants.{Points, Cells};
ghost use Rattle.clustering.specs.PointFiles.{CallsFor};
ghost use Rattle.speculation.specs.Limits.{Limit};
ghost use Rattle.run_commands.specs.Inputs.{inputs_in};
ghost use Rattle.run_commands.specs.LoopCommands.{AreAccepted, UnderTables, IsReportOn, IsPastOn};
ghost use Rattle.loop_runs.specs.LoopRuns.{IsReportOf, IsRunPast};
ghost use Rattle.run_commands.specs.RunFaults.{FaultAnswers, FaultsWhere, fault_of_limit};
ghost use Rattle.loop_runs.specs.GateTables.{ServesGates};
ghost use Rattle.loop_runs.specs.PointsLoop.{AreOfFile, cluster_loop, tables_in};
ghost use Rattle.run_commands.specs.commands.Cluster.{AreBadConditions, cluster_command, cluster_meaning};
ghost use Rattle.run_commands.specs.declared.run_faults.TableFault.{TableFault};
ghost use Rattle.run_commands.specs.declared.run_faults.RunFault.TheVariants as faults;

use crate::cloud_tables::cloud_tables;
use crate::inputs::InputFiles;
use crate::run_faults::RunFault;
use clustering::read_points;
use gx_base::Spot;
use loop_runs::{CloudTables, report_points, run_points};
use run_words::RunOptions;
use std::alloc::Global;

/// The report of `cluster` on the inputs.
pub fn report_cluster(
    alloc: Global,
    options: RunOptions,
    inputs: &InputFiles,
) -> Result<Vec<u8>, RunFault>
    requires { 1 ≤ options.workers }
    ensures { FaultAnswers (cluster_meaning options) (inputs_in inputs.now) result }
{
    cluster_text(alloc, options, inputs.conditions(), inputs.main())
}

/// The report on the points of a file, under the tables of the run.
fn cluster_text(
    alloc: Global,
    options: RunOptions,
    conditions: Option<&[u8]>,
    bytes: &[u8],
) -> Result<Vec<u8>, RunFault>
    requires { 1 ≤ options.workers }
    ensures reported { IfOk result (λ text. UnderTables cluster_command options.table (option_map (λ conditions. conditions.now) conditions.entry) (λ tables. IsReportOn cluster_command options tables bytes.now text.items)) }
    ensures bad_table { (why : TableFault) → FaultsWhere (AreBadConditions (option_map (λ conditions. conditions.now) conditions.entry) why) (faults.BadTable why) result }
    ensures malformed { (line : ℕ) → result ≡ Err (faults.BadInput line) → AreAccepted cluster_command (option_map (λ conditions. conditions.now) conditions.entry) × CallsFor bytes.now (Err (Line line)) }
    ensures too_large { (what : What) → result ≡ Err (faults.TooLarge what) → AreAccepted cluster_command (option_map (λ conditions. conditions.now) conditions.entry) × CallsFor bytes.now (Err (Large what)) }
    ensures past { (limit : Limit) → result ≡ Err (fault_of_limit limit) → UnderTables cluster_command options.table (option_map (λ conditions. conditions.now) conditions.entry) (λ tables. IsPastOn cluster_command options tables bytes.now limit) }
{
    match cloud_tables(alloc, options.table, conditions) {
        Ok(tables) => file_text(alloc, options, &tables, bytes),
        Err(fault) => Err(fault),
    }
}

/// The report on the points of a file.
fn file_text(
    alloc: Global,
    options: RunOptions,
    tables: &CloudTables,
    bytes: &[u8],
) -> Result<Vec<u8>, RunFault>
    requires workers { 1 ≤ options.workers }
    requires points { ServesGates Points tables.now.points }
    requires cells { ServesGates Cells tables.now.cells }
    ensures reported { IfOk result (λ text. IsReportOn cluster_command options (tables_in tables.now) bytes.now text.items) }
    ensures malformed { (line : ℕ) → result ≡ Err (faults.BadInput line) → CallsFor bytes.now (Err (Line line)) }
    ensures too_large { (what : What) → result ≡ Err (faults.TooLarge what) → CallsFor bytes.now (Err (Large what)) }
    ensures past { (limit : Limit) → result ≡ Err (fault_of_limit limit) → IsPastOn cluster_command options (tables_in tables.now) bytes.now limit }
    ensures accepted { (why : TableFault) → result ≡ Err (faults.BadTable why) → ⊥ }
{
    match read_points(alloc, bytes) {
        Ok(spots) => points_text(alloc, options, tables, &spots),
        Err(refused) => Err(RunFault::from(refused)),
    }
}

/// The report on some points.
fn points_text(
    alloc: Global,
    options: RunOptions,
    tables: &CloudTables,
    spots: &[Spot],
) -> Result<Vec<u8>, RunFault>
    requires workers { 1 ≤ options.workers }
    requires points { ServesGates Points tables.now.points }
    requires cells { ServesGates Cells tables.now.cells }
    requires of_file { AreOfFile spots.now }
    ensures reported { IfOk result (λ text. IsReportOf options (tables_in tables.now) (cluster_loop spots.now) text.items) }
    ensures past { (limit : Limit) → result ≡ Err (fault_of_limit limit) → IsRunPast options (tables_in tables.now) (cluster_loop spots.now) limit }
    ensures well_formed { (line : ℕ) → result ≡ Err (faults.BadInput line) → ⊥ }
    ensures small { (what : What) → result ≡ Err (faults.TooLarge what) → ⊥ }
    ensures accepted { (why : TableFault) → result ≡ Err (faults.BadTable why) → ⊥ }
{
    match run_points(alloc, options, tables, spots) {
        Ok(played) => Ok(report_points(alloc, options, tables, spots, played)?),
        Err(stop) => Err(RunFault::from(stop)),
    }
}
