//! The command `flow`: from the bytes of a flow file to those of the report on its run.

ghost use Rattle.std.specs.Prelude.{◌≡◌, ◌≤◌, ℕ, Err, IfOk, IfErr, option_map};
ghost use Rattle.gx_base.specs.declared.inputs.What.{What};
ghost use Rattle.gx_base.specs.declared.inputs.InputFault.TheVariants.{Line, Large};
ghost use Rattle.gx_base.specs.declared.kinds.Kind.TheVariants.{Flow};
ghost use Rattle.preflow_push.specs.FlowLimits.{CallsFor};
ghost use Rattle.preflow_push.specs.Networks.{view};
ghost use Rattle.speculation.specs.Limits.{Limit};
ghost use Rattle.run_commands.specs.Inputs.{inputs_in};
ghost use Rattle.run_commands.specs.LoopCommands.{AreAccepted, UnderTables, IsReportOn, IsPastOn};
ghost use Rattle.loop_runs.specs.LoopRuns.{IsReportOf, IsRunPast};
ghost use Rattle.run_commands.specs.RunFaults.{FaultAnswers, FaultsWhere, fault_of_limit};
ghost use Rattle.loop_runs.specs.GateTables.{ServesGates};
ghost use Rattle.run_commands.specs.RunTables.{IsRunTable, IsBadTable, TellsTable};
ghost use Rattle.loop_runs.specs.NetworkLoop.{network_loop, shard_tables};
ghost use Rattle.run_commands.specs.commands.Flow.{flow_command, flow_meaning};
ghost use Rattle.kind_tables.specs.TablesOfKinds.{tables_of};
ghost use Rattle.run_commands.specs.declared.run_faults.TableFault.{TableFault};
ghost use Rattle.run_commands.specs.declared.run_faults.RunFault.TheVariants as faults;

use crate::inputs::InputFiles;
use crate::run_faults::RunFault;
use crate::run_tables::run_table;
use flow_graph::FlowShard;
use gx_base::{Choice, Kind, Table};
use kind_tables::laws::only_precise_domains_are_general;
use loop_runs::{report_network, run_network};
use preflow_push::{Network, read_max};
use run_words::RunOptions;
use std::alloc::Global;

/// The report of `flow` on the inputs.
pub fn report_flow(
    alloc: Global,
    options: RunOptions,
    inputs: &InputFiles,
) -> Result<Vec<u8>, RunFault>
    requires { 1 ≤ options.workers }
    ensures { FaultAnswers (flow_meaning options) (inputs_in inputs.now) result }
{
    flow_text(alloc, options, inputs.conditions(), inputs.main())
}

/// The table of the gates of a run.
fn flow_table(alloc: Global, choice: Choice, conditions: Option<&[u8]>) -> Result<Table, RunFault>
    ensures table { IfOk result (IsRunTable Flow (tables_of Flow) choice (option_map (λ conditions. conditions.now) conditions.entry)) }
    ensures serves { IfOk result (ServesGates Flow) }
    ensures bad_table { (why : TableFault) → FaultsWhere (IsBadTable Flow (tables_of Flow) (option_map (λ conditions. conditions.now) conditions.entry) why) (faults.BadTable why) result }
    ensures no_others { IfErr result TellsTable }
{
    only_precise_domains_are_general();
    run_table::<FlowShard>(alloc, Kind::Flow, choice, conditions)
}

/// The report on the network of a flow file, under the table of the run.
fn flow_text(
    alloc: Global,
    options: RunOptions,
    conditions: Option<&[u8]>,
    bytes: &[u8],
) -> Result<Vec<u8>, RunFault>
    requires { 1 ≤ options.workers }
    ensures reported { IfOk result (λ text. UnderTables flow_command options.table (option_map (λ conditions. conditions.now) conditions.entry) (λ tables. IsReportOn flow_command options tables bytes.now text.items)) }
    ensures bad_table { (why : TableFault) → FaultsWhere (IsBadTable Flow (tables_of Flow) (option_map (λ conditions. conditions.now) conditions.entry) why) (faults.BadTable why) result }
    ensures malformed { (line : ℕ) → result ≡ Err (faults.BadInput line) → AreAccepted flow_command (option_map (λ conditions. conditions.now) conditions.entry) × CallsFor bytes.now (Err (Line line)) }
    ensures too_large { (what : What) → result ≡ Err (faults.TooLarge what) → AreAccepted flow_command (option_map (λ conditions. conditions.now) conditions.entry) × CallsFor bytes.now (Err (Large what)) }
    ensures past { (limit : Limit) → result ≡ Err (fault_of_limit limit) → UnderTables flow_command options.table (option_map (λ conditions. conditions.now) conditions.entry) (λ tables. IsPastOn flow_command options tables bytes.now limit) }
{
    match flow_table(alloc, options.table, conditions) {
        Ok(table) => file_text(alloc, options, &table, bytes),
        Err(fault) => Err(fault),
    }
}

/// The report on the network of a flow file.
fn file_text(
    alloc: Global,
    options: RunOptions,
    table: &Table,
    bytes: &[u8],
) -> Result<Vec<u8>, RunFault>
    requires workers { 1 ≤ options.workers }
    requires table { ServesGates Flow table.now }
    ensures reported { IfOk result (λ text. IsReportOn flow_command options (shard_tables table.now) bytes.now text.items) }
    ensures malformed { (line : ℕ) → result ≡ Err (faults.BadInput line) → CallsFor bytes.now (Err (Line line)) }
    ensures too_large { (what : What) → result ≡ Err (faults.TooLarge what) → CallsFor bytes.now (Err (Large what)) }
    ensures past { (limit : Limit) → result ≡ Err (fault_of_limit limit) → IsPastOn flow_command options (shard_tables table.now) bytes.now limit }
    ensures accepted { (why : TableFault) → result ≡ Err (faults.BadTable why) → ⊥ }
{
    match read_max(alloc, bytes) {
        Ok(net) => network_text(alloc, options, table, &net),
        Err(refused) => Err(RunFault::from(refused)),
    }
}

/// The report on a network.
fn network_text(
    alloc: Global,
    options: RunOptions,
    table: &Table,
    net: &Network,
) -> Result<Vec<u8>, RunFault>
    requires workers { 1 ≤ options.workers }
    requires table { ServesGates Flow table.now }
    ensures reported { IfOk result (λ text. IsReportOf options (shard_tables table.now) (network_loop (view net.now)) text.items) }
    ensures past { (limit : Limit) → result ≡ Err (fault_of_limit limit) → IsRunPast options (shard_tables table.now) (network_loop (view net.now)) limit }
    ensures well_formed { (line : ℕ) → result ≡ Err (faults.BadInput line) → ⊥ }
    ensures small { (what : What) → result ≡ Err (faults.TooLarge what) → ⊥ }
    ensures accepted { (why : TableFault) → result ≡ Err (faults.BadTable why) → ⊥ }
{
    match run_network(alloc, options, table, net) {
        Ok(played) => Ok(report_network(alloc, options, table, net, played)?),
        Err(stop) => Err(RunFault::from(stop)),
    }
}
