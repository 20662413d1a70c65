//! The run of a network, and the report on it.

ghost use Rattle.std.specs.Prelude.{◌≡◌, ◌≤◌, Err, IfOk, map, slice_get};
ghost use Rattle.gx_base.specs.declared.kinds.Kind.TheVariants.{Flow};
ghost use Rattle.flow_graph.specs.FlowState.{state_of};
ghost use Rattle.preflow_push.specs.Networks.{view};
ghost use Rattle.speculation.specs.Limits.{Limit};
ghost use Rattle.sessions.specs.EventViews.{turns_of};
ghost use Rattle.iterate.specs.Plays.{stop_of};
ghost use Rattle.loop_runs.specs.GateTables.{ServesGates};
ghost use Rattle.loop_runs.specs.LoopRooms.{AreValuesOf, IsLoopPlayed, gates_over};
ghost use Rattle.loop_runs.specs.LoopRuns.{IsReportOf, IsRunPast};
ghost use Rattle.loop_runs.specs.NetworkLoop.{network_loop, shard_tables};

use crate::runs::{gate_over, run_values, taken_out, with_turns};
use commit_book::Book;
use flow_graph::FlowShard;
use gx_base::{Kind, NoMemory, Table};
use iterate::{Played, Stop};
use preflow_push::{Discharge, Network, report, start};
use rooms::Value;
use run_words::RunOptions;
use std::alloc::Global;
use table_choice::AnyScreen;

/// A gate over each shard.
fn gates_of(
    alloc: Global,
    shards: Vec<FlowShard>,
    table: &Table,
) -> Result<Vec<Value<FlowShard, AnyScreen>>, NoMemory>
    requires { ServesGates Flow table.now }
    ensures { IfOk result (λ values. values.items ≡ gates_over (shard_tables table.now) (map state_of shards.items)) }
{
    let mut values = Vec::new(alloc);
    for shard in shards {
        let gate = gate_over(alloc, Kind::Flow, shard, table.copy()?)?;
        values.push(Value::Object(gate))?;
    }
    Ok(values)
}

/// The rooms of a network at the start: the gates, and then the book.
fn network_values(
    alloc: Global,
    table: &Table,
    net: &Network,
) -> Result<Vec<Value<FlowShard, AnyScreen>>, NoMemory>
    requires { ServesGates Flow table.now }
    ensures { IfOk result (λ values. AreValuesOf (shard_tables table.now) (network_loop (view net.now)) values.items) }
{
    let (shards, ready) = start(alloc, net)?;
    let mut values = gates_of(alloc, shards, table)?;
    values.push(Value::Book(Book::new(alloc, false, &ready)?))?;
    Ok(values)
}

/// Runs a network by its schedule.
pub fn run_network(
    alloc: Global,
    options: RunOptions,
    table: &Table,
    net: &Network,
) -> Result<Played<FlowShard, AnyScreen>, Stop>
    requires workers { 1 ≤ options.workers }
    requires table { ServesGates Flow table.now }
    ensures played { IfOk result (λ played. IsLoopPlayed options (shard_tables table.now) (network_loop (view net.now)) (turns_of played.trace.items) (slice_get played.values.items)) }
    ensures past { (limit : Limit) → result ≡ Err (stop_of limit) → IsRunPast options (shard_tables table.now) (network_loop (view net.now)) limit }
{
    match network_values(alloc, table, net) {
        Ok(values) => match Discharge::new(alloc, net) {
            Ok(operator) => run_values(alloc, options, &operator, values),
            Err(NoMemory) => Err(Stop::NoMemory),
        },
        Err(NoMemory) => Err(Stop::NoMemory),
    }
}

/// The report of a network's run, with the lines of its turns that are wanted.
pub fn report_network(
    alloc: Global,
    options: RunOptions,
    table: &Table,
    net: &Network,
    played: Played<FlowShard, AnyScreen>,
) -> Result<Vec<u8>, NoMemory>
    requires { IsLoopPlayed options (shard_tables table.now) (network_loop (view net.now)) (turns_of played.trace.items) (slice_get played.values.items) }
    ensures { IfOk result (λ text. IsReportOf options (shard_tables table.now) (network_loop (view net.now)) text.items) }
{
    let Played { values, trace } = played;
    let (shards, book) = taken_out(alloc, values)?;
    let lines = report(alloc, net, book.commits(), &shards)?;
    Ok(with_turns(lines, &trace, options)?)
}
