//! The run of the points of a file, and the report on it.

ghost use Rattle.std.specs.Prelude.{◌≡◌, ◌≤◌, Err, IfOk, map, slice_get};
ghost use Rattle.gx_base.specs.declared.kinds.Kind.TheVariants.{Points, Cells};
ghost use Rattle.clustering.specs.CloudState.{state_of};
ghost use Rattle.speculation.specs.Limits.{Limit};
ghost use Rattle.sessions.specs.EventViews.{turns_of};
ghost use Rattle.iterate.specs.Plays.{stop_of};
ghost use Rattle.loop_runs.specs.GateTables.{ServesGates};
ghost use Rattle.loop_runs.specs.LoopRooms.{AreValuesOf, IsLoopPlayed, gates_over};
ghost use Rattle.loop_runs.specs.LoopRuns.{IsReportOf, IsRunPast, new_gate};
ghost use Rattle.loop_runs.specs.PointsLoop.{AreOfFile, cluster_loop, tables_in};

use crate::runs::{gate_over, run_values, taken_out, with_turns};
use clustering::{Chain, Cloud, report, start};
use commit_book::Book;
use gate_core::Gate;
use gx_base::{Kind, NoMemory, Spot, Table};
use iterate::{Played, Stop};
use rooms::Value;
use run_words::RunOptions;
use std::alloc::Global;
use table_choice::AnyScreen;

/// The tables of the gates, which are over points and over cells.
#[derive(Drop)]
pub struct CloudTables {
    pub points: Table,
    pub cells: Table,
}

/// A gate over what a room has.
fn cloud_gate(
    alloc: Global,
    cloud: Cloud,
    tables: &CloudTables,
) -> Result<Gate<Cloud, AnyScreen>, NoMemory>
    requires points { ServesGates Points tables.now.points }
    requires cells { ServesGates Cells tables.now.cells }
    ensures { IfOk result (λ gate. gate ≡ new_gate (tables_in tables.now) (state_of cloud)) }
{
    match cloud {
        Cloud::Points(points) => gate_over(
            alloc,
            Kind::Points,
            Cloud::Points(points),
            tables.points.copy()?,
        ),
        Cloud::Weights(cells) => gate_over(
            alloc,
            Kind::Cells,
            Cloud::Weights(cells),
            tables.cells.copy()?,
        ),
    }
}

/// A gate over what each room has.
fn gates_of(
    alloc: Global,
    clouds: Vec<Cloud>,
    tables: &CloudTables,
) -> Result<Vec<Value<Cloud, AnyScreen>>, NoMemory>
    requires points { ServesGates Points tables.now.points }
    requires cells { ServesGates Cells tables.now.cells }
    ensures { IfOk result (λ values. values.items ≡ gates_over (tables_in tables.now) (map state_of clouds.items)) }
{
    let mut values = Vec::new(alloc);
    for cloud in clouds {
        let gate = cloud_gate(alloc, cloud, tables)?;
        values.push(Value::Object(gate))?;
    }
    Ok(values)
}

/// The rooms of some points at the start: the gates, and then the book.
fn cloud_values(
    alloc: Global,
    tables: &CloudTables,
    spots: &[Spot],
) -> Result<Vec<Value<Cloud, AnyScreen>>, NoMemory>
    requires points { ServesGates Points tables.now.points }
    requires cells { ServesGates Cells tables.now.cells }
    ensures { IfOk result (λ values. AreValuesOf (tables_in tables.now) (cluster_loop spots.now) values.items) }
{
    let (clouds, ready) = start(alloc, spots)?;
    let mut values = gates_of(alloc, clouds, tables)?;
    values.push(Value::Book(Book::new(alloc, false, &ready)?))?;
    Ok(values)
}

/// Runs the work on some points by its schedule.
pub fn run_points(
    alloc: Global,
    options: RunOptions,
    tables: &CloudTables,
    spots: &[Spot],
) -> Result<Played<Cloud, AnyScreen>, Stop>
    requires workers { 1 ≤ options.workers }
    requires points { ServesGates Points tables.now.points }
    requires cells { ServesGates Cells tables.now.cells }
    requires of_file { AreOfFile spots.now }
    ensures played { IfOk result (λ played. IsLoopPlayed options (tables_in tables.now) (cluster_loop spots.now) (turns_of played.trace.items) (slice_get played.values.items)) }
    ensures past { (limit : Limit) → result ≡ Err (stop_of limit) → IsRunPast options (tables_in tables.now) (cluster_loop spots.now) limit }
{
    match cloud_values(alloc, tables, spots) {
        Ok(values) => {
            let chain = Chain::new(spots.len() as u64);
            run_values(alloc, options, &chain, values)
        }
        Err(NoMemory) => Err(Stop::NoMemory),
    }
}

/// The report of the points' run, with the lines of its turns that are wanted.
pub fn report_points(
    alloc: Global,
    options: RunOptions,
    tables: &CloudTables,
    spots: &[Spot],
    played: Played<Cloud, AnyScreen>,
) -> Result<Vec<u8>, NoMemory>
    requires of_file { AreOfFile spots.now }
    requires played { IsLoopPlayed options (tables_in tables.now) (cluster_loop spots.now) (turns_of played.trace.items) (slice_get played.values.items) }
    ensures { IfOk result (λ text. IsReportOf options (tables_in tables.now) (cluster_loop spots.now) text.items) }
{
    let Played { values, trace } = played;
    let (clouds, book) = taken_out(alloc, values)?;
    let lines = report(alloc, spots, book.commits(), &clouds)?;
    Ok(with_turns(lines, &trace, options)?)
}
