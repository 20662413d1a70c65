ghost use Rattle.std.specs.Prelude.{◌≡◌, ◌⊎◌, ◌<◌, ◌≤◌, ℕ, [], false, length, slice_get, Some, IfOk, IfErr, OnOk, Err};
ghost use Rattle.commit_book.specs.SerialRuns.{operator_of};
ghost use Rattle.speculation.specs.Limits.{Limit};
ghost use Rattle.speculation.specs.ScheduledRuns.{AllBelow};
ghost use Rattle.rooms.specs.RoomsViews.{is_room_held};
ghost use Rattle.rooms.specs.Values.{tells};
ghost use Rattle.rooms.specs.Visits.{AreTold, view_of};
ghost use Rattle.rooms.specs.declared.values.Value.{Value};
ghost use Rattle.sessions.specs.EventViews.{turns_of};
ghost use Rattle.iterate.specs.PlayedTurns.{machine_of, sessions_of, run_of, AreBegun, IsLawfulValue, IsPlayedRun, MayAllTurn};
ghost use Rattle.iterate.specs.Plays.{AreNewFor, ConflictsTellRight, IsPlayed, PassesFirst, begun_machine, stop_of};
ghost use Rattle.sessions.specs.declared.events.Stop.TheVariants as stops;

use crate::draining::drain;
use crate::lone::run_alone;
use crate::scheduling::run_schedule;
use commit_book::Operator;
use gate_core::Screen;
use gx_base::SeqType;
use rooms::{Value, VecRooms};
use sessions::{Session, Stop, Turn};
use speculation::laws::runs_are_serial;
use std::alloc::Global;

/// How a whole run ended.
#[derive(Drop)]
pub struct Played<T: SeqType, S: Screen<T>> {
    /// The gates of the rooms, and then the book.
    pub values: Vec<Value<T, S>>,
    /// The scheduled turns, and then those in which calls were taken back before one worker went on alone.
    pub trace: Vec<Turn>,
}

// The sessions of the first workers, before their first turns.
fn begin_sessions<O: Operator>(
    alloc: Global,
    _op: &O,
    workers: u32,
) -> Result<Vec<Session<O>>, Stop>
    ensures begun { IfOk result (λ sessions. AreBegun (O.rest _op.now) sessions.items) }
    ensures count { IfOk result (λ sessions. length sessions.items ≡ workers) }
    ensures err { IfErr result (λ stop. stop ≡ stops.NoMemory) }
{
    let mut sessions = Vec::new(alloc);
    for worker in 0..workers {
        let session = Session::new(alloc, worker);
        match sessions.push(session) {
            Ok(()) => {}
            Err(_) => return Err(Stop::NoMemory),
        }
    }
    Ok(sessions)
}

// What holds of gates and books. For proofs: it does nothing.
fn know_values<T: SeqType, S: Screen<T>>(values: &[Value<T, S>])
    ensures { (room : ℕ) (value : Value T S) → slice_get values.now room ≡ Some value → IsLawfulValue value }
{
    for value in values {
        know_value(value);
    }
}

fn know_value<T: SeqType, S: Screen<T>>(value: &Value<T, S>)
    ensures { IsLawfulValue value.now }
{
    match value {
        Value::Object(gate) => {
            let _ = gate.mark();
        }
        Value::Book(book) => {
            let _ = book.commits();
        }
    }
}

// A whole run of so many sessions.
fn play_on<O: Operator, T: SeqType, S: Screen<T>>(
    rooms: &mut VecRooms<Value<T, S>>,
    op: &O,
    sessions: &mut [Session<O>],
    workers: u32,
    schedule: &[u32],
    trace: &mut Vec<Turn>,
) -> Result<(), Stop>
    requires unordered { O.is_ordered op.now ≡ false }
    requires workers { workers ≡ length sessions.old }
    requires some { 0 < length sessions.old }
    requires schedule { AllBelow schedule.now (length sessions.old) }
    requires trace { trace.old.items ≡ [] }
    requires fit { MayAllTurn (operator_of O.Operator op.now) (view_of tells rooms.old) (O.rest op.now) sessions.old }
    ensures run { OnOk result (IsPlayedRun (operator_of O.Operator op.now) (machine_of (view_of tells rooms.old) (sessions_of (O.rest op.now) sessions.old)) workers schedule.now (run_of (view_of tells rooms.new) (sessions_of (O.rest op.now) sessions.new) trace.new.items)) }
    ensures tells_right { OnOk result (ConflictsTellRight (operator_of O.Operator op.now) (machine_of (view_of tells rooms.old) (sessions_of (O.rest op.now) sessions.old)) schedule.now trace.new.items) }
    ensures stopped { (limit : Limit) → result ≡ Err (stop_of limit) → PassesFirst (operator_of O.Operator op.now) (machine_of (view_of tells rooms.old) (sessions_of (O.rest op.now) sessions.old)) workers schedule.now limit }
    ensures free { OnOk result ((room : ℕ) → is_room_held (view_of tells rooms.new) room ≡ false) }
    ensures told { OnOk result (AreTold tells (view_of tells rooms.new)) }
    ensures book { OnOk result ((view_of tells rooms.new).book ≡ O.room_count op.now) }
{
    run_schedule(rooms, op, sessions, schedule, trace)?;
    drain(rooms, op, sessions, workers, trace)?;
    run_alone(rooms, op, sessions)?;
    rooms.tell();
    Ok(())
}

/// A whole run: turn k is that of the worker which the schedule has at k. Then each iteration that is left takes its calls
/// back, by rising worker, and worker 0 goes on alone until no item is ready.
pub fn play<O: Operator, T: SeqType, S: Screen<T>>(
    alloc: Global,
    rooms: VecRooms<Value<T, S>>,
    op: &O,
    workers: u32,
    schedule: &[u32],
) -> Result<Played<T, S>, Stop>
    requires unordered { O.is_ordered op.now ≡ false }
    requires free { (room : ℕ) → is_room_held (view_of tells rooms) room ≡ false }
    requires new { AreNewFor (operator_of O.Operator op.now) (view_of tells rooms).told }
    requires workers { 1 ≤ workers }
    requires schedule { AllBelow schedule.now workers }
    ensures played { IfOk result (λ played. IsPlayed (operator_of O.Operator op.now) (begun_machine (O.room_count op.now) (view_of tells rooms).told) workers schedule.now (turns_of played.trace.items) (slice_get played.values.items)) }
    ensures told { IfOk result (λ played. ConflictsTellRight (operator_of O.Operator op.now) (begun_machine (O.room_count op.now) (view_of tells rooms).told) schedule.now played.trace.items) }
    ensures stopped { (limit : Limit) → result ≡ Err (stop_of limit) → PassesFirst (operator_of O.Operator op.now) (begun_machine (O.room_count op.now) (view_of tells rooms).told) workers schedule.now limit }
    ensures limited { (limit : Limit) → PassesFirst (operator_of O.Operator op.now) (begun_machine (O.room_count op.now) (view_of tells rooms).told) workers schedule.now limit → (result ≡ Err (stop_of limit)) ⊎ (result ≡ Err stops.NoMemory) }
{
    rooms.tell();
    know_values(rooms.values());
    let mut rooms = rooms;
    let mut sessions = begin_sessions(alloc, op, workers)?;
    let mut trace = Vec::new(alloc);
    runs_are_serial();
    match play_on(&mut rooms, op, &mut sessions, workers, schedule, &mut trace) {
        Ok(()) => Ok(Played {
            values: rooms.into_values(),
            trace,
        }),
        Err(stop) => Err(stop),
    }
}
