ghost use Rattle.std.specs.Prelude.{◌≡◌, ◌<◌, ◌≤◌, ℕ, None, false, length, IfErr, OnOk};
ghost use Rattle.commit_book.specs.SerialRuns.{operator_of};
ghost use Rattle.gx_base.specs.Replays.{put};
ghost use Rattle.speculation.specs.ScheduledRuns.{drain as drained, drain_step as step_drained, drain_worker as worker_drained};
ghost use Rattle.rooms.specs.Values.{tells};
ghost use Rattle.rooms.specs.Visits.{view_of as rooms_view};
ghost use Rattle.iterate.specs.PlayedTurns.{sessions_of, run_of, MayAllTurn, AddsNoConflict, with_undo};
ghost use Rattle.sessions.specs.SessionViews.{left_off, with_left_off};
ghost use Rattle.sessions.specs.EventViews.{turns_of};
ghost use Rattle.sessions.specs.Turns.{event_of};
ghost use Rattle.sessions.specs.declared.events.Stop.TheVariants as stops;

use crate::sole_turns::{note, take_turn};
use commit_book::Operator;
use gate_core::Screen;
use gx_base::SeqType;
use rooms::{Value, VecRooms};
use sessions::{Event, Session, Stop, Turn};

// The trace with one more turn, where that is an undo.
fn note_undo(trace: &mut Vec<Turn>, worker: u32, event: Event) -> Result<(), Stop>
    ensures ok { OnOk result (turns_of trace.new.items ≡ with_undo (turns_of trace.old.items) worker (event_of event)) }
    ensures told { OnOk result (AddsNoConflict trace.old.items trace.new.items) }
    ensures err { IfErr result (λ stop. stop ≡ stops.NoMemory) }
{
    match event {
        Event::Undo { .. } => note(trace, worker, event),
        _ => Ok(()),
    }
}

// An iteration that has left off takes back its last call. With the only one, or where there is none left, it is over.
fn drain_step<O: Operator, T: SeqType, S: Screen<T>>(
    rooms: &mut VecRooms<Value<T, S>>,
    op: &O,
    sessions: &mut [Session<O>],
    worker: u32,
    trace: &mut Vec<Turn>,
) -> Result<(), Stop>
    requires unordered { O.is_ordered op.now ≡ false }
    requires worker { worker < length sessions.old }
    requires left_off { let phase = (sessions_of (O.rest op.now) sessions.old worker).phase in left_off phase ≡ phase }
    requires fit { MayAllTurn (operator_of O.Operator op.now) (rooms_view tells rooms.old) (O.rest op.now) sessions.old }
    ensures run { OnOk result (run_of (rooms_view tells rooms.new) (sessions_of (O.rest op.now) sessions.new) trace.new.items ≡ step_drained (run_of (rooms_view tells rooms.old) (sessions_of (O.rest op.now) sessions.old) trace.old.items) worker) }
    ensures told { OnOk result (AddsNoConflict trace.old.items trace.new.items) }
    ensures left_off { OnOk result (let phase = (sessions_of (O.rest op.now) sessions.new worker).phase in left_off phase ≡ phase) }
    ensures err { IfErr result (λ stop. stop ≡ stops.NoMemory) }
    ensures fit { MayAllTurn (operator_of O.Operator op.now) (rooms_view tells rooms.new) (O.rest op.now) sessions.new }
{
    if sessions[worker as usize].is_idle() {
        return Ok(());
    }
    let event = take_turn(rooms, op, sessions, worker)?;
    note_undo(trace, worker, event)
}

// The worker's iteration, if it isn't over, has to take back its calls, whose number is the answer.
fn leave_off<O: Operator, T: SeqType, S: Screen<T>>(
    _rooms: &VecRooms<Value<T, S>>,
    _op: &O,
    sessions: &mut [Session<O>],
    worker: u32,
) -> usize
    requires worker { worker < length sessions.old }
    requires fit { MayAllTurn (operator_of O.Operator _op.now) (rooms_view tells _rooms.now) (O.rest _op.now) sessions.old }
    ensures sessions { sessions_of (O.rest _op.now) sessions.new ≡ put (sessions_of (O.rest _op.now) sessions.old) worker (with_left_off (sessions_of (O.rest _op.now) sessions.old worker)) }
    ensures count { result ≡ length (sessions_of (O.rest _op.now) sessions.old worker).outcome.steps }
    ensures fit { MayAllTurn (operator_of O.Operator _op.now) (rooms_view tells _rooms.now) (O.rest _op.now) sessions.new }
{
    sessions[worker as usize].leave_off()
}

// The worker's iteration, if it isn't over, takes back its calls, the last one first, and its item is put back.
fn drain_worker<O: Operator, T: SeqType, S: Screen<T>>(
    rooms: &mut VecRooms<Value<T, S>>,
    op: &O,
    sessions: &mut [Session<O>],
    worker: u32,
    trace: &mut Vec<Turn>,
) -> Result<(), Stop>
    requires unordered { O.is_ordered op.now ≡ false }
    requires worker { worker < length sessions.old }
    requires fit { MayAllTurn (operator_of O.Operator op.now) (rooms_view tells rooms.old) (O.rest op.now) sessions.old }
    ensures run { OnOk result (run_of (rooms_view tells rooms.new) (sessions_of (O.rest op.now) sessions.new) trace.new.items ≡ worker_drained (run_of (rooms_view tells rooms.old) (sessions_of (O.rest op.now) sessions.old) trace.old.items) worker) }
    ensures told { OnOk result (AddsNoConflict trace.old.items trace.new.items) }
    ensures err { IfErr result (λ stop. stop ≡ stops.NoMemory) }
    ensures fit { MayAllTurn (operator_of O.Operator op.now) (rooms_view tells rooms.new) (O.rest op.now) sessions.new }
{
    let count = leave_off(rooms, op, sessions, worker);
    for _done in 0..count {
        drain_step(rooms, op, sessions, worker, trace)?;
    }
    drain_step(rooms, op, sessions, worker, trace)
}

// After the iterations of so many workers that of the next one takes back its calls.
fn drain_next<O: Operator, T: SeqType, S: Screen<T>>(
    rooms: &mut VecRooms<Value<T, S>>,
    op: &O,
    sessions: &mut [Session<O>],
    done: u32,
    _workers: u32,
    trace: &mut Vec<Turn>,
) -> Result<(), Stop>
    requires unordered { O.is_ordered op.now ≡ false }
    requires more { done < _workers }
    requires workers { _workers ≤ length sessions.old }
    requires fit { MayAllTurn (operator_of O.Operator op.now) (rooms_view tells rooms.old) (O.rest op.now) sessions.old }
    ensures run { OnOk result (run_of (rooms_view tells rooms.new) (sessions_of (O.rest op.now) sessions.new) trace.new.items ≡ worker_drained (run_of (rooms_view tells rooms.old) (sessions_of (O.rest op.now) sessions.old) trace.old.items) done) }
    ensures told { OnOk result (AddsNoConflict trace.old.items trace.new.items) }
    ensures err { IfErr result (λ stop. stop ≡ stops.NoMemory) }
    ensures fit { MayAllTurn (operator_of O.Operator op.now) (rooms_view tells rooms.new) (O.rest op.now) sessions.new }
{
    drain_worker(rooms, op, sessions, done, trace)
}

// By rising worker, each of the first workers' iterations that isn't over takes back its calls, the last one first, and its item is put back.
fn drain_first<O: Operator, T: SeqType, S: Screen<T>>(
    rooms: &mut VecRooms<Value<T, S>>,
    op: &O,
    sessions: &mut [Session<O>],
    workers: u32,
    trace: &mut Vec<Turn>,
) -> Result<(), Stop>
    requires unordered { O.is_ordered op.now ≡ false }
    requires workers { workers ≤ length sessions.old }
    requires fit { MayAllTurn (operator_of O.Operator op.now) (rooms_view tells rooms.old) (O.rest op.now) sessions.old }
    ensures run { OnOk result (run_of (rooms_view tells rooms.new) (sessions_of (O.rest op.now) sessions.new) trace.new.items ≡ drained (run_of (rooms_view tells rooms.old) (sessions_of (O.rest op.now) sessions.old) trace.old.items) workers) }
    ensures told { OnOk result (AddsNoConflict trace.old.items trace.new.items) }
    ensures err { IfErr result (λ stop. stop ≡ stops.NoMemory) }
    ensures fit { MayAllTurn (operator_of O.Operator op.now) (rooms_view tells rooms.new) (O.rest op.now) sessions.new }
{
    for worker in 0..workers {
        drain_next(rooms, op, sessions, worker, workers, trace)?;
    }
    Ok(())
}

/// By rising worker, each iteration that isn't over takes back its calls, the last one first, and its item is put back.
pub fn drain<O: Operator, T: SeqType, S: Screen<T>>(
    rooms: &mut VecRooms<Value<T, S>>,
    op: &O,
    sessions: &mut [Session<O>],
    workers: u32,
    trace: &mut Vec<Turn>,
) -> Result<(), Stop>
    requires unordered { O.is_ordered op.now ≡ false }
    requires workers { workers ≡ length sessions.old }
    requires fit { MayAllTurn (operator_of O.Operator op.now) (rooms_view tells rooms.old) (O.rest op.now) sessions.old }
    ensures run { OnOk result (run_of (rooms_view tells rooms.new) (sessions_of (O.rest op.now) sessions.new) trace.new.items ≡ drained (run_of (rooms_view tells rooms.old) (sessions_of (O.rest op.now) sessions.old) trace.old.items) workers) }
    ensures told { OnOk result (AddsNoConflict trace.old.items trace.new.items) }
    ensures err { IfErr result (λ stop. stop ≡ stops.NoMemory) }
    ensures fit { MayAllTurn (operator_of O.Operator op.now) (rooms_view tells rooms.new) (O.rest op.now) sessions.new }
{
    drain_first(rooms, op, sessions, workers, trace)
}
