ghost use Rattle.std.specs.Prelude.{◌≡◌, ◌⊎◌, ◌<◌, ℕ, [], None, Some, Err, false, length, IfErr, OnOk};
ghost use Rattle.commit_book.specs.SerialRuns.{operator_of};
ghost use Rattle.speculation.specs.Limits.{Limit, limit_of_scheduled};
ghost use Rattle.speculation.specs.Premises.{ScheduledAsk};
ghost use Rattle.speculation.specs.ScheduledRuns.{AllBelow, scheduled};
ghost use Rattle.rooms.specs.Values.{tells};
ghost use Rattle.rooms.specs.Visits.{view_of as rooms_view};
ghost use Rattle.iterate.specs.PlayedTurns.{machine_of, sessions_of, run_of, MayAllTurn, IsTracedTurn, IsToldTurn, IsStoppedTurn};
ghost use Rattle.iterate.specs.Plays.{ConflictsTellRight, stop_of};
ghost use Rattle.sessions.specs.declared.events.Stop.TheVariants as stops;

use crate::sole_turns::{note, nothing_is_ready, take_turn};
use commit_book::Operator;
use gate_core::Screen;
use gx_base::SeqType;
use rooms::{Value, VecRooms};
use sessions::{Session, Stop, Turn};

// One turn of a worker, which goes to the trace.
fn traced_turn<O: Operator, T: SeqType, S: Screen<T>>(
    rooms: &mut VecRooms<Value<T, S>>,
    op: &O,
    sessions: &mut [Session<O>],
    worker: u32,
    trace: &mut Vec<Turn>,
) -> Result<(), Stop>
    requires unordered { O.is_ordered op.now ≡ false }
    requires worker { worker < length sessions.old }
    requires fit { MayAllTurn (operator_of O.Operator op.now) (rooms_view tells rooms.old) (O.rest op.now) sessions.old }
    ensures turned { OnOk result (IsTracedTurn (operator_of O.Operator op.now) (run_of (rooms_view tells rooms.old) (sessions_of (O.rest op.now) sessions.old) trace.old.items) (run_of (rooms_view tells rooms.new) (sessions_of (O.rest op.now) sessions.new) trace.new.items) worker) }
    ensures told { OnOk result (IsToldTurn (machine_of (rooms_view tells rooms.old) (sessions_of (O.rest op.now) sessions.old)) trace.old.items trace.new.items) }
    ensures stopped { IfErr result (λ stop. (stop ≡ stops.NoMemory) ⊎ IsStoppedTurn (operator_of O.Operator op.now) (machine_of (rooms_view tells rooms.old) (sessions_of (O.rest op.now) sessions.old)) worker stop) }
    ensures fit { MayAllTurn (operator_of O.Operator op.now) (rooms_view tells rooms.new) (O.rest op.now) sessions.new }
{
    let event = take_turn(rooms, op, sessions, worker)?;
    note(trace, worker, event)?;
    Ok(())
}

/// The turns of a schedule, while an item is ready.
pub fn run_schedule<O: Operator, T: SeqType, S: Screen<T>>(
    rooms: &mut VecRooms<Value<T, S>>,
    op: &O,
    sessions: &mut [Session<O>],
    schedule: &[u32],
    trace: &mut Vec<Turn>,
) -> Result<(), Stop>
    requires unordered { O.is_ordered op.now ≡ false }
    requires workers { AllBelow schedule.now (length sessions.old) }
    requires some { 0 < length sessions.old }
    requires trace { trace.old.items ≡ [] }
    requires fit { MayAllTurn (operator_of O.Operator op.now) (rooms_view tells rooms.old) (O.rest op.now) sessions.old }
    ensures run { OnOk result (run_of (rooms_view tells rooms.new) (sessions_of (O.rest op.now) sessions.new) trace.new.items ≡ scheduled (operator_of O.Operator op.now) (run_of (rooms_view tells rooms.old) (sessions_of (O.rest op.now) sessions.old) trace.old.items) schedule.now) }
    ensures unlimited { OnOk result (limit_of_scheduled (operator_of O.Operator op.now) (run_of (rooms_view tells rooms.old) (sessions_of (O.rest op.now) sessions.old) trace.old.items) schedule.now ≡ None) }
    ensures asks { OnOk result (ScheduledAsk (operator_of O.Operator op.now) (run_of (rooms_view tells rooms.old) (sessions_of (O.rest op.now) sessions.old) trace.old.items) schedule.now) }
    ensures told { OnOk result (ConflictsTellRight (operator_of O.Operator op.now) (machine_of (rooms_view tells rooms.old) (sessions_of (O.rest op.now) sessions.old)) schedule.now trace.new.items) }
    ensures limited { (limit : Limit) → result ≡ Err (stop_of limit) → limit_of_scheduled (operator_of O.Operator op.now) (run_of (rooms_view tells rooms.old) (sessions_of (O.rest op.now) sessions.old) trace.old.items) schedule.now ≡ Some limit }
    ensures fit { MayAllTurn (operator_of O.Operator op.now) (rooms_view tells rooms.new) (O.rest op.now) sessions.new }
{
    for worker in schedule {
        if nothing_is_ready(rooms) {
            return Ok(());
        }
        traced_turn(rooms, op, sessions, *worker, trace)?;
    }
    Ok(())
}
