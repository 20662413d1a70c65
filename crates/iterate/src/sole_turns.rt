ghost use Rattle.std.specs.Prelude.{◌≡◌, ◌<◌, ◌++◌, ◌∷◌, [], ℕ, None, false, length, slice_get, IfOk, IfErr, OnOk};
ghost use Rattle.commit_book.specs.SerialRuns.{operator_of};
ghost use Rattle.gx_base.specs.Meanings.{IsCall};
ghost use Rattle.speculation.specs.Events.{then_turn};
ghost use Rattle.speculation.specs.ScheduledRuns.{is_empty};
ghost use Rattle.rooms.specs.RoomsViews.{is_room_held};
ghost use Rattle.rooms.specs.Values.{tells};
ghost use Rattle.rooms.specs.Visits.{AreTold, view_of as rooms_view};
ghost use Rattle.sessions.specs.EventViews.{turns_of};
ghost use Rattle.sessions.specs.Places.{IsFit, book_of};
ghost use Rattle.iterate.specs.PlayedTurns.{machine_of, sessions_of, MayAllTurn, TellsCall, TurnAnswers};
ghost use Rattle.iterate.specs.Plays.{book_in};
ghost use Rattle.sessions.specs.SessionViews.{view_of};
ghost use Rattle.sessions.specs.Turns.{event_of, HasTurned};
ghost use Rattle.sessions.specs.declared.events.Stop.TheVariants as stops;

use commit_book::Operator;
use gate_core::Screen;
use gx_base::{Call, SeqType};
use rooms::{Rooms, Value, VecRooms};
use sessions::{Event, Session, Stop, Turn};

/// Whether no item is ready.
#[inline(always)]
pub fn nothing_is_ready<T: SeqType, S: Screen<T>>(rooms: &VecRooms<Value<T, S>>) -> bool
    requires { (room : ℕ) → is_room_held (rooms_view tells rooms.now) room ≡ false }
    ensures { result ≡ is_empty (book_in ((rooms_view tells rooms.now).told (rooms_view tells rooms.now).book)).ready }
{
    match rooms.values().get(rooms.book() as usize) {
        Some(value) => has_nothing_ready(value),
        None => true,
    }
}

fn has_nothing_ready<T: SeqType, S: Screen<T>>(value: &Value<T, S>) -> bool
    ensures { result ≡ is_empty (book_of value.now).ready }
{
    match value {
        Value::Book(book) => book.is_empty(),
        Value::Object(_) => true,
    }
}

/// The trace with one more turn.
pub fn note(trace: &mut Vec<Turn>, worker: u32, event: Event) -> Result<(), Stop>
    ensures ok { OnOk result (turns_of trace.new.items ≡ then_turn (turns_of trace.old.items) worker (event_of event)) }
    ensures added { OnOk result (trace.new.items ≡ trace.old.items ++ record { number = length trace.old.items; worker = worker; event = event } ∷ []) }
    ensures err { IfErr result (λ stop. stop ≡ stops.NoMemory) }
{
    let number = trace.len() as u64;
    let turn = Turn {
        number,
        worker,
        event,
    };
    match trace.push(turn) {
        Ok(()) => Ok(()),
        Err(_) => Err(Stop::NoMemory),
    }
}

// The numbers of a call have 64 bits. For proofs: it does nothing.
fn fits(_call: Call)
    ensures { IsCall _call }
{}

// So have those of the call that a turn tells. For proofs: it does nothing.
fn tells_call(turned: &Result<Event, Stop>)
    ensures { IfOk turned.now (λ event. TellsCall (event_of event)) }
{
    match turned {
        Ok(Event::Call { call, .. }) => fits(*call),
        Ok(Event::Conflict { told, .. }) => fits(told.asked),
        _ => {}
    }
}

// A turn of one session, and what the rooms tell before and after it.
#[inline(always)]
fn turn_told<O: Operator, T: SeqType, S: Screen<T>>(
    rooms: &mut VecRooms<Value<T, S>>,
    op: &O,
    session: &mut Session<O>,
) -> Result<Event, Stop>
    requires unordered { O.is_ordered op.now ≡ false }
    requires fit { IsFit (operator_of O.Operator op.now) (rooms_view tells rooms.old) (view_of (O.rest op.now) session.old) }
    ensures turned { HasTurned (operator_of O.Operator op.now) (rooms_view tells rooms.old) (rooms_view tells rooms.new) (view_of (O.rest op.now) session.old) (view_of (O.rest op.now) session.new) result }
    ensures fit { IsFit (operator_of O.Operator op.now) (rooms_view tells rooms.new) (view_of (O.rest op.now) session.new) }
    ensures told_before { AreTold tells (rooms_view tells rooms.old) }
    ensures told_after { AreTold tells (rooms_view tells rooms.new) }
    ensures call { IfOk result (λ event. TellsCall (event_of event)) }
{
    rooms.tell();
    let result = session.turn(rooms, op);
    rooms.tell();
    tells_call(&result);
    result
}

/// One turn of a worker.
#[inline(always)]
pub fn take_turn<O: Operator, T: SeqType, S: Screen<T>>(
    rooms: &mut VecRooms<Value<T, S>>,
    op: &O,
    sessions: &mut [Session<O>],
    worker: u32,
) -> Result<Event, Stop>
    requires unordered { O.is_ordered op.now ≡ false }
    requires worker { worker < length sessions.old }
    requires fit { MayAllTurn (operator_of O.Operator op.now) (rooms_view tells rooms.old) (O.rest op.now) sessions.old }
    ensures turned { TurnAnswers (operator_of O.Operator op.now) (machine_of (rooms_view tells rooms.old) (sessions_of (O.rest op.now) sessions.old)) (machine_of (rooms_view tells rooms.new) (sessions_of (O.rest op.now) sessions.new)) worker result }
    ensures fit { MayAllTurn (operator_of O.Operator op.now) (rooms_view tells rooms.new) (O.rest op.now) sessions.new }
{
    turn_told(rooms, op, &mut sessions[worker as usize])
}
