ghost use Rattle.std.specs.Prelude.{◌≡◌, ◌<◌, ℕ, Some, Err, false, length, OnOk};
ghost use Rattle.commit_book.specs.SerialRuns.{operator_of};
ghost use Rattle.speculation.specs.Limits.{Limit, limit_of_alone};
ghost use Rattle.rooms.specs.Values.{tells};
ghost use Rattle.rooms.specs.Visits.{view_of as rooms_view};
ghost use Rattle.iterate.specs.PlayedTurns.{machine_of, sessions_of, IsEmptiedAlone, MayAllTurn, TurnAnswers};
ghost use Rattle.iterate.specs.Plays.{stop_of};

use crate::sole_turns::{nothing_is_ready, take_turn};
use commit_book::Operator;
use gate_core::Screen;
use gx_base::SeqType;
use rooms::{Value, VecRooms};
use sessions::{Event, Session, Stop};

// A turn of worker 0.
#[inline(always)]
fn lone_turn<O: Operator, T: SeqType, S: Screen<T>>(
    rooms: &mut VecRooms<Value<T, S>>,
    op: &O,
    sessions: &mut [Session<O>],
) -> Result<Event, Stop>
    requires unordered { O.is_ordered op.now ≡ false }
    requires some { 0 < length sessions.old }
    requires fit { MayAllTurn (operator_of O.Operator op.now) (rooms_view tells rooms.old) (O.rest op.now) sessions.old }
    ensures turned { TurnAnswers (operator_of O.Operator op.now) (machine_of (rooms_view tells rooms.old) (sessions_of (O.rest op.now) sessions.old)) (machine_of (rooms_view tells rooms.new) (sessions_of (O.rest op.now) sessions.new)) 0 result }
    ensures fit { MayAllTurn (operator_of O.Operator op.now) (rooms_view tells rooms.new) (O.rest op.now) sessions.new }
{
    take_turn(rooms, op, sessions, 0)
}

/// Worker 0 goes on alone until no item is ready. It makes no more than 2^64 - 1 turns: after so many the answer is that of
/// want of memory.
pub fn run_alone<O: Operator, T: SeqType, S: Screen<T>>(
    rooms: &mut VecRooms<Value<T, S>>,
    op: &O,
    sessions: &mut [Session<O>],
) -> Result<(), Stop>
    requires unordered { O.is_ordered op.now ≡ false }
    requires some { 0 < length sessions.old }
    requires fit { MayAllTurn (operator_of O.Operator op.now) (rooms_view tells rooms.old) (O.rest op.now) sessions.old }
    ensures run { OnOk result (IsEmptiedAlone (operator_of O.Operator op.now) (machine_of (rooms_view tells rooms.old) (sessions_of (O.rest op.now) sessions.old)) (machine_of (rooms_view tells rooms.new) (sessions_of (O.rest op.now) sessions.new))) }
    ensures limited { (limit : Limit) → result ≡ Err (stop_of limit) → (turns : ℕ) × (limit_of_alone (operator_of O.Operator op.now) (machine_of (rooms_view tells rooms.old) (sessions_of (O.rest op.now) sessions.old)) turns ≡ Some limit) }
    ensures fit { MayAllTurn (operator_of O.Operator op.now) (rooms_view tells rooms.new) (O.rest op.now) sessions.new }
{
    for _turn in 0..u64::MAX {
        if nothing_is_ready(rooms) {
            return Ok(());
        }
        lone_turn(rooms, op, sessions)?;
    }
    Err(Stop::NoMemory)
}
