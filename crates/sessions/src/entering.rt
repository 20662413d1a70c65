ghost use Rattle.std.specs.Prelude.{◌≡◌, ◌<◌, true, false, IfSome, IfNone};
ghost use Rattle.rooms.specs.RoomsViews.{is_room_held, entered, left};
ghost use Rattle.rooms.specs.HandedOut.{IsHandedOut, IsLost, MayHaveMark};
ghost use Rattle.rooms.specs.Values.{tells};
ghost use Rattle.sessions.specs.Places.{gate_of, IsGateValue};
ghost use Rattle.sessions.specs.Visits.{MayLeaveGate, MayLeaveBook};
ghost use Rattle.rooms.specs.declared.values.Value.TheVariants as values;

use commit_book::Book;
use gate_core::{Gate, Screen};
use gx_base::{Room, SeqType};
use rooms::{Rooms, Value};

/// The gate of a room, unless another caller holds the room.
#[inline(always)]
pub fn enter_gate<R: Rooms<Value<T, S>>, T: SeqType, S: Screen<T>>(
    rooms: &mut R,
    room: Room,
) -> Option<Gate<T, S>>
    requires in_range { room < (R.view rooms.old).book }
    requires free { is_room_held (R.view rooms.old) room ≡ false }
    ensures gate { IfSome result (λ gate. IsHandedOut tells (R.view rooms.old) room (values.Object gate)) }
    ensures some { IfSome result (λ gate. R.view rooms.new ≡ entered tells (R.view rooms.old) room (values.Object gate)) }
    ensures none { IfNone result (IsLost (R.view rooms.old) (R.view rooms.new) room) }
    ensures loan { R.loan rooms.new ≡ R.loan rooms.old }
{
    match rooms.try_enter(room) {
        Some(Value::Object(gate)) => Some(gate),
        Some(Value::Book(_)) => None,
        None => None,
    }
}

/// Puts a gate in its room.
#[inline(always)]
pub fn leave_gate<R: Rooms<Value<T, S>>, T: SeqType, S: Screen<T>>(
    rooms: &mut R,
    room: Room,
    gate: Gate<T, S>,
)
    requires { MayLeaveGate (R.view rooms.old) room gate.mark }
    ensures view { R.view rooms.new ≡ left tells (R.view rooms.old) room (values.Object gate) }
    ensures loan { R.loan rooms.new ≡ R.loan rooms.old }
{
    rooms.leave(room, Value::Object(gate));
}

/// The value of a gate's room, unless another caller holds the room. The gate stays in it, since what is taken out is moved.
#[inline(always)]
pub fn enter_value<R: Rooms<Value<T, S>>, T: SeqType, S: Screen<T>>(
    rooms: &mut R,
    room: Room,
) -> Option<Value<T, S>>
    requires in_range { room < (R.view rooms.old).book }
    requires free { is_room_held (R.view rooms.old) room ≡ false }
    ensures is_gate { IfSome result IsGateValue }
    ensures gate { IfSome result (λ value. IsHandedOut tells (R.view rooms.old) room value) }
    ensures some { IfSome result (λ value. R.view rooms.new ≡ entered tells (R.view rooms.old) room value) }
    ensures none { IfNone result (IsLost (R.view rooms.old) (R.view rooms.new) room) }
    ensures loan { R.loan rooms.new ≡ R.loan rooms.old }
{
    rooms.try_enter(room)
}

/// Puts a gate's value in its room.
#[inline(always)]
pub fn leave_value<R: Rooms<Value<T, S>>, T: SeqType, S: Screen<T>>(
    rooms: &mut R,
    room: Room,
    value: Value<T, S>,
)
    requires gate { IsGateValue value }
    requires in_range { room < (R.view rooms.old).book }
    requires held { is_room_held (R.view rooms.old) room ≡ true }
    requires mark { MayHaveMark (R.view rooms.old) room (gate_of value).mark }
    ensures view { R.view rooms.new ≡ left tells (R.view rooms.old) room value }
    ensures loan { R.loan rooms.new ≡ R.loan rooms.old }
{
    rooms.leave(room, value);
}

fn book_room<R: Rooms<Value<T, S>>, T: SeqType, S: Screen<T>>(rooms: &R) -> Room
    ensures { result ≡ (R.view rooms.now).book }
{
    rooms.book()
}

/// The book, unless another caller holds its room.
#[inline(always)]
pub fn enter_book<R: Rooms<Value<T, S>>, T: SeqType, S: Screen<T>>(rooms: &mut R) -> Option<Book>
    requires free { is_room_held (R.view rooms.old) (R.view rooms.old).book ≡ false }
    ensures book { IfSome result (λ book. IsHandedOut tells (R.view rooms.old) (R.view rooms.old).book (values.Book book)) }
    ensures some { IfSome result (λ book. R.view rooms.new ≡ entered tells (R.view rooms.old) (R.view rooms.old).book (values.Book book)) }
    ensures none { IfNone result (IsLost (R.view rooms.old) (R.view rooms.new) (R.view rooms.old).book) }
    ensures loan { R.loan rooms.new ≡ R.loan rooms.old }
{
    let room = book_room(rooms);
    match rooms.try_enter(room) {
        Some(Value::Book(book)) => Some(book),
        Some(Value::Object(_)) => None,
        None => None,
    }
}

/// Puts the book in its room.
#[inline(always)]
pub fn leave_book<R: Rooms<Value<T, S>>, T: SeqType, S: Screen<T>>(rooms: &mut R, book: Book)
    requires { MayLeaveBook (R.view rooms.old) book }
    ensures view { R.view rooms.new ≡ left tells (R.view rooms.old) (R.view rooms.old).book (values.Book book) }
    ensures loan { R.loan rooms.new ≡ R.loan rooms.old }
{
    let home = book_room(rooms);
    rooms.leave(home, Value::Book(book));
}
