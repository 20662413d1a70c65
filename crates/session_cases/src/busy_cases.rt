//! What one session does where the rooms that it needs are held, and tell no values, over cells: each event worked by
//! hand from what a turn does in each state.

ghost use Rattle.std.specs.Prelude.{◌≡◌, false, IfOk};
ghost use Rattle.commit_book.specs.SerialRuns.{operator_of};
ghost use Rattle.sessions.specs.Places.{IsFit};
ghost use Rattle.sessions.specs.SessionViews.{view_of as session_view};
ghost use Rattle.rooms.specs.Values.{tells};
ghost use Rattle.rooms.specs.Visits.{view_of};
ghost use Rattle.session_cases.specs.Beginnings.{IsBegunGate, MayBeginHere};
ghost use Rattle.session_cases.specs.LostTakes.{lossy_view};

use crate::lossy_rooms::LossyRooms;
use crate::scripts::Scripts;
use commit_book::{Book, Operator};
use gate_core::laws::shipped_tables_serve_gates;
use gate_core::{Gate, ScanScreen, Screen};
use gx_base::{Act, Call, Choice, Item, Kind, NoMemory, SeqType};
use iterate::{Event, Session, Stop};
use rooms::{Rooms, Value, VecRooms};
use shared_sets::laws::shipped_tables_are_not_general;
use shared_sets::{Cells, cells_methods};
use std::alloc::Global;
use std::test::Fail;

/// What a turn is to answer. A call with its key and its reply, the others with their room.
#[derive(Clone, Copy, Drop)]
enum Want {
    Take(i64),
    Call(u32, i64, i64),
    Conflict(u32),
    Undo(u32, i64),
    Commit(u64),
    Idle,
    Busy,
}

fn is_wanted(answer: Result<Event, Stop>, want: Want) -> bool {
    match (answer, want) {
        (Ok(Event::Take { item }), Want::Take(first)) => item.k0 == first,
        (Ok(Event::Call { room, call, reply }), Want::Call(place, key, value)) => {
            room == place && call.a == key && reply.p == value
        }
        (Ok(Event::Conflict { room, told }), Want::Conflict(place)) => {
            room == place && told.held.worker == 9
        }
        (Ok(Event::Undo { room, call }), Want::Undo(place, key)) => room == place && call.a == key,
        (Ok(Event::Commit { number }), Want::Commit(count)) => number == count,
        (Ok(Event::Idle), Want::Idle) => true,
        (Ok(Event::Busy), Want::Busy) => true,
        _ => false,
    }
}

fn call(room: u32, method: u32, key: i64, number: i64) -> Act {
    Act::Call {
        room,
        call: Call::new(method, key, number, 0, 0),
    }
}

/// The bodies: each begins at the place that its item says.
fn scripts(alloc: Global) -> Result<Scripts, NoMemory>
    ensures { IfOk result (λ op. op.rooms ≡ 2) }
{
    let add = cells_methods::ADD;
    let read = cells_methods::READ;
    let acts = vec![in alloc;
        // 0: two rooms, and a push
        call(0, add, 1, 5),
        call(1, add, 2, 7),
        Act::Push(Item::new(4, 0, 0, 0)),
        Act::Done,
        // 4: what the first has left
        call(1, read, 2, 0),
        Act::Done,
        // 6: the third call is in conflict with worker 9's
        call(0, add, 1, 5),
        call(0, add, 6, 2),
        call(1, read, 3, 0),
        Act::Done,
        // 10: so is the first one here
        call(1, read, 3, 0),
        Act::Done,
        // 12: no call at all
        Act::Done
    ]?;
    Ok(Scripts::new(2, acts))
}

fn cells_gate(alloc: Global) -> Result<Gate<Cells, ScanScreen>, NoMemory>
    ensures { IfOk result (λ gate. IsBegunGate gate) }
{
    let table = Cells::shipped(alloc, Kind::Cells, Choice::Precise)?;
    shipped_tables_serve_gates::<Cells>();
    shipped_tables_are_not_general();
    let object = Cells::new(alloc);
    Ok(Gate::new(alloc, object, Kind::Cells, table, ScanScreen::new()))
}

/// With an uncommitted call of worker 9 on the cell 3.
fn blocked_gate(alloc: Global) -> Result<Gate<Cells, ScanScreen>, NoMemory>
    ensures { IfOk result (λ gate. IsBegunGate gate) }
{
    let mut gate = cells_gate(alloc)?;
    let set = Call::new(cells_methods::SET, 3, 8, 0, 0);
    match gate.call(9, 0, Item::new(0, 0, 0, 0), set) {
        Ok(_) => Ok(gate),
        Err(_) => Err(NoMemory),
    }
}

/// Two gates, the second of which is blocked, and the book, in which an item is ready.
fn three_rooms(alloc: Global, first: i64) -> Result<VecRooms<Value<Cells, ScanScreen>>, NoMemory>
    ensures { IfOk result (λ rooms. MayBeginHere (view_of tells rooms)) }
{
    let free = cells_gate(alloc)?;
    let blocked = blocked_gate(alloc)?;
    let book = Book::new(alloc, false, &[Item::new(first, 0, 0, 0)])?;
    let values = vec![in alloc;
        Value::Object(free),
        Value::Object(blocked),
        Value::Book(book),
    ]?;
    Ok(VecRooms::new(alloc, values))
}

/// The takes are lost that the list says, the first of it first.
fn lossy_rooms(
    alloc: Global,
    first: i64,
    lost: &[bool],
) -> Result<LossyRooms<Value<Cells, ScanScreen>>, NoMemory>
    ensures { IfOk result (λ lossy. MayBeginHere (lossy_view tells lossy.rooms lossy.lost.items)) }
{
    let rooms = three_rooms(alloc, first)?;
    LossyRooms::new(alloc, rooms, from_the_last(alloc, lost)?)
}

fn from_the_last(alloc: Global, lost: &[bool]) -> Result<Vec<bool>, NoMemory> {
    let mut losses = Vec::new(alloc);
    for place in (0..lost.len()).rev() {
        losses.push(lost[place])?;
    }
    Ok(losses)
}

/// Whether the turns of a session answer so.
fn answers_so<O: Operator, R: Rooms<Value<T, S>>, T: SeqType, S: Screen<T>>(
    op: &O,
    rooms: &mut R,
    session: &mut Session<O>,
    wants: &[Want],
) -> bool
    requires unordered { O.is_ordered op.now ≡ false }
    requires fit { IsFit (operator_of O.Operator op.now) (R.view rooms.old) (session_view (O.rest op.now) session.old) }
{
    for want in wants {
        if !is_wanted(session.turn(rooms, op), *want) {
            return false;
        }
    }
    true
}

/// Whether the turns of worker 0 answer so.
fn goes_so(alloc: Global, first: i64, lost: &[bool], wants: &[Want]) -> Result<bool, NoMemory> {
    let op = scripts(alloc)?;
    let mut rooms = lossy_rooms(alloc, first, lost)?;
    let mut session: Session<Scripts> = Session::new(alloc, 0);
    Ok(answers_so(&op, &mut rooms, &mut session, wants))
}

const FREE: bool = false;

const HELD: bool = true;

#[test]
fn no_room_is_held(rt: HostRuntime) -> Result<(), Fail> {
    let wants = [
        Want::Take(0),
        Want::Call(0, 1, 0),
        Want::Call(1, 2, 0),
        Want::Commit(0),
        Want::Take(4),
        Want::Call(1, 2, 7),
        Want::Commit(1),
        Want::Idle,
    ];
    assert!(rt; goes_so(rt.alloc(), 0, &[], &wants)?);
    Ok(())
}

#[test]
fn busy_at_a_take(rt: HostRuntime) -> Result<(), Fail> {
    let wants = [Want::Busy, Want::Busy, Want::Take(0), Want::Call(0, 1, 0)];
    assert!(rt; goes_so(rt.alloc(), 0, &[HELD, HELD], &wants)?);
    Ok(())
}

#[test]
fn busy_at_a_call(rt: HostRuntime) -> Result<(), Fail> {
    let lost = [FREE, HELD, FREE, HELD, HELD];
    let wants = [
        Want::Take(0),
        Want::Busy,
        Want::Call(0, 1, 0),
        Want::Busy,
        Want::Busy,
        Want::Call(1, 2, 0),
        Want::Commit(0),
        Want::Take(4),
        Want::Call(1, 2, 7),
    ];
    assert!(rt; goes_so(rt.alloc(), 0, &lost, &wants)?);
    Ok(())
}

/// The book is held, and then each of the two rooms in which the commit is to be released.
#[test]
fn busy_at_a_commit(rt: HostRuntime) -> Result<(), Fail> {
    let lost = [
        FREE, FREE, FREE, HELD, FREE, HELD, HELD, FREE, HELD, FREE, FREE, FREE,
    ];
    let wants = [
        Want::Take(0),
        Want::Call(0, 1, 0),
        Want::Call(1, 2, 0),
        Want::Busy,
        Want::Busy,
        Want::Busy,
        Want::Busy,
        Want::Commit(0),
        Want::Take(4),
        Want::Call(1, 2, 7),
        Want::Commit(1),
        Want::Idle,
    ];
    assert!(rt; goes_so(rt.alloc(), 0, &lost, &wants)?);
    Ok(())
}

/// With the last of its calls to be undone, the book is entered first.
#[test]
fn busy_at_an_undo(rt: HostRuntime) -> Result<(), Fail> {
    let lost = [
        FREE, FREE, FREE, FREE, HELD, FREE, HELD, FREE, HELD, FREE, FREE, FREE,
    ];
    let wants = [
        Want::Take(6),
        Want::Call(0, 1, 0),
        Want::Call(0, 6, 0),
        Want::Conflict(1),
        Want::Busy,
        Want::Undo(0, 6),
        Want::Busy,
        Want::Busy,
        Want::Undo(0, 1),
        Want::Take(6),
        Want::Call(0, 1, 0),
    ];
    assert!(rt; goes_so(rt.alloc(), 6, &lost, &wants)?);
    Ok(())
}

/// An item that is to be put back after a conflict at the first call is put back in the same turn, or, where the book is
/// held, in the first turn that finds it free.
#[test]
fn put_back_late(rt: HostRuntime) -> Result<(), Fail> {
    let at_once = [
        Want::Take(10),
        Want::Conflict(1),
        Want::Take(10),
        Want::Conflict(1),
    ];
    assert!(rt; goes_so(rt.alloc(), 10, &[], &at_once)?);
    let lost = [FREE, FREE, HELD, HELD, FREE, FREE];
    let late = [
        Want::Take(10),
        Want::Conflict(1),
        Want::Busy,
        Want::Idle,
        Want::Take(10),
        Want::Conflict(1),
    ];
    assert!(rt; goes_so(rt.alloc(), 10, &lost, &late)?);
    Ok(())
}

/// A body without calls commits where the book is free.
#[test]
fn busy_at_a_commit_without_calls(rt: HostRuntime) -> Result<(), Fail> {
    let wants = [Want::Take(12), Want::Busy, Want::Commit(0), Want::Idle];
    assert!(rt; goes_so(rt.alloc(), 12, &[FREE, HELD, FREE, FREE], &wants)?);
    Ok(())
}
