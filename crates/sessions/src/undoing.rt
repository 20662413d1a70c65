ghost use Rattle.std.specs.Prelude.{◌≡◌, ◌<◌, [], true, false, length, ◌≢◌, Option, Some, None, Ok, Err};
ghost use Rattle.commit_book.specs.BookViews.{BookView, put_back};
ghost use Rattle.commit_book.specs.SerialRuns.{operator_of};
ghost use Rattle.gate_core.specs.Views.{GateView, undo_last};
ghost use Rattle.rooms.specs.HandedOut.{IsLost};
ghost use Rattle.rooms.specs.RoomsViews.{is_room_held};
ghost use Rattle.speculation.specs.Sessions.{last_step, steps_before, has_no_step};
ghost use Rattle.gate_core.specs.declared.refusals.Told.{Told};
ghost use Rattle.sessions.specs.Answers.{event_in};
ghost use Rattle.sessions.specs.Places.{IsFit};
ghost use Rattle.sessions.specs.SessionViews.{core_of, view_of};
ghost use Rattle.sessions.specs.Turns.{TakesTurn};
ghost use Rattle.sessions.specs.Visits.{WasVisited, BookWasVisited, GaveUp};
ghost use Rattle.sessions.specs.declared.session.Phase.TheVariants as phases;

use crate::answers::Brief;
use crate::entering::{enter_book, enter_gate, leave_book, leave_gate};
use crate::events::Stop;
use crate::session::{Phase, Session};
use commit_book::Operator;
use gate_core::Screen;
use gx_base::{Room, SeqType, Step};
use rooms::{Rooms, Value};

/// Takes back the last call of an iteration in a room, unless another caller holds that. Whether it did.
fn undo_in<R: Rooms<Value<T, S>>, T: SeqType, S: Screen<T>>(
    rooms: &mut R,
    room: Room,
    worker: u32,
    iter: u64,
) -> bool
    requires in_range { room < (R.view rooms.old).book }
    requires free { is_room_held (R.view rooms.old) room ≡ false }
    ensures visited { result ≡ true → (was : GateView) × WasVisited (R.view rooms.old) (R.view rooms.new) room was (undo_last was worker iter) }
    ensures lost { result ≡ false → IsLost (R.view rooms.old) (R.view rooms.new) room }
    ensures loan { R.loan rooms.new ≡ R.loan rooms.old }
{
    match enter_gate(rooms, room) {
        None => false,
        Some(mut gate) => {
            let _ = gate.undo_last(worker, iter);
            leave_gate(rooms, room, gate);
            true
        }
    }
}

/// The last step of a log.
fn last_of(log: &[Step]) -> Option<Step>
    ensures { result ≡ last_step log.now }
{
    let count = log.len();
    if count == 0 {
        return None;
    }
    Some(log[count - 1])
}

/// Whether a log has no step.
pub(crate) fn has_no_step(log: &[Step]) -> bool
    ensures { result ≡ has_no_step log.now }
{
    log.is_empty()
}

/// Takes the last step out of a log.
fn drop_last(log: &mut Vec<Step>)
    ensures { log.new.items ≡ steps_before log.old.items }
{
    let _ = log.pop();
}

impl<O: Operator> Session<O> {
    // The iteration is over.
    pub(crate) fn end(&mut self)
        ensures core { core_of self.new ≡ record (core_of self.old) { log = []; pushes = [] } }
        ensures phase { self.new.phase ≡ phases.Idle }
    {
        self.log.clear();
        self.pushes.clear();
        self.phase = Phase::Idle;
    }

    // An iteration with no calls is over and its item put back, unless another caller holds the book. Whether it is.
    fn put_back<R: Rooms<Value<T, S>>, T: SeqType, S: Screen<T>>(&mut self, rooms: &mut R) -> bool
        requires { is_room_held (R.view rooms.old) (R.view rooms.old).book ≡ false }
        ensures visited { result ≡ true → (was : BookView) × BookWasVisited (R.view rooms.old) (R.view rooms.new) was (put_back was self.old.worker self.old.iter) }
        ensures over { result ≡ true → (core_of self.new ≡ record (core_of self.old) { log = []; pushes = [] }) × (self.new.phase ≡ phases.Idle) }
        ensures lost { result ≡ false → IsLost (R.view rooms.old) (R.view rooms.new) (R.view rooms.old).book × (core_of self.new ≡ core_of self.old) × (self.new.phase ≡ self.old.phase) }
        ensures loan { R.loan rooms.new ≡ R.loan rooms.old }
    {
        match enter_book(rooms) {
            None => false,
            Some(mut book) => {
                book.put_back(self.worker, self.iter);
                leave_book(rooms, book);
                self.end();
                true
            }
        }
    }

    /// The calls are to be taken back. Where there are none the item is put back at once, unless another caller holds the
    /// book.
    pub(crate) fn give_up<R: Rooms<Value<T, S>>, T: SeqType, S: Screen<T>>(&mut self, rooms: &mut R)
        requires { is_room_held (R.view rooms.old) (R.view rooms.old).book ≡ false }
        ensures gave_up { GaveUp (R.view rooms.old) (R.view rooms.new) (core_of self.old) (core_of self.new) self.new.phase }
        ensures loan { R.loan rooms.new ≡ R.loan rooms.old }
    {
        self.phase.give_up();
        if has_no_step(&self.log) {
            let _ = self.put_back(rooms);
        }
    }

    /// Gives up, and answers why.
    pub(crate) fn stop<R: Rooms<Value<T, S>>, T: SeqType, S: Screen<T>>(
        &mut self,
        rooms: &mut R,
        stop: Stop,
    ) -> Result<Brief, Stop>
        requires { is_room_held (R.view rooms.old) (R.view rooms.old).book ≡ false }
        ensures gave_up { GaveUp (R.view rooms.old) (R.view rooms.new) (record (core_of self.old) { pushes = [] }) (core_of self.new) self.new.phase }
        ensures stop { result ≡ Err stop }
        ensures loan { R.loan rooms.new ≡ R.loan rooms.old }
    {
        self.pushes.clear();
        self.give_up(rooms);
        Err(stop)
    }

    /// Takes back the last call. With the only one, or where there is none left, it puts the item back. Takes no memory.
    #[inline(never)]
    pub(crate) fn undo<R: Rooms<Value<T, S>>, T: SeqType, S: Screen<T>>(
        &mut self,
        rooms: &mut R,
        op: &O,
    ) -> Brief
        requires fit { IsFit (operator_of O.Operator op.now) (R.view rooms.old) (view_of (O.rest op.now) self.old) }
        requires phase { self.old.phase ≡ phases.Undoing }
        ensures turn { (told : Option Told) → TakesTurn (operator_of O.Operator op.now) (R.view rooms.old) (R.view rooms.new) (view_of (O.rest op.now) self.old) (view_of (O.rest op.now) self.new) (Ok (event_in result told)) }
        ensures loan { R.loan rooms.new ≡ R.loan rooms.old }
    {
        match last_of(&self.log) {
            None => self.put_back_late(rooms, op),
            Some(last) => {
                if self.log.len() == 1 {
                    self.undo_only(rooms, op, last)
                } else {
                    self.undo_last(rooms, op, last)
                }
            }
        }
    }

    fn put_back_late<R: Rooms<Value<T, S>>, T: SeqType, S: Screen<T>>(
        &mut self,
        rooms: &mut R,
        _op: &O,
    ) -> Brief
        requires fit { IsFit (operator_of O.Operator _op.now) (R.view rooms.old) (view_of (O.rest _op.now) self.old) }
        requires phase { self.old.phase ≡ phases.Undoing }
        requires none { last_step self.old.log.items ≡ None }
        ensures turn { (told : Option Told) → TakesTurn (operator_of O.Operator _op.now) (R.view rooms.old) (R.view rooms.new) (view_of (O.rest _op.now) self.old) (view_of (O.rest _op.now) self.new) (Ok (event_in result told)) }
        ensures loan { R.loan rooms.new ≡ R.loan rooms.old }
    {
        if self.put_back(rooms) {
            Brief::Idle
        } else {
            Brief::Busy
        }
    }

    fn undo_last<R: Rooms<Value<T, S>>, T: SeqType, S: Screen<T>>(
        &mut self,
        rooms: &mut R,
        _op: &O,
        last: Step,
    ) -> Brief
        requires fit { IsFit (operator_of O.Operator _op.now) (R.view rooms.old) (view_of (O.rest _op.now) self.old) }
        requires phase { self.old.phase ≡ phases.Undoing }
        requires last { last_step self.old.log.items ≡ Some last }
        requires others { length self.old.log.items ≢ 1 }
        ensures turn { (told : Option Told) → TakesTurn (operator_of O.Operator _op.now) (R.view rooms.old) (R.view rooms.new) (view_of (O.rest _op.now) self.old) (view_of (O.rest _op.now) self.new) (Ok (event_in result told)) }
        ensures loan { R.loan rooms.new ≡ R.loan rooms.old }
    {
        if !undo_in(rooms, last.room, self.worker, self.iter) {
            return Brief::Busy;
        }
        drop_last(&mut self.log);
        self.pushes.clear();
        Brief::Undo {
            room: last.room,
            call: last.call,
        }
    }

    fn undo_only<R: Rooms<Value<T, S>>, T: SeqType, S: Screen<T>>(
        &mut self,
        rooms: &mut R,
        _op: &O,
        last: Step,
    ) -> Brief
        requires fit { IsFit (operator_of O.Operator _op.now) (R.view rooms.old) (view_of (O.rest _op.now) self.old) }
        requires phase { self.old.phase ≡ phases.Undoing }
        requires last { last_step self.old.log.items ≡ Some last }
        requires only { length self.old.log.items ≡ 1 }
        ensures turn { (told : Option Told) → TakesTurn (operator_of O.Operator _op.now) (R.view rooms.old) (R.view rooms.new) (view_of (O.rest _op.now) self.old) (view_of (O.rest _op.now) self.new) (Ok (event_in result told)) }
        ensures loan { R.loan rooms.new ≡ R.loan rooms.old }
    {
        match enter_book(rooms) {
            None => Brief::Busy,
            Some(mut book) => {
                if !undo_in(rooms, last.room, self.worker, self.iter) {
                    leave_book(rooms, book);
                    return Brief::Busy;
                }
                book.put_back(self.worker, self.iter);
                leave_book(rooms, book);
                self.end();
                Brief::Undo {
                    room: last.room,
                    call: last.call,
                }
            }
        }
    }
}
