ghost use Rattle.std.specs.Prelude.{◌≡◌, [], None, false, length};
ghost use Rattle.commit_book.specs.SerialRuns.{operator_of};
ghost use Rattle.sessions.specs.Answers.{answered};
ghost use Rattle.sessions.specs.Places.{IsFit};
ghost use Rattle.sessions.specs.SessionViews.{view_of, begun_view, is_idle_view, with_left_off};
ghost use Rattle.sessions.specs.Turns.{HasTurned, TakesTurn};
ghost use Rattle.sessions.specs.declared.session.Phase.TheVariants as phases;

use crate::answers::{Brief, answer};
use crate::events::{Event, Stop};
use crate::releases::Releases;
use commit_book::{Book, Operator};
use gate_core::{Screen, Told};
use gx_base::{Call, Item, Reply, Room, SeqType, Step};
use rooms::{Rooms, Value};
use std::alloc::Global;

/// What a session is at.
#[derive(Drop)]
pub enum Phase<St: Drop> {
    Idle,
    /// The body goes on, given the reply to its last call.
    Running {
        st: St,
        last: Option<Reply>,
    },
    /// The body has asked a call that isn't done yet.
    Asking {
        st: St,
        room: Room,
        call: Call,
    },
    /// The body is at its end.
    Finished,
    /// The book, which the session holds, has the commit, after so many others. In these rooms its calls are still to
    /// be released.
    Committing {
        book: Book,
        number: u64,
        left: Releases,
    },
    /// The calls of the log are still to be taken back, and then the item to be put back.
    Undoing,
}

impl<St: Drop> Phase<St> {
    // An iteration gives up: its calls are to be taken back, whatever the body was at.
    pub(crate) fn give_up(&mut self)
        ensures { self.new ≡ phases.Undoing }
    {
        *self = Phase::Undoing;
    }
}

/// A worker: its present iteration, and what the body of that has done.
#[derive(Drop)]
pub struct Session<O: Operator> {
    pub(crate) alloc: Global,
    pub(crate) worker: u32,
    /// The number of the next iteration.
    pub(crate) next_iter: u64,
    pub(crate) iter: u64,
    pub(crate) item: Item,
    pub(crate) phase: Phase<O::St>,
    pub(crate) log: Vec<Step>,
    pub(crate) pushes: Vec<Item>,
    /// The pushes of the last commit.
    pub(crate) pushed: Vec<Item>,
}

impl<O: Operator> Session<O> {
    /// A worker that has no iteration yet. It takes no memory.
    pub fn new(alloc: Global, worker: u32) -> Session<O>
        ensures { (op : O) → view_of (O.rest op) result ≡ begun_view worker }
    {
        Session {
            alloc,
            worker,
            next_iter: 0,
            iter: 0,
            item: Item::new(0, 0, 0, 0),
            phase: Phase::Idle,
            log: Vec::new(alloc),
            pushes: Vec::new(alloc),
            pushed: Vec::new(alloc),
        }
    }

    /// The pushes of its last commit, and none where it has made none.
    pub fn pushed(&self) -> &[Item]
        ensures { (op : O) → result.now ≡ (view_of (O.rest op) self.now).pushed }
    {
        &self.pushed
    }

    /// Whether it has no iteration.
    pub fn is_idle(&self) -> bool
        ensures { (op : O) → result ≡ is_idle_view (view_of (O.rest op) self.now) }
    {
        match self.phase {
            Phase::Idle => true,
            _ => false,
        }
    }

    /// The iteration, if it isn't over, has to take back its calls, whose number is the answer.
    pub fn leave_off(&mut self) -> usize
        requires { (op : O) → (view_of (O.rest op) self.old).opened ≡ None }
        ensures view { (op : O) → view_of (O.rest op) self.new ≡ record (view_of (O.rest op) self.old) { at = with_left_off (view_of (O.rest op) self.old).at; asked = None } }
        ensures count { (op : O) → result ≡ length (view_of (O.rest op) self.old).at.outcome.steps }
    {
        if !self.is_idle() {
            self.phase = Phase::Undoing;
        }
        self.log.len()
    }

    /// One turn, which never waits: where it needs a room that another caller holds, it is `Busy`, or is cut short there.
    #[inline(always)]
    pub fn turn<R: Rooms<Value<T, S>>, T: SeqType, S: Screen<T>>(
        &mut self,
        rooms: &mut R,
        op: &O,
    ) -> Result<Event, Stop>
        requires unordered { O.is_ordered op.now ≡ false }
        requires fit { IsFit (operator_of O.Operator op.now) (R.view rooms.old) (view_of (O.rest op.now) self.old) }
        ensures turned { HasTurned (operator_of O.Operator op.now) (R.view rooms.old) (R.view rooms.new) (view_of (O.rest op.now) self.old) (view_of (O.rest op.now) self.new) result }
        ensures fit { IsFit (operator_of O.Operator op.now) (R.view rooms.new) (view_of (O.rest op.now) self.new) }
        ensures loan { R.loan rooms.new ≡ R.loan rooms.old }
    {
        let mut told = None;
        let brief = self.brief_turn(rooms, op, &mut told);
        answer(brief, told)
    }
    // One turn, with what a conflict tells apart from what it answers.
    #[inline(always)]
    fn brief_turn<R: Rooms<Value<T, S>>, T: SeqType, S: Screen<T>>(
        &mut self,
        rooms: &mut R,
        op: &O,
        told: &mut Option<Told>,
    ) -> Result<Brief, Stop>
        requires unordered { O.is_ordered op.now ≡ false }
        requires fit { IsFit (operator_of O.Operator op.now) (R.view rooms.old) (view_of (O.rest op.now) self.old) }
        ensures turn { TakesTurn (operator_of O.Operator op.now) (R.view rooms.old) (R.view rooms.new) (view_of (O.rest op.now) self.old) (view_of (O.rest op.now) self.new) (answered result told.new) }
        ensures loan { R.loan rooms.new ≡ R.loan rooms.old }
    {
        match self.phase {
            Phase::Idle => self.take(rooms, op),
            Phase::Running { .. } => self.go(rooms, op, told),
            Phase::Asking { .. } => self.go(rooms, op, told),
            Phase::Finished => self.finish(rooms, op),
            Phase::Committing { .. } => Ok(self.release_on(rooms, op)),
            Phase::Undoing => Ok(self.undo(rooms, op)),
        }
    }
}
