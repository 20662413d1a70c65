ghost use Rattle.std.specs.Prelude.{◌≡◌, [], true, false, length, Option, Ok, IfOk, OnOk, OnErr};
ghost use Rattle.commit_book.specs.BookViews.{commit, put_back};
ghost use Rattle.commit_book.specs.LawfulBooks.{refusal};
ghost use Rattle.commit_book.specs.SerialRuns.{operator_of};
ghost use Rattle.speculation.specs.Sessions.{has_no_step};
ghost use Rattle.gate_core.specs.declared.refusals.Told.{Told};
ghost use Rattle.sessions.specs.Answers.{answered, event_in};
ghost use Rattle.sessions.specs.Bodies.{IsCommitting};
ghost use Rattle.sessions.specs.Places.{IsFit};
ghost use Rattle.sessions.specs.RoomLists.{rooms_of};
ghost use Rattle.sessions.specs.SessionViews.{core_of, view_in, view_of};
ghost use Rattle.sessions.specs.Turns.{TakesTurn};
ghost use Rattle.sessions.specs.Visits.{AreReleased, MayRelease, IsReleaseCutShort, MayAnswer, answer_to, gives_up, pushes_kept};
ghost use Rattle.sessions.specs.declared.session.Phase.TheVariants as phases;

use crate::answers::Brief;
use crate::entering::{enter_book, enter_gate, leave_book, leave_gate};
use crate::events::Stop;
use crate::releases::Releases;
use crate::session::{Phase, Session};
use crate::undoing::has_no_step;
use commit_book::{Book, CommitRefuse, Operator};
use gate_core::Screen;
use gx_base::SeqType;
use rooms::{Rooms, Value};
use std::mem;

/// Releases an iteration in rooms, by rising number, until another caller holds one. Whether none did.
fn release_all<R: Rooms<Value<T, S>>, T: SeqType, S: Screen<T>>(
    rooms: &mut R,
    worker: u32,
    iter: u64,
    number: u64,
    left: &mut Releases,
) -> bool
    requires { MayRelease (R.view rooms.old) number left.old }
    ensures done { result ≡ true → AreReleased (R.view rooms.old) (R.view rooms.new) worker iter number left.old }
    ensures cut { result ≡ false → IsReleaseCutShort (R.view rooms.old) (R.view rooms.new) worker iter number left.old left.new }
    ensures loan { R.loan rooms.new ≡ R.loan rooms.old }
{
    'passing: loop {
        match left.first() {
            None => return true,
            Some(room) => match enter_gate(rooms, room) {
                None => return false,
                Some(mut gate) => {
                    gate.release(worker, iter, number);
                    leave_gate(rooms, room, gate);
                }
            },
        }
        left.pass();
    }
}

impl<O: Operator> Session<O> {
    /// A finished session commits, unless the book refuses.
    #[inline(never)]
    pub(crate) fn finish<R: Rooms<Value<T, S>>, T: SeqType, S: Screen<T>>(
        &mut self,
        rooms: &mut R,
        op: &O,
    ) -> Result<Brief, Stop>
        requires unordered { O.is_ordered op.now ≡ false }
        requires fit { IsFit (operator_of O.Operator op.now) (R.view rooms.old) (view_of (O.rest op.now) self.old) }
        requires phase { self.old.phase ≡ phases.Finished }
        ensures turn { (told : Option Told) → TakesTurn (operator_of O.Operator op.now) (R.view rooms.old) (R.view rooms.new) (view_of (O.rest op.now) self.old) (view_of (O.rest op.now) self.new) (answered result told) }
        ensures loan { R.loan rooms.new ≡ R.loan rooms.old }
    {
        match enter_book(rooms) {
            None => Ok(Brief::Busy),
            Some(mut book) => {
                book.nobody_is_named();
                match self.commit_in(&mut book) {
                    Ok((number, left)) => Ok(self.release(rooms, op, book, number, left)),
                    Err(refuse) => {
                        let result = self.refused_in(&mut book, refuse);
                        leave_book(rooms, book);
                        result
                    }
                }
            }
        }
    }

    // What the session does in a book that refuses its commit, and answers.
    fn refused_in(&mut self, book: &mut Book, refuse: CommitRefuse) -> Result<Brief, Stop>
        ensures answer { (told : Option Told) → answered result told ≡ answer_to refuse }
        ensures kept { (book.new.ordered ≡ book.old.ordered) × (book.new.commits ≡ book.old.commits) }
        ensures waits { gives_up refuse ≡ false → (book.new ≡ book.old) × (core_of self.new ≡ core_of self.old) × (self.new.phase ≡ self.old.phase) }
        ensures calls { gives_up refuse ≡ true → has_no_step self.old.log.items ≡ false → (book.new ≡ book.old) × (core_of self.new ≡ record (core_of self.old) { pushes = pushes_kept refuse self.old.pushes.items }) × (self.new.phase ≡ phases.Undoing) }
        ensures over { gives_up refuse ≡ true → has_no_step self.old.log.items ≡ true → (book.new ≡ put_back book.old self.old.worker self.old.iter) × (core_of self.new ≡ record (core_of self.old) { log = []; pushes = [] }) × (self.new.phase ≡ phases.Idle) }
    {
        match refuse {
            CommitRefuse::NotReady => {
                self.give_up_in(book);
                Ok(Brief::Drop)
            }
            CommitRefuse::NotLeast { .. } => Ok(Brief::Wait),
            CommitRefuse::Spent => {
                self.stop_in(book);
                Err(Stop::Spent)
            }
            CommitRefuse::Kept => {
                self.stop_in(book);
                Err(Stop::Kept)
            }
            CommitRefuse::NoMemory => {
                self.stop_in(book);
                Err(Stop::NoMemory)
            }
        }
    }

    // Adds the commit to the book. The answer has its number, and the rooms in which it is to be released. The memory for
    // these is taken before.
    fn commit_in(&self, book: &mut Book) -> Result<(u64, Releases), CommitRefuse>
        ensures number { IfOk result (λ answer. answer.0 ≡ length book.old.commits) }
        ensures left { IfOk result (λ answer. answer.1 ≡ rooms_of self.now.log.items) }
        ensures ok { OnOk result (book.new ≡ commit book.old self.now.worker self.now.iter self.now.item (record { steps = self.now.log.items; pushes = self.now.pushes.items; withdrawn = [] })) }
        ensures refused { MayAnswer (refusal book.old self.now.item (length self.now.log.items)) result }
        ensures err { OnErr result (book.new ≡ book.old) }
    {
        let left = Releases::of(self.alloc, &self.log)?;
        let number = book.commit(self.worker, self.iter, self.item, &self.log, &self.pushes)?;
        Ok((number, left))
    }

    // The calls are to be taken back, and where there are none the item is put back at once.
    fn give_up_in(&mut self, book: &mut Book)
        ensures calls { has_no_step self.old.log.items ≡ false → (book.new ≡ book.old) × (core_of self.new ≡ core_of self.old) × (self.new.phase ≡ phases.Undoing) }
        ensures over { has_no_step self.old.log.items ≡ true → (book.new ≡ put_back book.old self.old.worker self.old.iter) × (core_of self.new ≡ record (core_of self.old) { log = []; pushes = [] }) × (self.new.phase ≡ phases.Idle) }
    {
        if has_no_step(&self.log) {
            book.put_back(self.worker, self.iter);
            self.end();
        } else {
            self.phase.give_up();
        }
    }

    fn stop_in(&mut self, book: &mut Book)
        ensures calls { has_no_step self.old.log.items ≡ false → (book.new ≡ book.old) × (core_of self.new ≡ record (core_of self.old) { pushes = [] }) × (self.new.phase ≡ phases.Undoing) }
        ensures over { has_no_step self.old.log.items ≡ true → (book.new ≡ put_back book.old self.old.worker self.old.iter) × (core_of self.new ≡ record (core_of self.old) { log = []; pushes = [] }) × (self.new.phase ≡ phases.Idle) }
    {
        self.pushes.clear();
        self.give_up_in(book);
    }

    /// A committing session goes on with its releases.
    #[inline(never)]
    pub(crate) fn release_on<R: Rooms<Value<T, S>>, T: SeqType, S: Screen<T>>(
        &mut self,
        rooms: &mut R,
        op: &O,
    ) -> Brief
        requires fit { IsFit (operator_of O.Operator op.now) (R.view rooms.old) (view_of (O.rest op.now) self.old) }
        requires phase { IsCommitting self.old.phase }
        ensures turn { (told : Option Told) → TakesTurn (operator_of O.Operator op.now) (R.view rooms.old) (R.view rooms.new) (view_of (O.rest op.now) self.old) (view_of (O.rest op.now) self.new) (Ok (event_in result told)) }
        ensures loan { R.loan rooms.new ≡ R.loan rooms.old }
    {
        match mem::replace(&mut self.phase, Phase::Idle) {
            Phase::Committing { book, number, left } => self.release(rooms, op, book, number, left),
            _ => Brief::Busy,
        }
    }

    // Releases the iteration of a commit in the rooms that are left, and then leaves the book.
    fn release<R: Rooms<Value<T, S>>, T: SeqType, S: Screen<T>>(
        &mut self,
        rooms: &mut R,
        _op: &O,
        book: Book,
        number: u64,
        mut left: Releases,
    ) -> Brief
        requires fit { IsFit (operator_of O.Operator _op.now) (R.view rooms.old) (view_in (O.rest _op.now) (core_of self.old) (phases.Committing book number left)) }
        ensures turn { (told : Option Told) → TakesTurn (operator_of O.Operator _op.now) (R.view rooms.old) (R.view rooms.new) (view_in (O.rest _op.now) (core_of self.old) (phases.Committing book number left)) (view_of (O.rest _op.now) self.new) (Ok (event_in result told)) }
        ensures loan { R.loan rooms.new ≡ R.loan rooms.old }
    {
        // A book has few enough commits that each number is small. For proofs: it does nothing.
        let _commits = book.commits();
        if !release_all(rooms, self.worker, self.iter, number, &mut left) {
            self.phase = Phase::Committing { book, number, left };
            return Brief::Busy;
        }
        leave_book(rooms, book);
        mem::swap(&mut self.pushes, &mut self.pushed);
        self.end();
        Brief::Commit { number }
    }
}
