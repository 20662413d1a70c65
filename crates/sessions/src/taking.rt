ghost use Rattle.std.specs.Prelude.{◌≡◌, [], false, Option};
ghost use Rattle.commit_book.specs.SerialRuns.{operator_of};
ghost use Rattle.gate_core.specs.declared.refusals.Told.{Told};
ghost use Rattle.sessions.specs.Answers.{answered};
ghost use Rattle.sessions.specs.Places.{IsFit};
ghost use Rattle.sessions.specs.SessionViews.{core_of, view_of, begins, IsBegun};
ghost use Rattle.sessions.specs.Turns.{TakesTurn};
ghost use Rattle.sessions.specs.declared.session.Phase.TheVariants as phases;

use crate::answers::Brief;
use crate::entering::{enter_book, leave_book};
use crate::events::Stop;
use crate::session::{Phase, Session};
use commit_book::Operator;
use gate_core::Screen;
use gx_base::{Item, NoMemory, SeqType};
use rooms::{Rooms, Value};

impl<O: Operator> Session<O> {
    /// An idle session takes the least ready item that no iteration holds.
    #[inline(never)]
    pub(crate) fn take<R: Rooms<Value<T, S>>, T: SeqType, S: Screen<T>>(
        &mut self,
        rooms: &mut R,
        op: &O,
    ) -> Result<Brief, Stop>
        requires fit { IsFit (operator_of O.Operator op.now) (R.view rooms.old) (view_of (O.rest op.now) self.old) }
        requires phase { self.old.phase ≡ phases.Idle }
        ensures turn { (told : Option Told) → TakesTurn (operator_of O.Operator op.now) (R.view rooms.old) (R.view rooms.new) (view_of (O.rest op.now) self.old) (view_of (O.rest op.now) self.new) (answered result told) }
        ensures loan { R.loan rooms.new ≡ R.loan rooms.old }
    {
        match enter_book(rooms) {
            None => Ok(Brief::Busy),
            Some(mut book) => match book.next_free(self.worker, self.next_iter) {
                Err(NoMemory) => {
                    leave_book(rooms, book);
                    Err(Stop::NoMemory)
                }
                Ok(None) => {
                    leave_book(rooms, book);
                    Ok(Brief::Idle)
                }
                Ok(Some(item)) => {
                    leave_book(rooms, book);
                    self.begin(op, item);
                    Ok(Brief::Take { item })
                }
            },
        }
    }

    // A new iteration runs on an item.
    fn begin(&mut self, op: &O, item: Item)
        ensures core { core_of self.new ≡ begins (core_of self.old) item }
        ensures phase { IsBegun (O.rest op.now) (O.plan op.now item) self.new.phase }
    {
        self.log.clear();
        self.pushes.clear();
        self.iter = self.next_iter;
        self.next_iter = if self.next_iter == u64::MAX {
            0
        } else {
            self.next_iter + 1
        };
        self.item = item;
        self.phase = Phase::Running {
            st: op.begin(item),
            last: None,
        };
    }
}
