ghost use Rattle.std.specs.Prelude.{◌≡◌, IfOk, OnErr};
ghost use Rattle.sessions.specs.Bodies.{ComesTo, IsAskedIn, IsAtWork, HasGoneOn};
ghost use Rattle.sessions.specs.Places.{IsAskedWithin};
ghost use Rattle.sessions.specs.SessionViews.{core_of, asked_of};

use crate::session::{Phase, Session};
use commit_book::Operator;
use gx_base::{Act, Call, Item, NoMemory, Reply, Room};
use std::mem;

/// Asks a body on and keeps its pushes, until it asks a call or is at its end.
#[inline(always)]
pub fn advance<O: Operator>(
    op: &O,
    st: &mut O::St,
    last: Option<Reply>,
    pushes: &mut Vec<Item>,
) -> Result<Option<(Room, Call)>, NoMemory>
    ensures ahead { IfOk result (λ asked. ComesTo (O.rest op.now) (O.rest op.now st.old last) pushes.old.items asked st.new pushes.new.items) }
    ensures room { IfOk result (λ asked. IsAskedIn (O.room_count op.now) asked) }
{
    let mut reply = last;
    loop {
        match op.next(st, reply) {
            Act::Call { room, call } => return Ok(Some((room, call))),
            Act::Push(item) => {
                pushes.push(item)?;
                reply = None;
            }
            Act::Done => return Ok(None),
        }
    }
}

impl<O: Operator> Session<O> {
    // The call that the body asks next, or none at its end. The session is then asking that call, or finished.
    #[inline(always)]
    pub(crate) fn ask_on(&mut self, op: &O) -> Result<Option<(Room, Call)>, NoMemory>
        requires work { IsAtWork self.old.phase }
        requires asked { IsAskedWithin (O.room_count op.now) (asked_of self.old.phase) }
        ensures gone_on { IfOk result (λ asked. HasGoneOn (O.rest op.now) (core_of self.old) (core_of self.new) self.old.phase self.new.phase asked) }
        ensures room { IfOk result (λ asked. IsAskedIn (O.room_count op.now) asked) }
        ensures err { OnErr result (core_of self.new ≡ record (core_of self.old) { pushes = self.new.pushes.items }) }
    {
        match mem::replace(&mut self.phase, Phase::Finished) {
            Phase::Running { mut st, last } => {
                let asked = advance(op, &mut st, last, &mut self.pushes)?;
                if let Some((room, call)) = asked {
                    self.phase = Phase::Asking { st, room, call };
                }
                Ok(asked)
            }
            Phase::Asking { st, room, call } => {
                self.phase = Phase::Asking { st, room, call };
                Ok(Some((room, call)))
            }
            _ => Ok(None),
        }
    }
}
