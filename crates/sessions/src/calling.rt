ghost use Rattle.std.specs.Prelude.{◌≡◌, ◌∷◌, ◌++◌, ◌<◌, [], false, Some, IfOk, IfErr, vec_len, vec_capacity};
ghost use Rattle.gx_base.specs.declared.acts.Step.{Step};
ghost use Rattle.gate_core.specs.CallAnswers.{GateRefusalFits, IsAdmitted};
ghost use Rattle.commit_book.specs.SerialRuns.{operator_of};
ghost use Rattle.sessions.specs.Answers.{answered};
ghost use Rattle.sessions.specs.Bodies.{IsAtWork, HasAsked, IsNoted};
ghost use Rattle.sessions.specs.Places.{gate_of, IsFit, IsGateValue};
ghost use Rattle.sessions.specs.SessionViews.{core_of, view_of};
ghost use Rattle.sessions.specs.Turns.{TakesTurn};

use crate::answers::Brief;
use crate::entering::{enter_value, leave_value};
use crate::events::Stop;
use crate::session::{Phase, Session};
use commit_book::Operator;
use gate_core::{GateRefuse, Screen, Told};
use gx_base::{Call, Item, NoMemory, Reply, Room, SeqType, Step};
use rooms::{Rooms, Value};
use std::mem;

// Does a call on the gate that a value is, unless an uncommitted entry is in its way. Not inlined, as `go` and `call` are not:
// an answer is as long as what it tells of a conflict, and one that is inlined is moved once more.
#[inline(never)]
fn call_in<T: SeqType, S: Screen<T>>(
    value: &mut Value<T, S>,
    worker: u32,
    iter: u64,
    item: Item,
    call: Call,
) -> Result<Reply, GateRefuse>
    requires { IsGateValue value.old }
    ensures gate { IsGateValue value.new }
    ensures mark { (gate_of value.new).mark ≡ (gate_of value.old).mark }
    ensures ok { IfOk result (λ reply. IsAdmitted (gate_of value.old) (gate_of value.new) worker iter item call reply) }
    ensures err { IfErr result (λ refuse. GateRefusalFits (gate_of value.old) (gate_of value.new) worker iter item call refuse) }
{
    let Value::Object(gate) = value else {
        return Err(GateRefuse::NoMemory);
    };
    gate.call(worker, iter, item, call)
}

impl<O: Operator> Session<O> {
    /// A running session asks its body on. A call goes to the gate of its room; at the end of the body it goes on as
    /// finished.
    #[inline(never)]
    pub(crate) fn go<R: Rooms<Value<T, S>>, T: SeqType, S: Screen<T>>(
        &mut self,
        rooms: &mut R,
        op: &O,
        told: &mut Option<Told>,
    ) -> Result<Brief, Stop>
        requires unordered { O.is_ordered op.now ≡ false }
        requires fit { IsFit (operator_of O.Operator op.now) (R.view rooms.old) (view_of (O.rest op.now) self.old) }
        requires work { IsAtWork self.old.phase }
        ensures turn { TakesTurn (operator_of O.Operator op.now) (R.view rooms.old) (R.view rooms.new) (view_of (O.rest op.now) self.old) (view_of (O.rest op.now) self.new) (answered result told.new) }
        ensures loan { R.loan rooms.new ≡ R.loan rooms.old }
    {
        match self.ask_on(op) {
            Ok(Some((room, call))) => self.call(rooms, op, room, call, told),
            Ok(None) => self.finish(rooms, op),
            Err(NoMemory) => self.stop(rooms, Stop::NoMemory),
        }
    }

    // Asks a call of the gate of its room. The place in the log is reserved before, so that nothing fails after it.
    #[inline(never)]
    fn call<R: Rooms<Value<T, S>>, T: SeqType, S: Screen<T>>(
        &mut self,
        rooms: &mut R,
        _op: &O,
        room: Room,
        call: Call,
        told: &mut Option<Told>,
    ) -> Result<Brief, Stop>
        requires unordered { O.is_ordered _op.now ≡ false }
        requires fit { IsFit (operator_of O.Operator _op.now) (R.view rooms.old) (view_of (O.rest _op.now) self.old) }
        requires asking { HasAsked (Some (room, call)) self.old.phase }
        ensures turn { TakesTurn (operator_of O.Operator _op.now) (R.view rooms.old) (R.view rooms.new) (view_of (O.rest _op.now) self.old) (view_of (O.rest _op.now) self.new) (answered result told.new) }
        ensures loan { R.loan rooms.new ≡ R.loan rooms.old }
    {
        if self.log.reserve(1).is_err() {
            return self.stop(rooms, Stop::NoMemory);
        }
        let Some(mut value) = enter_value(rooms, room) else {
            return Ok(Brief::Busy);
        };
        let answer = call_in(&mut value, self.worker, self.iter, self.item, call);
        leave_value(rooms, room, value);
        match answer {
            Ok(reply) => {
                self.note(room, call, reply);
                Ok(Brief::Call { room, call, reply })
            }
            Err(refuse) => match refuse {
                GateRefuse::Conflict(found) => {
                    *told = Some(found);
                    self.give_up(rooms);
                    Ok(Brief::Conflict { room })
                }
                GateRefuse::NoMemory => self.stop(rooms, Stop::NoMemory),
            },
        }
    }

    // A call that was done goes to the log, and the body goes on from its reply.
    #[inline(always)]
    fn note(&mut self, room: Room, call: Call, reply: Reply)
        requires room { vec_len self.old.log < vec_capacity self.old.log }
        requires asking { HasAsked (Some (room, call)) self.old.phase }
        ensures core { core_of self.new ≡ record (core_of self.old) { log = self.old.log.items ++ record { room = room; call = call; reply = reply } ∷ [] } }
        ensures phase { IsNoted reply self.old.phase self.new.phase }
    {
        self.log.push_reserved(Step { room, call, reply });
        if let Phase::Asking { st, .. } = mem::replace(&mut self.phase, Phase::Finished) {
            self.phase = Phase::Running {
                st,
                last: Some(reply),
            };
        }
    }
}
