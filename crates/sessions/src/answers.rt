ghost use Rattle.std.specs.Prelude.{◌≡◌};
ghost use Rattle.sessions.specs.Answers.{answered, conflict_in, event_in};

use crate::events::{Event, Stop};
use gate_core::Told;
use gx_base::{Call, Item, Reply, Room};

/// An event without what a conflict tells, which is long: what is answered is moved each time that it is handed on.
#[derive(Clone, Copy, Drop)]
pub enum Brief {
    Take {
        item: Item,
    },
    Call {
        room: Room,
        call: Call,
        reply: Reply,
    },
    Conflict {
        room: Room,
    },
    Undo {
        room: Room,
        call: Call,
    },
    Commit {
        number: u64,
    },
    Wait,
    Drop,
    Idle,
    Busy,
}

/// What a turn answers, given what the conflict tells, where there is one.
#[inline(always)]
pub fn answer(brief: Result<Brief, Stop>, told: Option<Told>) -> Result<Event, Stop>
    ensures { result ≡ answered brief told }
{
    match brief {
        Ok(brief) => Ok(event(brief, told)),
        Err(stop) => Err(stop),
    }
}

#[inline(always)]
fn event(brief: Brief, told: Option<Told>) -> Event
    ensures { result ≡ event_in brief told }
{
    match brief {
        Brief::Take { item } => Event::Take { item },
        Brief::Call { room, call, reply } => Event::Call { room, call, reply },
        Brief::Conflict { room } => conflict(room, told),
        Brief::Undo { room, call } => Event::Undo { room, call },
        Brief::Commit { number } => Event::Commit { number },
        Brief::Wait => Event::Wait,
        Brief::Drop => Event::Drop,
        Brief::Idle => Event::Idle,
        Brief::Busy => Event::Busy,
    }
}

#[inline(always)]
fn conflict(room: Room, told: Option<Told>) -> Event
    ensures { result ≡ conflict_in room told }
{
    match told {
        Some(told) => Event::Conflict { room, told },
        None => Event::Busy,
    }
}
