use gate_core::Told;
use gx_base::{Call, Item, Reply, Room};

/// What a session does in a turn.
#[derive(Clone, Copy, Debug, PartialEq, Eq, Drop)]
pub enum Event {
    /// A new iteration runs on an item.
    Take {
        item: Item,
    },
    Call {
        room: Room,
        call: Call,
        reply: Reply,
    },
    /// A call was not done: an uncommitted entry of another iteration is in its way.
    Conflict {
        room: Room,
        told: Told,
    },
    /// The iteration's last call was taken back.
    Undo {
        room: Room,
        call: Call,
    },
    /// The iteration has committed, after so many others.
    Commit {
        number: u64,
    },
    /// A smaller item is ready, in a loop whose items commit in their order.
    Wait,
    /// The iteration's item isn't ready any more.
    Drop,
    /// There was nothing to take, or an item was put back after all calls were taken back.
    Idle,
    /// A room that the turn needs was held.
    Busy,
}

/// Why a session or a run stops.
#[derive(Clone, Copy, Debug, PartialEq, Eq, Drop)]
pub enum Stop {
    /// As many items have committed as may.
    Spent,
    /// A commit would bring the journal past the steps that it may have.
    Kept,
    NoMemory,
}

/// A turn of a worker. Turns are numbered from 0.
#[derive(Clone, Copy, Debug, PartialEq, Eq, Drop)]
pub struct Turn {
    pub number: u64,
    pub worker: u32,
    pub event: Event,
}
