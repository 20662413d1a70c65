use crate::calls::{Call, Reply, Room};
use crate::items::Item;

/// What the body of an operator does next.
#[derive(Clone, Copy, Debug, PartialEq, Eq, Drop)]
pub enum Act {
    /// Calls the object of a room.
    Call { room: Room, call: Call },
    /// Adds an item to the worklist once the body has committed.
    Push(Item),
    /// The body is at its end.
    Done,
}

/// A call that a body has made in a room, with its reply.
#[derive(Clone, Copy, Debug, PartialEq, Eq, Drop)]
pub struct Step {
    pub room: Room,
    pub call: Call,
    pub reply: Reply,
}

/// A committed iteration: its worker, its number at that worker, its item and the number of its steps.
#[derive(Clone, Copy, Debug, PartialEq, Eq, Drop)]
pub struct Commit {
    pub worker: u32,
    pub iter: u64,
    pub item: Item,
    pub steps: u64,
}

/// A call in the log of a gate.
#[derive(Clone, Copy, Debug, PartialEq, Eq, Drop)]
pub struct Entry {
    /// The worker that made the call; with `iter` it names the iteration.
    pub worker: u32,
    pub iter: u64,
    /// The work item of that iteration.
    pub item: Item,
    pub call: Call,
    pub reply: Reply,
    /// The state function at the call's first argument, in the state before the call.
    pub seen: i64,
    /// The number of the commit that the call belongs to, and none while it is uncommitted.
    pub done: Option<u64>,
}
