use gx_base::{Call, Entry, NoMemory, Reply, Seen};
use std::alloc::AllocError;

/// A conflict: the first uncommitted entry that is in the way of a call, and what the call would reply.
#[derive(Clone, Copy, Debug, PartialEq, Eq, Drop)]
pub struct Told {
    pub held: Entry,
    pub asked: Call,
    pub would: Reply,
    /// The state functions on which the condition of the two calls was evaluated. One that the condition
    /// doesn't use can be any number.
    pub seen: Seen,
}

/// Why a gate refuses a call.
#[derive(Clone, Copy, Debug, PartialEq, Eq, Drop)]
pub enum GateRefuse {
    Conflict(Told),
    NoMemory,
}

impl From<NoMemory> for GateRefuse {
    ghost use Rattle.std.specs.Prelude.{◌≡◌};
    ghost use Rattle.gate_core.specs.declared.refusals.GateRefuse.TheVariants.{NoMemory as OutOfMemory};

    ghost from_gives = { λ _ refuse. refuse ≡ OutOfMemory };

    fn from(_refused: NoMemory) -> GateRefuse {
        GateRefuse::NoMemory
    }
}
