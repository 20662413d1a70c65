//! Why a call over files or a sink was refused.

ghost use Rattle.std.specs.Prelude.{◌≡◌};
ghost use Rattle.gx_io.specs.Refusals.{refusal_of};
ghost use Rattle.gx_io.specs.declared.fault.WholeRefuse.TheVariants as refusals;

use std::alloc::AllocError;

/// Why a call over files was refused.
#[derive(Clone, Copy, Debug, PartialEq, Eq)]
pub enum IoFault {
    /// The files failed, and counted it.
    Failed,
    /// Want of memory.
    NoMemory,
}

/// A sink failed, and counted it.
#[derive(Clone, Copy, Debug, PartialEq, Eq)]
pub struct SinkFailed;

/// Why a file was not read whole.
#[derive(Clone, Copy, Debug, PartialEq, Eq)]
pub enum WholeRefuse {
    /// The files failed, and counted it.
    Failed,
    /// More bytes came than the limit.
    TooLong,
    /// Want of memory.
    NoMemory,
}

impl From<IoFault> for WholeRefuse {
    ghost from_gives = { λ fault refusal. refusal ≡ refusal_of fault };

    fn from(fault: IoFault) -> WholeRefuse {
        match fault {
            IoFault::Failed => WholeRefuse::Failed,
            IoFault::NoMemory => WholeRefuse::NoMemory,
        }
    }
}

impl From<AllocError> for WholeRefuse {
    ghost from_gives = { λ _ refusal. refusal ≡ refusals.NoMemory };

    fn from(_error: AllocError) -> WholeRefuse {
        WholeRefuse::NoMemory
    }
}

/// Want of memory.
#[derive(Clone, Copy, Debug, PartialEq, Eq)]
pub struct NoMemory;

impl From<AllocError> for NoMemory {
    fn from(_error: AllocError) -> NoMemory {
        NoMemory
    }
}
