//! Why a condition isn't read.

ghost use Rattle.std.specs.Prelude.{◌≡◌};
ghost use Rattle.cond_text.specs.declared.failures.Failure.TheVariants as failure;

use cond_terms::Stop;
use gx_base::NoMemory;
use std::alloc::AllocFailed;

/// Why reading ends before a condition is whole.
#[derive(Clone, Copy, Drop)]
pub(crate) enum Failure {
    Stopped(Stop),
    NoMemory,
}

impl From<Stop> for Failure {
    ghost from_gives = { λ stop why. why ≡ failure.Stopped stop };

    fn from(stop: Stop) -> Failure {
        Failure::Stopped(stop)
    }
}

impl From<NoMemory> for Failure {
    ghost from_gives = { λ _ why. why ≡ failure.NoMemory };

    fn from(_none: NoMemory) -> Failure {
        Failure::NoMemory
    }
}

impl<T: Drop> From<AllocFailed<T>> for Failure {
    ghost from_gives = { λ _ why. why ≡ failure.NoMemory };

    fn from(_none: AllocFailed<T>) -> Failure {
        Failure::NoMemory
    }
}
