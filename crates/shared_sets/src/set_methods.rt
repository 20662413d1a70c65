//! The methods of sets.
ghost use Rattle.std.specs.Prelude.{◌≡◌};
ghost use Rattle.gx_base.specs.SetKind.{set_deed};
ghost use Rattle.shared_sets.specs.SetMethods.{deed_from};

use gx_base::SET_METHODS;

/// Brings a number in, and replies 1 where it was absent.
pub const ADD: u32 = SET_METHODS;

/// Takes a number out, and replies 1 where it was present.
pub const REMOVE: u32 = ADD + 1;

/// Replies 1 where a number is present.
pub const CONTAINS: u32 = ADD + 2;

/// The first method of sets, and what follows the last.
pub(crate) const FIRST_METHOD: u32 = ADD;

pub(crate) const METHODS_END: u32 = CONTAINS + 1;

/// What a method does with a number.
#[derive(Clone, Copy, Drop)]
pub(crate) enum SetDeed {
    Add,
    Remove,
    Contains,
}

/// What the method of this number does. `None` for a method of another kind of object.
pub(crate) fn deed_of(method: u32) -> Option<SetDeed>
    ensures { deed_from result ≡ set_deed method }
{
    match method {
        ADD => Some(SetDeed::Add),
        REMOVE => Some(SetDeed::Remove),
        CONTAINS => Some(SetDeed::Contains),
        _ => None,
    }
}
