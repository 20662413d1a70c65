//! The methods of points.
ghost use Rattle.std.specs.Prelude.{◌≡◌};
ghost use Rattle.gx_base.specs.PointKind.{point_deed};
ghost use Rattle.kd_points.specs.PointMethods.{deed_from};

use gx_base::POINT_METHODS;

/// Puts a point in, and replies 1 where it was added.
pub const ADD: u32 = POINT_METHODS;

/// Takes a point out, and replies 1 where it was there.
pub const REMOVE: u32 = ADD + 1;

/// Replies 1 and the place of a point, or zeros.
pub const AT: u32 = ADD + 2;

/// Replies the nearest point of another number, or the number -1.
pub const NEAREST: u32 = ADD + 3;

/// The first method of points, and what follows the last.
pub(crate) const FIRST_METHOD: u32 = ADD;

pub(crate) const METHODS_END: u32 = NEAREST + 1;

/// What a method does with points.
#[derive(Clone, Copy, Drop)]
pub(crate) enum PointDeed {
    Add,
    Remove,
    At,
    Nearest,
}

/// What the method of this number does. `None` for a method of another kind of object.
pub(crate) fn deed_of(method: u32) -> Option<PointDeed>
    ensures { deed_from result ≡ point_deed method }
{
    match method {
        ADD => Some(PointDeed::Add),
        REMOVE => Some(PointDeed::Remove),
        AT => Some(PointDeed::At),
        NEAREST => Some(PointDeed::Nearest),
        _ => None,
    }
}
