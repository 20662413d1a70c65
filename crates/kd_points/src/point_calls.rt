//! Calls of points as spots, and their replies.
ghost use Rattle.std.specs.Prelude.{◌≡◌, pos, Some, if◌then◌else◌};
ghost use Rattle.gx_base.specs.Meanings.{number_reply};
ghost use Rattle.gx_base.specs.PointKind.{may_add, point_row_of, at_reply as reply_of_at, nearest_reply as reply_of_nearest};
ghost use Rattle.gx_base.specs.RowActions.{same_content};
ghost use Rattle.gx_base.specs.Spots as near;
ghost use Rattle.kd_points.specs.PointsState.{add_call as call_of_add};
ghost use Rattle.point_trees.specs.TreeStates.{place};

use crate::point_methods::ADD;
use gx_base::{Call, Reply, Spot};

/// The four arguments as a point.
pub fn spot_of_call(call: Call) -> Spot
    ensures { result ≡ near.spot_of_call call }
{
    Spot {
        id: call.a,
        x: call.b,
        y: call.c,
        z: call.d,
    }
}

/// The call that adds a point.
pub fn add_call(spot: Spot) -> Call
    ensures { result ≡ call_of_add spot }
{
    Call {
        method: ADD,
        a: spot.id,
        b: spot.x,
        c: spot.y,
        d: spot.z,
    }
}

/// Whether a point may have these arguments: its number is none below 0, and there is no third coordinate.
pub fn is_addable(call: Call) -> bool
    ensures { result ≡ may_add call }
{
    call.a >= 0 && call.d == 0
}

/// Whether a point stands where the arguments say.
pub fn is_at(point: Spot, call: Call) -> bool
    ensures { result ≡ same_content (Some (place point)) (point_row_of call) }
{
    point.x == call.b && (point.y == call.c && point.z == call.d)
}

pub fn yes_or_no(answer: bool) -> Reply
    ensures { result ≡ number_reply (if answer then pos 1 else pos 0) }
{
    Reply {
        p: if answer { 1 } else { 0 },
        q: 0,
        r: 0,
        s: 0,
    }
}

pub fn at_reply(point: Option<Spot>) -> Reply
    ensures { result ≡ reply_of_at point }
{
    match point {
        None => yes_or_no(false),
        Some(spot) => Reply::new(1, spot.x, spot.y, spot.z),
    }
}

pub fn nearest_reply(point: Option<Spot>) -> Reply
    ensures { result ≡ reply_of_nearest point }
{
    match point {
        None => Reply::new(-1, 0, 0, 0),
        Some(spot) => Reply::new(spot.id, spot.x, spot.y, spot.z),
    }
}
