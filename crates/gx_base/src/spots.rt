ghost use Rattle.std.specs.Prelude.{◌≡◌, ◌≤◌};
ghost use Rattle.std.specs.Ordering.{is_gt};
ghost use Rattle.gx_base.specs.Spots as near;

use crate::calls::{Call, Reply, Spot};

/// The four arguments as a point.
pub(crate) fn spot_of_call(call: Call) -> Spot
    ensures { result ≡ near.spot_of_call call }
{
    Spot {
        id: call.a,
        x: call.b,
        y: call.c,
        z: call.d,
    }
}

/// The four values of a reply as a point.
pub(crate) fn spot_of_reply(reply: Reply) -> Spot
    ensures { result ≡ near.spot_of_reply reply }
{
    Spot {
        id: reply.p,
        x: reply.q,
        y: reply.r,
        z: reply.s,
    }
}

/// The squared difference of two coordinates.
pub fn square(x: i64, y: i64) -> u128
    ensures value { result ≡ near.square x y }
    ensures fits { result ≤ near.far }
{
    let apart = x.abs_diff(y) as u128;
    apart * apart
}

/// The squared distance, which stops at the greatest number of its type.
pub fn distance(p: Spot, q: Spot) -> u128
    ensures { result ≡ near.distance p q }
{
    square(p.x, q.x).saturating_add(square(p.y, q.y))
}

/// The distance of two points, the smaller of their numbers and the larger.
#[tactic(auto, unfolding(crate::specs::Spots::pk))]
fn key(p: Spot, q: Spot) -> (u128, i64, i64)
    ensures { result ≡ near.pk p q }
{
    (distance(p, q), p.id.min(q.id), p.id.max(q.id))
}

fn is_after(x: (u128, i64, i64), y: (u128, i64, i64)) -> bool
    ensures { result ≡ is_gt (near.key_cmp x y) }
{
    x.0.cmp(&y.0)
        .then(x.1.cmp(&y.1).then(x.2.cmp(&y.2)))
        .is_gt()
}

/// Whether q is farther from p than r is, by distance and then by numbers.
pub fn beyond(p: Spot, q: Spot, r: Spot) -> bool
    ensures { result ≡ near.beyond p q r }
{
    is_after(key(p, q), key(p, r))
}
