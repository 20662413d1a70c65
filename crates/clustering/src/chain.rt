ghost use Rattle.std.specs.Prelude.{◌≡◌, ◌≤◌, ◌+◌, negsuc, ◌||◌, false, Option, Some, None};
ghost use Rattle.std.specs.Ordering.{int_eq};
ghost use Rattle.gx_base.specs.declared.calls.Reply as replies;
ghost use Rattle.gx_base.specs.Spots.{spot_of_reply};
ghost use Rattle.point_files.specs.PointFiles.{most_points};
ghost use Rattle.clustering.specs.PointCalls.{rooms};
ghost use Rattle.clustering.specs.Chain.{chain_plan, is_of_id, chase, with_place, with_nearest, going_to, merging_both, weighing, with_weights};
ghost use Rattle.clustering.specs.ChainStages.{MovesTo, rest_at, body_rest, acts_left, acts_from, merging_from, reply_or_zeros};
ghost use Rattle.clustering.specs.Chains.{plan_of};

use crate::merges::{into_key, merge_of, weight_key};
use crate::point_calls::{ROOMS, at_act, id_item, point_act, read_act, set_act};
use crate::stages::{Merge, MergeStep, Stage};
use commit_book::Operator;
use gx_base::{Act, Item, Reply, Spot};
use kd_points::point_methods::{ADD, NEAREST, REMOVE};

/// The work on a point: from it to the nearest one, from there to the nearest one, and so on, until two points are each
/// the other's nearest, and become one. The items are the numbers of points, in `k0`.
#[derive(Clone, Copy, Drop)]
pub struct Chain {
    /// How many points there are at the start.
    count: u16,
}

/// What the last call replied. A reply that was due and didn't come counts as four zeros.
fn reply_of(last: Option<Reply>) -> Reply
    ensures { result ≡ reply_or_zeros last }
{
    match last {
        Some(reply) => reply,
        None => Reply::new(0, 0, 0, 0),
    }
}

/// The point that `nearest` replied.
fn spot_of(reply: Reply) -> Spot
    ensures { result ≡ spot_of_reply reply }
{
    Spot {
        id: reply.p,
        x: reply.q,
        y: reply.r,
        z: reply.s,
    }
}

fn is_of_id(item: Item) -> bool
    ensures { result ≡ is_of_id item }
{
    item.k1 == 0 && item.k2 == 0 && item.k3 == 0
}

/// Whether `nearest` replied that there is no other point.
fn is_none(reply: Reply) -> bool
    ensures { result ≡ int_eq reply.p (negsuc 0) }
{
    reply.p == -1
}

fn is_same(next: Spot, previous: Spot) -> bool
    ensures { result ≡ int_eq next.id previous.id }
{
    next.id == previous.id
}

/// Asks for the nearest point to the current one, unless that was done as often as it may be.
fn chase(id: i64, calls: u32, previous: Option<Spot>, current: Spot) -> (Act, Stage)
    ensures { MovesTo (chase id calls previous current) (calls + 10) result.0 result.1 }
{
    if calls == 0 {
        return (Act::Done, Stage::End);
    }
    (
        point_act(NEAREST, current),
        Stage::AfterNearest {
            id,
            calls: calls - 1,
            previous,
            current,
        },
    )
}

fn with_place(id: i64, calls: u32, reply: Reply) -> (Act, Stage)
    ensures { MovesTo (with_place id calls reply) (calls + 11) result.0 result.1 }
{
    if reply.p != 1 {
        return (Act::Done, Stage::End);
    }
    let current = Spot {
        id,
        x: reply.q,
        y: reply.r,
        z: reply.s,
    };
    chase(id, calls, None, current)
}

fn with_nearest(
    id: i64,
    calls: u32,
    previous: Option<Spot>,
    current: Spot,
    reply: Reply,
) -> (Act, Stage)
    ensures { MovesTo (with_nearest id (chase id calls) previous current reply) (calls + 10) result.0 result.1 }
{
    if is_none(reply) {
        return (Act::Done, Stage::End);
    }
    going_to(id, calls, previous, current, spot_of(reply))
}

/// Goes on to a point, or merges where it is the previous one.
fn going_to(id: i64, calls: u32, previous: Option<Spot>, current: Spot, next: Spot) -> (Act, Stage)
    ensures { MovesTo (going_to id (chase id calls) previous current next) (calls + 10) result.0 result.1 }
{
    let Some(previous) = previous else {
        return chase(id, calls, Some(current), next);
    };
    if is_same(next, previous) {
        return merging_both(id, previous, current);
    }
    chase(id, calls, Some(current), next)
}

/// Asks for the weight of the first one of two points.
fn merging_both(id: i64, previous: Spot, current: Spot) -> (Act, Stage)
    ensures { MovesTo (merging_both id previous current) 10 result.0 result.1 }
{
    if current.id < previous.id {
        weighing(id, current, previous)
    } else {
        weighing(id, previous, current)
    }
}

fn weighing(id: i64, first: Spot, second: Spot) -> (Act, Stage)
    ensures { MovesTo (weighing id first second) 10 result.0 result.1 }
{
    (
        read_act(first.id),
        Stage::AfterFirstWeight { id, first, second },
    )
}

fn with_weights(id: i64, first: Spot, weight: i64, second: Spot, other: i64) -> (Act, Stage)
    ensures { MovesTo (with_weights id first weight second other) 8 result.0 result.1 }
{
    match merge_of(id, first, weight, second, other) {
        None => (Act::Done, Stage::End),
        Some(merge) => (
            point_act(REMOVE, merge.first),
            Stage::Merging {
                merge,
                step: MergeStep::RemoveSecond,
            },
        ),
    }
}

fn is_own(merge: Merge) -> bool
    ensures { result ≡ int_eq merge.id merge.first.id || int_eq merge.id merge.second.id }
{
    merge.id == merge.first.id || merge.id == merge.second.id
}

/// The next act of a merge, and what is next after it.
fn merging_from(merge: Merge, step: MergeStep) -> (Act, Stage)
    ensures { MovesTo (merging_from merge step) (acts_from step) result.0 result.1 }
{
    let (act, step) = match step {
        MergeStep::RemoveSecond => (point_act(REMOVE, merge.second), MergeStep::AddMerged),
        MergeStep::AddMerged => (point_act(ADD, merge.merged), MergeStep::SetWeight),
        MergeStep::SetWeight => (set_act(merge.first.id, merge.weight), MergeStep::SetInto),
        MergeStep::SetInto => (
            set_act(into_key(merge.second.id), merge.first.id),
            MergeStep::SetMergedWeight,
        ),
        MergeStep::SetMergedWeight => (
            set_act(weight_key(merge.second.id), merge.weight),
            MergeStep::PushMerged,
        ),
        MergeStep::PushMerged => (Act::Push(id_item(merge.first.id)), MergeStep::PushOwn),
        MergeStep::PushOwn if is_own(merge) => return (Act::Done, Stage::End),
        MergeStep::PushOwn => return (Act::Push(id_item(merge.id)), Stage::End),
    };
    (act, Stage::Merging { merge, step })
}

/// The next act at a stage, and the stage after it, where the last call replied this.
fn move_on(stage: Stage, reply: Reply) -> (Act, Stage)
    ensures { MovesTo (rest_at stage reply) (acts_left stage) result.0 result.1 }
{
    match stage {
        Stage::Begin { id, calls } => (at_act(id), Stage::AfterAt { id, calls }),
        Stage::AfterAt { id, calls } => with_place(id, calls, reply),
        Stage::AfterNearest {
            id,
            calls,
            previous,
            current,
        } => with_nearest(id, calls, previous, current, reply),
        Stage::AfterFirstWeight { id, first, second } => (
            read_act(second.id),
            Stage::AfterSecondWeight {
                id,
                first,
                second,
                weight: reply.p,
            },
        ),
        Stage::AfterSecondWeight {
            id,
            first,
            second,
            weight,
        } => with_weights(id, first, weight, second, reply.p),
        Stage::Merging { merge, step } => merging_from(merge, step),
        Stage::End => (Act::Done, Stage::End),
    }
}

fn steps_left(step: MergeStep) -> u64
    ensures { result ≡ acts_from step }
{
    match step {
        MergeStep::RemoveSecond => 7,
        MergeStep::AddMerged => 6,
        MergeStep::SetWeight => 5,
        MergeStep::SetInto => 4,
        MergeStep::SetMergedWeight => 3,
        MergeStep::PushMerged => 2,
        MergeStep::PushOwn => 1,
    }
}

impl Chain {
    /// The work on so many points.
    pub fn new(count: u64) -> Chain
        requires { count ≤ most_points }
        ensures { plan_of result ≡ chain_plan count }
    {
        Chain {
            count: count as u16,
        }
    }
}

impl Operator for Chain {
    type St = Stage;

    ghost is_ordered = { λ chain. false };

    ghost room_count = { λ chain. rooms };

    ghost plan = { plan_of };

    ghost rest = { λ chain. body_rest };

    ghost to_go = { λ chain. acts_left };

    fn rooms(&self) -> u32 {
        ROOMS
    }

    fn ordered(&self) -> bool {
        false
    }

    fn begin(&self, item: Item) -> Stage {
        if !is_of_id(item) {
            return Stage::End;
        }
        Stage::Begin {
            id: item.k0,
            calls: self.count as u32 + 1,
        }
    }

    fn next(&self, st: &mut Stage, last: Option<Reply>) -> Act {
        let (act, stage) = move_on(*st, reply_of(last));
        *st = stage;
        act
    }

    fn left(&self, st: &Stage) -> u64 {
        match *st {
            Stage::Begin { calls, .. } => calls as u64 + 12,
            Stage::AfterAt { calls, .. } => calls as u64 + 11,
            Stage::AfterNearest { calls, .. } => calls as u64 + 10,
            Stage::AfterFirstWeight { .. } => 9,
            Stage::AfterSecondWeight { .. } => 8,
            Stage::Merging { step, .. } => steps_left(step),
            Stage::End => 0,
        }
    }
}
