ghost use Rattle.std.specs.Prelude.{◌≡◌, ◌≤◌, ◌+◌, ◌-◌, ◌^◌, ◌++◌, min, if◌then◌else◌, IfOk, OnOk};
ghost use Rattle.gx_base.specs.PointKind.{nearer, nearest as nearest_in};
ghost use Rattle.gx_base.specs.Spots as near;
ghost use Rattle.point_trees.specs.Searches.{is_other as may_be_nearest, is_past as past, reach_of, takes, other_of, to_plane, pending_at, far_side, sides_of};
ghost use Rattle.point_trees.specs.Trees.{is_left};
ghost use Rattle.point_trees.specs.TreeStates.{tree_state, IsSound};

use crate::nodes::{Axis, Node, child, is_left};
use crate::tree::Tree;
use gx_base::{NoMemory, Spot, beyond, distance, square};
use std::alloc::Global;

/// A part of the tree that is still to be visited: what stands under a node, none of which is nearer than `reach`.
#[derive(Clone, Copy, Drop)]
pub struct Pending {
    pub from: usize,
    pub reach: u128,
}

/// The nearest point so far, and how far away it is.
#[derive(Clone, Copy, Drop)]
pub struct Best {
    pub point: Option<Spot>,
    pub reach: u128,
}

/// What a search found, and how many distances it took.
#[derive(Clone, Copy, Drop)]
pub struct Found {
    pub nearest: Option<Spot>,
    pub taken: u64,
}

fn is_other(node: Node, q: Spot) -> bool
    ensures { result ≡ may_be_nearest q node }
{
    node.live && node.spot.id != q.id
}

/// Whether a spot so far away is nearer than the best so far. The numbers count only where two are equally far.
fn is_nearer(spot: Spot, reach: u128, q: Spot, best: Best) -> bool
    requires here { reach ≡ near.distance q spot }
    requires best { best.reach ≡ reach_of q best.point }
    ensures { result ≡ takes q spot best.point }
{
    let Some(other) = best.point else {
        return true;
    };
    if reach < best.reach {
        return true;
    }
    if best.reach < reach {
        return false;
    }
    !beyond(q, spot, other)
}

/// The nearer of the node's point and the best so far.
fn better(node: Node, q: Spot, best: Best) -> Best
    requires { best.reach ≡ reach_of q best.point }
    ensures point { result.point ≡ nearer q (other_of q node) best.point }
    ensures reach { result.reach ≡ reach_of q result.point }
{
    if !is_other(node, q) {
        return best;
    }
    let reach = distance(q, node.spot);
    if is_nearer(node.spot, reach, q, best) {
        Best {
            point: Some(node.spot),
            reach,
        }
    } else {
        best
    }
}

/// The count of distances, with the one to a node's point where it is taken.
fn with_one_for(taken: u64, node: Node, q: Spot) -> u64
    ensures { result ≡ (if may_be_nearest q node then min (taken + 1) (2 ^ 64 - 1) else taken) }
{
    if is_other(node, q) {
        taken.saturating_add(1)
    } else {
        taken
    }
}

/// The squared distance to the plane in which the node splits its part.
fn reach_of_plane(node: Node, q: Spot) -> u128
    ensures value { result ≡ to_plane q node }
    ensures fits { result ≤ near.far }
{
    match node.axis {
        Axis::X => square(q.x, node.spot.x),
        Axis::Y => square(q.y, node.spot.y),
    }
}

/// Whether all that is at least so far away is farther than the best so far.
fn is_past(reach: u128, q: Spot, best: Best) -> bool
    requires { best.reach ≡ reach_of q best.point }
    ensures { result ≡ past q best.point reach }
{
    reach > best.reach
}

fn push_side(waiting: &mut Vec<Pending>, side: Option<usize>, reach: u128) -> Result<(), NoMemory>
    ensures { OnOk result (waiting.new.items ≡ waiting.old.items ++ pending_at side reach) }
{
    if let Some(from) = side {
        waiting.push(Pending { from, reach })?;
    }
    Ok(())
}

/// Notes the far side of a node, unless all there is farther than the best so far.
fn push_far_side(
    waiting: &mut Vec<Pending>,
    node: Node,
    q: Spot,
    left: bool,
    best: Best,
) -> Result<(), NoMemory>
    requires best { best.reach ≡ reach_of q best.point }
    requires side { left ≡ is_left node q }
    ensures sides { OnOk result (waiting.new.items ≡ waiting.old.items ++ far_side q best.point node) }
    ensures fits { to_plane q node ≤ near.far }
{
    let plane = reach_of_plane(node, q);
    if is_past(plane, q, best) {
        return Ok(());
    }
    push_side(waiting, child(node, !left), plane)
}

/// Notes the sides of a node that are to be visited, the near one last, so that it is visited first.
fn push_sides(
    waiting: &mut Vec<Pending>,
    node: Node,
    q: Spot,
    reach: u128,
    best: Best,
) -> Result<(), NoMemory>
    requires { best.reach ≡ reach_of q best.point }
    ensures sides { OnOk result (waiting.new.items ≡ waiting.old.items ++ sides_of q best.point node reach) }
    ensures fits { to_plane q node ≤ near.far }
{
    let left = is_left(node, q);
    push_far_side(waiting, node, q, left, best)?;
    push_side(waiting, child(node, left), reach)
}

/// The point of another number with the least key to q.
pub fn nearest(tree: &Tree, alloc: Global, q: Spot) -> Result<Found, NoMemory>
    requires { IsSound tree.now }
    ensures { IfOk result (λ found. found.nearest ≡ nearest_in (tree_state tree.now) q) }
{
    let mut best = Best {
        point: None,
        reach: u128::MAX,
    };
    let mut taken: u64 = 0;
    let mut waiting = Vec::with_capacity(alloc, 32)?;
    push_side(&mut waiting, tree.root(), 0)?;
    'search: loop {
        let next = match waiting.pop() {
            None => {
                return Ok(Found {
                    nearest: best.point,
                    taken,
                });
            }
            Some(next) => next,
        };
        if is_past(next.reach, q, best) {
            continue;
        }
        match tree.node_with_points(next.from) {
            None => {}
            Some(node) => {
                taken = with_one_for(taken, node, q);
                best = better(node, q, best);
                push_sides(&mut waiting, node, q, next.reach, best)?;
            }
        }
    }
}
