ghost use Rattle.std.specs.Prelude.{◌≡◌, ◌∷◌, ◌≤◌, ◌*◌, ◌↔◌, ◌&&◌, ◌||◌, [], nat_lt, nat_le, length, false, IfOk, OnOk};
ghost use Rattle.std.specs.List.{Contains};
ghost use Rattle.gx_base.specs.declared.calls.Spot.{Spot};
ghost use Rattle.slab.specs.Slab.{slab_len};
ghost use Rattle.point_trees.specs.Trees.{is_found, seat_depth};
ghost use Rattle.point_trees.specs.TreeStates.{node_at, tree_state, dead_nodes, IsSound, NoneBare, SeatsStay};
ghost use Rattle.point_trees.specs.Rebuilding.{IsPointOf, HaveOwnIds, AreNew, Gathers, IsLow, IsMadeOf, IsRebuilt};

use crate::nodes::{Axis, Seat, order};
use crate::tree::Tree;
use gx_base::{NoMemory, Spot};
use std::alloc::Global;

/// A tree of fewer nodes isn't rebuilt: it takes up little.
pub const LEAST_REBUILT: usize = 64;

/// The axis along which spots are spread most widely. Which it is matters for speed alone.
fn widest(spots: &[Spot]) -> Axis {
    let mut left = i64::MAX;
    let mut right = i64::MIN;
    let mut low = i64::MAX;
    let mut high = i64::MIN;
    for spot in spots {
        left = left.min(spot.x);
        right = right.max(spot.x);
        low = low.min(spot.y);
        high = high.max(spot.y);
    }
    if right.abs_diff(left) < high.abs_diff(low) {
        Axis::Y
    } else {
        Axis::X
    }
}

impl Tree {
    /// Puts spots in by halves, so that about as many stand on either side of each node. They all belong at the same
    /// seat, so no way is walked from the root.
    fn insert_all(&mut self, spots: &mut [Spot], seat: Seat) -> Result<(), NoMemory>
        requires sound { IsSound self.old }
        requires open { is_found seat ≡ false }
        requires new { AreNew self.old spots.old seat }
        ensures sound { IsSound self.new }
        ensures ok { OnOk result (Gathers self.old self.new spots.old) }
        ensures beside { OnOk result (SeatsStay self.old self.new seat) }
        ensures bare { OnOk result (NoneBare self.new) }
        ensures low { OnOk result (IsLow self.old self.new (seat_depth (node_at self.old) seat) (length spots.old)) }
    {
        let count = spots.len();
        if count == 0 {
            return Ok(());
        }
        let axis = widest(spots);
        let (front, middle, back) = spots.select_nth_unstable_by(
            count / 2,
            |p: &Spot, q: &Spot| order(axis, *p, *q),
        );
        let key = self.insert_at(*middle, axis, seat)?;
        self.insert_all(front, Seat::Free(key, true))?;
        self.insert_all(back, Seat::Free(key, false))
    }

    /// The points.
    fn points(&self, alloc: Global) -> Result<Vec<Spot>, NoMemory>
        requires { IsSound self.now }
        ensures every { IfOk result (λ spots. (r : Spot) → Contains spots.items r ↔ IsPointOf self.now r) }
        ensures own { IfOk result (λ spots. HaveOwnIds spots.items) }
    {
        let mut spots = Vec::with_capacity(alloc, self.count())?;
        for (key, node) in self.nodes.iter() {
            if node.live {
                spots.push(node.spot)?;
            }
        }
        Ok(spots)
    }

    /// A balanced tree of these points.
    pub fn of_points(alloc: Global, spots: &mut [Spot]) -> Result<Tree, NoMemory>
        requires { HaveOwnIds spots.old }
        ensures { IfOk result (IsMadeOf spots.old) }
    {
        let mut tree = Tree::with_capacity(alloc, spots.len())?;
        tree.insert_all(spots, Seat::Empty)?;
        tree.settle();
        Ok(tree)
    }

    /// A balanced tree of the same points, without dead nodes.
    pub fn rebuilt(&self, alloc: Global) -> Result<Tree, NoMemory>
        requires { IsSound self.now }
        ensures { IfOk result (IsRebuilt self.now) }
    {
        let mut spots = self.points(alloc)?;
        Tree::of_points(alloc, &mut spots)
    }
}
