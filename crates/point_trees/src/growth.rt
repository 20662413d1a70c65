ghost use Rattle.std.specs.Prelude.{◌≡◌, ◌≢◌, ◌+◌, ◌<◌, ◌≤◌, ℕ, true, false, Bool, ℤ, cond, is_some, Some, None, OnOk, OnErr, IfOk, ◌⊎◌};
ghost use Rattle.std.specs.Ordering.{int_eq};
ghost use Rattle.gx_base.specs.States.{with_row};
ghost use Rattle.slab.specs.Slab.{slab_len, Updates};
ghost use Rattle.point_trees.specs.Trees as trees;
ghost use Rattle.point_trees.specs.declared.nodes.Node.{Node};
ghost use Rattle.point_trees.specs.TreeStates.{node_at, key_of, place, tree_state, count_of, dead_nodes, IsSound, IsAlike, IsPlanted, HangsBelow, IsClear, has_node, NoPoint, KeepsNodes, KeepsCounts, AddsNode};

use crate::nodes::{Axis, Node, Seat, crossed, leaf, link};
use crate::tree::Tree;
use gx_base::{NoMemory, Spot};

impl Tree {
    /// Writes a node in the place of another.
    pub(crate) fn rewrite(&mut self, key: usize, node: Node)
        requires { is_some (node_at self.old key) ≡ true }
        ensures nodes { Updates self.old.nodes self.new.nodes key (Some node) }
        ensures count { slab_len self.new.nodes ≡ slab_len self.old.nodes }
        ensures rest { self.new ≡ record self.old { nodes = self.new.nodes } }
    {
        self.nodes.remove(key);
        self.nodes.insert_reserved(node);
    }

    /// Marks a node as live or dead.
    fn mark(&mut self, key: usize, live: bool)
        requires { is_some (node_at self.old key) ≡ true }
        ensures nodes { (n : Node) → node_at self.old key ≡ Some n → Updates self.old.nodes self.new.nodes key (Some (record n { live = live })) }
        ensures count { slab_len self.new.nodes ≡ slab_len self.old.nodes }
        ensures rest { self.new ≡ record self.old { nodes = self.new.nodes } }
    {
        let node = self.node_in(key);
        self.rewrite(key, Node { live, ..node });
    }

    /// Takes the point of a number out, where there is one: its node stays, and is dead.
    pub fn take_out(&mut self, id: i64)
        requires { IsSound self.old }
        ensures sound { IsSound self.new }
        ensures state { tree_state self.new ≡ with_row (tree_state self.old) (0, id) None }
        ensures kept { KeepsNodes self.old self.new }
        ensures counts { KeepsCounts self.old self.new }
    {
        match self.owner(id) {
            None => {}
            Some(key) => {
                self.mark(key, false);
                self.live -= 1;
                self.bury(key);
            }
        }
    }

    /// Notes the key of a number that has one.
    fn number(&mut self, id: i64, key: usize)
        requires { is_some (key_of self.old id) ≡ true }
        ensures keys { (x : ℤ) → key_of self.new x ≡ cond (int_eq id x) (Some key) (key_of self.old x) }
        ensures rest { self.new ≡ record self.old { numbers = self.new.numbers } }
    {
        self.numbers.insert(id, key).unwrap();
    }

    fn count_one(&mut self)
        requires { count_of (tree_state self.old) ≡ self.old.live + 1 }
        ensures { self.new ≡ record self.old { live = self.old.live + 1 } }
    {
        let numbers = self.numbers.len();
        prove!(self.live < numbers);
        self.live += 1;
    }

    /// Makes a spot's node live, where its number has no point.
    fn wake(&mut self, key: usize, spot: Spot)
        requires sound { IsSound self.old }
        requires free { NoPoint self.old spot.id }
        requires there { trees.IsSeat (node_at self.old) self.old.root spot (Seat.Found key) }
        requires clear { IsClear self.old spot }
        ensures sound { IsSound self.new }
        ensures state { tree_state self.new ≡ with_row (tree_state self.old) (0, spot.id) (Some (place spot)) }
        ensures kept { KeepsNodes self.old self.new }
        ensures counts { KeepsCounts self.old self.new }
    {
        self.mark(key, true);
        self.number(spot.id, key);
        self.count_one();
    }

    /// Puts a point where the tree has a node for it, in place of any of the same number.
    pub fn put_back(&mut self, spot: Spot)
        requires sound { IsSound self.old }
        requires there { has_node self.old spot ≡ true }
        ensures sound { IsSound self.new }
        ensures state { tree_state self.new ≡ with_row (tree_state self.old) (0, spot.id) (Some (place spot)) }
        ensures kept { KeepsNodes self.old self.new }
        ensures counts { KeepsCounts self.old self.new }
    {
        self.take_out(spot.id);
        self.clear_way(spot);
        if let Seat::Found(key) = self.seek(spot) {
            self.wake(key, spot);
        }
    }

    /// Puts a new node in, and answers its key. No other node leads to it yet.
    fn plant(&mut self, node: Node) -> Result<usize, NoMemory>
        ensures ok { IfOk result (λ key. IsPlanted self.old self.new key node) }
        ensures err { OnErr result (IsAlike self.old self.new) }
    {
        self.numbers.reserve(1)?;
        let key = self.nodes.insert(node)?;
        self.numbers.insert(node.spot.id, key).unwrap();
        self.grown = self.grown.saturating_add(1);
        Ok(key)
    }

    /// Puts a new node on the free side of another, and answers its key.
    fn hang(&mut self, spot: Spot, axis: Axis, at: usize, left: bool) -> Result<usize, NoMemory>
        requires sound { IsSound self.old }
        requires free { NoPoint self.old spot.id }
        requires seat { trees.IsSeat (node_at self.old) self.old.root spot (Seat.Free at left) }
        requires clear { IsClear self.old spot }
        ensures sound { IsSound self.new }
        ensures ok { OnOk result (tree_state self.new ≡ with_row (tree_state self.old) (0, spot.id) (Some (place spot))) }
        ensures room { OnOk result (has_node self.new spot ≡ true) }
        ensures dead { OnOk result (dead_nodes self.new ≤ dead_nodes self.old) }
        ensures below { IfOk result (HangsBelow self.old self.new (Seat.Free at left) spot axis) }
        ensures err { OnErr result (tree_state self.new ≡ tree_state self.old) }
        ensures refused { OnErr result (KeepsCounts self.old self.new) }
        ensures kept { KeepsNodes self.old self.new }
    {
        let parent = self.node_in(at);
        let nodes = self.nodes.len();
        prove!(parent.depth < nodes);
        let key = self.plant(leaf(axis, spot, parent.depth + 1, at))?;
        self.rewrite(at, link(parent, left, key));
        self.count_one();
        Ok(key)
    }

    /// Puts the first node in, and answers its key.
    fn found_root(&mut self, spot: Spot, axis: Axis) -> Result<usize, NoMemory>
        requires sound { IsSound self.old }
        requires free { NoPoint self.old spot.id }
        requires empty { self.old.root ≡ None }
        ensures sound { IsSound self.new }
        ensures ok { OnOk result (tree_state self.new ≡ with_row (tree_state self.old) (0, spot.id) (Some (place spot))) }
        ensures room { OnOk result (has_node self.new spot ≡ true) }
        ensures dead { OnOk result (dead_nodes self.new ≤ dead_nodes self.old) }
        ensures below { IfOk result (HangsBelow self.old self.new Seat.Empty spot axis) }
        ensures err { OnErr result (tree_state self.new ≡ tree_state self.old) }
        ensures refused { OnErr result (KeepsCounts self.old self.new) }
        ensures kept { KeepsNodes self.old self.new }
    {
        let key = self.plant(leaf(axis, spot, 0, 0))?;
        self.root = Some(key);
        self.count_one();
        Ok(key)
    }

    /// Puts a new node in where its spot belongs, and answers its key.
    pub(crate) fn insert_at(
        &mut self,
        spot: Spot,
        axis: Axis,
        seat: Seat,
    ) -> Result<usize, NoMemory>
        requires sound { IsSound self.old }
        requires free { NoPoint self.old spot.id }
        requires seat { trees.IsSeat (node_at self.old) self.old.root spot seat }
        requires open { trees.is_found seat ≡ false }
        requires clear { IsClear self.old spot }
        ensures sound { IsSound self.new }
        ensures ok { OnOk result (tree_state self.new ≡ with_row (tree_state self.old) (0, spot.id) (Some (place spot))) }
        ensures room { OnOk result (has_node self.new spot ≡ true) }
        ensures dead { OnOk result (dead_nodes self.new ≤ dead_nodes self.old) }
        ensures below { IfOk result (HangsBelow self.old self.new seat spot axis) }
        ensures err { OnErr result (tree_state self.new ≡ tree_state self.old) }
        ensures kept { KeepsNodes self.old self.new }
    {
        match seat {
            Seat::Found(_) => unreachable!(),
            Seat::Free(at, left) => self.hang(spot, axis, at, left),
            Seat::Empty => self.found_root(spot, axis),
        }
    }

    /// Puts a point in, whose number has none.
    pub fn insert(&mut self, spot: Spot) -> Result<(), NoMemory>
        requires sound { IsSound self.old }
        requires free { NoPoint self.old spot.id }
        ensures sound { IsSound self.new }
        ensures ok { OnOk result (tree_state self.new ≡ with_row (tree_state self.old) (0, spot.id) (Some (place spot))) }
        ensures room { OnOk result (has_node self.new spot ≡ true) }
        ensures err { OnErr result (tree_state self.new ≡ tree_state self.old) }
        ensures grown { KeepsCounts self.old self.new ⊎ AddsNode self.old self.new }
        ensures kept { KeepsNodes self.old self.new }
    {
        self.clear_way(spot);
        match self.seek(spot) {
            Seat::Found(key) => self.wake(key, spot),
            Seat::Free(at, left) => {
                let axis = crossed(self.node_in(at).axis);
                self.hang(spot, axis, at, left)?;
            }
            Seat::Empty => {
                self.found_root(spot, Axis::X)?;
            }
        }
        Ok(())
    }
}
