ghost use Rattle.std.specs.Prelude.{◌≡◌, ◌≢◌, ◌<◌, ◌≤◌, true, is_some, Some, None, OnOk, OnErr, IfOk, IfSome, IfNone, IsTrue, ◌↔◌};
ghost use Rattle.gx_base.specs.declared.calls.Spot.{Spot as a_spot};
ghost use Rattle.gx_base.specs.PointKind.{spot_at};
ghost use Rattle.gx_base.specs.States.{with_row, row_at};
ghost use Rattle.slab.specs.Slab.{get, slab_len, Updates};
ghost use Rattle.point_trees.specs.Trees.{IsSeat, is_found, IsOwner};
ghost use Rattle.point_trees.specs.TreeStates.{node_at, key_of, place, tree_state, count_of, IsSound, has_node, NoPoint, IsBlank};
ghost use Rattle.point_trees.specs.Rebuilding.{IsLeanTree};

use crate::nodes::{Node, Seat, child, is_left, is_point_of, is_same};
use crate::rebuild::LEAST_REBUILT;
use gx_base::{NoMemory, Spot};
use indexmap::IndexMap;
use slab::Slab;
use std::alloc::Global;

/// A tree of points, with the key of each number's node.
#[derive(Drop)]
pub struct Tree {
    pub(crate) nodes: Slab<Node>,
    pub(crate) root: Option<usize>,
    pub(crate) numbers: IndexMap<i64, usize>,
    // how many points there are
    pub(crate) live: usize,
    // how many nodes were put in one by one
    pub(crate) grown: usize,
}

impl Tree {
    pub fn new(alloc: Global) -> Tree
        ensures { IsBlank result }
    {
        Tree {
            nodes: Slab::new(alloc),
            root: None,
            numbers: IndexMap::new(alloc),
            live: 0,
            grown: 0,
        }
    }

    /// A tree with room for so many points.
    pub(crate) fn with_capacity(alloc: Global, points: usize) -> Result<Tree, NoMemory>
        ensures { IfOk result IsBlank }
    {
        Ok(Tree {
            nodes: Slab::with_capacity(alloc, points)?,
            root: None,
            numbers: IndexMap::with_capacity(alloc, points)?,
            live: 0,
            grown: 0,
        })
    }

    pub(crate) fn root(&self) -> Option<usize>
        ensures { result ≡ self.now.root }
    {
        self.root
    }

    /// How many points there are.
    pub fn count(&self) -> usize
        requires { IsSound self.now }
        ensures { result ≡ count_of (tree_state self.now) }
    {
        self.live
    }

    /// Whether a rebuild would be for little.
    pub fn is_lean(&self) -> bool
        ensures { IsTrue result ↔ IsLeanTree self.now }
    {
        let nodes = self.nodes.len();
        let half = nodes / 2;
        nodes < LEAST_REBUILT || (nodes.saturating_sub(self.live) <= half && self.grown <= half)
    }

    /// From now on the nodes count as put in at once.
    pub(crate) fn settle(&mut self)
        ensures { self.new ≡ record self.old { grown = 0 } }
    {
        self.grown = 0;
    }

    /// The node of a key.
    pub(crate) fn node(&self, key: usize) -> Option<Node>
        ensures { result ≡ node_at self.now key }
    {
        self.nodes.get(key).copied()
    }

    /// The node of a key that has one.
    pub(crate) fn node_in(&self, key: usize) -> Node
        requires { is_some (node_at self.now key) ≡ true }
        ensures { node_at self.now key ≡ Some result }
    {
        self.nodes[key]
    }

    fn found(&self, id: i64) -> Option<usize>
        ensures { result ≡ key_of self.now id }
    {
        match self.numbers.get(&id) {
            Some(key) => Some(*key),
            None => None,
        }
    }

    /// The key of the live node of a number.
    pub(crate) fn owner(&self, id: i64) -> Option<usize>
        ensures some { IfSome result (λ key. IsOwner (node_at self.now) (key_of self.now) id key) }
        ensures none { IfNone result (NoPoint self.now id) }
    {
        let key = match self.found(id) {
            None => return None,
            Some(key) => key,
        };
        let node = match self.node(key) {
            None => return None,
            Some(node) => node,
        };
        if is_point_of(node, id) {
            Some(key)
        } else {
            None
        }
    }

    /// The point of a number.
    pub fn at(&self, id: i64) -> Option<Spot>
        ensures { result ≡ spot_at (tree_state self.now) id }
    {
        match self.owner(id) {
            None => None,
            Some(key) => Some(self.node_in(key).spot),
        }
    }

    /// Where a spot belongs: its way from the root.
    pub(crate) fn seek(&self, spot: Spot) -> Seat
        requires { IsSound self.now }
        ensures seat { IsSeat (node_at self.now) self.now.root spot result }
        ensures found { is_found result ≡ has_node self.now spot }
    {
        let mut at = match self.root {
            None => return Seat::Empty,
            Some(root) => root,
        };
        'walk: loop {
            let node = self.node_in(at);
            if is_same(node.spot, spot) {
                return Seat::Found(at);
            }
            let left = is_left(node, spot);
            match child(node, left) {
                None => return Seat::Free(at, left),
                Some(next) => at = next,
            }
        }
    }

    /// Whether the tree has a node for the spot, live or not.
    pub fn has_node(&self, spot: Spot) -> bool
        requires { IsSound self.now }
        ensures { result ≡ has_node self.now spot }
    {
        match self.seek(spot) {
            Seat::Found(_) => true,
            _ => false,
        }
    }
}
