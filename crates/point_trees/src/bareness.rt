ghost use Rattle.std.specs.Prelude.{◌≡◌, true, false, Option, Some, None, is_some, IfSome, IfNone};
ghost use Rattle.slab.specs.Slab.{Updates};
ghost use Rattle.point_trees.specs.Trees.{is_bare, all_bare};
ghost use Rattle.point_trees.specs.TreeStates.{node_at, tree_state, IsSound, IsClear, KeepsNodes, KeepsCounts, IsVeiled};

use crate::nodes::{Node, child, is_left};
use crate::tree::Tree;
use gx_base::Spot;

impl Tree {
    /// The node of a key, where something may be live under it.
    pub(crate) fn node_with_points(&self, key: usize) -> Option<Node>
        ensures some { IfSome result (λ n. node_at self.now key ≡ Some n) }
        ensures none { IfNone result (is_bare (node_at self.now key) ≡ true) }
    {
        match self.node(key) {
            None => None,
            Some(node) => if node.bare { None } else { Some(node) },
        }
    }

    /// Whether nothing is live under a child, or there is none.
    fn is_bare_side(&self, side: Option<usize>) -> bool
        ensures { result ≡ all_bare (node_at self.now) side }
    {
        match side {
            None => true,
            Some(key) => match self.node(key) {
                None => true,
                Some(node) => node.bare,
            },
        }
    }

    /// Notes whether nothing is live under a node.
    fn note_bare(&mut self, key: usize, node: Node, bare: bool)
        requires { node_at self.old key ≡ Some node }
        ensures { IsVeiled self.old self.new key bare }
    {
        self.rewrite(key, Node { bare, ..node });
    }

    /// Notes that something may be live under a node.
    fn unveil(&mut self, key: usize, node: Node)
        requires { node_at self.old key ≡ Some node }
        ensures { IsVeiled self.old self.new key false }
    {
        if node.bare {
            self.note_bare(key, node, false);
        }
    }

    /// Notes that nothing is live under a node, where that is so, and answers the node above it.
    fn bury_one(&mut self, key: usize) -> Option<usize>
        requires { IsSound self.old }
        ensures sound { IsSound self.new }
        ensures state { tree_state self.new ≡ tree_state self.old }
        ensures kept { KeepsNodes self.old self.new }
        ensures counts { KeepsCounts self.old self.new }
    {
        let node = self.node(key)?;
        if node.live
            || node.bare
            || !self.is_bare_side(node.left)
            || !self.is_bare_side(node.right)
        {
            return None;
        }
        self.note_bare(key, node, true);
        Some(node.up)
    }

    /// Notes where nothing is live any more, from a node that has died upwards.
    pub(crate) fn bury(&mut self, key: usize)
        requires { IsSound self.old }
        ensures sound { IsSound self.new }
        ensures state { tree_state self.new ≡ tree_state self.old }
        ensures kept { KeepsNodes self.old self.new }
        ensures counts { KeepsCounts self.old self.new }
    {
        let mut at = key;
        // no way is longer than there are nodes
        for _ in 0..self.nodes.len() {
            match self.bury_one(at) {
                None => return,
                Some(above) => at = above,
            }
        }
    }

    /// Notes that something may be live under each node on a spot's way.
    pub(crate) fn clear_way(&mut self, spot: Spot)
        requires { IsSound self.old }
        ensures sound { IsSound self.new }
        ensures state { tree_state self.new ≡ tree_state self.old }
        ensures kept { KeepsNodes self.old self.new }
        ensures counts { KeepsCounts self.old self.new }
        ensures clear { IsClear self.new spot }
    {
        let mut at = match self.root {
            None => return,
            Some(root) => root,
        };
        'walk: loop {
            let node = self.node_in(at);
            self.unveil(at, node);
            match child(node, is_left(node, spot)) {
                None => return,
                Some(next) => at = next,
            }
        }
    }
}
