ghost use Rattle.std.specs.Prelude.{◌≡◌, ◌<◌, ◌+◌, ◌^◌, ℤ, ◌++◌, Bool, true, false, length, drop, slice_get, OnSome, IfOk, OnOk};
ghost use Rattle.std.specs.Option.{option_to_list};
ghost use Rattle.preflow_push.specs.Touching.{touch_of, touching};

use flow_files::Arc;
use gx_base::NoMemory;
use indexmap::IndexMap;
use std::alloc::Global;

/// An arc as one of its ends sees it.
#[derive(Clone, Copy, Drop)]
pub struct Touch {
    pub number: i64,
    /// The arc's other end.
    pub other: i64,
    pub cap: i64,
    /// Whether the arc leaves this end, and doesn't enter it.
    pub leaves: bool,
}

/// For each node the arcs that touch it, by rising number.
#[derive(Drop)]
pub struct Touches {
    lists: IndexMap<i64, Vec<Touch>>,
}

impl Touches {
    ghost use Rattle.preflow_push.specs.TouchLists.{list_at, touches_of, IsAdded};

    /// The arcs that touch each node.
    pub fn new(alloc: Global, arcs: &[Arc]) -> Result<Touches, NoMemory>
        ensures { IfOk result (λ made. (node : ℤ) → touches_of made node ≡ touching node arcs.now) }
    {
        let mut touches = Touches {
            lists: IndexMap::new(alloc),
        };
        for (at, arc) in arcs.iter().enumerate() {
            touches.add_arc(alloc, at as i64 + 1, arc)?;
        }
        Ok(touches)
    }

    fn add_arc(&mut self, alloc: Global, number: i64, arc: &Arc) -> Result<(), NoMemory>
        ensures { OnOk result ((node : ℤ) → touches_of self.new node ≡ touches_of self.old node ++ option_to_list (touch_of node number arc.now)) }
    {
        self.add(
            alloc,
            arc.from,
            Touch {
                number,
                other: arc.to,
                cap: arc.cap,
                leaves: true,
            },
        )?;
        if arc.to == arc.from {
            return Ok(());
        }
        self.add(
            alloc,
            arc.to,
            Touch {
                number,
                other: arc.from,
                cap: arc.cap,
                leaves: false,
            },
        )
    }

    fn add(&mut self, alloc: Global, node: i64, touch: Touch) -> Result<(), NoMemory>
        ensures { OnOk result (IsAdded self.old self.new node touch) }
    {
        match self.lists.get_mut(&node) {
            Some(list) => {
                list.push(touch)?;
                Ok(())
            }
            None => {
                let mut list = Vec::new(alloc);
                list.push(touch)?;
                self.lists.insert(node, list)?;
                Ok(())
            }
        }
    }

    /// The number of a node's list. A node that no arc touches has one that isn't there.
    pub fn list_of(&self, node: i64) -> usize
        ensures { list_at self.now result ≡ touches_of self.now node }
    {
        match self.lists.get_index_of(&node) {
            Some(list) => list,
            None => self.lists.len(),
        }
    }

    /// The arc at a place of a list.
    pub fn arc_at(&self, list: usize, at: usize) -> Option<Touch>
        ensures arc { result ≡ slice_get (list_at self.now list) at }
        ensures next { OnSome result (at + 1 < 2 ^ 64) }
    {
        match self.lists.get_index(list) {
            Some((_, arcs)) => arcs.get(at).copied(),
            None => None,
        }
    }

    /// How many arcs a list has from a place on.
    pub fn count_from(&self, list: usize, at: usize) -> usize
        ensures count { result ≡ length (drop at (list_at self.now list)) }
        ensures few { result < 2 ^ 60 }
    {
        match self.lists.get_index(list) {
            Some((_, arcs)) => arcs.as_slice().len().saturating_sub(at),
            None => 0,
        }
    }
}
