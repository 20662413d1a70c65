ghost use Rattle.std.specs.Prelude.{◌≡◌, ◌≢◌, ◌≤◌, pos, true, IsTrue, IsOk, IfOk, OnOk, OnErr, if◌then◌else◌};
ghost use Rattle.std.specs.FinMap as map;
ghost use Rattle.std.proofs.Props.{props};
ghost use Rattle.point_trees.specs.TreeStates.{IsSound};

use crate::choosing::chosen_points;
use crate::point_calls::{at_reply, is_addable, is_at, nearest_reply, spot_of_call, yes_or_no};
use crate::point_methods::{PointDeed, deed_of};
use crate::point_shipping::point_table;
use gx_base::{Call, Choice, Kind, NoMemory, Reply, SeqType, Spot, Table};
use point_trees::{Tree, nearest};
use std::alloc::Global;

/// Points by number. A point is found by its number, or as the nearest one to a spot.
#[derive(Drop)]
pub struct KdPoints {
    tree: Tree,
    // how many distances `nearest` has taken
    looked: u64,
    alloc: Global,
    ghost sound: { IsSound tree } by { Prim.hlevel props },
}

impl KdPoints {
    ghost use Rattle.gx_base.specs.declared.calls.Made.{Made};
    ghost use Rattle.gx_base.specs.declared.kinds.Kind.TheVariants.{Points};
    ghost use Rattle.gx_base.specs.Kinds.{kind_number};
    ghost use Rattle.gx_base.specs.PointKind.{spot_at, Add, Remove, Nearest, point_action, may_add, point_row_of};
    ghost use Rattle.gx_base.specs.RowActions.{turns, action_next, action_reply, action_inverse};
    ghost use Rattle.gx_base.specs.Spots as near;
    ghost use Rattle.gx_base.specs.States.{with_row};
    ghost use Rattle.point_trees.specs.TreeStates.{count_of, has_node};
    ghost use Rattle.kd_points.specs.PointsState.{points_state, distances_taken, change_of, changed_room, has_points_room, added_points, dead_nodes_of, IsTrim, IsBalanced};

    /// No points.
    pub fn new(alloc: Global) -> KdPoints
        ensures state { points_state result ≡ record { kind = kind_number Points; rows = map.empty } }
        ensures looked { distances_taken result ≡ 0 }
    {
        KdPoints {
            tree: Tree::new(alloc),
            looked: 0,
            alloc,
        }
    }

    /// The points of a list, added in order, in a balanced tree.
    pub fn with_points(alloc: Global, spots: &[Spot]) -> Result<KdPoints, NoMemory>
        ensures state { IfOk result (λ points. points_state points ≡ added_points spots.now) }
        ensures looked { IfOk result (λ points. distances_taken points ≡ 0) }
        ensures trim { IfOk result IsTrim }
        ensures dropped { IfOk result (λ points. dead_nodes_of points ≡ 0) }
        ensures balanced { IfOk result IsBalanced }
    {
        let mut points = chosen_points(alloc, spots)?;
        Ok(KdPoints {
            tree: Tree::of_points(alloc, &mut points)?,
            looked: 0,
            alloc,
        })
    }

    /// Makes the tree anew, of the points that there are.
    fn rebuild(&mut self) -> Result<(), NoMemory>
        ensures state { points_state self.new ≡ points_state self.old }
        ensures looked { distances_taken self.new ≡ distances_taken self.old }
        ensures trim { OnOk result (IsTrim self.new) }
        ensures dropped { OnOk result (dead_nodes_of self.new ≡ 0) }
        ensures balanced { OnOk result (IsBalanced self.new) }
        ensures refused { OnErr result (self.new ≡ self.old) }
    {
        let tree = self.tree.rebuilt(self.alloc)?;
        self.tree = tree;
        Ok(())
    }

    /// The point of a number.
    pub fn at(&self, id: i64) -> Option<Spot>
        ensures { result ≡ spot_at (points_state self.now) id }
    {
        self.tree.at(id)
    }

    /// How many points there are.
    pub fn count(&self) -> u64
        ensures { result ≡ count_of (points_state self.now) }
    {
        self.tree.count() as u64
    }

    /// How many times `nearest`, in calls of `apply`, has taken the distance to a point of the tree. At the greatest
    /// number of 64 bits the count stays.
    pub fn looked(&self) -> u64
        ensures { result ≡ distances_taken self.now }
    {
        self.looked
    }

    /// Whether an add would change anything.
    fn may_be_added(&self, call: Call) -> bool
        ensures { result ≡ turns (may_add call) None (points_state self.now) call.a }
    {
        match self.tree.at(call.a) {
            None => is_addable(call),
            Some(_) => false,
        }
    }

    /// Whether a remove would change anything.
    fn holds(&self, call: Call) -> bool
        ensures { result ≡ turns true (point_row_of call) (points_state self.now) call.a }
    {
        match self.tree.at(call.a) {
            None => false,
            Some(point) => is_at(point, call),
        }
    }

    fn add(&mut self, call: Call) -> Result<Reply, NoMemory>
        ensures reply { IfOk result (λ reply. reply ≡ action_reply (point_action Add call) (points_state self.old) call.a) }
        ensures ok { OnOk result (points_state self.new ≡ action_next (point_action Add call) (points_state self.old) call.a) }
        ensures room { IfOk result (λ reply. IsTrue (changed_room (has_node self.new.tree (near.spot_of_call call)) reply)) }
        ensures err { OnErr result (points_state self.new ≡ points_state self.old) }
        ensures kept { (made : Made) → IsTrue (has_points_room self.old made) → IsTrue (has_points_room self.new made) }
        ensures looked { distances_taken self.new ≡ distances_taken self.old }
    {
        if !self.may_be_added(call) {
            return Ok(yes_or_no(false));
        }
        self.tree.insert(spot_of_call(call))?;
        Ok(yes_or_no(true))
    }

    fn remove(&mut self, call: Call) -> Reply
        ensures reply { result ≡ action_reply (point_action Remove call) (points_state self.old) call.a }
        ensures state { points_state self.new ≡ action_next (point_action Remove call) (points_state self.old) call.a }
        ensures room { IsTrue (changed_room (has_node self.new.tree (near.spot_of_call call)) result) }
        ensures kept { (made : Made) → IsTrue (has_points_room self.old made) → IsTrue (has_points_room self.new made) }
        ensures looked { distances_taken self.new ≡ distances_taken self.old }
    {
        if !self.holds(call) {
            return yes_or_no(false);
        }
        self.tree.take_out(call.a);
        yes_or_no(true)
    }

    fn find_nearest(&mut self, call: Call) -> Result<Reply, NoMemory>
        ensures reply { IfOk result (λ reply. reply ≡ action_reply (point_action Nearest call) (points_state self.old) call.a) }
        ensures state { points_state self.new ≡ points_state self.old }
        ensures kept { (made : Made) → IsTrue (has_points_room self.old made) → IsTrue (has_points_room self.new made) }
        ensures rises { distances_taken self.old ≤ distances_taken self.new }
        ensures err { OnErr result (self.new ≡ self.old) }
    {
        let found = nearest(&self.tree, self.alloc, spot_of_call(call))?;
        self.looked = self.looked.saturating_add(found.taken);
        Ok(nearest_reply(found.nearest))
    }

    /// Takes the point of a call out, or puts it where the tree has a node for it.
    fn set_point(&mut self, call: Call, there: bool)
        requires { has_node self.old.tree (near.spot_of_call call) ≡ true }
        ensures state { points_state self.new ≡ with_row (points_state self.old) (0, call.a) (if there then point_row_of call else None) }
        ensures kept { (made : Made) → IsTrue (has_points_room self.old made) → IsTrue (has_points_room self.new made) }
        ensures looked { distances_taken self.new ≡ distances_taken self.old }
    {
        if there {
            self.tree.put_back(spot_of_call(call));
        } else {
            self.tree.take_out(call.a);
        }
    }

    /// Takes a call back that replied this: one that changed nothing has nothing to take back.
    fn turn_back(&mut self, call: Call, reply: Reply, added: bool)
        requires { IsTrue (changed_room (has_node self.old.tree (near.spot_of_call call)) reply) }
        ensures state { points_state self.new ≡ action_inverse (change_of added call) (points_state self.old) call.a reply }
        ensures kept { (made : Made) → IsTrue (has_points_room self.old made) → IsTrue (has_points_room self.new made) }
        ensures looked { distances_taken self.new ≡ distances_taken self.old }
    {
        if reply.p == 1 {
            self.set_point(call, !added);
        }
    }

    /// Does a call again that replies here what it replied before.
    fn turn_again(&mut self, call: Call, reply: Reply, added: bool)
        requires room { IsTrue (changed_room (has_node self.old.tree (near.spot_of_call call)) reply) }
        requires reply { action_reply (change_of added call) (points_state self.old) call.a ≡ reply }
        ensures state { points_state self.new ≡ action_next (change_of added call) (points_state self.old) call.a }
        ensures kept { (made : Made) → IsTrue (has_points_room self.old made) → IsTrue (has_points_room self.new made) }
        ensures looked { distances_taken self.new ≡ distances_taken self.old }
    {
        if reply.p != 1 {
            return;
        }
        self.set_point(call, added);
    }
}

#[tactic(auto, unfolding(gx_base::specs::Steps::next_state, gx_base::specs::Steps::reply_to, gx_base::specs::Steps::inverse, gx_base::specs::Steps::observed))]
impl SeqType for KdPoints {
    ghost use Rattle.gx_base.specs.declared.calls.Made.{Made};
    ghost use Rattle.gx_base.specs.PointKind.{point_deed, Nearest};
    ghost use Rattle.gx_base.specs.ShippedTables.{IsShipped};
    ghost use Rattle.gx_base.specs.Steps.{next_state, reply_to, inverse};
    ghost use Rattle.kd_points.specs.PointTables.{point_tables};
    ghost use Rattle.kd_points.specs.PointsState.{points_state, distances_taken, has_points_room, dead_nodes_of, IsTrim, IsBalanced, holds_points, foreign-has_points_room, points_state-IsState};
    ghost use Rattle.kd_points.specs.SuitedTables.{point_tables-SuitKind};

    ghost state = { points_state };

    ghost has_room = { has_points_room };

    ghost holds_kind = { holds_points };

    ghost tables = { λ kind. point_tables };

    ghost known = { points_state-IsState };

    ghost foreign_roomed = { foreign-has_points_room };

    ghost tables_suit = { point_tables-SuitKind };

    fn apply(&mut self, call: Call) -> Result<Reply, NoMemory>
        ensures reply { IfOk result (λ reply. reply ≡ reply_to (points_state self.old) call) }
        ensures ok { OnOk result (points_state self.new ≡ next_state (points_state self.old) call) }
        ensures room { IfOk result (λ reply. IsTrue (has_points_room self.new (record { call = call; reply = reply }))) }
        ensures err { OnErr result (points_state self.new ≡ points_state self.old) }
        ensures kept { (made : Made) → IsTrue (has_points_room self.old made) → IsTrue (has_points_room self.new made) }
        ensures looked { point_deed call.method ≢ Nearest → distances_taken self.new ≡ distances_taken self.old }
        ensures rises { distances_taken self.old ≤ distances_taken self.new }
        ensures refused { OnErr result (distances_taken self.new ≡ distances_taken self.old) }
    {
        match deed_of(call.method) {
            None => Ok(yes_or_no(false)),
            Some(PointDeed::Add) => self.add(call),
            Some(PointDeed::Remove) => Ok(self.remove(call)),
            Some(PointDeed::At) => Ok(at_reply(self.at(call.a))),
            Some(PointDeed::Nearest) => self.find_nearest(call),
        }
    }

    fn roomed(&self, call: Call, reply: Reply) -> bool {
        match deed_of(call.method) {
            None | Some(PointDeed::At | PointDeed::Nearest) => true,
            Some(PointDeed::Add | PointDeed::Remove) => {
                reply.p != 1 || self.tree.has_node(spot_of_call(call))
            }
        }
    }

    fn undo(&mut self, call: Call, reply: Reply)
        requires { IsTrue (has_points_room self.old (record { call = call; reply = reply })) }
        ensures state { points_state self.new ≡ inverse (points_state self.old) call reply }
        ensures kept { (made : Made) → IsTrue (has_points_room self.old made) → IsTrue (has_points_room self.new made) }
        ensures looked { distances_taken self.new ≡ distances_taken self.old }
    {
        match deed_of(call.method) {
            None | Some(PointDeed::At | PointDeed::Nearest) => {}
            Some(PointDeed::Add) => self.turn_back(call, reply, true),
            Some(PointDeed::Remove) => self.turn_back(call, reply, false),
        }
    }

    fn redo(&mut self, call: Call, reply: Reply)
        requires room { IsTrue (has_points_room self.old (record { call = call; reply = reply })) }
        requires reply { reply_to (points_state self.old) call ≡ reply }
        ensures state { points_state self.new ≡ next_state (points_state self.old) call }
        ensures kept { (made : Made) → IsTrue (has_points_room self.old made) → IsTrue (has_points_room self.new made) }
        ensures looked { distances_taken self.new ≡ distances_taken self.old }
    {
        match deed_of(call.method) {
            None | Some(PointDeed::At | PointDeed::Nearest) => {}
            Some(PointDeed::Add) => self.turn_again(call, reply, true),
            Some(PointDeed::Remove) => self.turn_again(call, reply, false),
        }
    }

    fn observe(&self, _x: i64) -> i64 {
        0
    }

    // Does nothing at all where the tree is lean already.
    fn tidy(&mut self) -> Result<(), NoMemory>
        ensures state { points_state self.new ≡ points_state self.old }
        ensures looked { distances_taken self.new ≡ distances_taken self.old }
        ensures trim { OnOk result (IsTrim self.new) }
        ensures dropped { ¬ (IsTrim self.old) → OnOk result (dead_nodes_of self.new ≡ 0) }
        ensures balanced { ¬ (IsTrim self.old) → OnOk result (IsBalanced self.new) }
        ensures idle { IsTrim self.old → IsOk result × (self.new ≡ self.old) }
        ensures refused { OnErr result (self.new ≡ self.old) }
    {
        if self.tree.is_lean() {
            return Ok(());
        }
        self.rebuild()
    }

    fn shipped(alloc: Global, kind: Kind, choice: Choice) -> Result<Table, NoMemory>
        ensures { IfOk result (IsShipped (holds_points kind) point_tables choice) }
    {
        match kind {
            Kind::Points => point_table(alloc, choice),
            _ => Ok(Table::blank(alloc)),
        }
    }
}
