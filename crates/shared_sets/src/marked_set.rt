ghost use Rattle.std.specs.Prelude.{◌≡◌, pos, not, is_some, IsTrue, IsOk, IfOk, OnOk, OnErr, if◌then◌else◌};
ghost use Rattle.std.specs.FinMap as map;
ghost use Rattle.std.specs.Ordering.{int_eq};
ghost use Rattle.gx_base.specs.declared.calls.Made.{Made};
ghost use Rattle.gx_base.specs.declared.kinds.Kind.TheVariants.{Set};
ghost use Rattle.gx_base.specs.Kinds.{kind_number};
ghost use Rattle.gx_base.specs.Meanings.{number_reply as reply_of};
ghost use Rattle.gx_base.specs.RowActions.{action_next, action_reply, action_inverse};
ghost use Rattle.gx_base.specs.ShippedTables.{IsShipped};
ghost use Rattle.gx_base.specs.States.{row_at, with_row};
ghost use Rattle.number_rows.specs.NumberRows.{IsLean, dead_rows};
ghost use Rattle.shared_sets.specs.SetRows.{row_if};
ghost use Rattle.shared_sets.specs.SetState.{set_state, has_mark, turn_to, turned_room, has_set_room, holds_sets};
ghost use Rattle.shared_sets.specs.SetTables.{set_tables};

use crate::set_methods::{SetDeed, deed_of};
use crate::set_shipping::set_table;
use gx_base::{Call, Choice, Kind, NoMemory, Reply, SeqType, Table};
use number_rows::NumberRows;
use std::alloc::Global;

/// A set of numbers. The row of a number is marked while the number is in the set.
#[derive(Drop)]
pub struct SharedSet {
    marks: NumberRows,
}

impl SharedSet {
    /// A set without numbers.
    pub fn new(alloc: Global) -> SharedSet
        ensures { set_state result ≡ record { kind = kind_number Set; rows = map.empty } }
    {
        SharedSet {
            marks: NumberRows::new(alloc),
        }
    }

    /// Whether a number is in the set.
    pub fn has(&self, x: i64) -> bool
        ensures { result ≡ is_some (row_at (set_state self.now) (0, x)) }
    {
        is_marked(self.marks.value(x))
    }

    fn has_row(&self, x: i64) -> bool
        ensures { result ≡ has_mark self.now x }
    {
        self.marks.has_row(x)
    }

    fn mark(&mut self, x: i64, present: bool) -> Result<(), NoMemory>
        ensures ok { OnOk result (set_state self.new ≡ with_row (set_state self.old) (0, x) (row_if present)) }
        ensures err { OnErr result (set_state self.new ≡ set_state self.old) }
        ensures room { OnOk result (IsTrue (has_mark self.new x)) }
        ensures kept { (made : Made) → IsTrue (has_set_room self.old made) → IsTrue (has_set_room self.new made) }
    {
        self.marks.write(x, mark_for(present))
    }

    fn mark_again(&mut self, x: i64, present: bool)
        requires { IsTrue (has_mark self.old x) }
        ensures state { set_state self.new ≡ with_row (set_state self.old) (0, x) (row_if present) }
        ensures kept { (made : Made) → IsTrue (has_set_room self.old made) → IsTrue (has_set_room self.new made) }
    {
        self.marks.rewrite(x, mark_for(present));
    }

    /// Brings a number in or takes it out, and replies whether that changed the set.
    fn turn(&mut self, x: i64, present: bool) -> Result<Reply, NoMemory>
        ensures reply { IfOk result (λ reply. reply ≡ action_reply (turn_to present) (set_state self.old) x) }
        ensures ok { OnOk result (set_state self.new ≡ action_next (turn_to present) (set_state self.old) x) }
        ensures err { OnErr result (set_state self.new ≡ set_state self.old) }
        ensures room { IfOk result (λ reply. IsTrue (turned_room (has_mark self.new x) reply)) }
        ensures kept { (made : Made) → IsTrue (has_set_room self.old made) → IsTrue (has_set_room self.new made) }
    {
        if self.has(x) == present {
            return Ok(yes_or_no(false));
        }
        self.mark(x, present)?;
        Ok(yes_or_no(true))
    }

    /// Takes a turn back.
    fn turn_back(&mut self, x: i64, present: bool, reply: Reply)
        requires { IsTrue (turned_room (has_mark self.old x) reply) }
        ensures state { set_state self.new ≡ action_inverse (turn_to present) (set_state self.old) x reply }
        ensures kept { (made : Made) → IsTrue (has_set_room self.old made) → IsTrue (has_set_room self.new made) }
    {
        if reply.p == 1 {
            self.mark_again(x, !present);
        }
    }

    /// Does a turn again, which replies what it replied before.
    fn turn_again(&mut self, x: i64, present: bool, reply: Reply)
        requires room { IsTrue (turned_room (has_mark self.old x) reply) }
        requires reply { action_reply (turn_to present) (set_state self.old) x ≡ reply }
        ensures state { set_state self.new ≡ action_next (turn_to present) (set_state self.old) x }
        ensures kept { (made : Made) → IsTrue (has_set_room self.old made) → IsTrue (has_set_room self.new made) }
    {
        if reply.p != 1 {
            return;
        }
        self.mark_again(x, present);
    }
}

fn is_marked(mark: i64) -> bool
    ensures { result ≡ not (int_eq mark (pos 0)) }
{
    mark != 0
}

/// The mark of a number that is present, or not. A row with mark 0 is dead.
fn mark_for(present: bool) -> i64
    ensures { result ≡ (if present then pos 1 else pos 0) }
{
    if present { 1 } else { 0 }
}

fn yes_or_no(answer: bool) -> Reply
    ensures { result ≡ reply_of (if answer then pos 1 else pos 0) }
{
    Reply {
        p: if answer { 1 } else { 0 },
        q: 0,
        r: 0,
        s: 0,
    }
}

#[tactic(auto, unfolding(gx_base::specs::Steps::next_state, gx_base::specs::Steps::reply_to, gx_base::specs::Steps::inverse, gx_base::specs::Steps::observed))]
impl SeqType for SharedSet {
    ghost use Rattle.shared_sets.specs.SetState.{foreign-has_set_room, set_state-IsState};
    ghost use Rattle.shared_sets.specs.SuitedTables.{set_tables-SuitKind};

    ghost state = { set_state };

    ghost has_room = { has_set_room };

    ghost holds_kind = { holds_sets };

    ghost tables = { λ kind. set_tables };

    ghost known = { set_state-IsState };

    ghost foreign_roomed = { foreign-has_set_room };

    ghost tables_suit = { set_tables-SuitKind };

    fn apply(&mut self, call: Call) -> Result<Reply, NoMemory> {
        match deed_of(call.method) {
            None => Ok(yes_or_no(false)),
            Some(SetDeed::Add) => self.turn(call.a, true),
            Some(SetDeed::Remove) => self.turn(call.a, false),
            Some(SetDeed::Contains) => Ok(yes_or_no(self.has(call.a))),
        }
    }

    fn roomed(&self, call: Call, reply: Reply) -> bool {
        match deed_of(call.method) {
            None | Some(SetDeed::Contains) => true,
            Some(SetDeed::Add | SetDeed::Remove) => reply.p != 1 || self.has_row(call.a),
        }
    }

    fn undo(&mut self, call: Call, reply: Reply) {
        match deed_of(call.method) {
            None | Some(SetDeed::Contains) => {}
            Some(SetDeed::Add) => self.turn_back(call.a, true, reply),
            Some(SetDeed::Remove) => self.turn_back(call.a, false, reply),
        }
    }

    fn redo(&mut self, call: Call, reply: Reply) {
        match deed_of(call.method) {
            None | Some(SetDeed::Contains) => {}
            Some(SetDeed::Add) => self.turn_again(call.a, true, reply),
            Some(SetDeed::Remove) => self.turn_again(call.a, false, reply),
        }
    }

    fn observe(&self, _x: i64) -> i64 {
        0
    }

    // Never fails, and does nothing at all where the rows are lean already.
    fn tidy(&mut self) -> Result<(), NoMemory>
        ensures state { set_state self.new ≡ set_state self.old }
        ensures succeeds { IsOk result }
        ensures lean { IsLean self.new.marks }
        ensures dropped { ¬ (IsLean self.old.marks) → dead_rows self.new.marks ≡ 0 }
        ensures idle { IsLean self.old.marks → self.new ≡ self.old }
    {
        self.marks.tidy();
        Ok(())
    }

    fn shipped(alloc: Global, kind: Kind, choice: Choice) -> Result<Table, NoMemory>
        ensures { IfOk result (IsShipped (holds_sets kind) set_tables choice) }
    {
        match kind {
            Kind::Set => set_table(alloc, choice),
            _ => Ok(Table::blank(alloc)),
        }
    }
}
