ghost use Rattle.std.specs.Prelude.{◌≡◌, ℕ, IsTrue, IsOk, IfOk, OnOk, OnErr};
ghost use Rattle.std.specs.FinMap as map;
ghost use Rattle.gx_base.specs.declared.calls.Made.{Made};
ghost use Rattle.gx_base.specs.declared.kinds.Kind.TheVariants.{Flow};
ghost use Rattle.gx_base.specs.FlowKind.{height_sort, excess_sort, flow_sort};
ghost use Rattle.gx_base.specs.Kinds.{kind_number};
ghost use Rattle.gx_base.specs.ShippedTables.{IsShipped};
ghost use Rattle.gx_base.specs.States.{number_at, with_number};
ghost use Rattle.gx_base.specs.Meanings.{number_reply as reply_of};
ghost use Rattle.kind_tables.specs.TablesOfKinds.{tables_of};
ghost use Rattle.flow_graph.specs.Uses.{sort_of};
ghost use Rattle.flow_graph.specs.FlowState.{state_of, has_row_in, has_room_in, IsUnwritten, IsLeanIn, IsLeanShard, dead_of_sort};

use crate::numbers::FlowNumbers;
use crate::shipping::flow_table;
use crate::uses::{Quantity, use_of};
use gx_base::{Call, Choice, Kind, NoMemory, Reply, SeqType, Table};
use kind_tables::register_rows::Deed;
use std::alloc::Global;

/// The heights and the excesses of nodes and the flows of arcs, which are all 0 until they are written.
#[derive(Drop)]
pub struct FlowShard {
    alloc: Global,
    // Behind a pointer, since a shard is moved with the gate over it at each call. None before the first write.
    numbers: Option<Box<FlowNumbers>>,
}

impl FlowShard {
    /// A shard in which each number is 0.
    pub fn new(alloc: Global) -> FlowShard
        ensures { state_of result ≡ record { kind = kind_number Flow; rows = map.empty } }
    {
        FlowShard {
            alloc,
            numbers: None,
        }
    }

    /// The height of a node.
    pub fn height(&self, node: i64) -> i64
        ensures { result ≡ number_at (state_of self.now) (height_sort, node) }
    {
        self.value(Quantity::Height, node)
    }

    /// The excess of a node.
    pub fn excess(&self, node: i64) -> i64
        ensures { result ≡ number_at (state_of self.now) (excess_sort, node) }
    {
        self.value(Quantity::Excess, node)
    }

    /// The flow of an arc.
    pub fn flow(&self, arc: i64) -> i64
        ensures { result ≡ number_at (state_of self.now) (flow_sort, arc) }
    {
        self.value(Quantity::Flow, arc)
    }

    fn value(&self, quantity: Quantity, key: i64) -> i64
        ensures { result ≡ number_at (state_of self.now) (sort_of quantity, key) }
    {
        match &self.numbers {
            Some(numbers) => numbers.value(quantity, key),
            None => 0,
        }
    }

    fn has_row(&self, quantity: Quantity, key: i64) -> bool
        ensures { result ≡ has_row_in self.now (sort_of quantity) key }
    {
        match &self.numbers {
            Some(numbers) => numbers.has_row(quantity, key),
            None => false,
        }
    }

    fn write(&mut self, quantity: Quantity, key: i64, number: i64) -> Result<(), NoMemory>
        ensures ok { OnOk result (state_of self.new ≡ with_number (state_of self.old) (sort_of quantity, key) number) }
        ensures err { OnErr result (state_of self.new ≡ state_of self.old) }
        ensures room { OnOk result (IsTrue (has_row_in self.new (sort_of quantity) key)) }
        ensures kept { (made : Made) → IsTrue (has_room_in self.old made) → IsTrue (has_room_in self.new made) }
    {
        match &mut self.numbers {
            Some(numbers) => numbers.write(quantity, key, number),
            None => self.write_first(quantity, key, number),
        }
    }

    // Writes the first number of a shard.
    fn write_first(&mut self, quantity: Quantity, key: i64, number: i64) -> Result<(), NoMemory>
        requires none { IsUnwritten self.old }
        ensures ok { OnOk result (state_of self.new ≡ with_number (state_of self.old) (sort_of quantity, key) number) }
        ensures err { OnErr result (self.new ≡ self.old) }
        ensures room { OnOk result (IsTrue (has_row_in self.new (sort_of quantity) key)) }
        ensures kept { (made : Made) → IsTrue (has_room_in self.old made) → IsTrue (has_room_in self.new made) }
    {
        let mut numbers = FlowNumbers::new(self.alloc);
        numbers.write(quantity, key, number)?;
        let boxed = Box::new(self.alloc, numbers)?;
        self.numbers = Some(boxed);
        Ok(())
    }

    fn rewrite(&mut self, quantity: Quantity, key: i64, number: i64)
        requires { IsTrue (has_row_in self.old (sort_of quantity) key) }
        ensures state { state_of self.new ≡ with_number (state_of self.old) (sort_of quantity, key) number }
        ensures kept { (made : Made) → IsTrue (has_room_in self.old made) → IsTrue (has_room_in self.new made) }
    {
        match &mut self.numbers {
            Some(numbers) => numbers.rewrite(quantity, key, number),
            None => {}
        }
    }

    fn tidy_rows(&mut self)
        ensures state { state_of self.new ≡ state_of self.old }
        ensures lean { IsLeanShard self.new }
        ensures dropped { (sort : ℕ) → ¬ (IsLeanIn self.old sort) → dead_of_sort self.new sort ≡ 0 }
        ensures idle { IsLeanShard self.old → self.new ≡ self.old }
    {
        match &mut self.numbers {
            Some(numbers) => numbers.tidy(),
            None => {}
        }
    }
}

fn number_reply(number: i64) -> Reply
    ensures { result ≡ reply_of number }
{
    Reply {
        p: number,
        q: 0,
        r: 0,
        s: 0,
    }
}

#[tactic(auto, unfolding(gx_base::specs::Steps::next_state, gx_base::specs::Steps::reply_to, gx_base::specs::Steps::inverse, gx_base::specs::Steps::observed))]
impl SeqType for FlowShard {
    ghost use Rattle.flow_graph.specs.FlowState.{holds_flow, held-SuitKind, foreign-has_room_in, state_of-IsState};

    ghost state = { state_of };

    ghost has_room = { has_room_in };

    ghost holds_kind = { holds_flow };

    ghost tables = { tables_of };

    ghost known = { state_of-IsState };

    ghost foreign_roomed = { foreign-has_room_in };

    ghost tables_suit = { held-SuitKind };

    fn apply(&mut self, call: Call) -> Result<Reply, NoMemory> {
        match use_of(call.method) {
            None => Ok(number_reply(0)),
            Some((quantity, deed)) => {
                let number = self.value(quantity, call.a);
                match deed {
                    Deed::Reads => Ok(number_reply(number)),
                    Deed::Adds => {
                        self.write(quantity, call.a, number.wrapping_add(call.b))?;
                        Ok(number_reply(0))
                    }
                    Deed::Sets => {
                        self.write(quantity, call.a, call.b)?;
                        Ok(number_reply(number))
                    }
                }
            }
        }
    }

    fn roomed(&self, call: Call, _reply: Reply) -> bool {
        match use_of(call.method) {
            None => true,
            Some((quantity, deed)) => match deed {
                Deed::Reads => true,
                Deed::Adds | Deed::Sets => self.has_row(quantity, call.a),
            },
        }
    }

    fn undo(&mut self, call: Call, reply: Reply) {
        match use_of(call.method) {
            None | Some((_, Deed::Reads)) => {}
            Some((quantity, Deed::Adds)) => {
                let number = self.value(quantity, call.a);
                self.rewrite(quantity, call.a, number.wrapping_sub(call.b));
            }
            Some((quantity, Deed::Sets)) => self.rewrite(quantity, call.a, reply.p),
        }
    }

    fn redo(&mut self, call: Call, _reply: Reply) {
        match use_of(call.method) {
            None | Some((_, Deed::Reads)) => {}
            Some((quantity, Deed::Adds)) => {
                let number = self.value(quantity, call.a);
                self.rewrite(quantity, call.a, number.wrapping_add(call.b));
            }
            Some((quantity, Deed::Sets)) => self.rewrite(quantity, call.a, call.b),
        }
    }

    fn observe(&self, _x: i64) -> i64 {
        0
    }

    // Never fails, and does nothing at all where each table is lean already.
    fn tidy(&mut self) -> Result<(), NoMemory>
        ensures state { state_of self.new ≡ state_of self.old }
        ensures succeeds { IsOk result }
        ensures lean { IsLeanShard self.new }
        ensures dropped { (sort : ℕ) → ¬ (IsLeanIn self.old sort) → dead_of_sort self.new sort ≡ 0 }
        ensures idle { IsLeanShard self.old → self.new ≡ self.old }
    {
        self.tidy_rows();
        Ok(())
    }

    fn shipped(alloc: Global, kind: Kind, choice: Choice) -> Result<Table, NoMemory>
        ensures { IfOk result (IsShipped (holds_flow kind) (tables_of kind) choice) }
    {
        match kind {
            Kind::Flow => flow_table(alloc, choice),
            _ => Ok(Table::blank(alloc)),
        }
    }
}
