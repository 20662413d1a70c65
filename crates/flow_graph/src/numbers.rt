ghost use Rattle.std.specs.Prelude.{◌≡◌, ℕ, ℤ, IsTrue, OnOk, OnErr};
ghost use Rattle.std.specs.FinMap as map;
ghost use Rattle.gx_base.specs.declared.kinds.Kind.TheVariants.{Flow};
ghost use Rattle.gx_base.specs.Kinds.{kind_number};
ghost use Rattle.gx_base.specs.States.{number_at, with_number};
ghost use Rattle.number_rows.specs.NumberRows.{IsLean, dead_rows};
ghost use Rattle.flow_graph.specs.Uses.{sort_of};
ghost use Rattle.flow_graph.specs.FlowNumbers.{state_with, sorted, has_row_at, AreLean};

use crate::uses::Quantity;
use gx_base::NoMemory;
use number_rows::NumberRows;
use std::alloc::Global;

/// The numbers of a shard, each sort in a table of its own.
#[derive(Drop)]
pub(crate) struct FlowNumbers {
    heights: NumberRows,
    excesses: NumberRows,
    flows: NumberRows,
}

impl FlowNumbers {
    /// Numbers that are all 0. It takes no memory.
    pub(crate) fn new(alloc: Global) -> FlowNumbers
        ensures { state_with result ≡ record { kind = kind_number Flow; rows = map.empty } }
    {
        FlowNumbers {
            heights: NumberRows::new(alloc),
            excesses: NumberRows::new(alloc),
            flows: NumberRows::new(alloc),
        }
    }

    pub(crate) fn value(&self, quantity: Quantity, key: i64) -> i64
        ensures { result ≡ number_at (state_with self.now) (sort_of quantity, key) }
    {
        match quantity {
            Quantity::Height => self.heights.value(key),
            Quantity::Excess => self.excesses.value(key),
            Quantity::Flow => self.flows.value(key),
        }
    }

    pub(crate) fn has_row(&self, quantity: Quantity, key: i64) -> bool
        ensures { result ≡ has_row_at self.now (sort_of quantity) key }
    {
        match quantity {
            Quantity::Height => self.heights.has_row(key),
            Quantity::Excess => self.excesses.has_row(key),
            Quantity::Flow => self.flows.has_row(key),
        }
    }

    pub(crate) fn write(
        &mut self,
        quantity: Quantity,
        key: i64,
        number: i64,
    ) -> Result<(), NoMemory>
        ensures ok { OnOk result (state_with self.new ≡ with_number (state_with self.old) (sort_of quantity, key) number) }
        ensures err { OnErr result (state_with self.new ≡ state_with self.old) }
        ensures room { OnOk result (IsTrue (has_row_at self.new (sort_of quantity) key)) }
        ensures kept { (sort : ℕ) (other : ℤ) → IsTrue (has_row_at self.old sort other) → IsTrue (has_row_at self.new sort other) }
    {
        match quantity {
            Quantity::Height => self.heights.write(key, number),
            Quantity::Excess => self.excesses.write(key, number),
            Quantity::Flow => self.flows.write(key, number),
        }
    }

    /// Writes a number in the row that its key has.
    pub(crate) fn rewrite(&mut self, quantity: Quantity, key: i64, number: i64)
        requires { IsTrue (has_row_at self.old (sort_of quantity) key) }
        ensures state { state_with self.new ≡ with_number (state_with self.old) (sort_of quantity, key) number }
        ensures kept { (sort : ℕ) (other : ℤ) → IsTrue (has_row_at self.old sort other) → IsTrue (has_row_at self.new sort other) }
    {
        match quantity {
            Quantity::Height => self.heights.rewrite(key, number),
            Quantity::Excess => self.excesses.rewrite(key, number),
            Quantity::Flow => self.flows.rewrite(key, number),
        }
    }

    pub(crate) fn tidy(&mut self)
        ensures state { state_with self.new ≡ state_with self.old }
        ensures lean { AreLean self.new }
        ensures dropped { (sort : ℕ) → ¬ (IsLean (sorted self.old sort)) → dead_rows (sorted self.new sort) ≡ 0 }
        ensures idle { AreLean self.old → self.new ≡ self.old }
    {
        self.heights.tidy();
        self.excesses.tidy();
        self.flows.tidy();
    }
}
