ghost use Rattle.std.specs.Prelude.{◌≡◌, IsTrue, IsOk, IfOk, OnOk, OnErr};
ghost use Rattle.std.specs.FinMap as map;
ghost use Rattle.gx_base.specs.declared.calls.Made.{Made};
ghost use Rattle.gx_base.specs.declared.kinds.Kind.TheVariants.{Cells as cells_kind};
ghost use Rattle.gx_base.specs.Kinds.{kind_number};
ghost use Rattle.gx_base.specs.Meanings.{number_reply as reply_of};
ghost use Rattle.gx_base.specs.ShippedTables.{IsShipped};
ghost use Rattle.gx_base.specs.States.{number_at, with_number};
ghost use Rattle.number_rows.specs.NumberRows.{IsLean, dead_rows};
ghost use Rattle.shared_sets.specs.CellsState.{cells_state, has_cell, has_cells_room, holds_cells};
ghost use Rattle.shared_sets.specs.CellsTables.{cells_tables};

use crate::cells_methods::deed_of;
use crate::cells_shipping::cells_table;
use gx_base::{Call, Choice, Kind, NoMemory, Reply, SeqType, Table};
use kind_tables::register_rows::Deed;
use number_rows::NumberRows;
use std::alloc::Global;

/// Numbers by key, which are all 0 until they are written.
#[derive(Drop)]
pub struct Cells {
    numbers: NumberRows,
}

impl Cells {
    /// Cells in which each number is 0.
    pub fn new(alloc: Global) -> Cells
        ensures { cells_state result ≡ record { kind = kind_number cells_kind; rows = map.empty } }
    {
        Cells {
            numbers: NumberRows::new(alloc),
        }
    }

    /// The number of a key.
    pub fn value(&self, key: i64) -> i64
        ensures { result ≡ number_at (cells_state self.now) (0, key) }
    {
        self.numbers.value(key)
    }

    fn has_row(&self, key: i64) -> bool
        ensures { result ≡ has_cell self.now key }
    {
        self.numbers.has_row(key)
    }

    fn write(&mut self, key: i64, number: i64) -> Result<(), NoMemory>
        ensures ok { OnOk result (cells_state self.new ≡ with_number (cells_state self.old) (0, key) number) }
        ensures err { OnErr result (cells_state self.new ≡ cells_state self.old) }
        ensures room { OnOk result (IsTrue (has_cell self.new key)) }
        ensures kept { (made : Made) → IsTrue (has_cells_room self.old made) → IsTrue (has_cells_room self.new made) }
    {
        self.numbers.write(key, number)
    }

    fn rewrite(&mut self, key: i64, number: i64)
        requires { IsTrue (has_cell self.old key) }
        ensures state { cells_state self.new ≡ with_number (cells_state self.old) (0, key) number }
        ensures kept { (made : Made) → IsTrue (has_cells_room self.old made) → IsTrue (has_cells_room self.new made) }
    {
        self.numbers.rewrite(key, number);
    }
}

fn number_reply(number: i64) -> Reply
    ensures { result ≡ reply_of number }
{
    Reply {
        p: number,
        q: 0,
        r: 0,
        s: 0,
    }
}

#[tactic(auto, unfolding(gx_base::specs::Steps::next_state, gx_base::specs::Steps::reply_to, gx_base::specs::Steps::inverse, gx_base::specs::Steps::observed))]
impl SeqType for Cells {
    ghost use Rattle.shared_sets.specs.CellsState.{foreign-has_cells_room, cells_state-IsState};
    ghost use Rattle.shared_sets.specs.SuitedTables.{cells_tables-SuitKind};

    ghost state = { cells_state };

    ghost has_room = { has_cells_room };

    ghost holds_kind = { holds_cells };

    ghost tables = { λ kind. cells_tables };

    ghost known = { cells_state-IsState };

    ghost foreign_roomed = { foreign-has_cells_room };

    ghost tables_suit = { cells_tables-SuitKind };

    fn apply(&mut self, call: Call) -> Result<Reply, NoMemory> {
        match deed_of(call.method) {
            None => Ok(number_reply(0)),
            Some(Deed::Reads) => Ok(number_reply(self.value(call.a))),
            Some(Deed::Adds) => {
                let number = self.value(call.a);
                self.write(call.a, number.wrapping_add(call.b))?;
                Ok(number_reply(0))
            }
            Some(Deed::Sets) => {
                let number = self.value(call.a);
                self.write(call.a, call.b)?;
                Ok(number_reply(number))
            }
        }
    }

    fn roomed(&self, call: Call, _reply: Reply) -> bool {
        match deed_of(call.method) {
            None | Some(Deed::Reads) => true,
            Some(Deed::Adds | Deed::Sets) => self.has_row(call.a),
        }
    }

    fn undo(&mut self, call: Call, reply: Reply) {
        match deed_of(call.method) {
            None | Some(Deed::Reads) => {}
            Some(Deed::Adds) => {
                let number = self.value(call.a);
                self.rewrite(call.a, number.wrapping_sub(call.b));
            }
            Some(Deed::Sets) => self.rewrite(call.a, reply.p),
        }
    }

    fn redo(&mut self, call: Call, _reply: Reply) {
        match deed_of(call.method) {
            None | Some(Deed::Reads) => {}
            Some(Deed::Adds) => {
                let number = self.value(call.a);
                self.rewrite(call.a, number.wrapping_add(call.b));
            }
            Some(Deed::Sets) => self.rewrite(call.a, call.b),
        }
    }

    fn observe(&self, _x: i64) -> i64 {
        0
    }

    // Never fails, and does nothing at all where the rows are lean already.
    fn tidy(&mut self) -> Result<(), NoMemory>
        ensures state { cells_state self.new ≡ cells_state self.old }
        ensures succeeds { IsOk result }
        ensures lean { IsLean self.new.numbers }
        ensures dropped { ¬ (IsLean self.old.numbers) → dead_rows self.new.numbers ≡ 0 }
        ensures idle { IsLean self.old.numbers → self.new ≡ self.old }
    {
        self.numbers.tidy();
        Ok(())
    }

    fn shipped(alloc: Global, kind: Kind, choice: Choice) -> Result<Table, NoMemory>
        ensures { IfOk result (IsShipped (holds_cells kind) cells_tables choice) }
    {
        match kind {
            Kind::Cells => cells_table(alloc, choice),
            _ => Ok(Table::blank(alloc)),
        }
    }
}
