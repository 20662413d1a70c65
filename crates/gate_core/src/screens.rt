ghost use Rattle.std.specs.Prelude.{◌≡◌, ◌↔◌, ◌++◌, ◌∷◌, [], ℕ, List, IsTrue, OnOk};
ghost use Rattle.gx_base.specs.declared.calls.Call.{Call};
ghost use Rattle.gx_base.specs.declared.calls.Made.{Made};
ghost use Rattle.gx_base.specs.declared.acts.Entry.{Entry};
ghost use Rattle.gx_base.specs.Kinds.{kind_number};
ghost use Rattle.gx_base.specs.TableRows.{RowMap, row_of};
ghost use Rattle.gx_base.specs.Tables.{KeepsToKind};
ghost use Rattle.gate_core.specs.Entries.{LosesLast};
ghost use Rattle.gate_core.specs.Replays.{start_of, LeadTo, IsFirstFailing};
ghost use Rattle.gate_core.specs.CallAnswers.{AllRoomed};

use gx_base::{Entry, Kind, NoMemory, Seen, SeqType, Table};

/// What finds the first uncommitted entry that is in the way of a call. A screen stands for a list of
/// entries, which it may index as it likes.
pub trait Screen<T: SeqType>: Drop {
    /// The screen may stand for these entries.
    ghost stands_for: { Self → List Entry → Type 0 };

    /// There is room for one more entry of this worker, iteration and call.
    ghost has_room: { Self → ℕ → ℕ → Call → Type 0 };

    /// The screen can tell the conflicts of this table of this kind.
    ghost suits: { Self → ℕ → RowMap → Type 0 };

    /// Whether the screen can tell the conflicts of a table.
    fn fits(&self, kind: Kind, table: &Table) -> bool
        ensures { IsTrue result ↔ suits self.now (kind_number kind) table.now };

    /// Takes the memory that an entry with this worker, iteration and call needs, whatever its reply.
    fn make_room(&mut self, asked: &Entry) -> Result<(), NoMemory>
        ensures ok { OnOk result (has_room self.new asked.now.worker asked.now.iter asked.now.call) }
        ensures entries { (entries : List Entry) → stands_for self.old entries → stands_for self.new entries }
        ensures room { (worker iter : ℕ) (call : Call) → has_room self.old worker iter call → has_room self.new worker iter call }
        ensures same { (kind : ℕ) (table : RowMap) → suits self.old kind table ↔ suits self.new kind table };

    /// The first place of `live` whose entry is of another iteration than `asked` and whose condition
    /// with it is false, and the state functions that the condition uses there. The object has done the
    /// asked call.
    fn first_failing(
        &mut self,
        object: &mut T,
        live: &[Entry],
        table: &Table,
        asked: &Entry,
    ) -> Option<(usize, Seen)>
        requires entries { stands_for self.old live.now }
        requires fits { (kind : ℕ) × suits self.old kind table.now × KeepsToKind kind (row_of table.now) }
        requires roomed { AllRoomed (T.has_room object.old) (live.now ++ asked.now ∷ []) }
        requires replays { LeadTo (row_of table.now) live.now asked.now (T.state object.old) }
        ensures first { IsFirstFailing (row_of table.now) (start_of (T.state object.old) (live.now ++ asked.now ∷ [])) live.now asked.now result }
        ensures state { T.state object.new ≡ T.state object.old }
        ensures roomed { (made : Made) → IsTrue (T.has_room object.old made) → IsTrue (T.has_room object.new made) }
        ensures entries { (entries : List Entry) → stands_for self.old entries → stands_for self.new entries }
        ensures room { (worker iter : ℕ) (call : Call) → has_room self.old worker iter call → has_room self.new worker iter call }
        ensures same { (kind : ℕ) (table : RowMap) → suits self.old kind table ↔ suits self.new kind table };

    /// The entry comes to the end of those that the screen stands for. Takes no memory.
    fn entered(&mut self, entry: &Entry)
        requires { has_room self.old entry.now.worker entry.now.iter entry.now.call }
        ensures entries { (entries : List Entry) → stands_for self.old entries → stands_for self.new (entries ++ entry.now ∷ []) }
        ensures same { (kind : ℕ) (table : RowMap) → suits self.old kind table ↔ suits self.new kind table };

    /// The last entry that equals this one leaves those that the screen stands for.
    fn left(&mut self, entry: &Entry)
        requires { (before : List Entry) × (after : List Entry) × stands_for self.old before × LosesLast entry.now before after }
        ensures entries { (before after : List Entry) → stands_for self.old before → LosesLast entry.now before after → stands_for self.new after }
        ensures room { (worker iter : ℕ) (call : Call) → has_room self.old worker iter call → has_room self.new worker iter call }
        ensures same { (kind : ℕ) (table : RowMap) → suits self.old kind table ↔ suits self.new kind table };
}
