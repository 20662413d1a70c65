//! Laws of lawful gates, over what contracts see of a gate alone. A caller of one of these functions,
//! which do nothing, may use what it ensures.

ghost use Rattle.std.specs.Prelude.{◌≡◌, ◌+◌, ◌<◌, ◌≤◌, ◌++◌, ℕ, Some, None, List, length, true, false};
ghost use Rattle.gx_base.specs.declared.acts.Entry.{Entry};
ghost use Rattle.gx_base.specs.declared.calls.Call.{Call};
ghost use Rattle.gx_base.specs.declared.items.Item.{Item};
ghost use Rattle.gx_base.specs.declared.kinds.Kind.{Kind};
ghost use Rattle.gx_base.specs.declared.kinds.Choice.{Choice};
ghost use Rattle.gx_base.specs.Kinds.{kind_number};
ghost use Rattle.gx_base.specs.ShippedTables.{IsShipped};
ghost use Rattle.gx_base.specs.States.{State};
ghost use Rattle.gx_base.specs.Steps.{next_state, reply_to, IsCall};
ghost use Rattle.gx_base.specs.TableRows.{RowMap, row_of};
ghost use Rattle.gx_base.specs.Tables.{Rows, KeepsToKind, IsValid};
ghost use Rattle.gate_core.specs.Entries.{Each, same_iteration, entries_of, others_than, entries_by};
ghost use Rattle.gate_core.specs.Replays.{after, LegalEntries, pair_ok, Stands};
ghost use Rattle.gate_core.specs.Homes.{IsHomedGate};
ghost use Rattle.gate_core.specs.Swaps.{Swapped};
ghost use Rattle.gate_core.specs.Views.{GateView, IsLawfulGate, live_start, start, asked_entry, in_way, admit, undo_last, undo_times, release};

use crate::gates::Gate;
use crate::screens::Screen;
use gx_base::SeqType;

/// Every gate is lawful between its calls.
pub fn gates_are_lawful<T: SeqType, S: Screen<T>>(gate: &Gate<T, S>)
    ensures { IsLawfulGate gate.now }
{
    let _mark = gate.mark();
}

/// Two entries of different iterations whose row is true may be swapped, one just after the other. All
/// laws on undo and release rest on this one.
pub fn commuting_entries_may_be_swapped()
    ensures { (kind : ℕ) (rows : Rows) (s : State) (e m : Entry) → IsValid kind rows → Stands kind s → IsCall e.call → IsCall m.call → reply_to s e.call ≡ e.reply → reply_to (next_state s e.call) m.call ≡ m.reply → same_iteration e m ≡ false → pair_ok rows s e m ≡ true → Swapped rows s e m }
{}

/// An admitted call keeps a gate lawful, with its start.
pub fn calls_keep_gates()
    ensures lawful { (g : GateView) (worker iter : ℕ) (item : Item) (call : Call) → IsLawfulGate g → IsCall call → in_way g (asked_entry worker iter item call g.state) ≡ None → IsLawfulGate (admit g worker iter item call) }
    ensures same_start { (g : GateView) (worker iter : ℕ) (item : Item) (call : Call) → IsLawfulGate g → IsCall call → in_way g (asked_entry worker iter item call g.state) ≡ None → start (admit g worker iter item call) ≡ start g }
{}

/// A call that is taken back leaves a gate lawful, with its start.
pub fn undo_keeps_gates()
    ensures lawful { (g : GateView) (worker iter : ℕ) → IsLawfulGate g → IsLawfulGate (undo_last g worker iter) }
    ensures same_start { (g : GateView) (worker iter : ℕ) → IsLawfulGate g → start (undo_last g worker iter) ≡ start g }
{}

/// A release keeps a gate lawful, with its start.
pub fn release_keeps_gates()
    ensures lawful { (g : GateView) (worker iter number : ℕ) → IsLawfulGate g → g.mark ≤ number → IsLawfulGate (release g worker iter number) }
    ensures same_start { (g : GateView) (worker iter number : ℕ) → IsLawfulGate g → g.mark ≤ number → start (release g worker iter number) ≡ start g }
{}

/// The done entries and then the live ones lead from the start to the state.
pub fn arrangements_replay()
    ensures { (g : GateView) → IsLawfulGate g → LegalEntries (start g) (g.done ++ g.live) g.state }
{}

/// The live entries of an iteration may stand before all other live ones.
pub fn an_iteration_may_come_first()
    ensures { (g : GateView) (worker iter : ℕ) → IsLawfulGate g → LegalEntries (live_start g) (entries_of worker iter g.live ++ others_than worker iter g.live) g.state }
{}

/// One worker's live entries alone replay legally after the done ones.
pub fn a_worker_replays_alone()
    ensures { (g : GateView) (worker : ℕ) → IsLawfulGate g → LegalEntries (start g) (g.done ++ entries_by worker g.live) (after (live_start g) (entries_by worker g.live)) }
{}

/// What rooms ask of the gates that they hold, each lawful gate has.
pub fn lawful_gates_may_be_homed()
    ensures { (g : GateView) → IsLawfulGate g → IsHomedGate g }
{}

/// Once all entries of an iteration are undone, the state is the replay of all others.
pub fn an_undone_iteration_vanishes()
    ensures { (g : GateView) (worker iter : ℕ) → IsLawfulGate g → undo_times (length (entries_of worker iter g.live)) g worker iter ≡ record g { state = after (start g) (g.done ++ others_than worker iter g.live); live = others_than worker iter g.live } }
{}

/// The numbers of done entries are below the mark.
pub fn numbers_are_below_the_mark()
    ensures { (g : GateView) → IsLawfulGate g → Each (λ e. (number : ℕ) × (e.done ≡ Some number) × (number < g.mark)) g.done }
{}

/// What an object ships is valid, and false for methods that aren't the kind's, as a gate asks of its table.
pub fn shipped_tables_serve_gates<T: SeqType>()
    ensures valid { (kind : Kind) (choice : Choice) (table : RowMap) → IsShipped (T.holds_kind kind) (T.tables kind) choice table → IsValid (kind_number kind) (row_of table) }
    ensures keeps_to_kind { (kind : Kind) (choice : Choice) (table : RowMap) → IsShipped (T.holds_kind kind) (T.tables kind) choice table → KeepsToKind (kind_number kind) (row_of table) }
{}
