//! The laws of the calls and of the tables of sets and cells. They speak of the meanings of calls alone, so the
//! functions do nothing: a caller of one may use what it ensures.
ghost use Rattle.std.specs.Prelude.{◌≡◌, ◌≢◌, ℕ, true};
ghost use Rattle.gx_base.specs.declared.calls.Call.{Call};
ghost use Rattle.gx_base.specs.declared.kinds.Choice.{Choice};
ghost use Rattle.gx_base.specs.declared.kinds.Kind.TheVariants.{Set, Cells};
ghost use Rattle.gx_base.specs.Below.{AreBelow};
ghost use Rattle.gx_base.specs.Kinds.{kind_number};
ghost use Rattle.gx_base.specs.ShippedTables.{IsShipped, SuitKind};
ghost use Rattle.gx_base.specs.States.{State};
ghost use Rattle.gx_base.specs.Steps.{IsState, IsCall};
ghost use Rattle.gx_base.specs.TableRows.{RowMap, row_of};
ghost use Rattle.gx_base.specs.Tables.{IsUndone};
ghost use Rattle.cond_lattice.specs.declared.grades.Grade.TheVariants.{General};
ghost use Rattle.cond_lattice.specs.Grades.{table_grade};
ghost use Rattle.cond_lattice.specs.Simple.{strengthened};
ghost use Rattle.shared_sets.specs.CellsTables.{cells_tables};
ghost use Rattle.shared_sets.specs.SetTables.{set_tables};

/// Wherever a row of a shipped table is true, its calls may be swapped, and what rows with these calls first see
/// stays; and the rows of a pair of methods that aren't both the kind's are false.
pub fn shipped_tables_suit_their_kinds()
    ensures sets { SuitKind (kind_number Set) set_tables }
    ensures cells { SuitKind (kind_number Cells) cells_tables }
{}

/// Whatever the rows say, the inverse of a call gives the state before it.
pub fn calls_are_undone()
    ensures sets { (s : State) (call : Call) → s.kind ≡ kind_number Set → IsState s → IsCall call → IsUndone s call }
    ensures cells { (s : State) (call : Call) → s.kind ≡ kind_number Cells → IsState s → IsCall call → IsUndone s call }
{}

/// Each row of a simple table is what strengthening makes of the precise one.
pub fn simple_rows_are_strengthened()
    ensures sets { (first second : ℕ) → set_tables.simple first second ≡ strengthened (set_tables.precise first second) }
    ensures cells { (first second : ℕ) → cells_tables.simple first second ≡ strengthened (cells_tables.precise first second) }
{}

/// What readers and writers may do, locks can let them do, and what those let through commutes.
pub fn shipped_tables_are_in_order()
    ensures simple_sets { AreBelow set_tables.simple set_tables.precise }
    ensures rw_sets { AreBelow set_tables.reader_writer set_tables.simple }
    ensures simple_cells { AreBelow cells_tables.simple cells_tables.precise }
    ensures rw_cells { AreBelow cells_tables.reader_writer cells_tables.simple }
{}

/// No shipped table is GENERAL, nor is a table with rows below it. So a scan of the earlier calls, which knows of
/// each only what it saw when it was made, can serve these.
pub fn shipped_tables_are_not_general()
    ensures sets { (choice : Choice) (table : RowMap) → IsShipped true set_tables choice table → table_grade (kind_number Set) (row_of table) ≢ General }
    ensures cells { (choice : Choice) (table : RowMap) → IsShipped true cells_tables choice table → table_grade (kind_number Cells) (row_of table) ≢ General }
    ensures below_sets { (choice : Choice) (table lower : RowMap) → IsShipped true set_tables choice table → AreBelow (row_of lower) (row_of table) → table_grade (kind_number Set) (row_of lower) ≢ General }
    ensures below_cells { (choice : Choice) (table lower : RowMap) → IsShipped true cells_tables choice table → AreBelow (row_of lower) (row_of table) → table_grade (kind_number Cells) (row_of lower) ≢ General }
{}
