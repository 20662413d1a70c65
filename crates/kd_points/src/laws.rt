//! The laws of the calls and of the tables of points. They speak of the meanings of calls alone, so the functions do
//! nothing: a caller of one may use what it ensures.
ghost use Rattle.std.specs.Prelude.{◌≡◌, ◌≢◌, ℕ, false, true};
ghost use Rattle.gx_base.specs.declared.calls.Call.{Call};
ghost use Rattle.gx_base.specs.declared.calls.Spot.{Spot};
ghost use Rattle.gx_base.specs.declared.kinds.Choice.{Choice};
ghost use Rattle.gx_base.specs.declared.kinds.Kind.TheVariants.{Points};
ghost use Rattle.gx_base.specs.Below.{AreBelow};
ghost use Rattle.gx_base.specs.Kinds.{kind_number};
ghost use Rattle.gx_base.specs.PointKind.{nearest};
ghost use Rattle.gx_base.specs.ShippedTables.{IsShipped, SuitKind};
ghost use Rattle.gx_base.specs.States.{State};
ghost use Rattle.gx_base.specs.Steps.{IsState, IsCall};
ghost use Rattle.gx_base.specs.TableRows.{RowMap, row_of};
ghost use Rattle.gx_base.specs.Tables.{IsUndone};
ghost use Rattle.cond_lattice.specs.declared.grades.Grade.TheVariants.{General};
ghost use Rattle.cond_lattice.specs.Grades.{table_grade};
ghost use Rattle.cond_lattice.specs.Simple.{strengthened};
ghost use Rattle.kd_points.specs.NearestPoints.{IsNearest};
ghost use Rattle.kd_points.specs.PointTables.{point_tables};

/// What `nearest` answers is a point of another number than the spot's, and none such is nearer: it has the least key to
/// the spot. Where it answers none, there is none.
pub fn nearest_is_the_least()
    ensures { (s : State) (q : Spot) → IsNearest s q (nearest s q) }
{}

/// Wherever a row of a shipped table is true, its calls may be swapped, and what rows with these calls first see
/// stays; and the rows of a pair of methods that aren't both of points are false.
pub fn shipped_tables_suit_points()
    ensures { SuitKind (kind_number Points) point_tables }
{}

/// Whatever the rows say, the inverse of a call gives the state before it.
pub fn calls_are_undone()
    ensures { (s : State) (call : Call) → s.kind ≡ kind_number Points → IsState s → IsCall call → IsUndone s call }
{}

/// Each row of the simple table is what strengthening makes of the precise one.
pub fn simple_rows_are_strengthened()
    ensures { (first second : ℕ) → point_tables.simple first second ≡ strengthened (point_tables.precise first second) }
{}

/// What readers and writers may do, locks can let them do, and what those let through commutes.
pub fn shipped_tables_are_in_order()
    ensures simple { AreBelow point_tables.simple point_tables.precise }
    ensures readers { AreBelow point_tables.reader_writer point_tables.simple }
{}

/// No shipped table is GENERAL, nor is a table with rows below it. So a scan of the earlier calls, which knows of
/// each only what it saw when it was made, can serve these.
pub fn shipped_tables_are_not_general()
    ensures shipped { (choice : Choice) (table : RowMap) → IsShipped true point_tables choice table → table_grade (kind_number Points) (row_of table) ≢ General }
    ensures below { (choice : Choice) (table lower : RowMap) → IsShipped true point_tables choice table → AreBelow (row_of lower) (row_of table) → table_grade (kind_number Points) (row_of lower) ≢ General }
{}
