//! Laws of the shipped tables that stand here, over their definitions alone. A caller of one of these empty
//! functions may use what it ensures. The rows of a kind whose tables stand elsewhere are false ones here.

ghost use Rattle.std.specs.Prelude.{◌≡◌, ◌≢◌, ℕ, true};
ghost use Rattle.gx_base.specs.declared.kinds.Choice.{Choice};
ghost use Rattle.gx_base.specs.declared.kinds.Choice.TheVariants.{Precise, Simple, Rw};
ghost use Rattle.gx_base.specs.declared.kinds.Kind.{Kind};
ghost use Rattle.gx_base.specs.declared.kinds.Kind.TheVariants.{Flow, Domains};
ghost use Rattle.gx_base.specs.Kinds.{kind_number};
ghost use Rattle.gx_base.specs.ShippedTables.{IsShipped};
ghost use Rattle.gx_base.specs.TableRows.{RowMap, row_of};
ghost use Rattle.gx_base.specs.Tables.{IsValid, KeepsToKind};
ghost use Rattle.gx_base.specs.Below.{AreBelow};
ghost use Rattle.cond_lattice.specs.declared.grades.Grade.TheVariants.{General};
ghost use Rattle.cond_lattice.specs.Grades.{table_grade};
ghost use Rattle.cond_lattice.specs.Simple.{strengthened};
ghost use Rattle.kind_tables.specs.TablesOfKinds.{tables_of, shipped_rows};
ghost use Rattle.kind_tables.specs.Classes.{HasNoGeneralRow};

/// The tables that flow shards ship are valid.
pub fn flows_are_valid()
    ensures { (choice : Choice) → IsValid (kind_number Flow) (shipped_rows Flow choice) }
{}

/// The tables that domain books ship are valid.
pub fn domains_are_valid()
    ensures { (choice : Choice) → IsValid (kind_number Domains) (shipped_rows Domains choice) }
{}

/// In every table that stands here the rows of a pair of methods that aren't both the kind's are false.
pub fn shipped_tables_keep_to_kinds()
    ensures { (kind : Kind) (choice : Choice) → KeepsToKind (kind_number kind) (shipped_rows kind choice) }
{}

/// Each row of a simple table is what strengthening makes of the precise one.
pub fn simple_rows_are_strengthened()
    ensures { (kind : Kind) (first second : ℕ) → shipped_rows kind Simple first second ≡ strengthened (shipped_rows kind Precise first second) }
{}

/// What readers and writers may do, locks can let them do, and what those let through commutes.
pub fn shipped_tables_are_in_order()
    ensures simple { (kind : Kind) → AreBelow (shipped_rows kind Simple) (shipped_rows kind Precise) }
    ensures readers { (kind : Kind) → AreBelow (shipped_rows kind Rw) (shipped_rows kind Simple) }
{}

/// Of the tables that stand here only the precise one of domain books has a GENERAL row.
pub fn only_precise_domains_are_general()
    ensures rows { (kind : Kind) (choice : Choice) → (kind ≡ Domains → choice ≢ Precise) → HasNoGeneralRow (shipped_rows kind choice) }
    ensures class { (kind : Kind) (choice : Choice) → (kind ≡ Domains → choice ≢ Precise) → table_grade (kind_number kind) (shipped_rows kind choice) ≢ General }
    ensures domains { table_grade (kind_number Domains) (shipped_rows Domains Precise) ≡ General }
{}

/// A table that has the rows of any other shipped table isn't GENERAL, nor is one that has rows below them.
/// So a scan of the earlier calls, which knows of each only what it saw when it was made, can serve these.
pub fn tables_below_shipped_ones_are_not_general()
    ensures shipped { (kind : Kind) (choice : Choice) (table : RowMap) → (kind ≡ Domains → choice ≢ Precise)
        → IsShipped true (tables_of kind) choice table → table_grade (kind_number kind) (row_of table) ≢ General }
    ensures below { (kind : Kind) (choice : Choice) (table lower : RowMap) → (kind ≡ Domains → choice ≢ Precise)
        → IsShipped true (tables_of kind) choice table → AreBelow (row_of lower) (row_of table)
        → table_grade (kind_number kind) (row_of lower) ≢ General }
{}
