//! Laws of conditions and tables, over their definitions alone. A caller of one of these empty functions
//! may use what it ensures.

ghost use Rattle.std.specs.Prelude.{◌≡◌, ◌≢◌, ◌↔◌, ℕ, true, false};
ghost use Rattle.gx_base.specs.declared.calls.Made.{Made};
ghost use Rattle.gx_base.specs.declared.calls.Seen.{Seen};
ghost use Rattle.gx_base.specs.declared.conditions.Term.{Term};
ghost use Rattle.gx_base.specs.declared.kinds.Kind.{Kind};
ghost use Rattle.gx_base.specs.Below.{AreBelow};
ghost use Rattle.gx_base.specs.Conditions.{Condition, Ne, holds, is_false};
ghost use Rattle.gx_base.specs.Kinds.{kind_number};
ghost use Rattle.gx_base.specs.Tables.{Rows};
ghost use Rattle.cond_lattice.specs.declared.grades.Grade.TheVariants.{General};
ghost use Rattle.cond_lattice.specs.Grades.{grade_of, is_simple, table_grade, IsGreatestClass};
ghost use Rattle.cond_lattice.specs.Simple.{stands_in};

/// A simple condition other than `False` holds exactly where each inequality that stands in it does.
pub fn simple_holds_by_its_inequalities()
    ensures { (c : Condition) (first second : Made) (seen : Seen) → is_simple c ≡ true → is_false c ≡ false
        → ((holds c first second seen ≡ true)
        ↔ ((x y : Term) → stands_in x y c ≡ true → holds (Ne x y) first second seen ≡ true)) }
{}

/// A row below one that isn't general isn't general, and so it is with tables.
pub fn below_keeps_out_general_rows()
    ensures rows { (lower upper : Rows) → AreBelow lower upper
        → (first second : ℕ) → grade_of (upper first second) ≢ General → grade_of (lower first second) ≢ General }
    ensures tables { (kind : Kind) (lower upper : Rows) → AreBelow lower upper
        → table_grade (kind_number kind) upper ≢ General → table_grade (kind_number kind) lower ≢ General }
{}

/// The class that `table_grade` gives a table is the greatest of its rows over the pairs of methods of the kind.
pub fn table_grade_is_greatest()
    ensures { (kind : Kind) (rows : Rows) → IsGreatestClass (kind_number kind) rows (table_grade (kind_number kind) rows) }
{}
