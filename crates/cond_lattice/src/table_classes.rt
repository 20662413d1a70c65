ghost use Rattle.std.specs.Prelude.{◌≡◌, ◌↔◌};
ghost use Rattle.gx_base.specs.Kinds.{kind_number};
ghost use Rattle.gx_base.specs.TableRows.{row_of};
ghost use Rattle.cond_lattice.specs.Grades as grades;
ghost use Rattle.cond_lattice.specs.Grades.{first_grade, table_grade, IsGreatestClass, AreSimple};
ghost use Rattle.cond_lattice.specs.declared.grades.Grade.TheVariants.{Simple};

use crate::classes::class;
use crate::grades::Grade;
use gx_base::{Kind, Table, method_at};

fn greater(g: Grade, h: Grade) -> Grade
    ensures { result ≡ grades.greater g h }
{
    g.max(h)
}

/// The greatest class of the rows with this method first.
fn first_class(kind: Kind, table: &Table, first: u32) -> Grade
    ensures { result ≡ first_grade (kind_number kind) (row_of table.now) first }
{
    let mut grade = Grade::Simple;
    let mut second_place = 0;
    while let Some(second) = method_at(kind, second_place) {
        grade = greater(grade, class(table.row(first, second)));
        second_place += 1;
    }
    grade
}

/// The greatest class of a table's rows, over the pairs of methods of a kind.
pub fn table_class(kind: Kind, table: &Table) -> Grade
    ensures greatest { IsGreatestClass (kind_number kind) (row_of table.now) result }
    ensures simple { (result ≡ Simple) ↔ AreSimple (kind_number kind) (row_of table.now) }
    ensures grade { result ≡ table_grade (kind_number kind) (row_of table.now) }
{
    let mut grade = Grade::Simple;
    let mut place = 0;
    while let Some(first) = method_at(kind, place) {
        grade = greater(grade, first_class(kind, table, first));
        place += 1;
    }
    grade
}
