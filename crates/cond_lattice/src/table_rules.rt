ghost use Rattle.std.specs.Prelude.{◌≡◌, ℕ, ◌<◌, true, IfNone, IfSome, OnOk, IfErr};
ghost use Rattle.gx_base.specs.Below.{IsBelow, AreBelow};
ghost use Rattle.gx_base.specs.Kinds.{kind_number};
ghost use Rattle.gx_base.specs.Methods.{is_method};
ghost use Rattle.gx_base.specs.TableRows.{row_of};
ghost use Rattle.gx_base.specs.Tables.{KeepsToKind};
ghost use Rattle.cond_lattice.specs.Derivations.{IsRowBelow};
ghost use Rattle.cond_lattice.specs.Tables.{AreRowsBelow, IsFirstNotBelow, IsFirstSecond};

use crate::rules::row_below;
use gx_base::{Kind, Table, method_at};

/// The first pair of methods, by their numbers, whose row isn't below the other table's.
#[derive(Clone, Copy, Debug, PartialEq, Eq, Drop)]
pub struct NotBelow {
    pub first: u32,
    pub second: u32,
}

/// With one method first, the first second method whose row isn't below the other table's.
fn first_not_below(kind: Kind, c: &Table, d: &Table, first: u32) -> Option<u32>
    ensures none { IfNone result ((n : ℕ) → is_method (kind_number kind) n ≡ true → IsRowBelow (row_of c.now first n) (row_of d.now first n)) }
    ensures some { IfSome result (IsFirstSecond (kind_number kind) (row_of c.now first) (row_of d.now first)) }
{
    let mut place = 0;
    while let Some(second) = method_at(kind, place) {
        if !row_below(c.row(first, second), d.row(first, second)) {
            return Some(second);
        }
        place += 1;
    }
    None
}

/// Whether each row of a kind's methods is below the other table's, and else the first that isn't. Takes no memory, but for the
/// stack that `row_below` takes.
pub fn below(kind: Kind, c: &Table, d: &Table) -> Result<(), NotBelow>
    ensures ok { OnOk result (AreRowsBelow (kind_number kind) (row_of c.now) (row_of d.now)) }
    ensures refused { IfErr result (λ pair. IsFirstNotBelow (kind_number kind) (row_of c.now) (row_of d.now) pair.first pair.second) }
    ensures sound_rows { OnOk result ((first second : ℕ) → is_method (kind_number kind) first ≡ true → is_method (kind_number kind) second ≡ true
        → IsBelow (row_of c.now first second) (row_of d.now first second)) }
    ensures sound { OnOk result (KeepsToKind (kind_number kind) (row_of c.now) → AreBelow (row_of c.now) (row_of d.now)) }
{
    let mut place = 0;
    while let Some(first) = method_at(kind, place) {
        if let Some(second) = first_not_below(kind, c, d, first) {
            return Err(NotBelow { first, second });
        }
        place += 1;
    }
    Ok(())
}
