ghost use Rattle.std.specs.Prelude.{◌≡◌, ◌↔◌, IsTrue};
ghost use Rattle.gx_base.specs.Conditions.{condition_of};
ghost use Rattle.gx_base.specs.Below.{IsBelow};
ghost use Rattle.cond_lattice.specs.Derivations as rules;
ghost use Rattle.cond_lattice.specs.Derivations.{IsRowBelow};

use crate::classes::names_state;
use crate::decisions::is_derived;
use gx_base::{Cond, Side};

/// Whether a row is below another by the rules: a derivation exists, and each state function that the
/// first row names stands in the second.
///
/// No memory is taken, but for stack: a KiB for conditions as tables have them, and 4 MiB at most. Where c has
/// n parts and d has m, each pair of parts is looked at once, as long as log2(n + 1) rows of m answers fit
/// there, as they do up to some 200,000 parts on both sides. That is n * m steps, where two parts are compared
/// with all that stands in a `not`; besides, what stands in a part of c is walked once more for each part
/// around it, which makes n times the depth of c. Beyond that the plain rules are tried one by one down to
/// parts whose rows fit, and may meet one pair of parts along many ways.
pub fn row_below(c: &Cond, d: &Cond) -> bool
    ensures rules { IsTrue result ↔ IsRowBelow (condition_of c.now) (condition_of d.now) }
    ensures sound { IsTrue result → IsBelow (condition_of c.now) (condition_of d.now) }
{
    is_derived(c, d) && names_as_little(c, d)
}

/// Whether c names no state function but those that d names.
fn names_as_little(c: &Cond, d: &Cond) -> bool
    ensures { result ≡ rules.names_as_little (condition_of c.now) (condition_of d.now) }
{
    (!names_state(Side::First, c) || names_state(Side::First, d))
        && (!names_state(Side::Second, c) || names_state(Side::Second, d))
}
