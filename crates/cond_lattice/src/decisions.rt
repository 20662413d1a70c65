ghost use Rattle.std.specs.Prelude.{◌≡◌, ◌*◌, ◌-◌, ◌^◌, min};
ghost use Rattle.gx_base.specs.Conditions.{condition_of};
ghost use Rattle.cond_lattice.specs.Derivations as rules;
ghost use Rattle.cond_lattice.specs.AnswerRows.{parts_of, rows_of};

use crate::answers::{MOST_ANSWERS, is_derived_by_rows, parts, rows_wanted};
use crate::same::same_condition;
use gx_base::Cond;

/// So many answers are enough for the conditions of most tables, which then don't pay for more stack.
const FEW_ANSWERS: usize = 1_024;

/// How many answers are kept at once for c and d.
fn answers_wanted(c: &Cond, d: &Cond) -> usize
    ensures { result ≡ min (rows_of (condition_of c.now) * min (parts_of (condition_of d.now)) (2 ^ 64 - 1)) (2 ^ 64 - 1) }
{
    rows_wanted(c).saturating_mul(parts(d))
}

/// Whether c is below d by the rules on conditions.
#[cycle(decisions)]
pub(crate) fn is_derived(c: &Cond, d: &Cond) -> bool
    ensures { result ≡ rules.is_derived (condition_of c.now) (condition_of d.now) }
{
    if same_condition(c, d) {
        return true;
    }
    let wanted = answers_wanted(c, d);
    if wanted <= FEW_ANSWERS {
        is_derived_by_rows::<FEW_ANSWERS>(c, d)
    } else if wanted <= MOST_ANSWERS {
        is_derived_by_rows::<MOST_ANSWERS>(c, d)
    } else {
        is_derived_apart(c, d)
    }
}

/// Whether c is below d, by the rules that the two call for, which may lead to one pair of parts along many
/// ways. It is for conditions whose rows have no room.
#[cycle(decisions)]
pub(crate) fn is_derived_apart(c: &Cond, d: &Cond) -> bool
    ensures { result ≡ rules.is_derived (condition_of c.now) (condition_of d.now) }
{
    match (c, d) {
        (Cond::False, _) | (_, Cond::True) => true,
        (Cond::Or(x, y), _) => is_derived(x, d) && is_derived(y, d),
        (_, Cond::And(x, y)) => is_derived(c, x) && is_derived(c, y),
        (Cond::And(x, y), Cond::Or(u, v)) => {
            is_derived(x, d) || is_derived(y, d) || is_derived(c, u) || is_derived(c, v)
        }
        (Cond::And(x, y), _) => is_derived(x, d) || is_derived(y, d),
        (_, Cond::Or(x, y)) => is_derived(c, x) || is_derived(c, y),
        _ => same_condition(c, d),
    }
}
