ghost use Rattle.std.specs.Prelude.{◌≡◌, ◌↔◌, ◌&&◌, IsTrue};
ghost use Rattle.gx_base.specs.Conditions.{condition_of};
ghost use Rattle.cond_lattice.specs.Same.{Same, same_term, same_sides, same_condition};

use gx_base::{Cond, Term};

/// Whether two pairs of terms are equal.
fn same_pair(x: Term, y: Term, u: Term, v: Term) -> bool
    ensures { result ≡ (same_term x u && same_term y v) }
{
    x.equals(u) && y.equals(v)
}

/// Whether two pairs of terms are equal, or one is the other exchanged.
pub(crate) fn same_sides(x: Term, y: Term, u: Term, v: Term) -> bool
    ensures { result ≡ same_sides x y u v }
{
    same_pair(x, y, u, v) || same_pair(x, y, v, u)
}

/// Whether two conditions are the same but for the sides of their equations and inequalities.
#[tactic(auto, using(crate::proofs::order::Sameness::same_exactly))]
pub(crate) fn same_condition(c: &Cond, d: &Cond) -> bool
    ensures rule { result ≡ same_condition (condition_of c.now) (condition_of d.now) }
    ensures same { IsTrue result ↔ Same (condition_of c.now) (condition_of d.now) }
{
    match (c, d) {
        (Cond::True, Cond::True) | (Cond::False, Cond::False) => true,
        (Cond::Eq(x, y), Cond::Eq(u, v)) => same_sides(*x, *y, *u, *v),
        (Cond::Ne(x, y), Cond::Ne(u, v)) => same_sides(*x, *y, *u, *v),
        (Cond::Lt(x, y), Cond::Lt(u, v)) => same_pair(*x, *y, *u, *v),
        (Cond::Le(x, y), Cond::Le(u, v)) => same_pair(*x, *y, *u, *v),
        (Cond::And(a, b), Cond::And(e, f)) => same_condition(a, e) && same_condition(b, f),
        (Cond::Or(a, b), Cond::Or(e, f)) => same_condition(a, e) && same_condition(b, f),
        (Cond::Not(a), Cond::Not(e)) => same_condition(a, e),
        _ => false,
    }
}
