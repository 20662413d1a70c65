ghost use Rattle.std.specs.Prelude.{◌≡◌};
ghost use Rattle.gx_base.specs.Conditions.{condition_of};
ghost use Rattle.gx_base.specs.Below.{same_side, term_names, names_state};
ghost use Rattle.cond_lattice.specs.Grades.{are_across, is_conjunction, is_simple, grade_of};

use crate::grades::Grade;
use gx_base::{Cond, Side, Term};

/// Whether one is a value of the first call and the other a value of the second.
pub(crate) fn are_across(x: Term, y: Term) -> bool
    ensures { result ≡ are_across x y }
{
    match (x, y) {
        (Term::Value(Side::First, _), Term::Value(Side::Second, _)) => true,
        (Term::Value(Side::Second, _), Term::Value(Side::First, _)) => true,
        _ => false,
    }
}

fn is_conjunction(cond: &Cond) -> bool
    ensures { result ≡ is_conjunction (condition_of cond.now) }
{
    match cond {
        Cond::Ne(x, y) => are_across(*x, *y),
        Cond::And(x, y) => is_conjunction(x) && is_conjunction(y),
        _ => false,
    }
}

fn is_simple(cond: &Cond) -> bool
    ensures { result ≡ is_simple (condition_of cond.now) }
{
    match cond {
        Cond::True | Cond::False => true,
        _ => is_conjunction(cond),
    }
}

fn term_names(side: Side, term: Term) -> bool
    ensures { result ≡ term_names side term }
{
    match (side, term) {
        (Side::First, Term::State(Side::First)) => true,
        (Side::Second, Term::State(Side::Second)) => true,
        _ => false,
    }
}

/// Whether the condition names the state function at this side's call.
pub(crate) fn names_state(side: Side, cond: &Cond) -> bool
    ensures { result ≡ names_state side (condition_of cond.now) }
{
    match cond {
        Cond::True | Cond::False => false,
        Cond::Eq(x, y) | Cond::Ne(x, y) | Cond::Lt(x, y) | Cond::Le(x, y) => {
            term_names(side, *x) || term_names(side, *y)
        }
        Cond::And(x, y) | Cond::Or(x, y) => names_state(side, x) || names_state(side, y),
        Cond::Not(x) => names_state(side, x),
    }
}

/// The class of a condition.
pub fn class(cond: &Cond) -> Grade
    ensures { result ≡ grade_of (condition_of cond.now) }
{
    if is_simple(cond) {
        Grade::Simple
    } else if names_state(Side::Second, cond) {
        Grade::General
    } else {
        Grade::Online
    }
}
