//! Conditions that are read, as long as they can be answered.

ghost use Rattle.std.specs.Prelude.{◌≡◌, ◌≤◌, ◌+◌, ℕ, min, max, MatchOption, IfOk};
ghost use Rattle.cond_syntax.specs.WrittenConditions.{WrittenCondition, And, Or, Not};
ghost use Rattle.gx_base.specs.Kinds.{kind_number};
ghost use Rattle.cond_terms.specs.Comparisons.{comparison_spelled};
ghost use Rattle.cond_text.specs.Drafts as drafts;
ghost use Rattle.cond_text.specs.Drafts.{IsDraft};

use cond_terms::Comparison;
use gx_base::{Cond, Kind, NoMemory, boxed};
use std::alloc::Global;

/// How deep a condition may be.
const MOST_DEEP: u32 = 64;

/// What is kept of a condition.
#[derive(Drop)]
pub(crate) enum Draft {
    /// Nothing, since it is more than 64 deep or a word isn't known in its place. What holds it is so too.
    Lost,
    /// The condition, and how deep it is.
    Kept(Cond, u32),
}

/// What is kept of a comparison.
pub(crate) fn draft_of(comparison: Comparison<'_>, kind: Kind) -> Draft
    ensures { IsDraft (kind_number kind) (comparison_spelled comparison.entry) result }
{
    match comparison.condition(kind) {
        Some(cond) => Draft::Kept(cond, 1),
        None => Draft::Lost,
    }
}

/// A draft's `not`.
fn negated_once(alloc: Global, draft: Draft) -> Result<Draft, NoMemory>
    ensures { (kind : ℕ) (written : WrittenCondition) → IsDraft kind written draft → IfOk result (IsDraft kind (Not written)) }
{
    match draft {
        Draft::Kept(cond, depth) if depth < MOST_DEEP => {
            Ok(Draft::Kept(Cond::Not(boxed(alloc, cond)?), depth + 1))
        }
        _ => Ok(Draft::Lost),
    }
}

/// A draft under as many `not`s; 65 stands for more too.
pub(crate) fn negated_by(alloc: Global, nots: u32, draft: Draft) -> Result<Draft, NoMemory>
    ensures { (kind count : ℕ) (written : WrittenCondition) → nots ≡ min count 65 → IsDraft kind written draft → IfOk result (IsDraft kind (drafts.negated_by count written)) }
{
    if nots > MOST_DEEP {
        return Ok(Draft::Lost);
    }
    let mut draft = draft;
    for _ in 0..nots {
        draft = negated_once(alloc, draft)?;
    }
    Ok(draft)
}

/// How deep what joins two conditions is, unless it is too deep.
fn joined_depth(left: u32, right: u32) -> Option<u32>
    ensures { MatchOption result (64 ≤ max left right) (λ depth. (depth ≡ max left right + 1) × (depth ≤ 64)) }
{
    let deepest = left.max(right);
    if deepest < MOST_DEEP {
        Some(deepest + 1)
    } else {
        None
    }
}

/// Two drafts' `and`.
pub(crate) fn both(alloc: Global, left: Draft, right: Draft) -> Result<Draft, NoMemory>
    ensures { (kind : ℕ) (x y : WrittenCondition) → IsDraft kind x left → IsDraft kind y right → IfOk result (IsDraft kind (And x y)) }
{
    let (Draft::Kept(x, left), Draft::Kept(y, right)) = (left, right) else {
        return Ok(Draft::Lost);
    };
    let Some(depth) = joined_depth(left, right) else {
        return Ok(Draft::Lost);
    };
    Ok(Draft::Kept(Cond::And(boxed(alloc, x)?, boxed(alloc, y)?), depth))
}

/// Two drafts' `or`.
pub(crate) fn either(alloc: Global, left: Draft, right: Draft) -> Result<Draft, NoMemory>
    ensures { (kind : ℕ) (x y : WrittenCondition) → IsDraft kind x left → IsDraft kind y right → IfOk result (IsDraft kind (Or x y)) }
{
    let (Draft::Kept(x, left), Draft::Kept(y, right)) = (left, right) else {
        return Ok(Draft::Lost);
    };
    let Some(depth) = joined_depth(left, right) else {
        return Ok(Draft::Lost);
    };
    Ok(Draft::Kept(Cond::Or(boxed(alloc, x)?, boxed(alloc, y)?), depth))
}
