//! What waits for its right side inside of a parenthesis.

ghost use Rattle.std.specs.Prelude.{ℕ, List, ◌∷◌, Option, IfOk};
ghost use Rattle.cond_syntax.specs.WrittenConditions.{WrittenCondition};
ghost use Rattle.cond_terms.specs.Machine.{Frame, Negation, AndLeft, unit_done, or_read};
ghost use Rattle.cond_text.specs.Drafts.{IsDraft, IsLeft, both_of};
ghost use Rattle.cond_text.specs.Levels.{IsLevel, IsDraftConjunction, LeadsConjunction, LeadsLevel, IsWhole, outside};

use crate::drafts::{Draft, both, either, negated_by};
use gx_base::NoMemory;
use std::alloc::Global;

/// No more `not`s than this are told apart.
const MOST_NOTS: u32 = 65;

/// What waits for a unit inside of one parenthesis.
#[derive(Drop)]
pub(crate) struct Level {
    /// The left side of an `or`.
    or_left: Option<Draft>,
    /// The left side of an `and`.
    and_left: Option<Draft>,
    /// How many `not`s stand before the unit; 65 for more.
    nots: u32,
}

/// A conjunction that has been read.
#[derive(Drop)]
pub(crate) struct Conjunction {
    /// The left side of the `or` that it follows.
    or_left: Option<Draft>,
    last: Draft,
}

/// A unit, or the `and` that it ends.
fn with_left(alloc: Global, and_left: Option<Draft>, unit: Draft) -> Result<Draft, NoMemory>
    ensures { (kind : ℕ) (left : Option WrittenCondition) (written : WrittenCondition) → IsLeft kind left and_left → IsDraft kind written unit → IfOk result (IsDraft kind (both_of left written)) }
{
    match and_left {
        Some(left) => both(alloc, left, unit),
        None => Ok(unit),
    }
}

impl Level {
    pub(crate) fn new() -> Self
        ensures { (kind : ℕ) (base : Option (List Frame)) → IsLevel kind result base (outside base) }
    {
        Level {
            or_left: None,
            and_left: None,
            nots: 0,
        }
    }

    /// The level after one more `not`.
    pub(crate) fn after_not(self) -> Self
        ensures { (kind : ℕ) (base : Option (List Frame)) (frames : List Frame) → IsLevel kind self base frames → IsLevel kind result base (Negation ∷ frames) }
    {
        let Level {
            or_left,
            and_left,
            nots,
        } = self;
        let nots = if nots < MOST_NOTS {
            nots + 1
        } else {
            MOST_NOTS
        };
        Level {
            or_left,
            and_left,
            nots,
        }
    }

    /// The conjunction that the level's unit ends.
    pub(crate) fn after_unit(self, alloc: Global, unit: Draft) -> Result<Conjunction, NoMemory>
        ensures { (kind : ℕ) (base : Option (List Frame)) (frames : List Frame) (written : WrittenCondition) → IsLevel kind self base frames → IsDraft kind written unit → IfOk result (LeadsConjunction kind base (unit_done written frames)) }
    {
        let Level {
            or_left,
            and_left,
            nots,
        } = self;
        let unit = negated_by(alloc, nots, unit)?;
        let last = with_left(alloc, and_left, unit)?;
        Ok(Conjunction { or_left, last })
    }
}

impl Conjunction {
    /// The level after `and`.
    pub(crate) fn after_and(self) -> Level
        ensures { (kind : ℕ) (base : Option (List Frame)) (last : WrittenCondition) (frames : List Frame) → IsDraftConjunction kind self base last frames → IsLevel kind result base (AndLeft last ∷ frames) }
    {
        let Conjunction { or_left, last } = self;
        Level {
            or_left,
            and_left: Some(last),
            nots: 0,
        }
    }

    /// The condition that the conjunction ends.
    pub(crate) fn condition(self, alloc: Global) -> Result<Draft, NoMemory>
        ensures { (kind : ℕ) (base : Option (List Frame)) (last : WrittenCondition) (frames : List Frame) → IsDraftConjunction kind self base last frames → IfOk result (IsWhole kind base last frames) }
    {
        let Conjunction { or_left, last } = self;
        match or_left {
            Some(left) => either(alloc, left, last),
            None => Ok(last),
        }
    }

    /// The level after `or`.
    pub(crate) fn after_or(self, alloc: Global) -> Result<Level, NoMemory>
        ensures { (kind : ℕ) (base : Option (List Frame)) (last : WrittenCondition) (frames : List Frame) → IsDraftConjunction kind self base last frames → IfOk result (LeadsLevel kind base (or_read last frames)) }
    {
        let left = self.condition(alloc)?;
        Ok(Level {
            or_left: Some(left),
            and_left: None,
            nots: 0,
        })
    }
}
