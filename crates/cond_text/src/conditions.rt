//! Reading a condition.

ghost use Rattle.std.specs.Prelude.{◌≡◌, IfOk};
ghost use Rattle.gx_base.specs.Kinds.{kind_number};
ghost use Rattle.cond_syntax.specs.Tokens.{tokens_in};
ghost use Rattle.cond_text.specs.Found.{IsFound};
ghost use Rattle.cond_text.specs.Answered.{found_of};

use crate::drafts::Draft;
use crate::failures::Failure;
use crate::readers::read_tokens;
use cond_terms::{Source, Stop};
use gx_base::{Cond, Kind, NoMemory};
use std::alloc::Global;

/// What the tokens of a row's condition come to.
#[derive(Drop)]
pub(crate) enum Found {
    /// They have not the form of a condition.
    Malformed,
    /// They have it, but a word isn't known in its place.
    UnknownWord,
    /// They have it and their words are known, but the condition is too deep.
    TooDeep,
    Known(Cond),
}

/// Reads the condition that the rest of a row's line spells, with the words of a kind.
pub(crate) fn read_condition(alloc: Global, kind: Kind, text: &[u8]) -> Result<Found, NoMemory>
    ensures { IfOk result (IsFound kind (tokens_in text.now)) }
{
    let mut source = Source::new(kind, text);
    match read_tokens(alloc, &mut source) {
        Ok(draft) => Ok(answer(draft, source.all_known())),
        Err(Failure::Stopped(Stop::Cut)) => Ok(answer(Draft::Lost, source.all_known())),
        Err(Failure::Stopped(Stop::Wrong)) => Ok(Found::Malformed),
        Err(Failure::NoMemory) => Err(NoMemory),
    }
}

/// What tokens of the form of a condition come to, by what is kept of it and whether each word is known.
fn answer(draft: Draft, all_known: bool) -> Found
    ensures { result ≡ found_of draft all_known }
{
    match draft {
        Draft::Kept(cond, _) => Found::Known(cond),
        Draft::Lost if all_known => Found::TooDeep,
        Draft::Lost => Found::UnknownWord,
    }
}
