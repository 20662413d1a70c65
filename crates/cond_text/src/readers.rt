//! Reading the tokens of a condition one after another.

ghost use Rattle.std.specs.Prelude.{ℕ, List, ◌∷◌, [], Option, reverse, IfOk};
ghost use Rattle.gx_base.specs.Kinds.{kind_number};
ghost use Rattle.cond_syntax.specs.WrittenConditions.{WrittenCondition};
ghost use Rattle.cond_terms.specs.Machine as machine;
ghost use Rattle.cond_terms.specs.Machine.{ReadingState, Frame, Operand, step, unit_done, close_read, whole};
ghost use Rattle.cond_terms.specs.CodeTokens.{token_seen};
ghost use Rattle.cond_text.specs.Drafts.{IsDraft};
ghost use Rattle.cond_text.specs.Levels.{IsLevel, IsDraftConjunction};
ghost use Rattle.cond_terms.specs.Sources.{IsLater, IsStopped};
ghost use Rattle.cond_text.specs.Readers.{AreOutside, HasReached, IsTaken, IsFailed, LeadsReader, LeadsUnit, IsEnded, IsReadWhole};

use crate::drafts::{Draft, draft_of};
use crate::failures::Failure;
use crate::levels::{Conjunction, Level};
use cond_terms::{Next, Source, Stop, TextToken, read_comparison};
use gx_base::{Cond, NoMemory};
use std::alloc::Global;

/// What has been read inside of the innermost parenthesis.
#[derive(Drop)]
enum Innermost {
    /// A unit is due.
    Due(Level),
    /// A conjunction has been read.
    Done(Conjunction),
}

/// What has been read.
#[derive(Drop)]
struct Reader {
    alloc: Global,
    /// What waits outside of each open parenthesis, the innermost last.
    outer: Vec<Level>,
    place: Innermost,
}

impl Reader {
    fn new(alloc: Global) -> Self
        ensures { (kind : ℕ) → HasReached kind result (Operand []) }
    {
        Reader {
            alloc,
            outer: Vec::new(alloc),
            place: Innermost::Due(Level::new()),
        }
    }

    /// A unit is due inside of a level.
    fn due(alloc: Global, outer: Vec<Level>, level: Level) -> Self
        ensures { (kind : ℕ) (base : Option (List Frame)) (frames : List Frame) → AreOutside kind (reverse outer.items) base → IsLevel kind level base frames → HasReached kind result (Operand frames) }
    {
        Reader {
            alloc,
            outer,
            place: Innermost::Due(level),
        }
    }

    /// What has been read after one more token, or after all of the comparison that it begins.
    fn take<'a>(self, source: &mut Source<'a>, token: TextToken<'a>) -> Result<Self, Failure>
        ensures later { IsLater source.old source.new }
        ensures failed { IsFailed source.new result }
        ensures leads { (state : ReadingState) → HasReached (kind_number source.old.kind) self state → LeadsReader (kind_number source.old.kind) source.old source.new (step state (token_seen token.entry)) result }
    {
        let Reader {
            alloc,
            outer,
            place,
        } = self;
        match place {
            Innermost::Due(level) => take_due(alloc, outer, level, source, token),
            Innermost::Done(conjunction) => match take_done(alloc, outer, conjunction, token)? {
                Some(reader) => Ok(reader),
                None => Err(Failure::Stopped(Stop::Wrong)),
            },
        }
    }

    /// The condition that has been read.
    fn end(self) -> Result<Draft, Failure>
        ensures { (kind : ℕ) (state : ReadingState) → HasReached kind self state → IsEnded kind (whole state) result }
    {
        let Reader {
            alloc,
            outer,
            place,
        } = self;
        let Innermost::Done(conjunction) = place else {
            return Err(Failure::Stopped(Stop::Wrong));
        };
        if !outer.is_empty() {
            return Err(Failure::Stopped(Stop::Wrong));
        }
        let draft = conjunction.condition(alloc)?;
        Ok(draft)
    }
}

/// A unit has been read.
fn after_unit(
    alloc: Global,
    outer: Vec<Level>,
    level: Level,
    unit: Draft,
) -> Result<Reader, NoMemory>
    ensures { (kind : ℕ) (base : Option (List Frame)) (frames : List Frame) (written : WrittenCondition) → AreOutside kind (reverse outer.items) base → IsLevel kind level base frames → IsDraft kind written unit → IfOk result (λ reader. HasReached kind reader (unit_done written frames)) }
{
    let conjunction = level.after_unit(alloc, unit)?;
    Ok(Reader {
        alloc,
        outer,
        place: Innermost::Done(conjunction),
    })
}

/// A `(` has been read.
fn after_open(alloc: Global, outer: Vec<Level>, level: Level) -> Result<Reader, NoMemory>
    ensures { (kind : ℕ) (base : Option (List Frame)) (frames : List Frame) → AreOutside kind (reverse outer.items) base → IsLevel kind level base frames → IfOk result (λ reader. HasReached kind reader (Operand (machine.Group ∷ frames))) }
{
    let mut outer = outer;
    outer.push(level)?;
    Ok(Reader::due(alloc, outer, Level::new()))
}

/// A `)` has been read, if one is open.
fn after_close(
    alloc: Global,
    outer: Vec<Level>,
    conjunction: Conjunction,
) -> Result<Option<Reader>, NoMemory>
    ensures { (kind : ℕ) (base : Option (List Frame)) (last : WrittenCondition) (frames : List Frame) → AreOutside kind (reverse outer.items) base → IsDraftConjunction kind conjunction base last frames → IfOk result (IsTaken kind (close_read last frames)) }
{
    let mut outer = outer;
    let Some(level) = outer.pop() else {
        return Ok(None);
    };
    let unit = conjunction.condition(alloc)?;
    let reader = after_unit(alloc, outer, level, unit)?;
    Ok(Some(reader))
}

/// What a token leads to where a unit is due.
fn take_due<'a>(
    alloc: Global,
    outer: Vec<Level>,
    level: Level,
    source: &mut Source<'a>,
    token: TextToken<'a>,
) -> Result<Reader, Failure>
    ensures later { IsLater source.old source.new }
    ensures failed { IsFailed source.new result }
    ensures leads { (base : Option (List Frame)) (frames : List Frame) → AreOutside (kind_number source.old.kind) (reverse outer.items) base → IsLevel (kind_number source.old.kind) level base frames → LeadsReader (kind_number source.old.kind) source.old source.new (step (Operand frames) (token_seen token.entry)) result }
{
    match token {
        TextToken::NotKey => Ok(Reader::due(alloc, outer, level.after_not())),
        TextToken::Open => Ok(after_open(alloc, outer, level)?),
        _ => {
            let unit = read_unit(source, token)?;
            Ok(after_unit(alloc, outer, level, unit)?)
        }
    }
}

/// Reads the unit that a token begins, no `not` and no parenthesis.
fn read_unit<'a>(source: &mut Source<'a>, token: TextToken<'a>) -> Result<Draft, Stop>
    ensures later { IsLater source.old source.new }
    ensures stopped { IsStopped source.new result }
    ensures leads { LeadsUnit source.old source.new (token_seen token.entry) result }
{
    match token {
        TextToken::TrueKey => Ok(Draft::Kept(Cond::True, 1)),
        TextToken::FalseKey => Ok(Draft::Kept(Cond::False, 1)),
        _ => {
            let comparison = read_comparison(source, token)?;
            Ok(draft_of(comparison, source.kind()))
        }
    }
}

/// What a token leads to after a conjunction, if it can stand there.
fn take_done(
    alloc: Global,
    outer: Vec<Level>,
    conjunction: Conjunction,
    token: TextToken<'_>,
) -> Result<Option<Reader>, NoMemory>
    ensures { (kind : ℕ) (base : Option (List Frame)) (last : WrittenCondition) (frames : List Frame) → AreOutside kind (reverse outer.items) base → IsDraftConjunction kind conjunction base last frames → IfOk result (IsTaken kind (step (machine.Done last frames) (token_seen token.entry))) }
{
    match token {
        TextToken::AndKey => Ok(Some(Reader::due(alloc, outer, conjunction.after_and()))),
        TextToken::OrKey => {
            let level = conjunction.after_or(alloc)?;
            Ok(Some(Reader::due(alloc, outer, level)))
        }
        TextToken::Close => after_close(alloc, outer, conjunction),
        _ => Ok(None),
    }
}

/// Reads the tokens of a condition.
pub(crate) fn read_tokens(alloc: Global, source: &mut Source<'_>) -> Result<Draft, Failure>
    ensures later { IsLater source.old source.new }
    ensures whole { IsReadWhole source.old source.new result }
{
    let mut reader = Reader::new(alloc);
    loop {
        match source.next() {
            Next::Read(token) => reader = reader.take(source, token)?,
            Next::End => return reader.end(),
            Next::Cut => return Err(Failure::Stopped(Stop::Cut)),
        }
    }
}
