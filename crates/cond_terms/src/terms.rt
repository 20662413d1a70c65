//! Reading comparisons and their terms.

ghost use Rattle.std.specs.Prelude.{◌≡◌, List, None, Some, MatchOption};
ghost use Rattle.gx_base.specs.Kinds.{kind_number};
ghost use Rattle.gx_base.specs.Conditions.{condition_of};
ghost use Rattle.cond_syntax.specs.WrittenConditions.{WrittenTerm, condition_in, term_of};
ghost use Rattle.cond_terms.specs.Machine as machine;
ghost use Rattle.cond_terms.specs.Machine.{Frame, Due, OpenDue, OperatorDue, TermDue, term_done, unit_done};
ghost use Rattle.cond_terms.specs.CodeTokens.{token_seen};
ghost use Rattle.cond_terms.specs.Comparisons.{term_spelled, relation_spelled, comparison_spelled, term_begun};
ghost use Rattle.cond_terms.specs.Sources.{IsLater, IsStopped, Leads};

use crate::sources::{Source, Stop};
use crate::tokens::TextToken;
use crate::words::{part_named, term_named};
use gx_base::{Cond, Kind, Term};

/// A term as it is written.
#[derive(Clone, Copy, Drop)]
pub(crate) enum Spelled<'a> {
    Number(i64),
    Word(&'a [u8]),
    Beyond(&'a [u8], &'a [u8], &'a [u8]),
}

/// What a comparison says of its terms.
#[derive(Clone, Copy, Drop)]
pub(crate) enum Relation {
    Equal,
    Differ,
    Less,
    AtMost,
}

/// A comparison as it is written.
#[derive(Clone, Copy, Drop)]
pub struct Comparison<'a> {
    left: Spelled<'a>,
    relation: Relation,
    right: Spelled<'a>,
}

impl Spelled<'_> {
    /// The term that is written, where its words are known.
    fn term(self, kind: Kind) -> Option<Term>
        ensures { result ≡ term_of (kind_number kind) (term_spelled self.entry) }
    {
        match self {
            Spelled::Number(number) => Some(Term::Const(number)),
            Spelled::Word(word) => term_named(kind, word),
            Spelled::Beyond(x, y, z) => match (part_named(x), part_named(y), part_named(z)) {
                (Some(x), Some(y), Some(z)) => Some(Term::Beyond(x, y, z)),
                _ => None,
            },
        }
    }
}

impl Comparison<'_> {
    /// The condition that is written, where its words are known.
    pub fn condition(self, kind: Kind) -> Option<Cond>
        ensures { MatchOption result (condition_in (kind_number kind) (comparison_spelled self.entry) ≡ None) (λ cond. condition_in (kind_number kind) (comparison_spelled self.entry) ≡ Some (condition_of cond)) }
    {
        let (Some(x), Some(y)) = (self.left.term(kind), self.right.term(kind)) else {
            return None;
        };
        match self.relation {
            Relation::Equal => Some(Cond::Eq(x, y)),
            Relation::Differ => Some(Cond::Ne(x, y)),
            Relation::Less => Some(Cond::Lt(x, y)),
            Relation::AtMost => Some(Cond::Le(x, y)),
        }
    }
}

/// Reads what follows `beyond`.
fn read_beyond<'a>(source: &mut Source<'a>) -> Result<Spelled<'a>, Stop>
    ensures later { IsLater source.old source.new }
    ensures stopped { IsStopped source.new result }
    ensures leads { (due : Due) (frames : List Frame) → Leads source.old source.new (Some (OpenDue due frames)) (λ x. term_done (term_spelled x) due frames) result }
{
    source.opening()?;
    let x = source.word()?;
    source.comma()?;
    let y = source.word()?;
    source.comma()?;
    let z = source.word()?;
    source.closing()?;
    Ok(Spelled::Beyond(x, y, z))
}

/// Reads the term that a token begins.
fn read_term<'a>(source: &mut Source<'a>, token: TextToken<'a>) -> Result<Spelled<'a>, Stop>
    ensures later { IsLater source.old source.new }
    ensures stopped { IsStopped source.new result }
    ensures leads { (due : Due) (frames : List Frame) → Leads source.old source.new (term_begun due frames (token_seen token.entry)) (λ x. term_done (term_spelled x) due frames) result }
{
    match token {
        TextToken::Number(number) => Ok(Spelled::Number(number)),
        TextToken::Word(word) => Ok(Spelled::Word(word)),
        TextToken::BeyondKey => read_beyond(source),
        _ => Err(Stop::Wrong),
    }
}

fn read_relation(source: &mut Source<'_>) -> Result<Relation, Stop>
    ensures later { IsLater source.old source.new }
    ensures stopped { IsStopped source.new result }
    ensures leads { (x : WrittenTerm) (frames : List Frame) → Leads source.old source.new (Some (OperatorDue x frames)) (λ relation. TermDue x (relation_spelled relation) frames) result }
{
    match source.token()? {
        TextToken::Equal => Ok(Relation::Equal),
        TextToken::Differ => Ok(Relation::Differ),
        TextToken::Less => Ok(Relation::Less),
        TextToken::AtMost => Ok(Relation::AtMost),
        _ => Err(Stop::Wrong),
    }
}

/// Reads the comparison that a token begins.
pub fn read_comparison<'a>(
    source: &mut Source<'a>,
    token: TextToken<'a>,
) -> Result<Comparison<'a>, Stop>
    ensures later { IsLater source.old source.new }
    ensures stopped { IsStopped source.new result }
    ensures leads { (frames : List Frame) → Leads source.old source.new (term_begun machine.First frames (token_seen token.entry)) (λ comparison. unit_done (comparison_spelled comparison) frames) result }
{
    let left = read_term(source, token)?;
    let relation = read_relation(source)?;
    let second = source.token()?;
    let right = read_term(source, second)?;
    Ok(Comparison {
        left,
        relation,
        right,
    })
}
