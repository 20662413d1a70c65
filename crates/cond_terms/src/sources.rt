//! The tokens of a condition, as far as they are read.

ghost use Rattle.std.specs.Prelude.{◌≡◌, ◌≤◌, IfSome};
ghost use Rattle.cond_terms.specs.CodeTokens.{token_seen};
ghost use Rattle.cond_terms.specs.TokenSteps.{opened_after, inside_after, knows};

use crate::tokens::{TextToken, next_token};
use crate::words::{part_named, term_named};
use gx_base::Kind;

/// How many parentheses may be open at one place.
const MOST_OPEN: u32 = 64;

/// The tokens of a text, up to the place where more than 64 parentheses would be open.
#[derive(Drop)]
pub struct Source<'a> {
    rest: &'a [u8],
    kind: Kind,
    /// How many parentheses are open.
    opened: u32,
    /// Whether the words name what stands in `beyond`.
    inside: bool,
    /// Whether each word so far is known in its place.
    all_known: bool,
    ghost in_range: { opened ≤ 64 },
}

/// What is read next.
#[derive(Drop)]
pub enum Next<'a> {
    Read(TextToken<'a>),
    /// There is no further token.
    End,
    /// At the place where one parenthesis too many would be open.
    Cut,
}

/// Why what has to be there can't be read.
#[derive(Clone, Copy, Drop)]
pub enum Stop {
    /// Something else is there, or nothing.
    Wrong,
    /// One parenthesis too many would be open.
    Cut,
}

/// How many parentheses are open after a token, and none where one too many would be.
fn opened_after(opened: u32, token: TextToken<'_>) -> Option<u32>
    requires { opened ≤ 64 }
    ensures next { result ≡ opened_after opened (token_seen token.entry) }
    ensures in_range { IfSome result (λ after. after ≤ 64) }
{
    match token {
        TextToken::Open if opened == MOST_OPEN => None,
        TextToken::Open => Some(opened + 1),
        TextToken::Close => Some(opened.saturating_sub(1)),
        _ => Some(opened),
    }
}

/// Whether the words after a token name what stands in `beyond`.
fn inside_after(inside: bool, token: TextToken<'_>) -> bool
    ensures { result ≡ inside_after inside (token_seen token.entry) }
{
    match token {
        TextToken::BeyondKey => true,
        TextToken::Close => false,
        _ => inside,
    }
}

impl<'a> Source<'a> {
    ghost use Rattle.std.specs.Prelude.{ℕ, List};
    ghost use Rattle.gx_base.specs.Kinds.{kind_number};
    ghost use Rattle.cond_syntax.specs.Tokens as plain;
    ghost use Rattle.cond_terms.specs.Machine.{ReadingState, step, open_read, word_read, comma_read, close_due, whole};
    ghost use Rattle.cond_terms.specs.Sources.{IsSourceStart, IsNext, IsLater, IsStopped, LeadsToken, Leads};

    /// The tokens of a text whose words are those of a kind's conditions.
    pub fn new(kind: Kind, text: &'a [u8]) -> Self
        ensures { IsSourceStart kind text.now result }
    {
        Source {
            rest: text,
            kind,
            opened: 0,
            inside: false,
            all_known: true,
        }
    }

    pub fn kind(&self) -> Kind
        ensures { result ≡ self.now.kind }
    {
        self.kind
    }

    /// Whether each word that has been read is known in its place.
    pub fn all_known(&self) -> bool
        ensures { result ≡ self.now.all_known }
    {
        self.all_known
    }

    /// Whether a token is no word or a word that is known in the place that is read.
    fn knows(&self, token: TextToken<'_>) -> bool
        ensures { result ≡ knows (kind_number self.now.kind) self.now.inside (token_seen token.entry) }
    {
        match token {
            TextToken::Word(word) if self.inside => part_named(word).is_some(),
            TextToken::Word(word) => term_named(self.kind, word).is_some(),
            _ => true,
        }
    }

    /// Reads a token.
    pub fn next(&mut self) -> Next<'a>
        ensures later { IsLater self.old self.new }
        ensures next { IsNext self.old self.new result }
    {
        let Some((token, rest)) = next_token(self.rest) else {
            return Next::End;
        };
        let Some(opened) = opened_after(self.opened, token) else {
            return Next::Cut;
        };
        self.all_known = self.knows(token) && self.all_known;
        self.inside = inside_after(self.inside, token);
        self.opened = opened;
        self.rest = rest;
        Next::Read(token)
    }

    /// Reads a token that has to be there.
    pub(crate) fn token(&mut self) -> Result<TextToken<'a>, Stop>
        ensures later { IsLater self.old self.new }
        ensures stopped { IsStopped self.new result }
        ensures leads { (state : ReadingState) → LeadsToken self.old self.new state result }
    {
        match self.next() {
            Next::Read(token) => Ok(token),
            Next::End => Err(Stop::Wrong),
            Next::Cut => Err(Stop::Cut),
        }
    }

    /// Reads a word that has to be there.
    pub(crate) fn word(&mut self) -> Result<&'a [u8], Stop>
        ensures later { IsLater self.old self.new }
        ensures stopped { IsStopped self.new result }
        ensures leads { (state : ReadingState) (next : List ℕ → ReadingState) → (whole state ≡ None) → ((token : plain.Token) → step state token ≡ word_read next token) → Leads self.old self.new (Some state) (λ word. next word.now) result }
    {
        match self.token()? {
            TextToken::Word(word) => Ok(word),
            _ => Err(Stop::Wrong),
        }
    }

    /// Reads a `(` that has to be there.
    pub(crate) fn opening(&mut self) -> Result<(), Stop>
        ensures later { IsLater self.old self.new }
        ensures stopped { IsStopped self.new result }
        ensures leads { (state next : ReadingState) → (whole state ≡ None) → ((token : plain.Token) → step state token ≡ open_read next token) → Leads self.old self.new (Some state) (λ _. next) result }
    {
        match self.token()? {
            TextToken::Open => Ok(()),
            _ => Err(Stop::Wrong),
        }
    }

    /// Reads a comma that has to be there.
    pub(crate) fn comma(&mut self) -> Result<(), Stop>
        ensures later { IsLater self.old self.new }
        ensures stopped { IsStopped self.new result }
        ensures leads { (state next : ReadingState) → (whole state ≡ None) → ((token : plain.Token) → step state token ≡ comma_read next token) → Leads self.old self.new (Some state) (λ _. next) result }
    {
        match self.token()? {
            TextToken::Comma => Ok(()),
            _ => Err(Stop::Wrong),
        }
    }

    /// Reads a `)` that has to be there.
    pub(crate) fn closing(&mut self) -> Result<(), Stop>
        ensures later { IsLater self.old self.new }
        ensures stopped { IsStopped self.new result }
        ensures leads { (state next : ReadingState) → (whole state ≡ None) → ((token : plain.Token) → step state token ≡ close_due next token) → Leads self.old self.new (Some state) (λ _. next) result }
    {
        match self.token()? {
            TextToken::Close => Ok(()),
            _ => Err(Stop::Wrong),
        }
    }
}
