//! The tokens of a line.

ghost use Rattle.std.specs.Prelude.{◌≡◌, ◌==◌, ◌||◌, ◌<◌, ◌≤◌, ◌∷◌, [], length, take, drop, MatchOption, IfSome};
ghost use Rattle.text_lines.specs.Fields.{StartsField};
ghost use Rattle.text_lines.specs.Numbers.{number_of};
ghost use Rattle.cond_syntax.specs.Pieces as pieces;
ghost use Rattle.cond_syntax.specs.Pieces.{pieces_of};
ghost use Rattle.cond_syntax.specs.Tokens as plain;
ghost use Rattle.cond_syntax.specs.Tokens.{tokens_in};
ghost use Rattle.cond_terms.specs.CodeTokens.{token_seen};

use text_lines::{is_blank, number};

/// A token of a line.
#[derive(Clone, Copy, Drop)]
pub enum TextToken<'a> {
    /// A letter, and then letters and digits, that are no key word.
    Word(&'a [u8]),
    /// 1 to 18 digits, after a minus or without.
    Number(i64),
    TypeKey,
    OrKey,
    AndKey,
    NotKey,
    TrueKey,
    FalseKey,
    BeyondKey,
    Open,
    Close,
    Comma,
    Colon,
    Equal,
    Differ,
    Less,
    AtMost,
    /// What is no token of the language.
    Odd,
}

/// The first token of a line and what follows it, and none where there is no token. Tokens are the longest that
/// begin at their place.
pub fn next_token(line: &[u8]) -> Option<(TextToken<'_>, &[u8])>
    ensures tokens { MatchOption result (tokens_in line.now ≡ []) (λ x. tokens_in line.now ≡ token_seen x.0 ∷ tokens_in x.1.now) }
    ensures shorter { IfSome result (λ x. length x.1.now < length line.now) }
{
    let rest = &line[front_while_blank(line)..];
    if rest.is_empty() {
        return None;
    }
    let (piece, after) = rest.split_at(front_of_piece(rest));
    Some((token_of(piece), after))
}

/// How many blanks are in front.
fn front_while_blank(line: &[u8]) -> usize
    ensures within { result ≤ length line.now }
    ensures same { pieces_of line.now ≡ pieces_of (drop result line.now) }
    ensures stops { StartsField (drop result line.now) }
{
    for (at, byte) in line.iter().enumerate() {
        if !is_blank(*byte) {
            return at;
        }
    }
    line.len()
}

/// How long the piece is that is in front.
fn front_of_piece(line: &[u8]) -> usize
    requires starts { StartsField line.now }
    requires some { 0 < length line.now }
    ensures within { result ≤ length line.now }
    ensures some { 0 < result }
    ensures piece { pieces_of line.now ≡ take result line.now ∷ pieces_of (drop result line.now) }
{
    for at in 1..line.len() {
        if !goes_on(&line[..at], line[at]) {
            return at;
        }
    }
    line.len()
}

/// Whether a piece goes on with one more byte. It takes no longer for a longer piece.
fn goes_on(piece: &[u8], byte: u8) -> bool
    ensures { result ≡ pieces.goes_on piece.now byte }
{
    let [first, more @ ..] = piece else {
        return false;
    };
    if first.is_ascii_alphabetic() {
        byte.is_ascii_alphabetic() || byte.is_ascii_digit()
    } else if first.is_ascii_digit() || *first == b'-' {
        byte.is_ascii_digit()
    } else {
        joins_equal(*first) && more.is_empty() && byte == b'='
    }
}

/// Whether a sign is one with an equal sign right after it.
fn joins_equal(sign: u8) -> bool
    ensures { result ≡ (sign == 33 || sign == 60) }
{
    sign == b'!' || sign == b'<'
}

/// What a piece is.
fn token_of(piece: &[u8]) -> TextToken<'_>
    ensures { token_seen result ≡ plain.token_of piece.now }
{
    let [first, more @ ..] = piece else {
        return TextToken::Odd;
    };
    if first.is_ascii_alphabetic() {
        word_token(piece)
    } else if first.is_ascii_digit() {
        positive_token(piece)
    } else if *first == b'-' {
        negative_token(more)
    } else {
        sign_token(piece)
    }
}

/// What a piece of digits is.
fn positive_token(digits: &[u8]) -> TextToken<'_>
    ensures { token_seen result ≡ plain.positive_token (number_of digits.now) }
{
    match number(digits) {
        Some(value) => TextToken::Number(value as i64),
        None => TextToken::Odd,
    }
}

/// What a minus and then these digits are.
fn negative_token(digits: &[u8]) -> TextToken<'_>
    ensures { token_seen result ≡ plain.negative_token (number_of digits.now) }
{
    match number(digits) {
        Some(value) => TextToken::Number(-(value as i64)),
        None => TextToken::Odd,
    }
}

/// What a piece of letters and digits is.
fn word_token(word: &[u8]) -> TextToken<'_>
    ensures { token_seen result ≡ plain.word_token word.now }
{
    if word == b"type".as_slice() {
        TextToken::TypeKey
    } else if word == b"or".as_slice() {
        TextToken::OrKey
    } else if word == b"and".as_slice() {
        TextToken::AndKey
    } else if word == b"not".as_slice() {
        TextToken::NotKey
    } else if word == b"true".as_slice() {
        TextToken::TrueKey
    } else if word == b"false".as_slice() {
        TextToken::FalseKey
    } else if word == b"beyond".as_slice() {
        TextToken::BeyondKey
    } else {
        TextToken::Word(word)
    }
}

/// What a piece is that begins with none of letters, digits and a minus.
fn sign_token(sign: &[u8]) -> TextToken<'_>
    ensures { token_seen result ≡ plain.sign_token sign.now }
{
    if sign == b"(".as_slice() {
        TextToken::Open
    } else if sign == b")".as_slice() {
        TextToken::Close
    } else if sign == b",".as_slice() {
        TextToken::Comma
    } else if sign == b":".as_slice() {
        TextToken::Colon
    } else if sign == b"=".as_slice() {
        TextToken::Equal
    } else if sign == b"!=".as_slice() {
        TextToken::Differ
    } else if sign == b"<".as_slice() {
        TextToken::Less
    } else if sign == b"<=".as_slice() {
        TextToken::AtMost
    } else {
        TextToken::Odd
    }
}
