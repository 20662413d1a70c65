//! What the lines of a table's text say.

ghost use Rattle.std.specs.Prelude.{◌≡◌, ◌∷◌};
ghost use Rattle.cond_syntax.specs.Tokens as plain;
ghost use Rattle.cond_syntax.specs.Tokens.{tokens_in};
ghost use Rattle.cond_syntax.specs.TableTexts.{is_skipped};
ghost use Rattle.cond_terms.specs.LineForms.{Says};

use crate::tokens::{TextToken, next_token};
use text_lines::is_blank;

/// What a line says by its first tokens.
#[derive(Clone, Copy)]
pub enum Said<'a> {
    /// The name of a kind after `type`.
    TypeLine(&'a [u8]),
    /// Two words, and the text after the colon that follows them.
    RowLine(&'a [u8], &'a [u8], &'a [u8]),
    /// Something else.
    Other,
}

/// Whether a line is empty but for blanks, or begins with `#` after them.
pub fn is_skipped(line: &[u8]) -> bool
    ensures { result ≡ is_skipped line.now }
{
    for byte in line {
        if !is_blank(*byte) {
            return *byte == b'#';
        }
    }
    true
}

/// What a line says.
pub fn said_by(line: &[u8]) -> Said<'_>
    ensures { Says (tokens_in line.now) result }
{
    match next_token(line) {
        Some((TextToken::TypeKey, rest)) => said_by_type(rest),
        Some((TextToken::Word(first), rest)) => said_by_row(first, rest),
        _ => Said::Other,
    }
}

/// What a line says that begins with `type` and goes on with this text.
fn said_by_type(rest: &[u8]) -> Said<'_>
    ensures { Says (plain.TypeKey ∷ tokens_in rest.now) result }
{
    let Some((TextToken::Word(name), after)) = next_token(rest) else {
        return Said::Other;
    };
    match next_token(after) {
        None => Said::TypeLine(name),
        Some(_) => Said::Other,
    }
}

/// What a line says that begins with a word and goes on with this text.
fn said_by_row<'a>(first: &'a [u8], rest: &'a [u8]) -> Said<'a>
    ensures { Says (plain.Word first.now ∷ tokens_in rest.now) result }
{
    let Some((TextToken::Word(second), after)) = next_token(rest) else {
        return Said::Other;
    };
    let Some((TextToken::Colon, text)) = next_token(after) else {
        return Said::Other;
    };
    Said::RowLine(first, second, text)
}
