//! Printing comparisons and their terms.

ghost use Rattle.std.specs.Prelude.{◌≡◌, ◌<◌, ◌++◌, OnOk, string_bytes};
ghost use Rattle.cond_syntax.specs.Printing as printing;
ghost use Rattle.cond_syntax.specs.Printing.{term_text, part_text};

use gx_base::{Part, Side, Term};
use std::alloc::AllocError;

pub(crate) fn put_comparison(
    text: &mut String,
    x: Term,
    operator: &str,
    y: Term,
) -> Result<(), AllocError>
    ensures { OnOk result (string_bytes text.new ≡ string_bytes text.old ++ (term_text x ++ operator.now ++ term_text y)) }
{
    put_term(text, x)?;
    text.push_str(operator)?;
    put_term(text, y)
}

fn put_term(text: &mut String, term: Term) -> Result<(), AllocError>
    ensures { OnOk result (string_bytes text.new ≡ string_bytes text.old ++ term_text term) }
{
    match term {
        Term::Const(number) => write!(text, "{number}"),
        Term::Value(side, place) => put_value(text, side, place),
        Term::Beyond(x, y, z) => put_beyond(text, x, y, z),
        Term::State(side) => text.push_str(state_name(side)),
    }
}

fn put_value(text: &mut String, side: Side, place: u32) -> Result<(), AllocError>
    ensures { OnOk result (string_bytes text.new ≡ string_bytes text.old ++ term_text (Term.Value side place)) }
{
    if place <= 7 {
        text.push(letter(place))?;
        text.push(digit(side))
    } else {
        text.push_str("0")
    }
}

fn put_beyond(text: &mut String, x: Part, y: Part, z: Part) -> Result<(), AllocError>
    ensures { OnOk result (string_bytes text.new ≡ string_bytes text.old ++ term_text (Term.Beyond x y z)) }
{
    text.push_str("beyond(")?;
    text.push_str(part_name(x))?;
    text.push_str(", ")?;
    text.push_str(part_name(y))?;
    text.push_str(", ")?;
    text.push_str(part_name(z))?;
    text.push_str(")")
}

/// The letter of a value's place.
fn letter(place: u32) -> char
    ensures is { result ≡ printing.letter_of place }
    ensures ascii { result < 128 }
{
    match place {
        0 => 'a',
        1 => 'b',
        2 => 'c',
        3 => 'd',
        4 => 'p',
        5 => 'q',
        6 => 'r',
        _ => 's',
    }
}

fn digit(side: Side) -> char
    ensures is { result ≡ printing.digit_of side }
    ensures ascii { result < 128 }
{
    match side {
        Side::First => '1',
        Side::Second => '2',
    }
}

fn part_name(part: Part) -> &'static str
    ensures { result.now ≡ part_text part }
{
    match part {
        Part::ArgFirst => "arg1",
        Part::ArgSecond => "arg2",
        Part::RepFirst => "rep1",
        Part::RepSecond => "rep2",
    }
}

fn state_name(side: Side) -> &'static str
    ensures { result.now ≡ printing.state_text side }
{
    match side {
        Side::First => "dom1",
        Side::Second => "dom2",
    }
}
