//! What words name.

ghost use Rattle.std.specs.Prelude.{◌≡◌, find, bytes_eq};
ghost use Rattle.std.specs.List.{filter_map, range_with_len};
ghost use Rattle.gx_base.specs.Kinds.{kind_number};
ghost use Rattle.gx_base.specs.Methods as methods;
ghost use Rattle.cond_syntax.specs.WrittenConditions as written;
ghost use Rattle.cond_syntax.specs.TableTexts as texts;

use gx_base::{Kind, MOST_METHODS, Part, Side, Term, method_at, word_of};

/// The kind with this word.
pub fn kind_named(word: &[u8]) -> Option<Kind>
    ensures { result ≡ texts.kind_named word.now }
{
    if word == b"set".as_slice() {
        Some(Kind::Set)
    } else if word == b"cells".as_slice() {
        Some(Kind::Cells)
    } else if word == b"flow".as_slice() {
        Some(Kind::Flow)
    } else if word == b"points".as_slice() {
        Some(Kind::Points)
    } else if word == b"domains".as_slice() {
        Some(Kind::Domains)
    } else {
        None
    }
}

/// What a word names as a term in the conditions of a kind.
pub(crate) fn term_named(kind: Kind, word: &[u8]) -> Option<Term>
    ensures { result ≡ written.term_named (kind_number kind) word.now }
{
    if word == b"dom1".as_slice() {
        state_named(kind, Side::First)
    } else if word == b"dom2".as_slice() {
        state_named(kind, Side::Second)
    } else {
        value_named(word)
    }
}

/// The state function of one of the calls, where the kind has one.
fn state_named(kind: Kind, side: Side) -> Option<Term>
    ensures { result ≡ written.state_named (kind_number kind) side }
{
    match kind {
        Kind::Domains => Some(Term::State(side)),
        Kind::Set | Kind::Cells | Kind::Flow | Kind::Points => None,
    }
}

/// The value that a letter and a digit name.
fn value_named(word: &[u8]) -> Option<Term>
    ensures { result ≡ written.value_named word.now }
{
    match word {
        [letter, digit] => Some(Term::Value(side_named(*digit)?, place_named(*letter)?)),
        _ => None,
    }
}

fn place_named(letter: u8) -> Option<u32>
    ensures { result ≡ written.place_named letter }
{
    match letter {
        b'a' => Some(0),
        b'b' => Some(1),
        b'c' => Some(2),
        b'd' => Some(3),
        b'p' => Some(4),
        b'q' => Some(5),
        b'r' => Some(6),
        b's' => Some(7),
        _ => None,
    }
}

fn side_named(digit: u8) -> Option<Side>
    ensures { result ≡ written.side_named digit }
{
    match digit {
        b'1' => Some(Side::First),
        b'2' => Some(Side::Second),
        _ => None,
    }
}

/// What a word names in `beyond`.
pub(crate) fn part_named(word: &[u8]) -> Option<Part>
    ensures { result ≡ written.part_named word.now }
{
    if word == b"arg1".as_slice() {
        Some(Part::ArgFirst)
    } else if word == b"arg2".as_slice() {
        Some(Part::ArgSecond)
    } else if word == b"rep1".as_slice() {
        Some(Part::RepFirst)
    } else if word == b"rep2".as_slice() {
        Some(Part::RepSecond)
    } else {
        None
    }
}

/// The method of a kind with this word.
pub fn method_named(kind: Kind, word: &[u8]) -> Option<u32>
    ensures { result ≡ methods.method_of (kind_number kind) word.now }
{
    first_named(kind, word)
}

/// The first method of a kind with this word, by rising number.
fn first_named(kind: Kind, word: &[u8]) -> Option<u32>
    ensures { result ≡ find (λ method. bytes_eq (methods.word_of method) word.now) (filter_map (λ place. methods.method_at (kind_number kind) place) (range_with_len 0 methods.most_methods)) }
{
    (0..MOST_METHODS)
        .filter_map(|place| method_at(kind, place))
        .find(|method| word_of(*method).as_bytes() == word)
}
