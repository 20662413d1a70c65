//! Lines of text: fields with one space between and a line feed at the end, as reports have them.
//!
//! `put_line(&mut text, &[Field::Word("a"), Field::Number(-3)])?` adds `a -3` and a line feed at the end of the bytes
//! `text`. `specs/Lines.antt` says what a line is.
#![tactic(auto)]

ghost use Rattle.std.specs.Prelude.{◌≡◌, ◌++◌, ◌∷◌, map, OnOk};
ghost use Rattle.std.specs.Fmt.{signed_decimal};
ghost use Rattle.std.specs.List.{flat_map};
ghost use Rattle.line_writer.specs.Lines.{field_text, spaced, line};

use itoa::Buffer;
use std::alloc::AllocError;

/// What stands between two spaces of a line.
#[derive(Clone, Copy, Drop)]
pub enum Field<'a> {
    /// A word, byte for byte: it should have no space and no line feed.
    Word(&'a str),
    /// A number in decimal digits, after a `-` where it is negative.
    Number(i64),
}

/// Adds a line at the end of a text. Where memory runs out, a part of the line may have been added.
pub fn put_line(text: &mut Vec<u8>, fields: &[Field]) -> Result<(), AllocError>
    ensures { OnOk result (text.new.items ≡ text.old.items ++ line (map field_text fields.now)) }
{
    put_spaced(text, fields)?;
    text.push(b'\n')?;
    Ok(())
}

fn put_spaced(text: &mut Vec<u8>, fields: &[Field]) -> Result<(), AllocError>
    ensures { OnOk result (text.new.items ≡ text.old.items ++ spaced (map field_text fields.now)) }
{
    if let Some((first, others)) = fields.split_first() {
        put_field(text, first)?;
        put_others(text, others)?;
    }
    Ok(())
}

/// Adds fields, each after a space.
fn put_others(text: &mut Vec<u8>, fields: &[Field]) -> Result<(), AllocError>
    ensures { OnOk result (text.new.items ≡ text.old.items ++ flat_map (λ field. 32 ∷ field_text field) fields.now) }
{
    for field in fields {
        text.push(b' ')?;
        put_field(text, field)?;
    }
    Ok(())
}

fn put_field(text: &mut Vec<u8>, field: &Field) -> Result<(), AllocError>
    ensures { OnOk result (text.new.items ≡ text.old.items ++ field_text field.now) }
{
    match *field {
        Field::Word(word) => text.extend_from_slice(word.as_bytes()),
        Field::Number(number) => put_number(text, number),
    }
}

fn put_number(text: &mut Vec<u8>, number: i64) -> Result<(), AllocError>
    ensures { OnOk result (text.new.items ≡ text.old.items ++ signed_decimal number) }
{
    let mut digits = Buffer::new();
    text.extend_from_slice(digits.format(number).as_bytes())
}
