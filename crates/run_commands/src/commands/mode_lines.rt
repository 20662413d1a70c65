//! The lines on lock modes that `classify` writes after those of the rows.

ghost use Rattle.std.specs.Prelude.{◌≡◌, ◌<◌, ◌++◌, ◌∷◌, [], IfOk, OnOk, length, map, string_bytes};
ghost use Rattle.std.specs.List.{flat_map};
ghost use Rattle.gx_base.specs.Kinds.{kind_number};
ghost use Rattle.gx_base.specs.TableRows.{row_of};
ghost use Rattle.lock_compiler.specs.LockModes.{members_at};
ghost use Rattle.cond_syntax.specs.Printing.{letter_of};
ghost use Rattle.run_commands.specs.commands.ModeLines as lines;
ghost use Rattle.run_commands.specs.commands.ModeLines.{member_text, mode_line, mode_numbers, matrix_line, AreModeLines};

use gx_base::{Kind, NoMemory, Table, word_of};
use lock_compiler::{CompileRefuse, Modes, compile, reduce};
use std::alloc::{AllocError, Global};

fn letter(place: u32) -> char
    ensures is { result ≡ letter_of place }
    ensures ascii { result < 128 }
{
    match place {
        0 => 'a',
        1 => 'b',
        2 => 'c',
        3 => 'd',
        4 => 'p',
        5 => 'q',
        6 => 'r',
        _ => 's',
    }
}

fn place_sign(place: Option<u32>) -> char
    ensures is { result ≡ lines.place_sign place }
    ensures ascii { result < 128 }
{
    match place {
        None => '*',
        Some(place) => { if place <= 7 { letter(place) } else { '0' } }
    }
}

fn put_member(text: &mut String, method: u32, place: Option<u32>) -> Result<(), AllocError>
    ensures { OnOk result (string_bytes text.new ≡ string_bytes text.old ++ member_text (method, place)) }
{
    text.push_str(word_of(method))?;
    text.push('.')?;
    text.push(place_sign(place))
}

/// Puts members, each after a space.
fn put_members(text: &mut String, members: &[(u32, Option<u32>)]) -> Result<(), AllocError>
    ensures { OnOk result (string_bytes text.new ≡ string_bytes text.old ++ flat_map (λ member. 32 ∷ member_text member) members.now) }
{
    for member in members {
        text.push(' ')?;
        put_member(text, member.0, member.1)?;
    }
    Ok(())
}

fn put_mode(text: &mut String, modes: &Modes, mode: u32) -> Result<(), AllocError>
    requires { mode < length modes.now }
    ensures { OnOk result (string_bytes text.new ≡ string_bytes text.old ++ mode_line modes.now mode) }
{
    write!(text, "mode {mode}")?;
    put_members(text, modes.members(mode))?;
    text.push_str("\n")?;
    Ok(())
}

fn put_modes(text: &mut String, modes: &Modes) -> Result<(), AllocError>
    ensures { OnOk result (string_bytes text.new ≡ string_bytes text.old ++ flat_map (mode_line modes.now) (mode_numbers modes.now)) }
{
    for mode in 0..modes.count() {
        put_mode(text, modes, mode)?;
    }
    Ok(())
}

fn exclusion_sign(modes: &Modes, held: u32, asked: u32) -> char
    requires held { held < length modes.now }
    requires asked { asked < length modes.now }
    ensures is { result ≡ lines.exclusion_sign modes.now held asked }
    ensures ascii { result < 128 }
{
    if modes.compatible(held, asked) {
        '.'
    } else {
        'x'
    }
}

/// Puts a sign for each mode that may be asked for.
fn put_signs(text: &mut String, modes: &Modes, held: u32) -> Result<(), AllocError>
    requires { held < length modes.now }
    ensures { OnOk result (string_bytes text.new ≡ string_bytes text.old ++ map (lines.exclusion_sign modes.now held) (mode_numbers modes.now)) }
{
    for asked in 0..modes.count() {
        text.push(exclusion_sign(modes, held, asked))?;
    }
    Ok(())
}

fn put_matrix_line(text: &mut String, modes: &Modes, held: u32) -> Result<(), AllocError>
    requires { held < length modes.now }
    ensures { OnOk result (string_bytes text.new ≡ string_bytes text.old ++ matrix_line modes.now held) }
{
    write!(text, "matrix {held} ")?;
    put_signs(text, modes, held)?;
    text.push_str("\n")?;
    Ok(())
}

fn put_matrix(text: &mut String, modes: &Modes) -> Result<(), AllocError>
    ensures { OnOk result (string_bytes text.new ≡ string_bytes text.old ++ flat_map (matrix_line modes.now) (mode_numbers modes.now)) }
{
    for held in 0..modes.count() {
        put_matrix_line(text, modes, held)?;
    }
    Ok(())
}

fn modes_text(alloc: Global, modes: &Modes) -> Result<String, AllocError>
    ensures { IfOk result (λ text. string_bytes text ≡ lines.modes_text modes.now) }
{
    let count = modes.count();
    let mut text = format!(in alloc; "modes {count}\n")?;
    put_modes(&mut text, modes)?;
    put_matrix(&mut text, modes)?;
    Ok(text)
}

fn none_text(alloc: Global, first: u32, second: u32) -> Result<String, AllocError>
    ensures { IfOk result (λ text. string_bytes text ≡ lines.none_text first second) }
{
    let mut text = String::from_str(alloc, "modes none ")?;
    text.push_str(word_of(first))?;
    text.push(' ')?;
    text.push_str(word_of(second))?;
    text.push_str("\n")?;
    Ok(text)
}

/// The lines on the modes of a table, or on the first pair of methods for which there are none.
pub fn mode_lines(alloc: Global, kind: Kind, table: &Table) -> Result<String, NoMemory>
    ensures { IfOk result (λ text. AreModeLines (kind_number kind) (row_of table.now) (string_bytes text)) }
{
    match compile(alloc, kind, table) {
        Ok(modes) => {
            let fewer = reduce(alloc, &modes)?;
            Ok(modes_text(alloc, &fewer)?)
        }
        Err(CompileRefuse::NotSimple { first, second }) => Ok(none_text(alloc, first, second)?),
        Err(CompileRefuse::NoMemory) => Err(NoMemory),
    }
}
