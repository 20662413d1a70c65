//! Printing tables.

ghost use Rattle.std.specs.Prelude.{◌≡◌, ◌++◌, IfOk, OnOk, List, codes, string_bytes, Contains};
ghost use Rattle.std.specs.List.{flat_map};
ghost use Rattle.gx_base.specs.declared.kinds.Kind.{Kind};
ghost use Rattle.gx_base.specs.Kinds.{kind_number};
ghost use Rattle.gx_base.specs.Methods as methods;
ghost use Rattle.gx_base.specs.Methods.{methods_of};
ghost use Rattle.gx_base.specs.TableRows.{row_of};
ghost use Rattle.cond_syntax.specs.TableTexts.{kind_text};
ghost use Rattle.cond_syntax.specs.Printing.{row_line, first_lines, type_text, table_text};
ghost use Rattle.cond_syntax.specs.Printable.{IsPrintableTable, IsReadBack};

use crate::conditions::put_condition;
use gx_base::{Kind, NoMemory, Table, method_at, word_of};
use std::alloc::{AllocError, Global};

/// The text of a table: the `type` line, and a row for each pair of methods of the kind, by their numbers. In a row a
/// value past place 7 is `0`.
pub fn print_table(alloc: Global, kind: Kind, table: &Table) -> Result<String, NoMemory>
    ensures text { IfOk result (λ text. string_bytes text ≡ table_text kind (row_of table.now)) }
    ensures reads_back { IfOk result (λ text. IsPrintableTable kind (row_of table.now) → (wanted : List Kind) → Contains wanted kind → IsReadBack wanted (string_bytes text) kind (row_of table.now)) }
{
    let mut text = String::new(alloc);
    put_type_line(&mut text, kind)?;
    put_rows(&mut text, kind, table)?;
    Ok(text)
}

fn put_type_line(text: &mut String, kind: Kind) -> Result<(), AllocError>
    ensures { OnOk result (string_bytes text.new ≡ string_bytes text.old ++ type_text kind) }
{
    text.push_str("type ")?;
    text.push_str(kind_word(kind))?;
    text.push_str("\n")
}

#[tactic(auto, using(gx_base::proofs::CallerLemmas::methods_end, gx_base::proofs::CallerLemmas::place_below, crate::proofs::methods::PrintedRows::all_pieces))]
fn put_rows(text: &mut String, kind: Kind, table: &Table) -> Result<(), AllocError>
    ensures { OnOk result (string_bytes text.new ≡ string_bytes text.old ++ flat_map (first_lines kind (row_of table.now)) (methods_of (kind_number kind))) }
{
    let mut place = 0;
    while let Some(first) = method_at(kind, place) {
        put_rows_of(text, kind, table, first)?;
        place += 1;
    }
    Ok(())
}

/// The rows with this method first.
#[tactic(auto, using(gx_base::proofs::CallerLemmas::methods_end, gx_base::proofs::CallerLemmas::place_below, crate::proofs::methods::PrintedRows::all_pieces))]
fn put_rows_of(text: &mut String, kind: Kind, table: &Table, first: u32) -> Result<(), AllocError>
    ensures { OnOk result (string_bytes text.new ≡ string_bytes text.old ++ first_lines kind (row_of table.now) first) }
{
    let mut place = 0;
    while let Some(second) = method_at(kind, place) {
        put_row(text, table, first, second)?;
        place += 1;
    }
    Ok(())
}

fn put_row(text: &mut String, table: &Table, first: u32, second: u32) -> Result<(), AllocError>
    ensures { OnOk result (string_bytes text.new ≡ string_bytes text.old ++ row_line (row_of table.now) first second) }
{
    put_methods(text, first, second)?;
    text.push_str(" : ")?;
    put_condition(text, table.row(first, second))?;
    text.push_str("\n")
}

fn put_methods(text: &mut String, first: u32, second: u32) -> Result<(), AllocError>
    ensures { OnOk result (string_bytes text.new ≡ string_bytes text.old ++ (methods.word_of first ++ codes " " ++ methods.word_of second)) }
{
    text.push_str(word_of(first))?;
    text.push_str(" ")?;
    text.push_str(word_of(second))
}

/// The word of a kind.
fn kind_word(kind: Kind) -> &'static str
    ensures { result.now ≡ kind_text kind }
{
    match kind {
        Kind::Set => "set",
        Kind::Cells => "cells",
        Kind::Flow => "flow",
        Kind::Points => "points",
        Kind::Domains => "domains",
    }
}
