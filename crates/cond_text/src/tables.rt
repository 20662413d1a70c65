//! Reading a table.

mod line_faults;
mod reader;
mod row_lines;

ghost use Rattle.std.specs.Prelude.{◌≡◌, ℕ, ◌≤◌, length, IfOk, IfErr, List};
ghost use Rattle.gx_base.specs.declared.kinds.Kind.{Kind};
ghost use Rattle.gx_base.specs.TableRows.{RowMap};
ghost use Rattle.text_lines.specs.Lines.{lines_of};
ghost use Rattle.cond_syntax.specs.TableTexts.{Fault, Untyped, AreRead, IsTableText, IsFirstFault};
ghost use Rattle.cond_text.specs.TextFaults.{IsFaultTold, GivesTable, GivesFault};
ghost use Rattle.cond_text.specs.LineAnswers.{so_far};

use crate::faults::TextFault;
use gx_base::{Kind, Table};
use reader::Reader;
use std::alloc::Global;
use text_lines::first_line;

/// Reads the text of a table of a wanted kind. A pair of methods without a row has the condition `False`.
pub fn read_table(alloc: Global, bytes: &[u8], wanted: &[Kind]) -> Result<(Kind, Table), TextFault>
    // A table is that of the text, and a fault is its first one.
    ensures table { IfOk result (λ read. IsTableText wanted.now bytes.now read.0 read.1) }
    ensures fault { IfErr result (IsFaultTold (IsFirstFault wanted.now bytes.now)) }

    // The text's table or first fault is the answer, but for want of memory.
    ensures only_table { (kind : Kind) (rows : RowMap) → IsTableText wanted.now bytes.now kind rows → GivesTable kind rows result }
    ensures only_fault { (line : ℕ) (fault : Fault) → IsFirstFault wanted.now bytes.now line fault → GivesFault line fault result }
{
    let (reader, lines) = read_lines(alloc, bytes, wanted)?;
    match reader {
        Reader::Untyped => Err(TextFault::Syntax { line: lines + 1 }),
        Reader::Typed(rows) => Ok((rows.kind, rows.table)),
    }
}

/// Reads all lines, and counts them.
fn read_lines(alloc: Global, bytes: &[u8], wanted: &[Kind]) -> Result<(Reader, u64), TextFault>
    ensures read { IfOk result (λ x. AreRead wanted.now Untyped (lines_of bytes.now) (so_far x.0)) }
    ensures count { IfOk result (λ x. x.1 ≡ length (lines_of bytes.now)) }
    ensures few { IfOk result (λ x. x.1 ≤ length bytes.now) }
    ensures fault { IfErr result (IsFaultTold (IsFirstFault wanted.now bytes.now)) }
{
    let mut reader = Reader::Untyped;
    let mut count = 0;
    let mut rest = bytes;
    while !rest.is_empty() {
        let (line, after) = first_line(rest);
        count += 1;
        if let Err(fault) = reader.read_line(alloc, wanted, line) {
            return Err(fault.at(count));
        }
        rest = after;
    }
    Ok((reader, count))
}
