//! Reading a table's text from line to line.

ghost use Rattle.std.specs.Prelude.{◌≡◌, ◌≢◌, ◌↔◌, ℕ, List, false, IsTrue, IfErr, OnOk, Contains};
ghost use Rattle.cond_syntax.specs.Tokens.{Token, tokens_in};
ghost use Rattle.cond_syntax.specs.TableTexts.{is_skipped, IsTypeLine, IsRead};
ghost use Rattle.cond_terms.specs.LineForms.{BeginsRow};
ghost use Rattle.cond_text.specs.LineAnswers.{so_far, IsRefused};
ghost use Rattle.cond_text.specs.declared.tables.line_faults.LineFault.TheVariants as refused;

use super::line_faults::LineFault;
use super::row_lines::RowLines;
use cond_terms::{Said, is_skipped, kind_named, said_by};
use gx_base::Kind;
use std::alloc::Global;

/// What has been read of a table's text.
#[derive(Drop)]
pub(super) enum Reader {
    /// No `type` line yet.
    Untyped,
    Typed(RowLines),
}

impl Reader {
    /// Reads one more line.
    pub(super) fn read_line(
        &mut self,
        alloc: Global,
        wanted: &[Kind],
        line: &[u8],
    ) -> Result<(), LineFault>
        ensures read { OnOk result (IsRead wanted.now (so_far self.old) line.now (so_far self.new)) }
        ensures skipped { IfErr result (λ fault. fault ≢ refused.NoMemory → is_skipped line.now ≡ false) }
        ensures fault { IfErr result (IsRefused wanted.now (so_far self.old) (tokens_in line.now)) }
    {
        if is_skipped(line) {
            return Ok(());
        }
        match said_by(line) {
            Said::TypeLine(name) => self.read_type(alloc, wanted, name),
            Said::RowLine(first, second, text) => self.read_row(alloc, first, second, text),
            Said::Other => Err(LineFault::Syntax),
        }
    }

    /// Reads a `type` line with a name.
    fn read_type(&mut self, alloc: Global, wanted: &[Kind], name: &[u8]) -> Result<(), LineFault>
        ensures read { OnOk result ((line : List ℕ) → is_skipped line ≡ false → IsTypeLine (tokens_in line) name.now → IsRead wanted.now (so_far self.old) line (so_far self.new)) }
        ensures fault { IfErr result (λ fault. (ts : List Token) → IsTypeLine ts name.now → IsRefused wanted.now (so_far self.old) ts fault) }
    {
        let Some(kind) = kind_named(name) else {
            return Err(LineFault::UnknownName);
        };
        if !is_wanted(wanted, kind) {
            return Err(LineFault::UnknownName);
        }
        match self {
            Reader::Untyped => {
                *self = Reader::Typed(RowLines::new(alloc, kind));
                Ok(())
            }
            Reader::Typed(_) => Err(LineFault::Twice),
        }
    }

    /// Reads a row with two words and the text of a condition.
    fn read_row(
        &mut self,
        alloc: Global,
        first: &[u8],
        second: &[u8],
        text: &[u8],
    ) -> Result<(), LineFault>
        ensures read { OnOk result ((wanted : List Kind) (line : List ℕ) → is_skipped line ≡ false → BeginsRow (tokens_in line) first.now second.now (tokens_in text.now) → IsRead wanted (so_far self.old) line (so_far self.new)) }
        ensures fault { IfErr result (λ fault. (wanted : List Kind) (ts : List Token) → BeginsRow ts first.now second.now (tokens_in text.now) → IsRefused wanted (so_far self.old) ts fault) }
    {
        match self {
            Reader::Untyped => Err(LineFault::Syntax),
            Reader::Typed(rows) => rows.read(alloc, first, second, text),
        }
    }
}

/// Whether tables of a kind are wanted.
fn is_wanted(wanted: &[Kind], kind: Kind) -> bool
    ensures { IsTrue result ↔ Contains wanted.now kind }
{
    wanted.contains(&kind)
}
