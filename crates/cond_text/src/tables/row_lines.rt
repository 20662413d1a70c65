//! The rows of a table that is being read.

ghost use Rattle.std.specs.Prelude.{◌≡◌, ℕ, is_some, IfOk, IfErr, OnErr};
ghost use Rattle.std.specs.FinMap as map;
ghost use Rattle.cond_syntax.specs.TableTexts.{AreMethods};
ghost use Rattle.cond_text.specs.declared.tables.line_faults.LineFault.TheVariants as refused;
ghost use Rattle.cond_text.specs.Pairs.{has_pair};

use super::line_faults::LineFault;
use crate::conditions::{Found, read_condition};
use cond_terms::method_named;
use gx_base::{Cond, Kind, NoMemory, Table};
use std::alloc::Global;

/// The rows that have been read. A table lends `false` for a pair without a row, so the pairs that have one stand
/// beside it.
#[derive(Drop)]
pub(super) struct RowLines {
    pub(super) kind: Kind,
    pub(super) table: Table,
    placed: Vec<(u32, u32)>,
    ghost tied: { (first second : ℕ) → has_pair placed.items first second ≡ is_some (map.get table (first, second)) },
}

impl RowLines {
    ghost use Rattle.std.specs.Prelude.{List, false, None, OnOk};
    ghost use Rattle.gx_base.specs.declared.kinds.Kind as kinds;
    ghost use Rattle.gx_base.specs.Conditions.{condition_of};
    ghost use Rattle.cond_syntax.specs.Tokens.{Token, tokens_in};
    ghost use Rattle.cond_syntax.specs.TableTexts.{Typed, is_skipped, IsRead};
    ghost use Rattle.cond_terms.specs.LineForms.{BeginsRow};
    ghost use Rattle.cond_text.specs.LineAnswers.{IsRefused, IsNoPlace};

    /// No rows of a kind's table.
    pub(super) fn new(alloc: Global, kind: Kind) -> RowLines
        ensures kind { result.kind ≡ kind }
        ensures none { result.table ≡ map.empty }
    {
        RowLines {
            kind,
            table: Table::blank(alloc),
            placed: Vec::new(alloc),
        }
    }

    /// Reads a row with two words and the text of a condition.
    pub(super) fn read(
        &mut self,
        alloc: Global,
        first: &[u8],
        second: &[u8],
        text: &[u8],
    ) -> Result<(), LineFault>
        ensures read { OnOk result ((wanted : List kinds.Kind) (line : List ℕ) → is_skipped line ≡ false → BeginsRow (tokens_in line) first.now second.now (tokens_in text.now) → IsRead wanted (Typed self.old.kind self.old.table) line (Typed self.new.kind self.new.table)) }
        ensures fault { IfErr result (λ fault. (wanted : List kinds.Kind) (ts : List Token) → BeginsRow ts first.now second.now (tokens_in text.now) → IsRefused wanted (Typed self.old.kind self.old.table) ts fault) }
    {
        match read_condition(alloc, self.kind, text)? {
            Found::Malformed => Err(LineFault::Syntax),
            Found::UnknownWord => {
                methods_named(self.kind, first, second)?;
                Err(LineFault::UnknownName)
            }
            Found::TooDeep => {
                self.place(first, second)?;
                Err(LineFault::TooDeep)
            }
            Found::Known(cond) => {
                let (first, second) = self.place(first, second)?;
                self.add(first, second, cond)?;
                Ok(())
            }
        }
    }

    /// The methods with two words, where they have no row yet.
    fn place(&self, first: &[u8], second: &[u8]) -> Result<(u32, u32), LineFault>
        ensures methods { IfOk result (λ pair. AreMethods self.now.kind first.now second.now pair.0 pair.1) }
        ensures free { IfOk result (λ pair. map.get self.now.table (pair.0, pair.1) ≡ None) }
        ensures fault { IfErr result (IsNoPlace self.now.kind self.now.table first.now second.now) }
    {
        let (i, j) = methods_named(self.kind, first, second)?;
        if self.has(i, j) {
            return Err(LineFault::Twice);
        }
        Ok((i, j))
    }

    /// Whether a pair of methods has a row.
    fn has(&self, first: u32, second: u32) -> bool
        ensures { result ≡ is_some (map.get self.now.table (first, second)) }
    {
        is_placed(&self.placed, first, second)
    }

    /// Adds the row of a pair of methods. After want of memory nothing is added.
    fn add(&mut self, first: u32, second: u32, cond: Cond) -> Result<(), NoMemory>
        ensures kind { self.new.kind ≡ self.old.kind }
        ensures ok { OnOk result (self.new.table ≡ map.insert self.old.table (first, second) (condition_of cond)) }
        ensures err { OnErr result (self.new.table ≡ self.old.table) }
    {
        self.placed.reserve(1)?;
        self.table.put(first, second, cond)?;
        self.placed.push((first, second))?;
        Ok(())
    }
}

/// Whether a pair of methods stands in a list.
fn is_placed(placed: &[(u32, u32)], first: u32, second: u32) -> bool
    ensures { result ≡ has_pair placed.now first second }
{
    placed
        .iter()
        .any(|pair| pair.0 == first && pair.1 == second)
}

/// The methods of a kind with two words.
fn methods_named(kind: Kind, first: &[u8], second: &[u8]) -> Result<(u32, u32), LineFault>
    ensures methods { IfOk result (λ pair. AreMethods kind first.now second.now pair.0 pair.1) }
    ensures fault { IfErr result (λ fault. fault ≡ refused.UnknownMethod) }
    ensures none { OnErr result ((i j : ℕ) → AreMethods kind first.now second.now i j → ⊥) }
{
    let Some(i) = method_named(kind, first) else {
        return Err(LineFault::UnknownMethod);
    };
    let Some(j) = method_named(kind, second) else {
        return Err(LineFault::UnknownMethod);
    };
    Ok((i, j))
}
