ghost use Rattle.std.specs.Prelude.{◌≡◌, ◌≢◌, ℕ, Err, [], ◌∷◌, IsTrue, IfOk, OnOk, IfErr, IsSomeAnd, option_map};
ghost use Rattle.gx_base.specs.declared.kinds.Choice.{Choice};
ghost use Rattle.gx_base.specs.Below.{AreBelow};
ghost use Rattle.gx_base.specs.Kinds.{kind_number};
ghost use Rattle.gx_base.specs.ShippedTables.{rows_chosen};
ghost use Rattle.gx_base.specs.TableRows.{RowMap, row_of};
ghost use Rattle.gx_base.specs.Tables.{IsValid, KeepsToKind};
ghost use Rattle.cond_lattice.specs.declared.grades.Grade.TheVariants.{General};
ghost use Rattle.cond_lattice.specs.Grades.{table_grade};
ghost use Rattle.cond_lattice.specs.Tables.{AreRowsBelow};
ghost use Rattle.cond_syntax.specs.TableTexts.{IsTableText};
ghost use Rattle.table_choice.specs.RunTables.{IsAccepted, IsFaultyText, IsAbove, RefusesWhere, MayServe, IsTableOfRun, GivesRunTable, IsPairRefusal};
ghost use Rattle.table_choice.specs.RunTables as tables;
ghost use Rattle.table_choice.specs.declared.refusals.TableRefuse.TheVariants as refusals;

use crate::refusals::TableRefuse;
use cond_lattice::below;
use cond_text::{TextFault, read_table};
use gx_base::{Choice, Kind, SeqType, Table};
use std::alloc::Global;

/// Whatever is wrong with a text, its line is told.
fn table_refusal(fault: TextFault) -> TableRefuse
    ensures { result ≡ tables.table_refusal fault }
{
    match fault {
        TextFault::Syntax { line }
        | TextFault::UnknownMethod { line }
        | TextFault::UnknownName { line }
        | TextFault::Twice { line }
        | TextFault::TooDeep { line } => TableRefuse::Line { line },
        TextFault::NoMemory => TableRefuse::NoMemory,
    }
}

/// Reads the table of a kind.
fn read_of_kind(alloc: Global, kind: Kind, bytes: &[u8]) -> Result<Table, TableRefuse>
    ensures table { IfOk result (λ table. IsTableText (kind ∷ []) bytes.now kind table) }
    ensures keeps_to_kind { IfOk result (λ table. KeepsToKind (kind_number kind) (row_of table)) }
    ensures line { (line : ℕ) → RefusesWhere (IsFaultyText kind bytes.now line) (refusals.Line line) result }
    ensures only_lines { (first second : ℕ) → result ≢ Err (refusals.NotBelow first second) }
    ensures only_table { (table : RowMap) → IsTableText (kind ∷ []) bytes.now kind table → GivesRunTable table result }
{
    cond_syntax::laws::read_tables_are_printable();
    cond_syntax::laws::read_tables_are_of_wanted_kinds();
    match read_table(alloc, bytes, &[kind]) {
        Ok((_, table)) => Ok(table),
        Err(fault) => Err(table_refusal(fault)),
    }
}

/// Keeps a table, where each of its rows is below the other table's.
fn keep_below(kind: Kind, table: Table, upper: &Table) -> Result<Table, TableRefuse>
    ensures same { IfOk result (λ kept. kept ≡ table) }
    ensures below { OnOk result (AreRowsBelow (kind_number kind) (row_of table) (row_of upper.now)) }
    ensures sound { OnOk result (KeepsToKind (kind_number kind) (row_of table) → AreBelow (row_of table) (row_of upper.now)) }
    ensures refused { IfErr result (IsPairRefusal (kind_number kind) (row_of table) (row_of upper.now)) }
{
    match below(kind, &table, upper) {
        Ok(()) => Ok(table),
        Err(pair) => Err(TableRefuse::NotBelow {
            first: pair.first,
            second: pair.second,
        }),
    }
}

/// The table that a user wrote for a kind, where each of its rows is below the other's.
pub fn accepted_table(
    alloc: Global,
    kind: Kind,
    bytes: &[u8],
    upper: &Table,
) -> Result<Table, TableRefuse>
    ensures accepted { IfOk result (IsAccepted kind (row_of upper.now) bytes.now) }
    ensures line { (line : ℕ) → RefusesWhere (IsFaultyText kind bytes.now line) (refusals.Line line) result }
    ensures pair { (first second : ℕ) → RefusesWhere (IsAbove kind (row_of upper.now) bytes.now first second) (refusals.NotBelow first second) result }
    ensures below { IfOk result (λ table. AreBelow (row_of table) (row_of upper.now)) }
    ensures serves { IsValid (kind_number kind) (row_of upper.now) → IfOk result (λ table. MayServe (kind_number kind) (row_of table)) }
{
    let table = read_of_kind(alloc, kind, bytes)?;
    match keep_below(kind, table, upper) {
        Ok(kept) => Ok(kept),
        Err(refused) => Err(refused),
    }
}

/// The table of a kind that the objects of a run are under.
pub fn table_of_run<T: SeqType>(
    alloc: Global,
    kind: Kind,
    choice: Choice,
    conditions: Option<&[u8]>,
) -> Result<Table, TableRefuse>
    requires { IsTrue (T.holds_kind kind) }
    ensures table { IfOk result (IsTableOfRun kind (T.tables kind) choice (option_map (λ bytes. bytes.now) conditions.entry)) }
    ensures serves { IfOk result (λ table. MayServe (kind_number kind) (row_of table)) }
    ensures class { ((shipped : Choice) → table_grade (kind_number kind) (rows_chosen (T.tables kind) shipped) ≢ General) → IfOk result (λ table. table_grade (kind_number kind) (row_of table) ≢ General) }
    ensures line { (line : ℕ) → RefusesWhere (IsSomeAnd (option_map (λ bytes. bytes.now) conditions.entry) (λ bytes. IsFaultyText kind bytes line)) (refusals.Line line) result }
    ensures pair { (first second : ℕ) → RefusesWhere (IsSomeAnd (option_map (λ bytes. bytes.now) conditions.entry) (λ bytes. IsAbove kind (T.tables kind).precise bytes first second)) (refusals.NotBelow first second) result }
{
    cond_lattice::laws::below_keeps_out_general_rows();
    match conditions {
        None => Ok(T::shipped(alloc, kind, choice)?),
        Some(bytes) => {
            let precise = T::shipped(alloc, kind, Choice::Precise)?;
            accepted_table(alloc, kind, bytes, &precise)
        }
    }
}
