//! The command `classify`: from the text of a table to the classes of its rows, and its lock modes.

ghost use Rattle.std.specs.Prelude.{◌≡◌, ℕ, Err, IfOk, OnOk, [], ◌∷◌, ◌++◌, codes};
ghost use Rattle.gx_base.specs.Conditions.{condition_of};
ghost use Rattle.gx_base.specs.TableRows.{row_of};
ghost use Rattle.gx_base.specs.declared.inputs.What.{What};
ghost use Rattle.speculation.specs.Limits.{Limit};
ghost use Rattle.run_commands.specs.Inputs.{inputs_in};
ghost use Rattle.cond_syntax.specs.TableTexts.{all_kinds};
ghost use Rattle.run_commands.specs.commands.Classify.{class_text, pair_line, class_lines, rows_text, IsClassText, IsClassReport, IsFaultyTable, classify_meaning};
ghost use Rattle.line_writer.specs.Lines.{line};
ghost use Rattle.run_commands.specs.RunFaults.{fault_of_text, fault_of_limit, FaultsWhere, FaultAnswers};
ghost use Rattle.run_commands.specs.declared.run_faults.RunFault.TheVariants as faults;
ghost use Rattle.run_commands.specs.declared.run_faults.TableFault.{TableFault};

use crate::commands::mode_lines::mode_lines;
use crate::inputs::InputFiles;
use crate::run_faults::RunFault;
use cond_lattice::{Grade, class};
use cond_text::{TextFault, print_cond, read_table};
use gx_base::{Cond, Kind, NoMemory, Table, method_at, word_of};
use line_writer::{Field, put_line};
use std::alloc::{AllocError, Global};

fn class_word(grade: Grade) -> &'static str
    ensures { result.now ≡ class_text grade }
{
    match grade {
        Grade::Simple => "SIMPLE",
        Grade::Online => "ONLINE",
        Grade::General => "GENERAL",
    }
}

/// Puts the line of two methods, a class and a row.
fn put_words<'a>(
    text: &mut Vec<u8>,
    first: &'a str,
    second: &'a str,
    class: &'a str,
    row: &'a str,
) -> Result<(), AllocError>
    ensures { OnOk result (text.new.items ≡ text.old.items ++ line (codes "row" ∷ first.now ∷ second.now ∷ class.now ∷ row.now ∷ [])) }
{
    put_line(
        text,
        &[
            Field::Word("row"),
            Field::Word(first),
            Field::Word(second),
            Field::Word(class),
            Field::Word(row),
        ],
    )
}

/// Puts the line of a pair of methods with this row.
fn put_row(
    alloc: Global,
    text: &mut Vec<u8>,
    first: u32,
    second: u32,
    row: &Cond,
) -> Result<(), NoMemory>
    ensures { OnOk result (text.new.items ≡ text.old.items ++ pair_line first second (condition_of row.now)) }
{
    let printed = print_cond(alloc, row)?;
    put_words(
        text,
        word_of(first),
        word_of(second),
        class_word(class(row)),
        printed.as_str(),
    )?;
    Ok(())
}

/// Puts the lines of the rows with this method first.
#[tactic(auto, using(gx_base::proofs::CallerLemmas::methods_end, gx_base::proofs::CallerLemmas::place_below, cond_print::proofs::CallerLemmas::all_pieces))]
fn put_first(
    alloc: Global,
    text: &mut Vec<u8>,
    kind: Kind,
    table: &Table,
    first: u32,
) -> Result<(), NoMemory>
    ensures { OnOk result (text.new.items ≡ text.old.items ++ class_lines kind (row_of table.now) first) }
{
    let mut place = 0;
    while let Some(second) = method_at(kind, place) {
        put_row(alloc, text, first, second, table.row(first, second))?;
        place += 1;
    }
    Ok(())
}

/// The lines of the rows of a table: its methods, its class and its condition.
#[tactic(auto, using(gx_base::proofs::CallerLemmas::methods_end, gx_base::proofs::CallerLemmas::place_below, cond_print::proofs::CallerLemmas::all_pieces))]
fn row_lines(alloc: Global, kind: Kind, table: &Table) -> Result<Vec<u8>, NoMemory>
    ensures { IfOk result (λ text. text.items ≡ rows_text kind (row_of table.now)) }
{
    let mut text = Vec::new(alloc);
    let mut place = 0;
    while let Some(first) = method_at(kind, place) {
        put_first(alloc, &mut text, kind, table, first)?;
        place += 1;
    }
    Ok(text)
}

/// Tells each row of a table, its methods, its class and its condition, and then the table's lock modes, or, where
/// some row isn't simple, the methods of the first such row.
pub fn classify(alloc: Global, kind: Kind, table: &Table) -> Result<Vec<u8>, NoMemory>
    ensures { IfOk result (λ text. IsClassText kind (row_of table.now) text.items) }
{
    let mut text = row_lines(alloc, kind, table)?;
    let on_modes = mode_lines(alloc, kind, table)?;
    text.extend_from_slice(on_modes.as_bytes())?;
    Ok(text)
}

fn kinds() -> [Kind; 5]
    ensures { result ≡ all_kinds }
{
    [
        Kind::Set,
        Kind::Cells,
        Kind::Flow,
        Kind::Points,
        Kind::Domains,
    ]
}

/// The fault of a file that is no text of a table: it is the file of the command.
fn input_fault(refused: TextFault) -> RunFault
    ensures { result ≡ fault_of_text refused }
{
    match refused {
        TextFault::Syntax { line }
        | TextFault::UnknownMethod { line }
        | TextFault::UnknownName { line }
        | TextFault::Twice { line }
        | TextFault::TooDeep { line } => RunFault::BadInput { line },
        TextFault::NoMemory => RunFault::NoMemory,
    }
}

/// The report of `classify` on the inputs.
pub fn report_classes(alloc: Global, inputs: &InputFiles) -> Result<Vec<u8>, RunFault>
    ensures { FaultAnswers classify_meaning (inputs_in inputs.now) result }
{
    classify_bytes(alloc, inputs.main())
}

/// The report on the table of a file.
fn classify_bytes(alloc: Global, bytes: &[u8]) -> Result<Vec<u8>, RunFault>
    ensures reported { IfOk result (λ text. IsClassReport all_kinds bytes.now text.items) }
    ensures faulty { (line : ℕ) → FaultsWhere (IsFaultyTable all_kinds bytes.now line) (faults.BadInput line) result }
    ensures small { (what : What) → result ≡ Err (faults.TooLarge what) → ⊥ }
    ensures ends { (limit : Limit) → result ≡ Err (fault_of_limit limit) → ⊥ }
    ensures accepted { (why : TableFault) → result ≡ Err (faults.BadTable why) → ⊥ }
{
    match read_table(alloc, bytes, &kinds()) {
        Ok((kind, table)) => Ok(classify(alloc, kind, &table)?),
        Err(refused) => Err(input_fault(refused)),
    }
}
