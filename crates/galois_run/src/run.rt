//! The top call.

ghost use Rattle.std.specs.Prelude.{◌≡◌, ◌≢◌, ◌↔◌, ◌≤◌, None, Err, IfSome, IfOk, IfErr, map, string_bytes, true, false};
ghost use Rattle.gx_io.specs.Faults.{Counts};
ghost use Rattle.gx_io.specs.Sinks.{AddsWhole, AddsFront};
ghost use Rattle.run_commands.specs.CommandMeanings.{command_meaning};
ghost use Rattle.run_commands.specs.Inputs.{inputs_of, OnInputs};
ghost use Rattle.galois_run.specs.RunTurns.{IsCaused, IsReported, IsWritten, IsReportCutShort, IsAnswer, Completes, writes, IsRefusal, ending};
ghost use Rattle.run_words.specs.Words.{plan_of_words, planned};

use crate::status::Status;
use gx_io::{Files, Sink, write_whole};
use run_commands::{read_inputs, report_of};
use run_words::{Plan, WordsFault, read_words};
use std::alloc::Global;

/// Does what the words ask for: reads the files that they name, and writes the command's report on them once that is
/// made whole. It returns for every input.
pub fn run_turns<F: Files, K: Sink>(
    alloc: Global,
    words: &[String],
    files: &mut F,
    out: &mut K,
) -> Status
    // The command's report on its inputs was written whole and flushed.
    ensures ok { result ≡ Status.Ok → OnInputs (plan_of_words (map string_bytes words.now)) (F.holds files.old) (λ plan inputs. IsWritten (command_meaning plan) inputs (K.told out.old) (K.told out.new)) }

    // Each refusal comes by its cause.
    ensures usage { (result ≡ Status.Usage) ↔ (plan_of_words (map string_bytes words.now) ≡ None) }
    ensures caused { OnInputs (plan_of_words (map string_bytes words.now)) (F.holds files.old) (λ plan inputs. IsCaused (command_meaning plan) inputs result) }
    ensures cut_short { result ≡ Status.WriteFault → OnInputs (plan_of_words (map string_bytes words.now)) (F.holds files.old) (λ plan inputs. IsReportCutShort (command_meaning plan) inputs (K.told out.old) (K.told out.new)) }
    ensures answers { IfSome (plan_of_words (map string_bytes words.now)) (λ plan. IsAnswer (command_meaning plan) result) }

    // Where nothing is wrong with the inputs, nothing but a fault or want of memory keeps the report from being written.
    ensures complete { OnInputs (plan_of_words (map string_bytes words.now)) (F.holds files.old) (λ plan inputs. Completes (command_meaning plan) inputs result) }

    // A count of faults rises with the status that tells the fault, and stays with every other.
    ensures read_fault { Counts (F.faults files.old) (F.faults files.new) (result ≡ Status.ReadFault) (result ≢ Status.ReadFault) }
    ensures write_fault { Counts (K.faults out.old) (K.faults out.new) (result ≡ Status.WriteFault) (result ≢ Status.WriteFault) }

    // On every status but Ok and WriteFault nothing was written.
    ensures silent { writes result ≡ false → K.told out.new ≡ K.told out.old }
    ensures holds { F.holds files.new ≡ F.holds files.old }
{
    match read_words(alloc, words) {
        Ok(plan) => run_command(alloc, &plan, files, out),
        Err(WordsFault::Usage) => Status::Usage,
        Err(WordsFault::NoMemory) => Status::NoMemory,
    }
}

/// Makes the planned command's report on its inputs, and writes it.
fn run_command<F: Files, K: Sink>(alloc: Global, plan: &Plan, files: &mut F, out: &mut K) -> Status
    requires { 1 ≤ (planned plan.now).options.workers }
    ensures ok { result ≡ Status.Ok → IfSome (inputs_of (planned plan.now) (F.holds files.old)) (λ inputs. IsWritten (command_meaning (planned plan.now)) inputs (K.told out.old) (K.told out.new)) }
    ensures understood { result ≢ Status.Usage }
    ensures caused { IfSome (inputs_of (planned plan.now) (F.holds files.old)) (λ inputs. IsCaused (command_meaning (planned plan.now)) inputs result) }
    ensures cut_short { result ≡ Status.WriteFault → IfSome (inputs_of (planned plan.now) (F.holds files.old)) (λ inputs. IsReportCutShort (command_meaning (planned plan.now)) inputs (K.told out.old) (K.told out.new)) }
    ensures answers { IsAnswer (command_meaning (planned plan.now)) result }
    ensures read_fault { Counts (F.faults files.old) (F.faults files.new) (result ≡ Status.ReadFault) (result ≢ Status.ReadFault) }
    ensures write_fault { Counts (K.faults out.old) (K.faults out.new) (result ≡ Status.WriteFault) (result ≢ Status.WriteFault) }
    ensures silent { writes result ≡ false → K.told out.new ≡ K.told out.old }
    ensures holds { F.holds files.new ≡ F.holds files.old }
{
    match make_report(alloc, plan, files) {
        Ok(text) => put_report(out, &text),
        Err(status) => status,
    }
}

/// Reads the files that the plan names, and makes the planned command's report on them.
fn make_report<F: Files>(alloc: Global, plan: &Plan, files: &mut F) -> Result<Vec<u8>, Status>
    requires { 1 ≤ (planned plan.now).options.workers }
    ensures reported { IfOk result (λ text. IfSome (inputs_of (planned plan.now) (F.holds files.old)) (λ inputs. IsReported (command_meaning (planned plan.now)) inputs text.items)) }
    ensures caused { IfSome (inputs_of (planned plan.now) (F.holds files.old)) (λ inputs. IsCaused (command_meaning (planned plan.now)) inputs (ending result)) }
    ensures refusal { IfErr result IsRefusal }
    ensures answers { IfErr result (IsAnswer (command_meaning (planned plan.now))) }
    ensures read_fault { Counts (F.faults files.old) (F.faults files.new) (result ≡ Err Status.ReadFault) (result ≢ Err Status.ReadFault) }
    ensures holds { F.holds files.new ≡ F.holds files.old }
{
    let inputs = read_inputs(alloc, plan, files)?;
    Ok(report_of(alloc, plan, &inputs)?)
}

/// Writes a report.
fn put_report<K: Sink>(out: &mut K, text: &[u8]) -> Status
    ensures whole { result ≡ Status.Ok → AddsWhole (K.told out.old) (K.told out.new) text.now }
    ensures front { AddsFront (K.told out.old) (K.told out.new) text.now }
    ensures write_fault { Counts (K.faults out.old) (K.faults out.new) (result ≡ Status.WriteFault) (result ≢ Status.WriteFault) }
    ensures writes { writes result ≡ true }
{
    match write_whole(out, text) {
        Ok(()) => Status::Ok,
        Err(_) => Status::WriteFault,
    }
}
