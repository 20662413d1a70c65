//! The files that a plan names, read whole.

ghost use Rattle.std.specs.Prelude.{◌≡◌, ◌≢◌, List, Option, ℕ, Err, IfSome, IsSomeAnd, IfOk, IsErrOf, option_map};
ghost use Rattle.gx_io.specs.Faults.{Counts};
ghost use Rattle.run_commands.specs.Inputs.{main_of, inputs_in, inputs_of, held_under, IsWithinLength, IsTooLong, AreWithinLength, HasTooLong};
ghost use Rattle.run_words.specs.Words.{planned};

use gx_io::{Files, WholeRefuse, read_whole};
use run_words::Plan;
use std::alloc::Global;

/// How many bytes a file may have.
const MOST_BYTES: u64 = 67_108_864;

/// The bytes of a plan's files, each where the plan names one.
#[derive(Drop)]
pub struct InputFiles {
    main: Option<Vec<u8>>,
    conditions: Option<Vec<u8>>,
}

impl InputFiles {
    /// The bytes of the main file, and none where the plan names no file.
    pub fn main(&self) -> &[u8]
        ensures { result.now ≡ main_of (inputs_in self.now) }
    {
        match &self.main {
            Some(bytes) => bytes,
            None => &[],
        }
    }

    /// The bytes of the file of conditions, where the plan names one.
    pub fn conditions(&self) -> Option<&[u8]>
        ensures { option_map (λ bytes. bytes.now) result ≡ (inputs_in self.now).conditions }
    {
        match &self.conditions {
            Some(bytes) => Some(bytes),
            None => None,
        }
    }
}

/// Reads the file of a name, where there is one.
fn read_named<F: Files>(
    alloc: Global,
    name: Option<&str>,
    files: &mut F,
) -> Result<Option<Vec<u8>>, WholeRefuse>
    ensures whole { IfOk result (λ read. IfSome (held_under (F.holds files.old) (option_map (λ name. name.now) name.entry)) (λ held. option_map (λ file. file.items) read ≡ held)) }
    ensures within { IfOk result (λ read. IfSome read (λ file. IsWithinLength file.items)) }
    ensures too_long { IsErrOf result WholeRefuse.TooLong → IfSome (held_under (F.holds files.old) (option_map (λ name. name.now) name.entry)) (λ held. IsSomeAnd held IsTooLong) }
    ensures holds { F.holds files.new ≡ F.holds files.old }
    ensures counts { Counts (F.faults files.old) (F.faults files.new) (result ≡ Err WholeRefuse.Failed) (result ≢ Err WholeRefuse.Failed) }
{
    match name {
        Some(name) => Ok(Some(read_whole(alloc, files, name, MOST_BYTES)?)),
        None => Ok(None),
    }
}

/// Reads the files that a plan names, that of conditions first.
pub fn read_inputs<F: Files>(
    alloc: Global,
    plan: &Plan,
    files: &mut F,
) -> Result<InputFiles, WholeRefuse>
    ensures whole { IfOk result (λ read. IfSome (inputs_of (planned plan.now) (F.holds files.old)) (λ inputs. inputs_in read ≡ inputs)) }
    ensures within { IfOk result (λ read. AreWithinLength (inputs_in read)) }
    ensures too_long { IsErrOf result WholeRefuse.TooLong → IfSome (inputs_of (planned plan.now) (F.holds files.old)) HasTooLong }
    ensures holds { F.holds files.new ≡ F.holds files.old }
    ensures counts { Counts (F.faults files.old) (F.faults files.new) (result ≡ Err WholeRefuse.Failed) (result ≢ Err WholeRefuse.Failed) }
{
    let conditions = read_named(alloc, plan.conditions(), files)?;
    let main = read_named(alloc, plan.file(), files)?;
    Ok(InputFiles { main, conditions })
}
