//! Reading a file, piece by piece and whole.

ghost use Rattle.std.specs.Prelude.{◌≡◌, ◌<◌, ◌≤◌, ℕ, List, [], length, Option, Some, IfSome, IfOk, OnOk, OnErr, IsOk, IsErrOf, ◌↔◌, IsTrue, IsFalse};
ghost use Rattle.gx_io.specs.Faults.{Counts};
ghost use Rattle.gx_io.specs.Files.{Gives, HasCome};

use crate::fault::{IoFault, WholeRefuse};
use std::alloc::{AllocError, Global};

/// Files that are read by name, one at a time.
pub trait Files {
    /// What a name holds, where told. No call changes it.
    ghost holds: { Self → List ℕ → Option (List ℕ) };

    /// What is left of the started file, where told.
    ghost left: { Self → Option (List ℕ) };

    /// Whether a file was started.
    ghost is_started: { Self → Type 0 };

    /// How many faults there were.
    ghost faults: { Self → ℕ };

    /// Goes to the front of a file. A refusal changes nothing but the count of faults.
    fn start(&mut self, name: &str) -> Result<(), IoFault>
        ensures holds { holds self.new ≡ holds self.old }
        ensures left { OnOk result (left self.new ≡ holds self.old name.now) }
        ensures started { OnOk result (is_started self.new) }
        ensures refused { OnErr result (left self.new ≡ left self.old) }
        ensures stays_started { is_started self.old → is_started self.new }
        ensures cause { Counts (faults self.old) (faults self.new) (IsErrOf result IoFault.Failed) (IsOk result) }
        ensures no_memory { IsErrOf result IoFault.NoMemory → faults self.new ≡ faults self.old };

    /// Moves bytes from the front of what is left to the front of the piece, and says how many. A
    /// refusal changes nothing but the count of faults, and maybe the piece.
    fn read(&mut self, piece: &mut [u8]) -> Result<usize, IoFault>
        requires { is_started self.old }
        ensures holds { holds self.new ≡ holds self.old }
        ensures count { IfOk result (λ n. n ≤ length piece.new) }
        ensures gives { IfOk result (λ n. IfSome (left self.old) (λ was. Gives was (left self.new) piece.new n)) }

        // A piece that is not empty gets nothing exactly at the end.
        ensures end { IfOk result (λ n. IfSome (left self.old) (λ was. 0 < length piece.new → ((n ≡ 0) ↔ (was ≡ [])))) }
        ensures refused { OnErr result (left self.new ≡ left self.old) }
        ensures stays_started { is_started self.new }
        ensures cause { Counts (faults self.old) (faults self.new) (IsErrOf result IoFault.Failed) (IsOk result) }
        ensures no_memory { IsErrOf result IoFault.NoMemory → faults self.new ≡ faults self.old };
}

// How many bytes one call asks for.
const PIECE: usize = 65_536;

fn zeros(alloc: Global, len: usize) -> Result<Vec<u8>, AllocError>
    ensures { IfOk result (λ piece. length piece.items ≡ len) }
{
    Vec::from_elem(alloc, 0, len)
}

/// Reads one piece to the end of the bytes, and says whether anything came.
fn take_piece<F: Files>(
    files: &mut F,
    piece: &mut [u8],
    bytes: &mut Vec<u8>,
    limit: u64,
) -> Result<bool, WholeRefuse>
    requires started { F.is_started files.old }
    requires piece { 0 < length piece.old }
    requires within { length bytes.old.items ≤ limit }
    ensures started { F.is_started files.new }
    ensures holds { F.holds files.new ≡ F.holds files.old }
    ensures within { OnOk result (length bytes.new.items ≤ limit) }
    ensures more { IfOk result (λ more. IsTrue more → length bytes.old.items < length bytes.new.items) }
    ensures end { IfOk result (λ more. IsFalse more → bytes.new.items ≡ bytes.old.items) }
    ensures ended { IfOk result (λ more. IsFalse more → (all : List ℕ) → HasCome all (F.left files.old) bytes.old.items → all ≡ bytes.old.items) }
    ensures comes { OnOk result ((all : List ℕ) → HasCome all (F.left files.old) bytes.old.items → HasCome all (F.left files.new) bytes.new.items) }
    ensures too_long { IsErrOf result WholeRefuse.TooLong → (all : List ℕ) → HasCome all (F.left files.old) bytes.old.items → limit < length all }
    ensures too_long_kept { IsErrOf result WholeRefuse.TooLong → F.faults files.new ≡ F.faults files.old }
    ensures no_memory { IsErrOf result WholeRefuse.NoMemory → F.faults files.new ≡ F.faults files.old }
    ensures cause { Counts (F.faults files.old) (F.faults files.new) (IsErrOf result WholeRefuse.Failed) (IsOk result) }
{
    let n = files.read(piece)?;
    if n == 0 {
        return Ok(false);
    }
    if n as u64 > limit - bytes.len() as u64 {
        return Err(WholeRefuse::TooLong);
    }
    bytes.extend_from_slice(&piece[..n])?;
    Ok(true)
}

/// All that a name holds, which is at most `limit` bytes. It is read in pieces of 64 KiB.
pub fn read_whole<F: Files>(
    alloc: Global,
    files: &mut F,
    name: &str,
    limit: u64,
) -> Result<Vec<u8>, WholeRefuse>
    ensures whole { IfOk result (λ bytes. IfSome (F.holds files.old name.now) (λ all. bytes.items ≡ all)) }
    ensures within { IfOk result (λ bytes. length bytes.items ≤ limit) }

    // More than `limit` bytes came, and no call failed.
    ensures too_long { IsErrOf result WholeRefuse.TooLong → IfSome (F.holds files.old name.now) (λ all. limit < length all) }
    ensures too_long_kept { IsErrOf result WholeRefuse.TooLong → F.faults files.new ≡ F.faults files.old }
    ensures no_memory { IsErrOf result WholeRefuse.NoMemory → F.faults files.new ≡ F.faults files.old }
    ensures cause { Counts (F.faults files.old) (F.faults files.new) (IsErrOf result WholeRefuse.Failed) (IsOk result) }
    ensures holds { F.holds files.new ≡ F.holds files.old }
    ensures stays_started { F.is_started files.old → F.is_started files.new }
{
    files.start(name)?;
    let mut piece = zeros(alloc, PIECE)?;
    let mut bytes = Vec::new(alloc);
    while take_piece(files, &mut piece, &mut bytes, limit)? {}
    Ok(bytes)
}
