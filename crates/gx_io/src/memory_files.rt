//! Files in memory, with calls that fail.

ghost use Rattle.std.specs.Prelude.{◌≡◌, ◌≤◌, ◌<◌, ℕ, List, [], length, min, take, drop, Option, Some, None, IsSome, MatchOption, IfSome, IfOk, OnOk, OnErr, IsOk, IsErrOf, IsTrue, IsFalse, ◌+◌, ◌^◌, ◌↔◌};
ghost use Rattle.gx_io.specs.Faults.{Counts};
ghost use Rattle.gx_io.specs.NamedFiles.{bytes_of, bytes_at, rest_of};
ghost use Rattle.gx_io.specs.Files.{Gives};
ghost use Rattle.gx_io.specs.Schedules.{fresh, FailsNext, after_call};

use crate::fault::IoFault;
use crate::files::Files;
use crate::numbered_calls::NumberedCalls;

/// Files in memory by name. Calls of `start` and `read` are numbered together from 0, and those
/// whose numbers were chosen fail. A start of an absent name fails too.
#[derive(Drop)]
pub struct MemFiles {
    files: Vec<(String, Vec<u8>)>,
    calls: NumberedCalls,
    // The place of the started file; one past the last file holds nothing.
    started: Option<usize>,
    // How many of its bytes were read.
    at: usize,
}

impl MemFiles {
    ghost use Rattle.gx_io.specs.MemFiles.{file_of, left_of, faults_of, schedule_of, IsStarted};

    /// Files of these names, the first of each name counting. The calls with the numbers in
    /// `failing` fail.
    pub fn new(files: Vec<(String, Vec<u8>)>, failing: Vec<u64>) -> MemFiles
        ensures holds { file_of result ≡ bytes_of files.items }
        ensures left { left_of result ≡ None }
        ensures not_started { ¬ IsStarted result }
        ensures faults { faults_of result ≡ 0 }
        ensures schedule { schedule_of result ≡ fresh failing.items }
    {
        MemFiles {
            files,
            calls: NumberedCalls::new(failing),
            started: None,
            at: 0,
        }
    }

    /// Starts the file of this name, if there is one.
    pub(crate) fn go_to(&mut self, name: &str) -> bool
        ensures holds { file_of self.new ≡ file_of self.old }
        ensures faults { faults_of self.new ≡ faults_of self.old }
        ensures schedule { schedule_of self.new ≡ schedule_of self.old }
        ensures started { IsTrue result → IsStarted self.new }
        ensures left { IsTrue result → left_of self.new ≡ file_of self.old name.now }
        ensures absent { IsFalse result → file_of self.old name.now ≡ None }
        ensures unchanged { IsFalse result → self.new ≡ self.old }
    {
        match file_index(&self.files, name) {
            Some(place) => {
                self.started = Some(place);
                self.at = 0;
                true
            }
            None => false,
        }
    }

    /// Starts a file that holds nothing.
    pub(crate) fn go_to_nothing(&mut self)
        ensures holds { file_of self.new ≡ file_of self.old }
        ensures faults { faults_of self.new ≡ faults_of self.old }
        ensures started { IsStarted self.new }
        ensures left { left_of self.new ≡ Some [] }
    {
        self.started = Some(self.files.len());
        self.at = 0;
    }

    /// Moves bytes from the front of what is left to the front of the piece.
    pub(crate) fn give(&mut self, piece: &mut [u8]) -> usize
        requires { IsStarted self.old }
        ensures holds { file_of self.new ≡ file_of self.old }
        ensures faults { faults_of self.new ≡ faults_of self.old }
        ensures schedule { schedule_of self.new ≡ schedule_of self.old }
        ensures started { IsStarted self.new }
        ensures count { result ≤ length piece.new }
        ensures gives { IfSome (left_of self.old) (λ was. Gives was (left_of self.new) piece.new result) }
        ensures whole { IfSome (left_of self.old) (λ was. result ≡ min (length piece.new) (length was)) }
        ensures end { IfSome (left_of self.old) (λ was. 0 < length piece.new → ((result ≡ 0) ↔ (was ≡ []))) }
    {
        let n = give_from(&self.files, self.started, self.at, piece);
        self.at += n;
        n
    }
}

impl Files for MemFiles {
    ghost use Rattle.gx_io.specs.MemFiles.{file_of, left_of, faults_of, schedule_of, IsStarted};

    ghost holds = { file_of };

    ghost left = { left_of };

    ghost is_started = { IsStarted };

    ghost faults = { faults_of };

    fn start(&mut self, name: &str) -> Result<(), IoFault>
        ensures exactly { IsOk result ↔ ((¬ FailsNext (schedule_of self.old)) × IsSome (file_of self.old name.now)) }
        ensures only { OnErr result (IsErrOf result IoFault.Failed) }
        ensures schedule { schedule_of self.new ≡ after_call (schedule_of self.old) }

        // What every `Files` says.
        ensures holds { file_of self.new ≡ file_of self.old }
        ensures left { OnOk result (left_of self.new ≡ file_of self.old name.now) }
        ensures started { OnOk result (IsStarted self.new) }
        ensures refused { OnErr result (left_of self.new ≡ left_of self.old) }
        ensures stays_started { IsStarted self.old → IsStarted self.new }
        ensures cause { Counts (faults_of self.old) (faults_of self.new) (IsErrOf result IoFault.Failed) (IsOk result) }
        ensures no_memory { IsErrOf result IoFault.NoMemory → faults_of self.new ≡ faults_of self.old }
    {
        if !self.calls.next_fails() && self.go_to(name) {
            return Ok(());
        }
        self.calls.add_fault();
        Err(IoFault::Failed)
    }

    fn read(&mut self, piece: &mut [u8]) -> Result<usize, IoFault>
        requires { IsStarted self.old }
        ensures exactly { IsOk result ↔ (¬ FailsNext (schedule_of self.old)) }
        ensures only { OnErr result (IsErrOf result IoFault.Failed) }
        ensures whole { IfOk result (λ n. IfSome (left_of self.old) (λ was. n ≡ min (length piece.new) (length was))) }
        ensures schedule { schedule_of self.new ≡ after_call (schedule_of self.old) }

        // What every `Files` says.
        ensures holds { file_of self.new ≡ file_of self.old }
        ensures count { IfOk result (λ n. n ≤ length piece.new) }
        ensures gives { IfOk result (λ n. IfSome (left_of self.old) (λ was. Gives was (left_of self.new) piece.new n)) }
        ensures end { IfOk result (λ n. IfSome (left_of self.old) (λ was. 0 < length piece.new → ((n ≡ 0) ↔ (was ≡ [])))) }
        ensures refused { OnErr result (left_of self.new ≡ left_of self.old) }
        ensures stays_started { IsStarted self.new }
        ensures cause { Counts (faults_of self.old) (faults_of self.new) (IsErrOf result IoFault.Failed) (IsOk result) }
        ensures no_memory { IsErrOf result IoFault.NoMemory → faults_of self.new ≡ faults_of self.old }
    {
        if self.calls.next_fails() {
            self.calls.add_fault();
            return Err(IoFault::Failed);
        }
        Ok(self.give(piece))
    }
}

/// The place of the first file of this name.
fn file_index(files: &[(String, Vec<u8>)], name: &str) -> Option<usize>
    ensures { MatchOption result (bytes_of files.now name.now ≡ None) (λ place. bytes_of files.now name.now ≡ Some (bytes_at files.now place)) }
{
    for (place, (file, _)) in files.iter().enumerate() {
        if file.as_str() == name {
            return Some(place);
        }
    }
    None
}

/// Copies the bytes from this place on to the front of the piece, as far as they go.
fn copy_from(bytes: &[u8], at: usize, piece: &mut [u8]) -> usize
    ensures count { result ≡ min (length piece.old) (length (drop at bytes.now)) }
    ensures front { take result piece.new ≡ take result (drop at bytes.now) }
{
    if at >= bytes.len() {
        return 0;
    }
    let left = &bytes[at..];
    let n = left.len().min(piece.len());
    piece[..n].copy_from_slice(&left[..n]);
    n
}

/// Moves bytes from the front of what is left of the started file to the front of the piece.
fn give_from(
    files: &[(String, Vec<u8>)],
    started: Option<usize>,
    at: usize,
    piece: &mut [u8],
) -> usize
    requires { IsSome started }
    ensures room { at + result < 2 ^ 64 }
    ensures count { result ≤ length piece.new }
    ensures gives { IfSome (rest_of files.now started at) (λ was. Gives was (rest_of files.now started (at + result)) piece.new result) }
    ensures whole { IfSome (rest_of files.now started at) (λ was. result ≡ min (length piece.new) (length was)) }
    ensures end { IfSome (rest_of files.now started at) (λ was. 0 < length piece.new → ((result ≡ 0) ↔ (was ≡ []))) }
{
    match started {
        Some(place) => {
            if place < files.len() {
                copy_from(&files[place].1, at, piece)
            } else {
                0
            }
        }
        None => unreachable!(),
    }
}
