//! Files and a sink in memory that never fail.

ghost use Rattle.std.specs.Prelude.{◌≡◌, ◌↔◌, ◌≤◌, ◌<◌, [], None, length, min, true, IsOk, IfOk, IfSome};

use crate::fault::{IoFault, SinkFailed};
use crate::files::Files;
use crate::memory_files::MemFiles;
use crate::memory_sink::MemSink;
use crate::sinks::Sink;

/// One in memory that answers `Ok` where it would fail: an absent name starts a file that holds
/// nothing, and a write past the room takes its whole piece and keeps none of it. The numbers of
/// calls to fail are not looked at.
#[derive(Drop)]
pub struct NeverFails<X> {
    within: X,
}

impl<X> NeverFails<X> {
    ghost use Rattle.gx_io.specs.NeverFails.{within_of};

    /// Wraps files or a sink in memory.
    pub fn new(within: X) -> NeverFails<X>
        ensures { within_of result ≡ within }
    {
        NeverFails { within }
    }
}

impl Files for NeverFails<MemFiles> {
    ghost use Rattle.gx_io.specs.MemFiles.{left_of, IsStarted};
    ghost use Rattle.gx_io.specs.Files.{Gives};
    ghost use Rattle.gx_io.specs.NeverFails.{within_of, file_or_nothing};

    ghost holds = { file_or_nothing };

    ghost left = { λ f. left_of (within_of f) };

    ghost is_started = { λ f. IsStarted (within_of f) };

    ghost faults = { λ _. 0 };

    fn start(&mut self, name: &str) -> Result<(), IoFault>
        ensures ok { IsOk result }
        ensures holds { file_or_nothing self.new ≡ file_or_nothing self.old }
        ensures left { left_of (within_of self.new) ≡ file_or_nothing self.old name.now }
        ensures started { IsStarted (within_of self.new) }
    {
        if !self.within.go_to(name) {
            self.within.go_to_nothing();
        }
        Ok(())
    }

    fn read(&mut self, piece: &mut [u8]) -> Result<usize, IoFault>
        requires { IsStarted (within_of self.old) }
        ensures ok { IsOk result }
        ensures holds { file_or_nothing self.new ≡ file_or_nothing self.old }
        ensures count { IfOk result (λ n. n ≤ length piece.new) }
        ensures gives { IfOk result (λ n. IfSome (left_of (within_of self.old)) (λ was. Gives was (left_of (within_of self.new)) piece.new n)) }
        ensures whole { IfOk result (λ n. IfSome (left_of (within_of self.old)) (λ was. n ≡ min (length piece.new) (length was))) }
        ensures end { IfOk result (λ n. IfSome (left_of (within_of self.old)) (λ was. 0 < length piece.new → ((n ≡ 0) ↔ (was ≡ [])))) }
        ensures stays_started { IsStarted (within_of self.new) }
    {
        Ok(self.within.give(piece))
    }
}

impl Sink for NeverFails<MemSink> {
    ghost use Rattle.gx_io.specs.MemSink.{written_to};
    ghost use Rattle.gx_io.specs.NeverFails.{within_of, KeepsWhatFits};

    ghost told = { λ _. None };

    ghost faults = { λ _. 0 };

    fn write(&mut self, piece: &[u8]) -> Result<usize, SinkFailed>
        ensures ok { IsOk result }
        ensures count { IfOk result (λ n. n ≤ length piece.now) }
        ensures takes { IfOk result (λ n. 0 < length piece.now → 1 ≤ n) }
        ensures keeps { IfOk result (λ n. KeepsWhatFits (within_of self.old) (within_of self.new) piece.now n) }
    {
        Ok(self.within.add(piece).unwrap_or(piece.len()))
    }

    fn flush(&mut self) -> Result<(), SinkFailed>
        ensures ok { IsOk result }
        ensures flushes { written_to (within_of self.new) ≡ record { bytes = (written_to (within_of self.old)).bytes; flushed = true } }
    {
        self.within.send_on();
        Ok(())
    }
}
