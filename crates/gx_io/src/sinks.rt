//! Writing, piece by piece and whole.

ghost use Rattle.std.specs.Prelude.{◌≡◌, ◌<◌, ◌≤◌, ℕ, length, take, Option, IfOk, OnOk, OnErr, IsOk, IsErr};
ghost use Rattle.gx_io.specs.Faults.{Counts};
ghost use Rattle.gx_io.specs.Sinks.{Written, Adds, AddsFront, AddsWhole, Flushes};

use crate::fault::SinkFailed;

/// Something that takes bytes.
pub trait Sink {
    /// What was written, and whether a flush has succeeded since the last write, where told.
    ghost told: { Self → Option Written };

    /// How many faults there were.
    ghost faults: { Self → ℕ };

    /// Adds bytes from the front of the piece, at least one where there is one, and says how many. A
    /// refusal changes nothing but the count of faults.
    fn write(&mut self, piece: &[u8]) -> Result<usize, SinkFailed>
        ensures count { IfOk result (λ n. n ≤ length piece.now) }
        ensures takes { IfOk result (λ n. 0 < length piece.now → 1 ≤ n) }
        ensures adds { IfOk result (λ n. Adds (told self.old) (told self.new) (take n piece.now)) }
        ensures refused { OnErr result (told self.new ≡ told self.old) }
        ensures cause { Counts (faults self.old) (faults self.new) (IsErr result) (IsOk result) };

    /// Sends on what was written. A refusal changes nothing but the count of faults.
    fn flush(&mut self) -> Result<(), SinkFailed>
        ensures flushes { OnOk result (Flushes (told self.old) (told self.new)) }
        ensures refused { OnErr result (told self.new ≡ told self.old) }
        ensures cause { Counts (faults self.old) (faults self.new) (IsErr result) (IsOk result) };
}

/// Writes all of the bytes and then flushes. At a refusal some front of them was written.
pub fn write_whole<K: Sink>(sink: &mut K, bytes: &[u8]) -> Result<(), SinkFailed>
    ensures whole { OnOk result (AddsWhole (K.told sink.old) (K.told sink.new) bytes.now) }
    ensures front { AddsFront (K.told sink.old) (K.told sink.new) bytes.now }
    ensures cause { Counts (K.faults sink.old) (K.faults sink.new) (IsErr result) (IsOk result) }
{
    let mut done = 0;
    while done < bytes.len() {
        done += sink.write(&bytes[done..])?;
    }
    sink.flush()
}
