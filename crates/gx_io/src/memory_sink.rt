//! A sink in memory, with calls that fail.

ghost use Rattle.std.specs.Prelude.{◌≡◌, ◌≤◌, ◌<◌, [], length, take, false, true, Some, IsSome, IfSome, IfNone, IfOk, OnErr, IsOk, IsErr, ◌↔◌};
ghost use Rattle.std.specs.Vec.{vec_len, vec_capacity};
ghost use Rattle.gx_io.specs.Faults.{Counts};
ghost use Rattle.gx_io.specs.Schedules.{fresh, FailsNext, after_call};
ghost use Rattle.gx_io.specs.Sinks.{Adds, Flushes};
ghost use Rattle.gx_io.specs.declared.memory_sink.TheConstants.{ROOM};

use crate::fault::{NoMemory, SinkFailed};
use crate::numbered_calls::NumberedCalls;
use crate::sinks::Sink;
use std::alloc::Global;

// How many bytes there is room for.
const ROOM: usize = 1_048_576;

/// A sink in memory. Calls of `write` and `flush` are numbered together from 0, and those whose
/// numbers were chosen fail. A write past 1,048,576 bytes fails too, whole.
#[derive(Drop)]
pub struct MemSink {
    bytes: Vec<u8>,
    most: usize,
    flushed: bool,
    calls: NumberedCalls,
    ghost takes_some: { 1 ≤ most },
    ghost within_room: { vec_len bytes ≤ ROOM },
    ghost has_room: { ROOM ≤ vec_capacity bytes },
}

impl MemSink {
    ghost use Rattle.gx_io.specs.MemSink.{written_to, written_after, faults_of, most_of, schedule_of, taken_of, Fits};

    /// A sink whose writes take at most `most` bytes each. The calls with the numbers in `failing`
    /// fail.
    pub fn new(alloc: Global, most: usize, failing: Vec<u64>) -> Result<MemSink, NoMemory>
        requires { 1 ≤ most }
        ensures written { IfOk result (λ sink. written_to sink ≡ record { bytes = []; flushed = false }) }
        ensures faults { IfOk result (λ sink. faults_of sink ≡ 0) }
        ensures most { IfOk result (λ sink. most_of sink ≡ most) }
        ensures schedule { IfOk result (λ sink. schedule_of sink ≡ fresh failing.items) }
    {
        Ok(MemSink {
            bytes: Vec::with_capacity(alloc, ROOM)?,
            most,
            flushed: false,
            calls: NumberedCalls::new(failing),
        })
    }

    /// What was written.
    pub fn bytes(&self) -> &[u8]
        ensures { result.now ≡ (written_to self.now).bytes }
    {
        &self.bytes
    }

    /// Takes what one write takes of a piece, if there is room, and says how many bytes those are.
    pub(crate) fn add(&mut self, piece: &[u8]) -> Option<usize>
        ensures count { IfSome result (λ n. n ≡ length (taken_of self.old piece.now)) }
        ensures adds { IfSome result (λ n. written_to self.new ≡ written_after self.old piece.now) }
        ensures room { IsSome result ↔ Fits self.old piece.now }
        ensures faults { faults_of self.new ≡ faults_of self.old }
        ensures most { most_of self.new ≡ most_of self.old }
        ensures schedule { schedule_of self.new ≡ schedule_of self.old }
        ensures unchanged { IfNone result (written_to self.new ≡ written_to self.old) }
    {
        let n = self.most.min(piece.len());
        if n > ROOM - self.bytes.len() {
            return None;
        }
        let Ok(()) = self.bytes.extend_from_slice(&piece[..n]) else {
            unreachable!()
        };
        self.flushed = false;
        Some(n)
    }

    /// A flush that succeeds.
    pub(crate) fn send_on(&mut self)
        ensures flushes { written_to self.new ≡ record { bytes = (written_to self.old).bytes; flushed = true } }
        ensures faults { faults_of self.new ≡ faults_of self.old }
        ensures most { most_of self.new ≡ most_of self.old }
        ensures schedule { schedule_of self.new ≡ schedule_of self.old }
    {
        self.flushed = true;
    }
}

impl Sink for MemSink {
    ghost use Rattle.gx_io.specs.MemSink.{written_to, written_after, faults_of, most_of, schedule_of, taken_of, Fits};

    ghost told = { λ sink. Some (written_to sink) };

    ghost faults = { faults_of };

    fn write(&mut self, piece: &[u8]) -> Result<usize, SinkFailed>
        ensures exactly { IsOk result ↔ ((¬ FailsNext (schedule_of self.old)) × Fits self.old piece.now) }
        ensures taken { IfOk result (λ n. n ≡ length (taken_of self.old piece.now)) }
        ensures written { IfOk result (λ n. written_to self.new ≡ written_after self.old piece.now) }
        ensures most { most_of self.new ≡ most_of self.old }
        ensures schedule { schedule_of self.new ≡ after_call (schedule_of self.old) }

        // What every `Sink` says.
        ensures count { IfOk result (λ n. n ≤ length piece.now) }
        ensures takes { IfOk result (λ n. 0 < length piece.now → 1 ≤ n) }
        ensures adds { IfOk result (λ n. Adds (Some (written_to self.old)) (Some (written_to self.new)) (take n piece.now)) }
        ensures refused { OnErr result (written_to self.new ≡ written_to self.old) }
        ensures cause { Counts (faults_of self.old) (faults_of self.new) (IsErr result) (IsOk result) }
    {
        if !self.calls.next_fails() {
            if let Some(n) = self.add(piece) {
                return Ok(n);
            }
        }
        self.calls.add_fault();
        Err(SinkFailed)
    }

    fn flush(&mut self) -> Result<(), SinkFailed>
        ensures exactly { IsOk result ↔ (¬ FailsNext (schedule_of self.old)) }
        ensures most { most_of self.new ≡ most_of self.old }
        ensures schedule { schedule_of self.new ≡ after_call (schedule_of self.old) }

        // What every `Sink` says.
        ensures flushes { IsOk result → Flushes (Some (written_to self.old)) (Some (written_to self.new)) }
        ensures refused { OnErr result (written_to self.new ≡ written_to self.old) }
        ensures cause { Counts (faults_of self.old) (faults_of self.new) (IsErr result) (IsOk result) }
    {
        if self.calls.next_fails() {
            self.calls.add_fault();
            return Err(SinkFailed);
        }
        self.send_on();
        Ok(())
    }
}
