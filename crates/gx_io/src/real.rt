//! The real files, and standard output.

ghost use Rattle.std.specs.Prelude.{◌≡◌, None, IsSome};

use crate::fault::{IoFault, SinkFailed};
use crate::files::Files;
use crate::sinks::Sink;
use std::io::{ErrorKind, Print, Read};
use std::{fs, rt};

/// The files of the system, by path. What they hold is not told.
#[derive(Drop)]
pub struct StdFiles<'r, R: rt::Files> {
    rt: &'r R,
    started: Option<R::File>,
    faults: u64,
}

impl<'r, R: rt::Files> StdFiles<'r, R> {
    /// No file is started yet.
    pub fn new(rt: &'r R) -> StdFiles<'r, R>
        ensures faults { ⟦<StdFiles<'r, R> as Files>⟧.faults result ≡ 0 }
        ensures not_started { ¬ ⟦<StdFiles<'r, R> as Files>⟧.is_started result }
    {
        StdFiles {
            rt,
            started: None,
            faults: 0,
        }
    }
}

impl<'r, R: rt::Files> Files for StdFiles<'r, R> {
    ghost holds = { λ _ _. None };

    ghost left = { λ _. None };

    ghost is_started = { λ f. IsSome f.started };

    ghost faults = { λ f. f.faults };

    fn start(&mut self, name: &str) -> Result<(), IoFault> {
        match fs::open(self.rt, name) {
            Ok(file) => {
                self.started = Some(file);
                Ok(())
            }
            Err(e) if e.kind() == ErrorKind::OutOfMemory => Err(IoFault::NoMemory),
            Err(_) => {
                self.faults = self.faults.saturating_add(1);
                Err(IoFault::Failed)
            }
        }
    }

    fn read(&mut self, piece: &mut [u8]) -> Result<usize, IoFault> {
        let Some(file) = &mut self.started else {
            unreachable!()
        };
        let Ok(n) = file.read(piece) else {
            self.faults = self.faults.saturating_add(1);
            return Err(IoFault::Failed);
        };
        Ok(n)
    }
}

/// Standard output. What it holds is not told. Nothing is kept back: each write is one of the
/// system, which fails where a device is full or a pipe is closed.
#[derive(Drop)]
pub struct StdSink<'r, R> {
    rt: &'r R,
    faults: u64,
}

impl<'r, R: Print> StdSink<'r, R> {
    /// Nothing is written yet.
    pub fn new(rt: &'r R) -> StdSink<'r, R>
        ensures { ⟦<StdSink<'r, R> as Sink>⟧.faults result ≡ 0 }
    {
        StdSink { rt, faults: 0 }
    }
}

impl<'r, R: Print> Sink for StdSink<'r, R> {
    ghost told = { λ _. None };

    ghost faults = { λ sink. sink.faults };

    fn write(&mut self, piece: &[u8]) -> Result<usize, SinkFailed> {
        match self.rt.write_some(piece) {
            Ok(n) if n > 0 || piece.is_empty() => Ok(n),
            _ => {
                self.faults = self.faults.saturating_add(1);
                Err(SinkFailed)
            }
        }
    }

    fn flush(&mut self) -> Result<(), SinkFailed> {
        Ok(())
    }
}
