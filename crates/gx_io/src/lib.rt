//! Files that are read whole and a sink that is written whole, with every fault counted.
//!
//! `read_whole(alloc, &mut files, name, limit)?` gives a file's bytes, `write_whole(&mut sink, &text)?` writes and
//! flushes. `StdFiles::new(&rt)` and `StdSink::new(&rt)` are the real files and standard output. `MemFiles` and
//! `MemSink` stand in memory, and fail at the calls that a test chooses; `NeverFails` round one of these answers no
//! failure. Start at the traits `Files` and `Sink`.
#![tactic(auto)]

mod fault;
mod files;
mod memory_files;
mod memory_sink;
mod never;
mod numbered_calls;
mod real;
mod sinks;

pub use fault::{IoFault, NoMemory, SinkFailed, WholeRefuse};
pub use files::{Files, read_whole};
pub use memory_files::MemFiles;
pub use memory_sink::MemSink;
pub use never::NeverFails;
pub use real::{StdFiles, StdSink};
pub use sinks::{Sink, write_whole};
