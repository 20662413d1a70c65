//! The program: the top call on the words of its command line, the real files and standard output.
#![tactic(auto)]

use galois_run::{Status, run_turns, status_line, status_number};
use gx_io::{StdFiles, StdSink};
use std::alloc::{AllocGlobal, Global};
use std::env;
use std::io::{Eprint, ErrorKind, Print};
use std::process::ExitCode;
use std::rt::{Env, Files};

/// Answers how a run ended. A word that is no text is no word of the program's.
fn run<R: Env + Files + Print + AllocGlobal>(rt: &R) -> Status {
    let all = match env::args(rt) {
        Ok(all) => all,
        Err(fault) if fault.kind() == ErrorKind::OutOfMemory => return Status::NoMemory,
        Err(_) => return Status::Usage,
    };
    let alloc = rt.alloc();
    match all.skip(1).collect(alloc) {
        Ok(words) => {
            let words: Vec<String> = words;
            run_turns(alloc, &words, &mut StdFiles::new(rt), &mut StdSink::new(rt))
        }
        Err(_) => Status::NoMemory,
    }
}

/// Tells a status on standard error, where it isn't `Ok`. Nothing can be done where that fails too.
fn tell<R: Eprint>(rt: &R, alloc: Global, status: &Status) {
    if *status == Status::Ok {
        return;
    }
    if let Ok(line) = status_line(alloc, status) {
        let _ = eprintln!(rt; "{line}");
    }
}

fn main(rt: HostRuntime) -> ExitCode {
    let status = run(&rt);
    tell(&rt, rt.alloc(), &status);
    ExitCode::from(status_number(&status))
}
