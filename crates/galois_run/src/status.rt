ghost use Rattle.std.specs.Prelude.{◌≡◌, IfOk, string_bytes};
ghost use Rattle.galois_run.specs.Statuses.{status_code, text_of, what_text, pair_text, IsBare};

use gx_base::{NoMemory, What, word_of};
use gx_io::WholeRefuse;
use run_commands::{RunFault, TableFault};
use std::alloc::{AllocError, Global};

/// How a run of the program ended.
#[derive(Clone, Copy, Debug, PartialEq, Eq, Drop)]
pub enum Status {
    Ok,
    Usage,
    BadInput { line: u64 },
    ReadFault,
    WriteFault,
    NoMemory,
    TooLarge { what: What },
    Spent,
    Kept,
    BadTable { why: TableFault },
}

/// The number of a status, with which the program ends.
pub fn status_number(status: &Status) -> u8
    ensures { result ≡ status_code status.now }
{
    match status {
        Status::Ok => 0,
        Status::Usage => 1,
        Status::BadInput { .. } => 2,
        Status::ReadFault => 3,
        Status::WriteFault => 4,
        Status::NoMemory => 5,
        Status::TooLarge { .. } => 6,
        Status::Spent => 7,
        Status::Kept => 8,
        Status::BadTable { .. } => 9,
    }
}

fn what_word(what: What) -> &'static str
    ensures { result.now ≡ what_text what }
{
    match what {
        What::File => "file",
        What::Nodes => "nodes",
        What::Arcs => "arcs",
        What::Points => "points",
        What::Nets => "nets",
        What::Horizon => "horizon",
        What::Size => "size",
    }
}

fn pair_line(alloc: Global, first: &str, second: &str) -> Result<String, AllocError>
    ensures { IfOk result (λ line. string_bytes line ≡ pair_text first.now second.now) }
{
    let mut line = String::from_str(alloc, "galois: conditions: ")?;
    line.push_str(first)?;
    line.push_str(" ")?;
    line.push_str(second)?;
    Ok(line)
}

fn fault_line(alloc: Global, why: TableFault) -> Result<String, AllocError>
    ensures { IfOk result (λ line. string_bytes line ≡ text_of (Status.BadTable why)) }
{
    match why {
        TableFault::Line(line) => format!(in alloc; "galois: conditions: line {line}"),
        TableFault::Pair { first, second } => pair_line(alloc, word_of(first), word_of(second)),
    }
}

fn large_line(alloc: Global, what: What) -> Result<String, AllocError>
    ensures { IfOk result (λ line. string_bytes line ≡ text_of (Status.TooLarge what)) }
{
    let word = what_word(what);
    format!(in alloc; "galois: too large: {word}")
}

fn input_line(alloc: Global, line: u64) -> Result<String, AllocError>
    ensures { IfOk result (λ text. string_bytes text ≡ text_of (Status.BadInput line)) }
{
    format!(in alloc; "galois: line {line}: bad input")
}

/// The line of a status that tells nothing but itself.
fn bare_line(status: &Status) -> &'static str
    requires { IsBare status.now }
    ensures { result.now ≡ text_of status.now }
{
    match status {
        Status::Usage => "galois: usage: galois COMMAND WORDS [--name value]...",
        Status::ReadFault => "galois: reading failed",
        Status::WriteFault => "galois: writing failed",
        Status::NoMemory => "galois: no memory",
        Status::Spent => "galois: spent",
        Status::Kept => "galois: kept",
        _ => "",
    }
}

/// The line that tells a status on standard error, without its line feed; empty for `Ok`.
pub fn status_line(alloc: Global, status: &Status) -> Result<String, NoMemory>
    ensures { IfOk result (λ line. string_bytes line ≡ text_of status.now) }
{
    match *status {
        Status::BadInput { line } => Ok(input_line(alloc, line)?),
        Status::TooLarge { what } => Ok(large_line(alloc, what)?),
        Status::BadTable { why } => Ok(fault_line(alloc, why)?),
        _ => Ok(String::from_str(alloc, bare_line(status))?),
    }
}

impl From<RunFault> for Status {
    ghost use Rattle.std.specs.Prelude.{◌≡◌};
    ghost use Rattle.galois_run.specs.FaultStatuses.{status_of_fault};

    ghost from_gives = { λ fault status. status ≡ status_of_fault fault };

    fn from(fault: RunFault) -> Status {
        match fault {
            RunFault::BadTable { why } => Status::BadTable { why },
            RunFault::BadInput { line } => Status::BadInput { line },
            RunFault::TooLarge { what } => Status::TooLarge { what },
            RunFault::Spent => Status::Spent,
            RunFault::Kept => Status::Kept,
            RunFault::NoMemory => Status::NoMemory,
        }
    }
}

impl From<WholeRefuse> for Status {
    ghost use Rattle.std.specs.Prelude.{◌≡◌};
    ghost use Rattle.galois_run.specs.FaultStatuses.{status_of_refusal};

    ghost from_gives = { λ refusal status. status ≡ status_of_refusal refusal };

    fn from(refusal: WholeRefuse) -> Status {
        match refusal {
            WholeRefuse::Failed => Status::ReadFault,
            WholeRefuse::TooLong => Status::TooLarge { what: What::File },
            WholeRefuse::NoMemory => Status::NoMemory,
        }
    }
}
