//! The words that stand alone: texts that are written whatever else there is.

ghost use Rattle.std.specs.Prelude.{◌≡◌, ◌++◌, ◌∷◌, [], IfOk, OnOk, codes};
ghost use Rattle.run_commands.specs.Inputs.{Inputs};
ghost use Rattle.run_commands.specs.RunFaults.{FaultAnswers};
ghost use Rattle.run_commands.specs.commands.About.{help_text, version_text, told_meaning};

use crate::run_faults::RunFault;
use std::alloc::{AllocError, Global};

/// How the program is called.
const HELP: &str = concat!(
    "usage: galois COMMAND WORDS [--name value]...\n",
    "\n",
    "Commands:\n",
    "  flow FILE       run preflow-push on the network in FILE, and write the order of\n",
    "                  the commits and the flow that they leave\n",
    "  cluster FILE    merge the points in FILE, each time\n",
    "                  two of which each is the nearest to the other, and write the\n",
    "                  order of the commits, the merges and the point that is left\n",
    "  classify FILE   read the table of conditions in FILE, and write the class of\n",
    "                  each of its rows, and the lock modes that keep it\n",
    "  --help          write this text\n",
    "  --version       write the name and the version of the program\n",
    "\n",
    "FILE is a word that isn't empty and doesn't begin with --.\n",
    "\n",
    "Options of flow and of cluster, in any order, each at most once:\n",
    "  --virtual N     how many virtual workers run it, from 1 to 64; default 1\n",
    "  --turns N       how many turns are scheduled, from 0 to 1000000; default 0\n",
    "  --seed N        the seed of the schedule, 1 to 18 digits; default 0\n",
    "  --trace on      write a line for each scheduled turn, and for each call that is\n",
    "                  undone after these; default off\n",
    "  --told on       write a line for each conflict; default off\n",
    "  --table NAME    the table under which calls conflict: precise, simple, rw or global;\n",
    "                  default precise\n",
    "  --conditions F  the user's own table in the file F, in place of --table; it has to be\n",
    "                  below the precise one\n",
    "\n",
    "Statuses, each but 0 with its line on standard error:\n",
    "  0   the output was written whole\n",
    "  1   galois: usage: galois COMMAND WORDS [--name value]...\n",
    "      the words are none of the above\n",
    "  2   galois: line N: bad input\n",
    "      FILE isn't of the command's form, and N is the line of its first fault\n",
    "  3   galois: reading failed\n",
    "  4   galois: writing failed\n",
    "      some of the output may have been written\n",
    "  5   galois: no memory\n",
    "  6   galois: too large: WHAT\n",
    "      the file, or its nodes, arcs or points, are more than may be\n",
    "  7   galois: spent\n",
    "      4194304 items have committed, and another would\n",
    "  8   galois: kept\n",
    "      with one more commit more than 8388608 calls would have committed\n",
    "  9   galois: conditions: line N, or galois: conditions: M1 M2\n",
    "      the file of conditions is at fault on line N, or its row of the methods M1 and\n",
    "      M2 isn't below the precise one\n",
    "\n",
    "Examples:\n",
    "  galois flow examples/four-nodes.max\n",
    "  galois flow examples/conflict.max --virtual 2 --turns 22 --trace on\n",
    "  galois cluster examples/square.points\n",
);

/// The name and the version of the program.
const VERSION: &str = "galois 0.1\n";

/// The text of `--help`.
pub fn report_help(alloc: Global) -> Result<Vec<u8>, RunFault>
    ensures { (inputs : Inputs) → FaultAnswers (told_meaning help_text) inputs result }
{
    text_report(alloc, HELP)
}

/// The text of `--version`.
pub fn report_version(alloc: Global) -> Result<Vec<u8>, RunFault>
    ensures { (inputs : Inputs) → FaultAnswers (told_meaning version_text) inputs result }
{
    text_report(alloc, VERSION)
}

fn text_report(alloc: Global, text: &str) -> Result<Vec<u8>, RunFault>
    ensures { (inputs : Inputs) → FaultAnswers (told_meaning text.now) inputs result }
{
    match Vec::from_slice(alloc, text.as_bytes()) {
        Ok(report) => Ok(report),
        Err(_) => Err(RunFault::NoMemory),
    }
}
