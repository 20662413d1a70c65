//! Why a command makes no report on its inputs.

use gx_base::{InputFault, NoMemory, What};
use iterate::Stop;
use table_choice::TableRefuse;

/// What is wrong with a table of conditions.
#[derive(Clone, Copy, Debug, PartialEq, Eq, Drop)]
pub enum TableFault {
    /// The line, from 1, at which its text is refused.
    Line(u64),
    /// The first pair of methods whose row isn't below the shipped one.
    Pair { first: u32, second: u32 },
}

/// Why there is no report on the inputs.
#[derive(Clone, Copy, Debug, PartialEq, Eq, Drop)]
pub enum RunFault {
    /// The conditions are no table that the command may run under.
    BadTable { why: TableFault },
    /// The inputs are not of the form, and this line is told.
    BadInput { line: u64 },
    /// The inputs are of the form, and past this limit.
    TooLarge { what: What },
    /// As many items have committed as may, and one would commit.
    Spent,
    /// A commit would bring the journal past the steps that it may have.
    Kept,
    NoMemory,
}

impl From<NoMemory> for RunFault {
    ghost use Rattle.std.specs.Prelude.{◌≡◌};
    ghost use Rattle.run_commands.specs.declared.run_faults.RunFault.TheVariants as faults;

    ghost from_gives = { λ _ fault. fault ≡ faults.NoMemory };

    fn from(_refused: NoMemory) -> RunFault {
        RunFault::NoMemory
    }
}

impl From<TableRefuse> for RunFault {
    ghost use Rattle.std.specs.Prelude.{◌≡◌};
    ghost use Rattle.run_commands.specs.RunFaults.{fault_of_table};

    ghost from_gives = { λ refused fault. fault ≡ fault_of_table refused };

    fn from(refused: TableRefuse) -> RunFault {
        match refused {
            TableRefuse::Line { line } => RunFault::BadTable {
                why: TableFault::Line(line),
            },
            TableRefuse::NotBelow { first, second } => RunFault::BadTable {
                why: TableFault::Pair { first, second },
            },
            TableRefuse::NoMemory => RunFault::NoMemory,
        }
    }
}

impl From<InputFault> for RunFault {
    ghost use Rattle.std.specs.Prelude.{◌≡◌};
    ghost use Rattle.run_commands.specs.RunFaults.{fault_of_input};

    ghost from_gives = { λ refused fault. fault ≡ fault_of_input refused };

    fn from(refused: InputFault) -> RunFault {
        match refused {
            InputFault::Line(line) => RunFault::BadInput { line },
            InputFault::Large(what) => RunFault::TooLarge { what },
            InputFault::NoMemory => RunFault::NoMemory,
        }
    }
}

impl From<Stop> for RunFault {
    ghost use Rattle.std.specs.Prelude.{◌≡◌};
    ghost use Rattle.run_commands.specs.RunFaults.{fault_of_stop};

    ghost from_gives = { λ stop fault. fault ≡ fault_of_stop stop };

    fn from(stop: Stop) -> RunFault {
        match stop {
            Stop::Spent => RunFault::Spent,
            Stop::Kept => RunFault::Kept,
            Stop::NoMemory => RunFault::NoMemory,
        }
    }
}
