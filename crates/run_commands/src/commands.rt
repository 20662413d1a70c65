//! The commands: from the inputs to the bytes of a report.

pub mod about;
pub mod classify;
pub mod cluster;
pub mod flow;
mod mode_lines;

ghost use Rattle.std.specs.Prelude.{◌≤◌};
ghost use Rattle.run_commands.specs.CommandMeanings.{command_meaning};
ghost use Rattle.run_commands.specs.Inputs.{inputs_in};
ghost use Rattle.run_commands.specs.RunFaults.{FaultAnswers};
ghost use Rattle.run_words.specs.Words.{planned};

use crate::inputs::InputFiles;
use crate::run_faults::RunFault;
use about::{report_help, report_version};
use classify::report_classes;
use cluster::report_cluster;
use flow::report_flow;
use run_words::{Command, Plan};
use std::alloc::Global;

/// The planned command's report on the inputs.
pub fn report_of(alloc: Global, plan: &Plan, inputs: &InputFiles) -> Result<Vec<u8>, RunFault>
    requires { 1 ≤ (planned plan.now).options.workers }
    ensures { FaultAnswers (command_meaning (planned plan.now)) (inputs_in inputs.now) result }
{
    match plan.command() {
        Command::Flow => report_flow(alloc, plan.options(), inputs),
        Command::Cluster => report_cluster(alloc, plan.options(), inputs),
        Command::Classify => report_classes(alloc, inputs),
        Command::Help => report_help(alloc),
        Command::Version => report_version(alloc),
    }
}
