//! Reading a flow file.

ghost use Rattle.std.specs.Prelude.{◌≡◌, ◌⊎◌, Result, Some, None, Ok, Err, IfOk, IsTrue, IsFalse};
ghost use Rattle.gx_base.specs.declared.inputs.InputFault as fault;
ghost use Rattle.gx_base.specs.declared.inputs.InputFault.TheVariants as faults;
ghost use Rattle.flow_files.specs.FlowLimits.{CallsFor, answer_of, sized};
ghost use Rattle.flow_files.specs.FlowLines.{IsSmall};
ghost use Rattle.flow_files.specs.FlowReading.{state, at_first, with_line, whole, AreSmall, flow_of, AnswersReading, read_to_end, is_node_number, is_other_than, may_be_terminal, may_go};
ghost use Rattle.flow_files.specs.Networks.{Net, view};

use super::flow_lines::{Said, said_by};
use super::network::{Arc, Network};
use gx_base::{InputFault, NoMemory, What};
use std::alloc::Global;
use text_lines::first_line;

const MOST_NODES: i64 = 100_000;

const MOST_ARCS: usize = 400_000;

const MOST_CAPACITY: u64 = 1_000_000_000;

/// The network of a flow file. A fault tells the first line that can't stand where it is, or one more than the last
/// line where something is missing; a flow file that passes a limit is too large, by the first that it passes.
pub fn read_max(alloc: Global, bytes: &[u8]) -> Result<Network, InputFault>
    // The answer is what the text calls for, unless memory runs out.
    ensures told { (result ≡ Err faults.NoMemory) ⊎ CallsFor bytes.now (answer_of result) }
    ensures only { (answer : Result Net fault.InputFault) → CallsFor bytes.now answer → (result ≡ Err faults.NoMemory) ⊎ (answer_of result ≡ answer) }
{
    let net = read_lines(alloc, bytes)?;
    within_limits(net)
}

/// A network, unless it is too large to be read.
fn within_limits(net: Network) -> Result<Network, InputFault>
    ensures { answer_of result ≡ sized (view net) }
{
    if net.nodes > MOST_NODES {
        return Err(InputFault::Large(What::Nodes));
    }
    if net.arcs.len() > MOST_ARCS {
        return Err(InputFault::Large(What::Arcs));
    }
    Ok(net)
}

/// Reads line by line, whatever the limits.
fn read_lines(alloc: Global, bytes: &[u8]) -> Result<Network, InputFault>
    ensures { AnswersReading result (flow_of bytes.now) }
{
    let mut seen = LinesRead::new(alloc);
    let mut rest = bytes;
    let mut next = 1;
    while !rest.is_empty() {
        let (line, after) = first_line(rest);
        match seen.take(said_by(line)) {
            Ok(true) => {}
            Ok(false) => return Err(InputFault::Line(next)),
            Err(NoMemory) => return Err(InputFault::NoMemory),
        }
        rest = after;
        next += 1;
    }
    seen.finish(next)
}

/// What the lines said so far.
#[derive(Drop)]
pub struct LinesRead {
    /// How many nodes and arcs there are to be.
    problem: Option<(u64, u64)>,
    source: Option<u64>,
    sink: Option<u64>,
    arcs: Vec<Arc>,
}

impl LinesRead {
    fn new(alloc: Global) -> LinesRead
        ensures first { state result ≡ at_first }
        ensures small { AreSmall (state result) }
    {
        LinesRead {
            problem: None,
            source: None,
            sink: None,
            arcs: Vec::new(alloc),
        }
    }

    /// Takes what one more line says, and tells whether the line can stand there.
    fn take(&mut self, said: Said) -> Result<bool, NoMemory>
        requires said_small { IsSmall said }
        requires small { AreSmall (state self.old) }
        ensures good { IfOk result (λ good. IsTrue good → with_line said (state self.old) ≡ Some (state self.new)) }
        ensures faulty { IfOk result (λ good. IsFalse good → with_line said (state self.old) ≡ None) }
        ensures small { AreSmall (state self.new) }
    {
        match said {
            Said::Nothing => Ok(true),
            Said::Wrong => Ok(false),
            Said::Problem { nodes, arcs } => {
                if self.problem.is_none() && 2 <= nodes {
                    self.problem = Some((nodes, arcs));
                    return Ok(true);
                }
                Ok(false)
            }
            Said::Source(id) => {
                if may_be_terminal(self.problem, self.source, self.sink, id) {
                    self.source = Some(id);
                    return Ok(true);
                }
                Ok(false)
            }
            Said::Sink(id) => {
                if may_be_terminal(self.problem, self.sink, self.source, id) {
                    self.sink = Some(id);
                    return Ok(true);
                }
                Ok(false)
            }
            Said::Arc { from, to, cap } => {
                if may_go(self.problem, self.arcs.len(), from, to, cap) {
                    self.arcs.push(Arc {
                        from: from as i64,
                        to: to as i64,
                        cap: cap as i64,
                    })?;
                    return Ok(true);
                }
                Ok(false)
            }
        }
    }

    /// The network, where nothing is missing at the end, whose line is given.
    fn finish(self, end: u64) -> Result<Network, InputFault>
        requires { AreSmall (state self) }
        ensures { AnswersReading result (read_to_end (whole (state self)) end) }
    {
        match (self.problem, self.source, self.sink) {
            (Some((nodes, arcs)), Some(source), Some(sink)) if self.arcs.len() as u64 == arcs => {
                Ok(Network {
                    nodes: nodes as i64,
                    source: source as i64,
                    sink: sink as i64,
                    arcs: self.arcs,
                })
            }
            _ => Err(InputFault::Line(end)),
        }
    }
}

/// Whether a terminal may be told, where this one and the other may have been told before.
fn may_be_terminal(
    problem: Option<(u64, u64)>,
    this: Option<u64>,
    other: Option<u64>,
    id: u64,
) -> bool
    ensures { result ≡ may_be_terminal problem this other id }
{
    match problem {
        None => false,
        Some((nodes, _)) => this.is_none() && is_node_number(nodes, id) && is_other_than(id, other),
    }
}

/// Whether an arc may be told after so many.
fn may_go(problem: Option<(u64, u64)>, before: usize, from: u64, to: u64, cap: u64) -> bool
    ensures { result ≡ may_go problem before from to cap }
{
    match problem {
        None => false,
        Some((nodes, arcs)) => {
            (before as u64) < arcs
                && is_node_number(nodes, from)
                && is_node_number(nodes, to)
                && from != to
                && cap <= MOST_CAPACITY
        }
    }
}

fn is_node_number(nodes: u64, id: u64) -> bool
    ensures { result ≡ is_node_number nodes id }
{
    1 <= id && id <= nodes
}

/// Whether the other terminal isn't this node.
fn is_other_than(id: u64, other: Option<u64>) -> bool
    ensures { result ≡ is_other_than id other }
{
    match other {
        None => true,
        Some(other) => id != other,
    }
}
