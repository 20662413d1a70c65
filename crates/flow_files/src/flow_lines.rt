//! What the lines of a flow file say.

ghost use Rattle.std.specs.Prelude.{◌≡◌, option_map};
ghost use Rattle.text_lines.specs.Fields.{fields_of};
ghost use Rattle.flow_files.specs.FlowLines.{said_by, three_of, two_of, problem_of, terminal_of, arc_of, IsSmall};

use text_lines::{next_field, number};

/// What one line says, in numbers of at most 18 digits.
#[derive(Clone, Copy)]
pub enum Said {
    /// Nothing: the line is skipped.
    Nothing,
    Problem { nodes: u64, arcs: u64 },
    Source(u64),
    Sink(u64),
    Arc { from: u64, to: u64, cap: u64 },
    /// Something that no line of a flow file says.
    Wrong,
}

/// What a line says.
pub fn said_by(line: &[u8]) -> Said
    ensures said { result ≡ said_by line.now }
    ensures small { IsSmall result }
{
    let Some((kind, rest)) = next_field(line) else {
        return Said::Nothing;
    };
    if kind[0] == b'c' {
        return Said::Nothing;
    }
    if kind == b"p".as_slice() {
        return problem(rest);
    }
    if kind == b"n".as_slice() {
        return terminal(rest);
    }
    if kind == b"a".as_slice() {
        return arc(rest);
    }
    Said::Wrong
}

/// What `max NODES ARCS` says after the `p` of its line.
fn problem(line: &[u8]) -> Said
    ensures said { result ≡ problem_of (three_of (fields_of line.now)) }
    ensures small { IsSmall result }
{
    let Some((word, nodes, arcs)) = three(line) else {
        return Said::Wrong;
    };
    if word != b"max".as_slice() {
        return Said::Wrong;
    }
    match (number(nodes), number(arcs)) {
        (Some(nodes), Some(arcs)) => Said::Problem { nodes, arcs },
        _ => Said::Wrong,
    }
}

/// What `ID s` or `ID t` says after the `n` of its line.
fn terminal(line: &[u8]) -> Said
    ensures said { result ≡ terminal_of (two_of (fields_of line.now)) }
    ensures small { IsSmall result }
{
    let Some((id, word)) = two(line) else {
        return Said::Wrong;
    };
    let Some(id) = number(id) else {
        return Said::Wrong;
    };
    if word == b"s".as_slice() {
        return Said::Source(id);
    }
    if word == b"t".as_slice() {
        return Said::Sink(id);
    }
    Said::Wrong
}

/// What `FROM TO CAP` says after the `a` of its line.
fn arc(line: &[u8]) -> Said
    ensures said { result ≡ arc_of (three_of (fields_of line.now)) }
    ensures small { IsSmall result }
{
    let Some((from, to, cap)) = three(line) else {
        return Said::Wrong;
    };
    let Some(from) = number(from) else {
        return Said::Wrong;
    };
    let Some(to) = number(to) else {
        return Said::Wrong;
    };
    let Some(cap) = number(cap) else {
        return Said::Wrong;
    };
    Said::Arc { from, to, cap }
}

/// Three fields and no more.
fn three(line: &[u8]) -> Option<(&[u8], &[u8], &[u8])>
    ensures { option_map (λ x. (x.0.now, x.1.now, x.2.now)) result ≡ three_of (fields_of line.now) }
{
    let (first, rest) = next_field(line)?;
    let (second, rest) = next_field(rest)?;
    let (third, rest) = next_field(rest)?;
    match next_field(rest) {
        None => Some((first, second, third)),
        Some(_) => None,
    }
}

/// Two fields and no more.
fn two(line: &[u8]) -> Option<(&[u8], &[u8])>
    ensures { option_map (λ x. (x.0.now, x.1.now)) result ≡ two_of (fields_of line.now) }
{
    let (first, rest) = next_field(line)?;
    let (second, rest) = next_field(rest)?;
    match next_field(rest) {
        None => Some((first, second)),
        Some(_) => None,
    }
}
