/// What of an input is too large.
#[derive(Clone, Copy, Debug, PartialEq, Eq, Drop)]
pub enum What {
    File,
    Nodes,
    Arcs,
    Points,
    Nets,
    Horizon,
    Size,
}

/// Why a reader refuses an input.
#[derive(Clone, Copy, Debug, PartialEq, Eq, Drop)]
pub enum InputFault {
    /// The number of the faulty line, from 1. A reader that doesn't tell the line answers 0.
    Line(u64),
    /// The input is in the grammar, and past a limit.
    Large(What),
    NoMemory,
}
