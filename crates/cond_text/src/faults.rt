/// The first line with a fault in the text of a table, from 1, and its fault: the first of these, in their order.
#[derive(Clone, Copy, Debug, PartialEq, Eq, Drop)]
pub enum TextFault {
    /// The line is not of the form, or is a row before the `type` line; or there is no `type` line, told with the
    /// number of lines plus 1.
    Syntax { line: u64 },
    /// A method isn't one of the kind.
    UnknownMethod { line: u64 },
    /// The name of no wanted kind, or a word that isn't known in its place.
    UnknownName { line: u64 },
    /// A second `type` line, or a second row for a pair of methods.
    Twice { line: u64 },
    /// The tree is more than 64 deep, or more than 64 parentheses are open at one place, those of `beyond` among them.
    /// A line is read up to the `(` that is one too many, and no further: what stands before it decides on other faults.
    TooDeep { line: u64 },
    NoMemory,
}
