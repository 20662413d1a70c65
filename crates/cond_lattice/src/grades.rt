/// The classes of conditions, in rising order.
#[derive(Clone, Copy, Debug, PartialEq, Eq, PartialOrd, Ord, Drop)]
pub enum Grade {
    /// Locks can keep it: `True`, `False`, or inequalities of a value of the first call and one of the second,
    /// joined by `And`.
    Simple,
    /// It isn't simple, and names the state function at most at the argument of the first call.
    Online,
    /// It names the state function at the argument of the second call.
    General,
}
