ghost use Rattle.std.specs.Prelude.{◌≡◌};

/// The number of a room: a place that holds one shared object.
pub type Room = u32;

/// A call of a method, by the method's number, with four arguments. A method ignores those that it has no use for.
#[derive(Clone, Copy, Debug, PartialEq, Eq, Drop)]
pub struct Call {
    pub method: u32,
    pub a: i64,
    pub b: i64,
    pub c: i64,
    pub d: i64,
}

impl Call {
    /// A call of the method with this number.
    pub const fn new(method: u32, a: i64, b: i64, c: i64, d: i64) -> Call
        ensures { result ≡ record { method = method; a = a; b = b; c = c; d = d } }
    {
        Call { method, a, b, c, d }
    }
}

/// What a call answers. A value that the method has no use for is 0.
#[derive(Clone, Copy, Debug, PartialEq, Eq, Drop)]
pub struct Reply {
    pub p: i64,
    pub q: i64,
    pub r: i64,
    pub s: i64,
}

impl Reply {
    pub const fn new(p: i64, q: i64, r: i64, s: i64) -> Reply
        ensures { result ≡ record { p = p; q = q; r = r; s = s } }
    {
        Reply { p, q, r, s }
    }
}

/// A call with its reply.
#[derive(Clone, Copy, Debug, PartialEq, Eq, Drop)]
pub struct Made {
    pub call: Call,
    pub reply: Reply,
}

/// The state function at the first arguments of two calls, in the state before the first of them.
#[derive(Clone, Copy, Debug, PartialEq, Eq, Drop)]
pub struct Seen {
    pub first: i64,
    pub second: i64,
}

/// A point with its number.
#[derive(Clone, Copy, Debug, PartialEq, Eq, Drop)]
pub struct Spot {
    pub id: i64,
    pub x: i64,
    pub y: i64,
    pub z: i64,
}
