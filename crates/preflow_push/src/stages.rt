use crate::touches::Touch;

/// A node on its way over its arcs.
#[derive(Clone, Copy, Drop)]
pub struct Walk {
    pub node: i64,
    pub height: i64,
    /// What of the excess is left.
    pub excess: i64,
    /// The least height that counted so far.
    pub least: Option<i64>,
    /// Which list of arcs is gone over, and the place in it of the next arc.
    pub list: usize,
    pub at: usize,
}

/// Where the body of a node stands. A stage that comes after a call takes the call's reply.
#[derive(Clone, Copy, Drop)]
pub enum Stage {
    Begin {
        node: i64,
        list: usize,
    },
    AfterExcess {
        node: i64,
        list: usize,
    },
    AfterHeight {
        node: i64,
        list: usize,
        excess: i64,
    },
    AfterFlow {
        walk: Walk,
        arc: Touch,
    },
    AfterOther {
        walk: Walk,
        arc: Touch,
        residual: i64,
    },
    AfterSend {
        walk: Walk,
        arc: Touch,
        amount: i64,
    },
    AfterLoss {
        walk: Walk,
        arc: Touch,
        amount: i64,
    },
    AfterGain {
        walk: Walk,
        arc: Touch,
        amount: i64,
    },
    AfterPush {
        walk: Walk,
    },
    AfterRelabel {
        node: i64,
    },
    End,
}
