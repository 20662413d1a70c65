use gx_base::Spot;

/// Two points that become one. The first has the smaller number.
#[derive(Clone, Copy, Drop)]
pub struct Merge {
    /// The number of the point that the body is for.
    pub id: i64,
    pub first: Spot,
    pub second: Spot,
    /// What they become.
    pub merged: Spot,
    pub weight: i64,
}

/// What is next in a merge, after the first of the two was removed.
#[derive(Clone, Copy, Drop)]
pub enum MergeStep {
    RemoveSecond,
    AddMerged,
    SetWeight,
    SetInto,
    SetMergedWeight,
    PushMerged,
    PushOwn,
}

/// Where the body of a point stands. A stage that comes after a call takes the call's reply. `calls` is how often at
/// most the nearest point may still be asked for.
#[derive(Clone, Copy, Drop)]
pub enum Stage {
    Begin {
        id: i64,
        calls: u32,
    },
    AfterAt {
        id: i64,
        calls: u32,
    },
    AfterNearest {
        id: i64,
        calls: u32,
        previous: Option<Spot>,
        current: Spot,
    },
    AfterFirstWeight {
        id: i64,
        first: Spot,
        second: Spot,
    },
    AfterSecondWeight {
        id: i64,
        first: Spot,
        second: Spot,
        weight: i64,
    },
    Merging {
        merge: Merge,
        step: MergeStep,
    },
    End,
}
