ghost use Rattle.std.specs.Prelude.{◌≡◌};

/// A work item, by four numbers. Items are ordered by `k0`, then `k1`, `k2` and `k3`.
#[derive(Clone, Copy, Debug, PartialEq, Eq, PartialOrd, Ord, Drop)]
pub struct Item {
    pub k0: i64,
    pub k1: i64,
    pub k2: i64,
    pub k3: i64,
}

impl Item {
    pub const fn new(k0: i64, k1: i64, k2: i64, k3: i64) -> Item
        ensures { result ≡ record { k0 = k0; k1 = k1; k2 = k2; k3 = k3 } }
    {
        Item { k0, k1, k2, k3 }
    }
}
