//! What each method of a flow shard does, and with which of its numbers.
ghost use Rattle.std.specs.Prelude.{◌≡◌};
ghost use Rattle.gx_base.specs.FlowKind.{flow_use};
ghost use Rattle.flow_graph.specs.Uses.{sort_of, use_from};

use gx_base::FLOW_METHODS;
use kind_tables::register_rows::Deed;

/// Reads the height of a node.
pub const HEIGHT: u32 = FLOW_METHODS;

/// Sets the height of a node.
pub const RELABEL: u32 = HEIGHT + 1;

/// Reads the excess of a node.
pub const EXCESS: u32 = HEIGHT + 2;

/// Adds to the excess of a node.
pub const GAIN: u32 = HEIGHT + 3;

/// Reads the flow of an arc.
pub const FLOW: u32 = HEIGHT + 4;

/// Adds to the flow of an arc.
pub const SEND: u32 = HEIGHT + 5;

/// The first method of flow shards, and what follows the last.
pub(crate) const FIRST_METHOD: u32 = HEIGHT;

pub(crate) const METHODS_END: u32 = SEND + 1;

/// The numbers of a flow shard.
#[derive(Clone, Copy, Drop)]
pub(crate) enum Quantity {
    Height,
    Excess,
    Flow,
}

impl Quantity {
    /// The sort of its rows in a state.
    pub(crate) fn sort(self) -> u32
        ensures { result ≡ sort_of self }
    {
        match self {
            Quantity::Height => 0,
            Quantity::Excess => 1,
            Quantity::Flow => 2,
        }
    }
}

/// The number that a method uses, and how. `None` for a method of another kind of object.
pub(crate) fn use_of(method: u32) -> Option<(Quantity, Deed)>
    ensures { use_from result ≡ flow_use method }
{
    match method {
        HEIGHT => Some((Quantity::Height, Deed::Reads)),
        RELABEL => Some((Quantity::Height, Deed::Sets)),
        EXCESS => Some((Quantity::Excess, Deed::Reads)),
        GAIN => Some((Quantity::Excess, Deed::Adds)),
        FLOW => Some((Quantity::Flow, Deed::Reads)),
        SEND => Some((Quantity::Flow, Deed::Adds)),
        _ => None,
    }
}
