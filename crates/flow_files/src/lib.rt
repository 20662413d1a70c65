//! Flow networks, and the files that they are read from.
//!
//! Start at `read_max`: `let net = read_max(alloc, bytes)?;` takes a `Network` from the bytes of a file, or tells the line
//! of the first fault, or the limit that the network passes.
//!
//! `specs/Networks.antt` has what a network is, `specs/FlowFiles.antt` which bytes are a flow file, of which network,
//! and which line of others is told, and `specs/FlowLimits.antt` which of them are too large. `laws` has that each text
//! calls for just one answer.
#![tactic(auto)]

mod flow_lines;
pub mod laws;
mod network;
mod reading;

pub use network::{Arc, Network};
pub use reading::read_max;
