// A network as the route drawer enters it: nodes with prizes, edges with two ends, a cost and a code.
#![tactic(auto)]

mod code;
mod codes;
mod edge;
mod entries;
mod entry;
mod lists;
mod network;

pub use code::Code;
pub use edge::Edge;
pub use entries::{MOST_EDGES, MOST_NODES};
pub use entry::Entry;
pub use network::Network;
