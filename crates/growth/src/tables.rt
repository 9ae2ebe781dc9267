// All that growth keeps beside the queue.
use crate::Family;
use crate::marks::EdgeMarks;
use crate::nodes::Nodes;

// The clusters by number; what is known of each node; which edges are chosen; and the sums over all of it.
#[derive(Drop)]
pub(crate) struct Tables {
    pub(crate) family: Family,
    pub(crate) nodes: Nodes,
    pub(crate) chosen: EdgeMarks,
    pub(crate) time: u64,
    pub(crate) steps: usize,
    pub(crate) total: u64,
}
