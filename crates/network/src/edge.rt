// One edge of a network.
use super::Code;

// A link of the nodes `first` and `second`, in the order of its entry.
#[derive(Clone, Copy)]
pub struct Edge {
    pub first: usize,
    pub second: usize,
    pub cost: u64,
    pub code: Code,
}
