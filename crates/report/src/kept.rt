// What a final report has.
use pruning::Answer;

// A plan: its answers, and the mark 1 of each node and edge that it keeps, by number.
#[derive(Clone, Copy, PartialEq, Eq, Debug)]
pub struct Kept {
    pub answer: Answer,
    pub nodes: [u8; 256],
    pub edges: [u8; 1024],
}

// The accepted steps, the lower bound in half units, and both plans.
#[derive(Clone, Copy, PartialEq, Eq, Debug)]
pub struct Report {
    pub steps: usize,
    pub lower_bound: u64,
    pub plan: Kept,
    pub strong: Kept,
}
