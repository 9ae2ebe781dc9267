// What a question about a cluster answers.
use crate::Phase;

// `parts` is none for a node alone; the moat is in half units.
#[derive(Clone, Copy, PartialEq, Eq, Debug)]
pub struct Standing {
    pub parts: Option<(usize, usize)>,
    pub phase: Phase,
    pub moat: u64,
}
