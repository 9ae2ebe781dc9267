// Networks grown to the end on both queues, with all that they answer then.
use growth::{Growth, Phase, Standing};
use network::Network;
use pruning::Answer;
use queue::{EventQueue, FlatQueue, HeapQueue, TimedKey};
use refusal::Refusal;
use std::process::Abort;
use std::test::*;

pub(crate) const BLANK: TimedKey = TimedKey { time: 0, number: 0 };

#[derive(Clone, Copy, PartialEq, Eq, Debug)]
pub(crate) struct Figures {
    pub(crate) steps: usize,
    pub(crate) total: u64,
    pub(crate) bound: u64,
    pub(crate) plan: Answer,
    pub(crate) strong: Answer,
}

// The two lists that a plan writes to.
#[derive(Clone, Copy, PartialEq, Eq, Debug)]
pub(crate) struct Marks {
    pub(crate) nodes: [u8; 256],
    pub(crate) edges: [u8; 1024],
}

// `clusters` and `chosen` fold all clusters and all chosen edges into one number each.
#[derive(Clone, Copy, PartialEq, Eq, Debug)]
pub(crate) struct Outcome {
    pub(crate) figures: Figures,
    pub(crate) plan: Marks,
    pub(crate) strong: Marks,
    pub(crate) clusters: u64,
    pub(crate) chosen: u64,
}

const UNWRITTEN: Marks = Marks {
    nodes: [9; 256],
    edges: [9; 1024],
};

pub(crate) fn fold(sum: u64, next: u64) -> u64 {
    sum.wrapping_mul(31).wrapping_add(next)
}

pub(crate) fn fold_marks(marks: &[u8]) -> u64 {
    marks.iter().fold(0, |sum, mark| fold(sum, *mark as u64))
}

// A cluster's parts, counted from 1, its state and its moat.
fn fold_cluster(sum: u64, cluster: Result<Standing, Refusal>) -> u64 {
    let Ok(found) = cluster else {
        return sum;
    };
    let (first, second) = match found.parts {
        None => (0, 0),
        Some((first, second)) => (first.wrapping_add(1), second.wrapping_add(1)),
    };
    let state = match found.phase {
        Phase::Active => 1,
        Phase::Inactive => 0,
    };
    fold(
        fold(fold(fold(sum, first as u64), second as u64), state),
        found.moat,
    )
}

fn fold_clusters<Q: EventQueue>(growth: &Growth<Q>) -> u64 {
    (0..511).fold(0, |sum, c| fold_cluster(sum, growth.cluster(c)))
}

fn fold_chosen<Q: EventQueue>(growth: &Growth<Q>) -> u64 {
    (0..growth.network().edges().len()).fold(0, |sum, s| fold(sum, growth.is_chosen(s) as u64))
}

pub(crate) fn outcome_of<Q: EventQueue>(growth: &Growth<Q>) -> Result<Outcome, Fail> {
    let mut plan = UNWRITTEN;
    let mut strong = UNWRITTEN;
    let figures = Figures {
        steps: growth.steps(),
        total: growth.total(),
        bound: growth.lower_bound(),
        plan: growth.prune(&mut plan.nodes, &mut plan.edges)?,
        strong: growth.strong_prune(&mut strong.nodes, &mut strong.edges)?,
    };
    Ok(Outcome {
        figures,
        plan,
        strong,
        clusters: fold_clusters(growth),
        chosen: fold_chosen(growth),
    })
}

fn grown<Q: EventQueue + Drop>(network: Network, queue: Q) -> Result<Outcome, Fail> {
    let mut growth = Growth::start(network, queue);
    growth.grow_to_end();
    outcome_of(&growth)
}

// The outcome of a network, given twice: once for each queue.
pub(crate) fn on_both(rt: &impl Abort, one: Network, other: Network) -> Result<Outcome, Fail> {
    let flat = grown(one, FlatQueue::open())?;
    let mut keys = [BLANK; 1535];
    let heaped = grown(other, HeapQueue::open(&mut keys))?;
    assert_eq!(rt; heaped, flat);
    Ok(flat)
}
