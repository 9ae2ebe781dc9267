// Equal times: the lowest number goes first, a cluster before an edge.
use crate::outcomes::BLANK;
use crate::rows::{Kept, Row, check_row, load};
use crate::stages::{check_chosen, check_clusters};
use growth::Phase::{Active, Inactive};
use growth::{Growth, Phase};
use network::Network;
use pruning::Coverage::{Alone, Whole};
use queue::{EventQueue, FlatQueue, HeapQueue};
use std::alloc::AllocGlobal;
use std::process::Abort;
use std::test::*;

// A network that comes out as its row says, with these clusters and these chosen edges.
#[derive(Clone, Copy)]
struct Tie {
    row: Row,
    clusters: &'static [(Option<(usize, usize)>, Phase, u64)],
    chosen: &'static [bool],
}

fn plays<Q: EventQueue + Drop>(
    rt: &impl Abort,
    network: Network,
    queue: Q,
    tie: &Tie,
) -> Result<(), Fail> {
    let mut growth = Growth::start(network, queue);
    growth.grow_to_end();
    check_clusters(rt, &growth, tie.clusters)?;
    check_chosen(rt, &growth, tie.chosen)
}

fn check_tie(rt: &(impl Abort + AllocGlobal), tie: &Tie) -> Result<(), Fail> {
    check_row(rt, &tie.row)?;
    plays(rt, load(rt, tie.row.sheet)?, FlatQueue::open(), tie)?;
    let mut keys = [BLANK; 1535];
    plays(
        rt,
        load(rt, tie.row.sheet)?,
        HeapQueue::open(&mut keys),
        tie,
    )
}

// The edges of a ring are all due at 4, and join it in the order of their numbers.
static RING_OF_EQUALS: Tie = Tie {
    row: Row {
        sheet: b"N\t4\nN\t4\nN\t4\nN\t4\nN\t4\nN\t4\nS\t0\t1\t4\tA\nS\t1\t2\t4\tA\nS\t2\t3\t4\tA\nS\t3\t4\t4\tA\nS\t4\t5\t4\tA\nS\t5\t0\t4\tA\n",
        steps: 5,
        total: 24,
        bound: 20,
        plan: Kept {
            answer: (Whole, 20, 0),
            nodes: &[1; 6],
            edges: &[1, 1, 1, 1, 1, 0],
        },
        strong: Kept {
            answer: (Alone, 0, 20),
            nodes: &[1, 0, 0, 0, 0, 0],
            edges: &[0; 6],
        },
    },
    clusters: &[
        (None, Active, 4),
        (None, Active, 4),
        (None, Active, 4),
        (None, Active, 4),
        (None, Active, 4),
        (None, Active, 4),
        (Some((0, 1)), Active, 0),
        (Some((6, 2)), Active, 0),
        (Some((7, 3)), Active, 0),
        (Some((8, 4)), Active, 0),
        (Some((9, 5)), Active, 0),
    ],
    chosen: &[true, true, true, true, true, false],
};

// With prizes of 2 the clusters are due at 4 as well, and go before the edges.
static CLUSTERS_BEFORE_EDGES: Tie = Tie {
    row: Row {
        sheet: b"N\t2\nN\t2\nN\t2\nN\t2\nN\t2\nN\t2\nS\t0\t1\t4\tA\nS\t1\t2\t4\tA\nS\t2\t3\t4\tA\nS\t3\t4\t4\tA\nS\t4\t5\t4\tA\nS\t5\t0\t4\tA\n",
        steps: 5,
        total: 24,
        bound: 20,
        plan: Kept {
            answer: (Alone, 0, 10),
            nodes: &[0, 0, 0, 0, 0, 1],
            edges: &[0; 6],
        },
        strong: Kept {
            answer: (Alone, 0, 10),
            nodes: &[0, 0, 0, 0, 0, 1],
            edges: &[0; 6],
        },
    },
    clusters: &[
        (None, Inactive, 4),
        (None, Inactive, 4),
        (None, Inactive, 4),
        (None, Inactive, 4),
        (None, Inactive, 4),
        (None, Active, 4),
    ],
    chosen: &[false; 6],
};

static ALL_ZERO: Tie = Tie {
    row: Row {
        sheet: b"N\t0\nN\t0\nN\t0\nN\t0\nN\t0\nS\t0\t1\t0\tA\nS\t1\t2\t0\tA\nS\t2\t3\t0\tA\nS\t3\t4\t0\tA\n",
        steps: 4,
        total: 0,
        bound: 0,
        plan: Kept {
            answer: (Whole, 0, 0),
            nodes: &[0, 0, 0, 0, 1],
            edges: &[0; 4],
        },
        strong: Kept {
            answer: (Whole, 0, 0),
            nodes: &[0, 0, 0, 0, 1],
            edges: &[0; 4],
        },
    },
    clusters: &[
        (None, Inactive, 0),
        (None, Inactive, 0),
        (None, Inactive, 0),
        (None, Inactive, 0),
        (None, Active, 0),
    ],
    chosen: &[false; 4],
};

// Several edges between the same nodes: one of cost 8, then two of 6 in either direction, and two more of 6 to the third.
static EDGES_SIDE_BY_SIDE: Tie = Tie {
    row: Row {
        sheet: b"N\t9\nN\t9\nN\t9\nS\t0\t1\t8\tA\nS\t1\t0\t6\tA\nS\t0\t1\t6\tA\nS\t1\t2\t6\tA\nS\t2\t1\t6\tA\n",
        steps: 2,
        total: 18,
        bound: 12,
        plan: Kept {
            answer: (Whole, 12, 0),
            nodes: &[1, 1, 1],
            edges: &[0, 1, 0, 1, 0],
        },
        strong: Kept {
            answer: (Whole, 12, 0),
            nodes: &[1, 1, 1],
            edges: &[0, 1, 0, 1, 0],
        },
    },
    clusters: &[
        (None, Active, 6),
        (None, Active, 6),
        (None, Active, 6),
        (Some((1, 0)), Active, 0),
        (Some((3, 2)), Active, 0),
    ],
    chosen: &[false, true, false, true, false],
};

// At time 3 the merged cluster 4 becomes inactive before edge 1 joins it to node 2; at 20 node 3 goes before cluster 5.
static MERGED_CLUSTER_BEFORE_EDGE: Tie = Tie {
    row: Row {
        sheet: b"N\t1\nN\t1\nN\t10\nN\t10\nS\t0\t1\t1\tA\nS\t1\t2\t3\tA\n",
        steps: 4,
        total: 44,
        bound: 24,
        plan: Kept {
            answer: (Alone, 0, 12),
            nodes: &[0, 0, 1, 0],
            edges: &[0, 0],
        },
        strong: Kept {
            answer: (Alone, 0, 12),
            nodes: &[0, 0, 1, 0],
            edges: &[0, 0],
        },
    },
    clusters: &[
        (None, Active, 1),
        (None, Active, 1),
        (None, Active, 3),
        (None, Inactive, 20),
        (Some((0, 1)), Inactive, 2),
        (Some((4, 2)), Active, 17),
    ],
    chosen: &[true, true],
};

#[test]
fn lowest_number_first(rt: HostRuntime) -> Result<(), Fail> {
    for tie in [
        &RING_OF_EQUALS,
        &CLUSTERS_BEFORE_EDGES,
        &ALL_ZERO,
        &EDGES_SIDE_BY_SIDE,
        &MERGED_CLUSTER_BEFORE_EDGE,
    ] {
        check_tie(&rt, tie)?;
    }
    Ok(())
}
