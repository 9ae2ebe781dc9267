// Whole runs: a list of entries, some of them refused, a start and any number of steps, as by hand.
use crate::chain::{AFTER_FIRST, CHAIN, THEN};
use crate::outcomes::{BLANK, Outcome, on_both, outcome_of};
use crate::rows::load;
use crate::stages::{check_clusters, check_ended, check_stages};
use growth::run;
use network::Entry::{Edge, Node};
use network::{Entry, Network};
use queue::{EventQueue, FlatQueue, HeapQueue};
use std::process::Abort;
use std::test::*;

const fn link(first: usize, second: usize, cost: u64, code: &[u8]) -> Entry {
    Edge {
        first,
        second,
        cost,
        code,
    }
}

// The chain, with entries that are refused among its own.
fn entries() -> [Entry<'static>; 14] {
    [
        link(0, 1, 6, b"EARLY"),
        Node { prize: 1 },
        Node { prize: 2 },
        Node {
            prize: 1_000_000_001,
        },
        Node { prize: 2 },
        link(0, 0, 6, b"A1"),
        link(0, 1, 6, b"A1"),
        link(1, 2, 2, b"a2"),
        link(1, 2, 2, b"A2"),
        Node { prize: 100 },
        link(2, 3, 10, b"B1"),
        link(3, 4, 90, b"A10"),
        Node { prize: 100 },
        link(3, 4, 90, b"A10"),
    ]
}

// More steps than are accepted.
fn runs_through<Q: EventQueue + Drop>(
    rt: &impl Abort,
    network: Network,
    queue: Q,
    by_hand: &Outcome,
) -> Result<(), Fail> {
    let growth = run(network, &entries(), queue, 100);
    assert_eq!(rt; &outcome_of(&growth)?, by_hand);
    Ok(())
}

// Three steps of a run, and the others by hand.
fn runs_in_part<Q: EventQueue + Drop>(
    rt: &impl Abort,
    network: Network,
    queue: Q,
) -> Result<(), Fail> {
    let mut growth = run(network, &entries(), queue, 3);
    check_clusters(rt, &growth, &AFTER_FIRST)?;
    check_stages(rt, &mut growth, &THEN)?;
    check_ended(rt, &mut growth, &THEN[2])
}

// No entry is taken, and no step: what the network had is gone.
fn runs_empty<Q: EventQueue + Drop>(
    rt: &impl Abort,
    network: Network,
    queue: Q,
) -> Result<(), Fail> {
    let growth = run(network, &[link(0, 1, 6, b"A1")], queue, 5);
    assert_eq!(rt; growth.steps(), 0);
    check_clusters(rt, &growth, &[])
}

const OTHER: &[u8] = b"N\t3\nN\t4\nS\t0\t1\t1\tA\n";

#[test]
fn as_by_hand(rt: HostRuntime) -> Result<(), Fail> {
    let by_hand = on_both(&rt, load(&rt, CHAIN)?, load(&rt, CHAIN)?)?;
    runs_through(&rt, load(&rt, OTHER)?, FlatQueue::open(), &by_hand)?;
    let mut keys = [BLANK; 1535];
    runs_through(&rt, load(&rt, OTHER)?, HeapQueue::open(&mut keys), &by_hand)
}

#[test]
fn on_from_a_run(rt: HostRuntime) -> Result<(), Fail> {
    runs_in_part(&rt, load(&rt, OTHER)?, FlatQueue::open())?;
    let mut keys = [BLANK; 1535];
    runs_in_part(&rt, load(&rt, OTHER)?, HeapQueue::open(&mut keys))
}

#[test]
fn without_a_node(rt: HostRuntime) -> Result<(), Fail> {
    runs_empty(&rt, load(&rt, OTHER)?, FlatQueue::open())?;
    let mut keys = [BLANK; 1535];
    runs_empty(&rt, load(&rt, OTHER)?, HeapQueue::open(&mut keys))
}
