// Calls that are refused: nothing is written then, and nothing is changed.
use crate::chain::CHAIN;
use crate::outcomes::BLANK;
use crate::rows::{answer, load};
use crate::stages::{check_chosen, check_clusters};
use growth::Growth;
use network::Network;
use pruning::Coverage::Part;
use queue::{EventQueue, FlatQueue, HeapQueue};
use refusal::Refusal;
use std::process::Abort;
use std::test::*;

fn refuses_both<Q: EventQueue>(
    rt: &impl Abort,
    growth: &Growth<Q>,
    nodes: &mut [u8],
    edges: &mut [u8],
    why: Refusal,
) -> Result<(), Fail> {
    assert_eq!(rt; growth.prune(nodes, edges), Err(why));
    assert_eq!(rt; growth.strong_prune(nodes, edges), Err(why));
    Ok(())
}

// Both prunings are refused with lists of these lengths.
fn check_refused<Q: EventQueue>(
    rt: &impl Abort,
    growth: &Growth<Q>,
    nodes: usize,
    edges: usize,
    why: Refusal,
) -> Result<(), Fail> {
    let mut node_list = [9u8; 8];
    let mut edge_list = [9u8; 8];
    assert!(rt; nodes <= 8 && edges <= 8);
    refuses_both(
        rt,
        growth,
        &mut node_list[0..nodes],
        &mut edge_list[0..edges],
        why,
    )?;
    assert_eq!(rt; node_list, [9; 8]);
    assert_eq!(rt; edge_list, [9; 8]);
    Ok(())
}

fn check_all_refused<Q: EventQueue>(
    rt: &impl Abort,
    growth: &Growth<Q>,
    lengths: &[(usize, usize)],
    why: Refusal,
) -> Result<(), Fail> {
    for &(nodes, edges) in lengths {
        check_refused(rt, growth, nodes, edges, why)?;
    }
    Ok(())
}

// Lists that are just long enough are written whole, longer ones only at the front.
fn check_taken<Q: EventQueue>(rt: &impl Abort, growth: &Growth<Q>) -> Result<(), Fail> {
    let mut nodes = [9u8; 7];
    let mut edges = [9u8; 6];
    let pruned = growth.prune(&mut nodes, &mut edges);
    assert_eq!(rt; pruned, Ok(answer((Part, 90, 5))));
    assert_eq!(rt; nodes, [0, 0, 0, 1, 1, 9, 9]);
    assert_eq!(rt; edges, [0, 0, 0, 1, 9, 9]);
    let mut nodes = [9u8; 5];
    let mut edges = [9u8; 4];
    let strong = growth.strong_prune(&mut nodes, &mut edges);
    assert_eq!(rt; strong, Ok(answer((Part, 90, 5))));
    assert_eq!(rt; nodes, [0, 0, 0, 1, 1]);
    assert_eq!(rt; edges, [0, 0, 0, 1]);
    Ok(())
}

fn refuses_step<Q: EventQueue>(
    rt: &impl Abort,
    growth: &mut Growth<Q>,
    steps: usize,
) -> Result<(), Fail> {
    let step = growth.step();
    assert_eq!(rt; step, Err(Refusal::GrowthEnded));
    assert_eq!(rt; growth.steps(), steps);
    Ok(())
}

fn chain_plays<Q: EventQueue + Drop>(
    rt: &impl Abort,
    network: Network,
    queue: Q,
) -> Result<(), Fail> {
    let mut growth = Growth::start(network, queue);
    check_all_refused(rt, &growth, &[(8, 8), (0, 0)], Refusal::StillGrowing)?;
    growth.grow_to_end();
    check_all_refused(
        rt,
        &growth,
        &[(4, 8), (8, 3), (0, 0)],
        Refusal::ListTooShort,
    )?;
    refuses_step(rt, &mut growth, 6)?;
    check_taken(rt, &growth)
}

// A network without a node has ended as it starts, and has no plan.
fn empty_plays<Q: EventQueue + Drop>(
    rt: &impl Abort,
    network: Network,
    queue: Q,
) -> Result<(), Fail> {
    let mut growth = Growth::start(network, queue);
    refuses_step(rt, &mut growth, 0)?;
    growth.grow_to_end();
    check_clusters(rt, &growth, &[])?;
    check_chosen(rt, &growth, &[])?;
    check_all_refused(rt, &growth, &[(8, 8), (0, 0)], Refusal::NoNode)
}

#[test]
fn on_flat_queue(rt: HostRuntime) -> Result<(), Fail> {
    chain_plays(&rt, load(&rt, CHAIN)?, FlatQueue::open())?;
    empty_plays(&rt, load(&rt, b"")?, FlatQueue::open())
}

#[test]
fn on_heap_queue(rt: HostRuntime) -> Result<(), Fail> {
    let mut keys = [BLANK; 1535];
    chain_plays(&rt, load(&rt, CHAIN)?, HeapQueue::open(&mut keys))?;
    empty_plays(&rt, load(&rt, b"")?, HeapQueue::open(&mut keys))
}
