// Final reports, the same on both queues; a network without a node has none.
use crate::outcomes::BLANK;
use crate::rows::load;
use network::Network;
use queue::{EventQueue, FlatQueue, HeapQueue};
use refusal::Refusal;
use report::{Report, plan_network};
use std::test::*;

const PAIR: &[u8] = b"N\t10\nN\t3\nS\t0\t1\t5\tA7\n";

fn reported<Q: EventQueue + Drop>(network: Network, queue: Q) -> Result<Report, Refusal> {
    let (_growth, report) = plan_network(network, queue);
    report
}

#[test]
fn come_out_equal(rt: HostRuntime) -> Result<(), Fail> {
    let flat = reported(load(&rt, PAIR)?, FlatQueue::open())?;
    let mut keys = [BLANK; 1535];
    let heaped = reported(load(&rt, PAIR)?, HeapQueue::open(&mut keys))?;
    assert_eq!(rt; flat, heaped);
    assert_eq!(rt; (flat.steps, flat.lower_bound), (1, 5));
    assert_eq!(rt; (flat.plan.answer.cost, flat.plan.answer.lost), (5, 0));
    assert_eq!(rt; (flat.strong.answer.cost, flat.strong.answer.lost), (0, 3));
    Ok(())
}

#[test]
fn want_a_node(rt: HostRuntime) -> Result<(), Fail> {
    let none = reported(Network::open(rt.alloc())?, FlatQueue::open());
    assert_eq!(rt; none, Err(Refusal::NoNode));
    Ok(())
}
