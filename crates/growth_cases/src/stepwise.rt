// The chain of five nodes, grown step by step, with questions asked between.
use crate::chain::{AFTER_FIRST, AT_END, CHAIN, FIRST, THEN};
use crate::outcomes::BLANK;
use crate::rows::load;
use crate::stages::{check_chosen, check_clusters, check_ended, check_stages};
use growth::Growth;
use growth::Phase::Active;
use network::Network;
use queue::{EventQueue, FlatQueue, HeapQueue};
use std::process::Abort;
use std::test::*;

fn play_first<Q: EventQueue>(rt: &impl Abort, growth: &mut Growth<Q>) -> Result<(), Fail> {
    check_clusters(rt, growth, &[(None, Active, 0); 5])?;
    check_stages(rt, growth, &FIRST)?;
    check_clusters(rt, growth, &AFTER_FIRST)?;
    check_chosen(rt, growth, &[false, true, false, false])
}

fn play_then<Q: EventQueue>(rt: &impl Abort, growth: &mut Growth<Q>) -> Result<(), Fail> {
    check_stages(rt, growth, &THEN)?;
    check_ended(rt, growth, &THEN[2])?;
    check_clusters(rt, growth, &AT_END)?;
    check_chosen(rt, growth, &[true; 4])
}

fn plays<Q: EventQueue + Drop>(rt: &impl Abort, network: Network, queue: Q) -> Result<(), Fail> {
    let mut growth = Growth::start(network, queue);
    play_first(rt, &mut growth)?;
    play_then(rt, &mut growth)
}

#[test]
fn chain_on_flat_queue(rt: HostRuntime) -> Result<(), Fail> {
    plays(&rt, load(&rt, CHAIN)?, FlatQueue::open())
}

#[test]
fn chain_on_heap_queue(rt: HostRuntime) -> Result<(), Fail> {
    let mut keys = [BLANK; 1535];
    plays(&rt, load(&rt, CHAIN)?, HeapQueue::open(&mut keys))
}
