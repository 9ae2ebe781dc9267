// Two nodes and the edge between them, run.
use crate::{Answer, Coverage, plan_answer, strong_prune_tree};
use network::Network;
use refusal::Refusal;
use std::test::Fail;

#[test]
fn keeps_the_node_worth_more_than_its_edge(rt: HostRuntime) -> Result<(), Fail> {
    let mut network = Network::open(rt.alloc())?;
    network.add_node(10)?;
    network.add_node(3)?;
    network.add_edge(0, 1, 5, b"A")?;
    let mut nodes = [7u8; 256];
    let mut edges = [7u8; 1024];
    let answer = strong_prune_tree(&network, &[1, 1], &[1], &mut nodes, &mut edges);
    let alone = Answer {
        status: Coverage::Alone,
        cost: 0,
        lost: 3,
    };
    assert_eq!(rt; answer, Ok(alone));
    assert!(rt; nodes[0] == 1 && nodes[1] == 0 && nodes[2] == 7);
    assert!(rt; edges[0] == 0 && edges[1] == 7);
    assert_eq!(rt;
        strong_prune_tree(&network, &[1, 1], &[1], &mut nodes[0..1], &mut edges),
        Err(Refusal::ListTooShort)
    );
    Ok(())
}

#[test]
fn answers_for_the_whole_tree(rt: HostRuntime) -> Result<(), Fail> {
    let mut network = Network::open(rt.alloc())?;
    network.add_node(10)?;
    network.add_node(3)?;
    network.add_edge(0, 1, 5, b"A")?;
    let whole = Answer {
        status: Coverage::Whole,
        cost: 5,
        lost: 0,
    };
    assert_eq!(rt; plan_answer(&network, &[1, 1], &[1]), whole);
    Ok(())
}
