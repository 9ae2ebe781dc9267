// Pruning and strong pruning of trees given by marks.
use network::Network;
use pruning::{Answer, Coverage, Shape, prune_tree};
use refusal::Refusal;
use std::test::*;

fn alone(inactive: bool) -> Shape {
    Shape {
        parts: None,
        inactive,
    }
}

fn union(first: usize, second: usize, inactive: bool) -> Shape {
    Shape {
        parts: Some((first, second)),
        inactive,
    }
}

// Nodes 1 and 2 can only be pruned once node 0 is: one run from the last cluster to the first would keep them.
#[test]
fn prunes_again_from_the_lowest_cluster(rt: HostRuntime) -> Result<(), Fail> {
    let mut network = Network::open(rt.alloc())?;
    network.add_node(1)?;
    network.add_node(2)?;
    network.add_node(2)?;
    network.add_node(100)?;
    network.add_node(100)?;
    network.add_edge(0, 1, 6, b"A1")?;
    network.add_edge(1, 2, 2, b"A2")?;
    network.add_edge(2, 3, 10, b"B1")?;
    network.add_edge(3, 4, 90, b"A10")?;
    let shapes = [
        alone(true),
        alone(false),
        alone(false),
        alone(false),
        alone(false),
        union(1, 2, true),
        union(5, 3, false),
        union(0, 6, false),
        union(7, 4, false),
    ];
    let mut nodes = [7u8; 6];
    let mut edges = [7u8; 5];
    let answer = prune_tree(&network, &shapes, &[1; 4], &[1; 5], &mut nodes, &mut edges);
    let part = Answer {
        status: Coverage::Part,
        cost: 90,
        lost: 5,
    };
    assert_eq!(rt; answer, Ok(part));
    assert_eq!(rt; nodes, [0, 0, 0, 1, 1, 7]);
    assert_eq!(rt; edges, [0, 0, 0, 1, 7]);
    assert_eq!(rt;
        prune_tree(
            &network,
            &shapes,
            &[1; 4],
            &[1; 5],
            &mut nodes,
            &mut edges[0..3],
        ),
        Err(Refusal::ListTooShort)
    );
    Ok(())
}

// From the third on, the parts of each cluster are the two before it.
fn overlap(shapes: &mut [Shape]) {
    for (c, shape) in shapes.iter_mut().enumerate().skip(2) {
        *shape = union(c - 2, c - 1, true);
    }
}

// A walk over parts of parts would not end in any time here.
#[test]
fn ends_where_parts_overlap(rt: HostRuntime) -> Result<(), Fail> {
    let mut network = Network::open(rt.alloc())?;
    network.add_node(1)?;
    network.add_node(2)?;
    network.add_edge(0, 1, 6, b"A")?;
    let mut shapes = [alone(false); 600];
    overlap(&mut shapes);
    let mut nodes = [7u8; 2];
    let mut edges = [7u8; 1];
    let answer = prune_tree(&network, &shapes, &[1], &[1; 2], &mut nodes, &mut edges);
    let whole = Answer {
        status: Coverage::Whole,
        cost: 6,
        lost: 0,
    };
    assert_eq!(rt; answer, Ok(whole));
    Ok(())
}
