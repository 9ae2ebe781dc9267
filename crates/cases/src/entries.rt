// Entries at the limits of a network.
use network::{Entry, Network};
use refusal::Refusal;
use std::test::Fail;

#[test]
fn takes_an_amount_at_the_limit_and_none_above(rt: HostRuntime) -> Result<(), Fail> {
    let mut network = Network::open(rt.alloc())?;
    assert_eq!(rt; network.add_node(1_000_000_000), Ok(0));
    assert_eq!(rt;
        network.add_node(1_000_000_001),
        Err(Refusal::AmountTooLarge)
    );
    assert_eq!(rt; network.add_node(0), Ok(1));
    assert_eq!(rt; network.add_edge(0, 1, 1_000_000_000, b"A"), Ok(0));
    assert_eq!(rt;
        network.add_edge(0, 1, 1_000_000_001, b"A"),
        Err(Refusal::AmountTooLarge)
    );
    Ok(())
}

#[test]
fn answers_the_lowest_refusal(rt: HostRuntime) -> Result<(), Fail> {
    let mut network = Network::open(rt.alloc())?;
    assert_eq!(rt; network.add_node(5), Ok(0));
    assert_eq!(rt;
        network.add_edge(7, 7, 2_000_000_000, b""),
        Err(Refusal::AmountTooLarge)
    );
    assert_eq!(rt; network.add_edge(7, 7, 3, b""), Err(Refusal::UnknownNode));
    assert_eq!(rt; network.add_edge(0, 0, 3, b""), Err(Refusal::EqualEnds));
    assert_eq!(rt; network.add_node(5), Ok(1));
    assert_eq!(rt; network.add_edge(1, 0, 3, b"a"), Err(Refusal::BadCode));
    assert_eq!(rt;
        network.add_edge(1, 0, 3, b"ABCDEFGH9"),
        Err(Refusal::BadCode)
    );
    assert_eq!(rt; network.add_edge(1, 0, 3, b"ABCDEFG9"), Ok(0));
    Ok(())
}

#[test]
fn stops_at_full_tables(rt: HostRuntime) -> Result<(), Fail> {
    let mut network = Network::open(rt.alloc())?;
    // The number is what the entry is to answer.
    for i in 0..256usize {
        assert_eq!(rt; network.add_node(1), Ok(i));
    }
    assert_eq!(rt; network.add_node(2_000_000_000), Err(Refusal::NodesFull));
    for i in 0..1024usize {
        assert_eq!(rt; network.add_edge(0, 1, 1, b"A"), Ok(i));
    }
    assert_eq!(rt; network.add_edge(0, 0, 1, b""), Err(Refusal::EdgesFull));
    Ok(())
}

#[test]
fn leaves_out_what_a_list_has_refused(rt: HostRuntime) -> Result<(), Fail> {
    let mut network = Network::open(rt.alloc())?;
    let entries = [
        Entry::Node { prize: 5 },
        Entry::Edge {
            first: 0,
            second: 1,
            cost: 3,
            code: b"EARLY",
        },
        Entry::Node {
            prize: 1_000_000_001,
        },
        Entry::Node { prize: 7 },
        Entry::Edge {
            first: 0,
            second: 1,
            cost: 3,
            code: b"",
        },
        Entry::Edge {
            first: 0,
            second: 1,
            cost: 3,
            code: b"ABCDEFGH9",
        },
        Entry::Edge {
            first: 1,
            second: 0,
            cost: 4,
            code: b"A1",
        },
    ];
    assert_eq!(rt; network.enter_all(&entries), 3);
    assert_eq!(rt; network.prizes().len(), 2);
    assert_eq!(rt; network.edges().len(), 1);
    assert_eq!(rt; network.enter(&entries[1]), Ok(1));
    Ok(())
}
