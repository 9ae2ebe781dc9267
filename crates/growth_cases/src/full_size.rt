// Networks of 256 nodes and 1,024 edges with amounts up to the limit, grown to the end on both queues.
// The numbers were worked out apart, by a program that keeps every cluster as a set of nodes.
use crate::outcomes::{Figures, Outcome, fold_marks, on_both};
use network::Network;
use pruning::Answer;
use pruning::Coverage::{Alone, Part, Whole};
use std::process::Abort;
use std::test::*;

const MOST: u64 = 1_000_000_000;

// The figures, and the folds of the plan's nodes and edges, the strong plan's, the clusters and the chosen edges.
#[derive(Clone, Copy)]
struct Full {
    figures: Figures,
    folds: [u64; 6],
}

static SPREAD: Full = Full {
    figures: Figures {
        steps: 355,
        total: 41_548_569_294,
        bound: 40_492_944_251,
        plan: Answer {
            status: Part,
            cost: 23_626_376_029,
            lost: 7_757_259_296,
        },
        strong: Answer {
            status: Part,
            cost: 13_947_204_478,
            lost: 16_247_891_908,
        },
    },
    folds: [
        7_713_761_166_266_018_451,
        14_501_226_805_968_835_960,
        16_073_877_244_566_399_219,
        9_503_804_641_342_222_236,
        16_219_571_105_864_218_066,
        10_156_225_086_264_823_552,
    ],
};

static LEVEL: Full = Full {
    figures: Figures {
        steps: 255,
        total: 256_000_000_000,
        bound: 255_000_000_000,
        plan: Answer {
            status: Whole,
            cost: 255_000_000_000,
            lost: 0,
        },
        strong: Answer {
            status: Alone,
            cost: 0,
            lost: 255_000_000_000,
        },
    },
    folds: [
        13_428_905_611_804_938_240,
        10_439_878_660_637_506_653,
        10_615_490_066_429_352_927,
        0,
        10_732_487_612_825_050_944,
        10_439_878_660_637_506_653,
    ],
};

static STAR: Full = Full {
    figures: Figures {
        steps: 509,
        total: 2_000_000_000,
        bound: 1_000_000_000,
        plan: Answer {
            status: Whole,
            cost: 1_000_000_000,
            lost: 0,
        },
        strong: Answer {
            status: Alone,
            cost: 0,
            lost: 1_000_000_000,
        },
    },
    folds: [
        10_615_490_066_429_352_928,
        6_059_142_715_381_800_991,
        10_615_490_066_429_352_927,
        0,
        5_274_111_318_346_483_996,
        9_091_279_191_284_412_415,
    ],
};

fn draw(last: u64) -> u64 {
    last.wrapping_mul(6_364_136_223_846_793_005)
        .wrapping_add(1_442_695_040_888_963_407)
}

fn amount(drawn: u64) -> u64 {
    (drawn >> 33).min(MOST)
}

// Edge s, of one node with another.
fn add_across(rt: &impl Abort, network: &mut Network, s: usize, cost: u64) -> Result<(), Fail> {
    assert!(rt; s < 1024);
    let first = s % 256;
    let second = (first * 7 + s / 256 * 2 + 1) % 256;
    assert_eq!(rt; network.add_edge(first, second, cost, b"A")?, s);
    Ok(())
}

// Drawn amounts, those above the limit at the limit; of seven nodes in eight a sixteenth.
fn spread(rt: &(impl Abort + AllocGlobal)) -> Result<Network, Fail> {
    let mut network = Network::open(rt.alloc())?;
    let mut drawn = 1;
    // By number, here and below: nodes and edges are made from their numbers.
    for v in 0..256usize {
        drawn = draw(drawn);
        let share = if v % 8 == 0 { 1 } else { 16 };
        network.add_node(amount(drawn) / share)?;
    }
    for s in 0..1024usize {
        drawn = draw(drawn);
        add_across(rt, &mut network, s, amount(drawn))?;
    }
    Ok(network)
}

// Every amount at the limit.
fn level(rt: &(impl Abort + AllocGlobal)) -> Result<Network, Fail> {
    let mut network = Network::open(rt.alloc())?;
    for _ in 0..256usize {
        network.add_node(MOST)?;
    }
    for s in 0..1024usize {
        add_across(rt, &mut network, s, MOST)?;
    }
    Ok(network)
}

// Node 0 takes in 254 nodes of prize 0, one by one, before it meets the last: as many steps as can be.
fn star(rt: &(impl Abort + AllocGlobal)) -> Result<Network, Fail> {
    let mut network = Network::open(rt.alloc())?;
    for v in 0..256usize {
        network.add_node(if v == 0 || v == 255 { MOST } else { 0 })?;
    }
    for v in 1..255usize {
        network.add_edge(0, v, v as u64 * 1_000_000, b"A")?;
    }
    network.add_edge(0, 255, MOST, b"A")?;
    for s in 255..1024usize {
        add_across(rt, &mut network, s, MOST)?;
    }
    Ok(network)
}

// Cost with so many times the lost prizes.
fn weighed(plan: Answer, times: u8) -> u128 {
    plan.cost as u128 + times as u128 * plan.lost as u128
}

fn check_laws(rt: &impl Abort, figures: &Figures) -> Result<(), Fail> {
    assert!(rt; figures.steps <= 510);
    assert!(rt; weighed(figures.plan, 2) <= figures.bound as u128);
    assert!(rt; weighed(figures.strong, 1) <= weighed(figures.plan, 1));
    Ok(())
}

fn check_full(rt: &impl Abort, found: &Outcome, full: &Full) -> Result<(), Fail> {
    assert_eq!(rt; found.figures, full.figures);
    check_laws(rt, &found.figures)?;
    let folds = [
        fold_marks(&found.plan.nodes),
        fold_marks(&found.plan.edges),
        fold_marks(&found.strong.nodes),
        fold_marks(&found.strong.edges),
        found.clusters,
        found.chosen,
    ];
    assert_eq!(rt; folds, full.folds);
    Ok(())
}

#[test]
fn spread_amounts(rt: HostRuntime) -> Result<(), Fail> {
    check_full(&rt, &on_both(&rt, spread(&rt)?, spread(&rt)?)?, &SPREAD)
}

#[test]
fn amounts_at_the_limit(rt: HostRuntime) -> Result<(), Fail> {
    check_full(&rt, &on_both(&rt, level(&rt)?, level(&rt)?)?, &LEVEL)
}

#[test]
fn most_steps(rt: HostRuntime) -> Result<(), Fail> {
    check_full(&rt, &on_both(&rt, star(&rt)?, star(&rt)?)?, &STAR)
}
