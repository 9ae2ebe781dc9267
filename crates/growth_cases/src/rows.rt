// A network as a sheet, and what growth to the end is to give.
use crate::outcomes::{Figures, on_both};
use network::Network;
use pruning::{Answer, Coverage};
use sheet::SheetLoader;
use std::alloc::AllocGlobal;
use std::process::Abort;
use std::test::*;

// A plan is its answer, its nodes' marks and its edges' marks.
#[derive(Clone, Copy)]
pub(crate) struct Kept {
    pub(crate) answer: (Coverage, u64, u64),
    pub(crate) nodes: &'static [u8],
    pub(crate) edges: &'static [u8],
}

#[derive(Clone, Copy)]
pub(crate) struct Row {
    pub(crate) sheet: &'static [u8],
    pub(crate) steps: usize,
    pub(crate) total: u64,
    pub(crate) bound: u64,
    pub(crate) plan: Kept,
    pub(crate) strong: Kept,
}

// `cases` has the same: crates of tests share no code.
pub(crate) fn load(rt: &(impl Abort + AllocGlobal), sheet: &[u8]) -> Result<Network, Fail> {
    let mut network = Network::open(rt.alloc())?;
    let mut loader = SheetLoader::open(rt.alloc())?;
    assert_eq!(rt; loader.read(sheet, &mut network), Ok(()));
    Ok(network)
}

pub(crate) fn answer((status, cost, lost): (Coverage, u64, u64)) -> Answer {
    Answer { status, cost, lost }
}

// Marks stand at the front of a list, and nothing is written behind them.
pub(crate) fn check_written(rt: &impl Abort, list: &[u8], marks: &[u8]) -> Result<(), Fail> {
    assert!(rt; marks.len() <= list.len());
    assert_eq!(rt; &list[0..marks.len()], marks);
    for unwritten in &list[marks.len()..] {
        assert_eq!(rt; *unwritten, 9);
    }
    Ok(())
}

pub(crate) fn check_row(rt: &(impl Abort + AllocGlobal), row: &Row) -> Result<(), Fail> {
    let found = on_both(rt, load(rt, row.sheet)?, load(rt, row.sheet)?)?;
    let figures = Figures {
        steps: row.steps,
        total: row.total,
        bound: row.bound,
        plan: answer(row.plan.answer),
        strong: answer(row.strong.answer),
    };
    assert_eq!(rt; found.figures, figures);
    check_written(rt, &found.plan.nodes, row.plan.nodes)?;
    check_written(rt, &found.plan.edges, row.plan.edges)?;
    check_written(rt, &found.strong.nodes, row.strong.nodes)?;
    check_written(rt, &found.strong.edges, row.strong.edges)
}
