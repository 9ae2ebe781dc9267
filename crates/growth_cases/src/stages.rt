// Growth step by step: what each step answers, and what is asked after it.
use growth::{Event, Growth, Phase, Standing};
use queue::EventQueue;
use refusal::Refusal;
use std::process::Abort;
use std::test::*;

// A step, with the time, the active maximal clusters, the accepted steps, the total of moats and the lower bound after it.
#[derive(Clone, Copy)]
pub(crate) struct Stage {
    pub(crate) event: Event,
    pub(crate) time: u64,
    pub(crate) active: usize,
    pub(crate) steps: usize,
    pub(crate) total: u64,
    pub(crate) bound: u64,
}

fn check_asked<Q: EventQueue>(
    rt: &impl Abort,
    growth: &Growth<Q>,
    stage: &Stage,
) -> Result<(), Fail> {
    let times = (growth.time(), growth.total(), growth.lower_bound());
    assert_eq!(rt; times, (stage.time, stage.total, stage.bound));
    let counts = (growth.active(), growth.steps());
    assert_eq!(rt; counts, (stage.active, stage.steps));
    Ok(())
}

fn check_stage<Q: EventQueue>(
    rt: &impl Abort,
    growth: &mut Growth<Q>,
    stage: &Stage,
) -> Result<(), Fail> {
    let event = growth.step();
    assert_eq!(rt; event, Ok(stage.event));
    check_asked(rt, growth, stage)
}

pub(crate) fn check_stages<Q: EventQueue>(
    rt: &impl Abort,
    growth: &mut Growth<Q>,
    stages: &[Stage],
) -> Result<(), Fail> {
    for stage in stages {
        check_stage(rt, growth, stage)?;
    }
    Ok(())
}

// Growth has ended: a step is refused and changes nothing.
pub(crate) fn check_ended<Q: EventQueue>(
    rt: &impl Abort,
    growth: &mut Growth<Q>,
    last: &Stage,
) -> Result<(), Fail> {
    let refused = growth.step();
    assert_eq!(rt; refused, Err(Refusal::GrowthEnded));
    check_asked(rt, growth, last)
}

// The clusters from number 0 on, and no more than these.
pub(crate) fn check_clusters<Q: EventQueue>(
    rt: &impl Abort,
    growth: &Growth<Q>,
    clusters: &[(Option<(usize, usize)>, Phase, u64)],
) -> Result<(), Fail> {
    for (c, &(parts, phase, moat)) in clusters.iter().enumerate() {
        let standing = Standing { parts, phase, moat };
        assert_eq!(rt; growth.cluster(c), Ok(standing));
    }
    assert_eq!(rt;
        growth.cluster(clusters.len()),
        Err(Refusal::ClusterNotFormed)
    );
    Ok(())
}

// The chosen edges, by a mark for each edge.
pub(crate) fn check_chosen<Q: EventQueue>(
    rt: &impl Abort,
    growth: &Growth<Q>,
    chosen: &[bool],
) -> Result<(), Fail> {
    for (s, marked) in chosen.iter().enumerate() {
        assert_eq!(rt; growth.is_chosen(s), *marked);
    }
    assert_eq!(rt; growth.is_chosen(chosen.len()), false);
    assert_eq!(rt; growth.is_chosen(1024), false);
    assert_eq!(rt; growth.is_chosen(usize::MAX), false);
    Ok(())
}
