// Growing to the end and pruning twice.
ghost use Rattle.std.specs.Prelude.{◌≡◌, true};
ghost use Rattle.network.specs.Networks.{net_of};
ghost use Rattle.theory.specs.Growth.{ended};
ghost use Rattle.theory.specs.Laws.{Laws};
ghost use Rattle.theory.specs.Prune.{plan};
ghost use Rattle.theory.specs.Strong.{strong_plan};
ghost use Rattle.growth.specs.Grown.{network_of, steps_of, state_of};
ghost use Rattle.report.specs.Reports.{grown, with_marks, kept_answer, report_answer};

use crate::{Kept, Report};
use growth::Growth;
use network::Network;
use pruning::Answer;
use queue::EventQueue;
use refusal::Refusal;

// A plan with its marks, unless it is refused.
fn with_marks(
    answer: Result<Answer, Refusal>,
    nodes: [u8; 256],
    edges: [u8; 1024],
) -> Result<Kept, Refusal>
    ensures { result ≡ with_marks answer nodes edges }
{
    answer.map(|answer| Kept {
        answer,
        nodes,
        edges,
    })
}

// This and the next differ in the pruning alone: with a closure in its place the proof of the call did not close.
fn kept_plan<Q: EventQueue>(growth: &Growth<Q>) -> Result<Kept, Refusal>
    requires { ended (state_of growth.now) ≡ true }
    ensures { result ≡ kept_answer (network_of growth.now) (plan (network_of growth.now) (state_of growth.now)) }
{
    let mut nodes = [0; 256];
    let mut edges = [0; 1024];
    let answer = growth.prune(&mut nodes, &mut edges);
    with_marks(answer, nodes, edges)
}

fn kept_strong_plan<Q: EventQueue>(growth: &Growth<Q>) -> Result<Kept, Refusal>
    requires { ended (state_of growth.now) ≡ true }
    ensures { result ≡ kept_answer (network_of growth.now) (strong_plan (network_of growth.now) (state_of growth.now)) }
{
    let mut nodes = [0; 256];
    let mut edges = [0; 1024];
    let answer = growth.strong_prune(&mut nodes, &mut edges);
    with_marks(answer, nodes, edges)
}

// Grows to the end and answers with both plans; refused without a node.
fn final_report<Q: EventQueue>(growth: &mut Growth<Q>) -> Result<Report, Refusal>
    ensures answer { result ≡ report_answer (network_of growth.old) }
    ensures network { network_of growth.new ≡ network_of growth.old }
    ensures state { state_of growth.new ≡ grown (network_of growth.old) }
    ensures laws { Laws (network_of growth.new) (steps_of growth.new) }
{
    growth.grow_to_end();
    let plan = kept_plan(growth)?;
    let strong = kept_strong_plan(growth)?;
    Ok(Report {
        steps: growth.steps(),
        lower_bound: growth.lower_bound(),
        plan,
        strong,
    })
}

// From a network to its report, the same whichever queue growth goes by; and the network, grown to the end.
pub fn plan_network<Q: EventQueue>(
    network: Network,
    queue: Q,
) -> (Growth<Q>, Result<Report, Refusal>)
    ensures answer { result.1 ≡ report_answer (net_of network) }
    ensures network { network_of result.0 ≡ net_of network }
    ensures state { state_of result.0 ≡ grown (net_of network) }
    ensures laws { Laws (network_of result.0) (steps_of result.0) }
{
    let mut growth = Growth::start(network, queue);
    let report = final_report(&mut growth);
    (growth, report)
}
