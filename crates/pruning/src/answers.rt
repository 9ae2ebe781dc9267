// What a plan answers, by its marks.
ghost use Rattle.std.specs.Prelude.{◌≡◌, ◌<◌, if◌then◌else◌};
ghost use Rattle.network.specs.Networks.{net_of};
ghost use Rattle.theory.specs.Sums.{sum_to, one};
ghost use Rattle.theory.specs.Nets.{node_count, edge_count, prize, cost};
ghost use Rattle.theory.specs.Trees.{tree_cost, lost};
ghost use Rattle.theory.specs.Prune.{coverage, marked, plan_of};
ghost use Rattle.pruning.specs.Answers.{status_of, answer_of};

use super::answer::{Answer, Coverage};
use super::reads::{edge_count, is_marked, node_count};
use network::Network;

// The cost of an edge if it is marked, else 0.
#[tactic(auto, using(crate::proofs::EdgeReads::edge_reads))]
fn cost_if(network: &Network, edges: &[u8], s: usize) -> u64
    requires { s < edge_count (net_of network.now) }
    ensures { result ≡ (if marked edges.now s then cost (net_of network.now) s else 0) }
{
    if is_marked(edges, s) {
        network.edges()[s].cost
    } else {
        0
    }
}

// The prize of a node if it is not marked, else 0.
fn prize_unless(network: &Network, nodes: &[u8], v: usize) -> u64
    requires { v < node_count (net_of network.now) }
    ensures { result ≡ (if marked nodes.now v then 0 else prize (net_of network.now) v) }
{
    if is_marked(nodes, v) {
        0
    } else {
        network.prizes()[v]
    }
}

fn total_cost(network: &Network, edges: &[u8]) -> u64
    ensures { result ≡ tree_cost (net_of network.now) (marked edges.now) }
{
    (0..edge_count(network))
        .map(|s| cost_if(network, edges, s))
        .sum()
}

fn total_lost(network: &Network, nodes: &[u8]) -> u64
    ensures { result ≡ lost (net_of network.now) (marked nodes.now) }
{
    (0..node_count(network))
        .map(|v| prize_unless(network, nodes, v))
        .sum()
}

// How many of the first `n` are marked.
fn count_marked(marks: &[u8], n: usize) -> usize
    ensures { result ≡ sum_to n (λ v. one (marked marks.now v)) }
{
    (0..n).filter(|&v| is_marked(marks, v)).count()
}

fn status(unserved: u64, left: usize) -> Coverage
    ensures { result ≡ status_of (coverage unserved left) }
{
    if unserved == 0 {
        Coverage::Whole
    } else if left == 1 {
        Coverage::Alone
    } else {
        Coverage::Part
    }
}

// The answer of the plan with the nodes and edges that are marked 1.
pub fn plan_answer(network: &Network, nodes: &[u8], edges: &[u8]) -> Answer
    ensures { result ≡ answer_of (plan_of (net_of network.now) (marked nodes.now) (marked edges.now)) }
{
    let cost = total_cost(network, edges);
    let lost = total_lost(network, nodes);
    let nodes_left = count_marked(nodes, node_count(network));
    Answer {
        status: status(lost, nodes_left),
        cost,
        lost,
    }
}
