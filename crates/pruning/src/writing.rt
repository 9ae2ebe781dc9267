// Writing a plan to the lists of a caller.
ghost use Rattle.std.specs.Prelude.{◌≡◌, ℕ, Bool, ◌<◌, ◌≤◌, true, false, ◌++◌, length, drop, OnOk, OnErr, IfErr};
ghost use Rattle.refusal.specs.declared.Refusal.TheVariants.{ListTooShort};
ghost use Rattle.network.specs.Networks.{net_of};
ghost use Rattle.theory.specs.Nets.{node_count, edge_count};
ghost use Rattle.theory.specs.Prune.{marks};
ghost use Rattle.pruning.specs.Answers.{answer_of};
ghost use Rattle.pruning.specs.Trees.{net_under, plan_under};
ghost use Rattle.pruning.specs.Written.{too_short};

use super::answer::Answer;
use super::answers::plan_answer;
use super::reads::{edge_count, is_marked, node_count};
use super::tree::Tree;
use network::Network;
use refusal::Refusal;

// Refuses lists that are shorter than the nodes or the edges.
pub(crate) fn check_room(
    network: &Network,
    nodes_out: &[u8],
    edges_out: &[u8],
) -> Result<(), Refusal>
    ensures ok { OnOk result (too_short (net_of network.now) nodes_out.now edges_out.now ≡ false) }
    ensures short { IfErr result (λ e. e ≡ ListTooShort) }
    ensures err { OnErr result (too_short (net_of network.now) nodes_out.now edges_out.now ≡ true) }
{
    let few_nodes = nodes_out.len() < node_count(network);
    let few_edges = edges_out.len() < edge_count(network);
    if few_nodes || few_edges {
        return Err(Refusal::ListTooShort);
    }
    Ok(())
}

// Writes 1 or 0 at each place, by the test of its number.
fn write_marks<F: Fn(usize) -> bool>(out: &mut [u8], test: F)
    requires { (v : ℕ) → v < length out.old → F.pre test v }
    ensures { (p : ℕ → Bool) → ((v : ℕ) (b : Bool) → F.post test v b → b ≡ p v) → out.new ≡ marks (length out.old) p }
{
    for (v, place) in out.iter_mut().enumerate() {
        *place = test(v) as u8;
    }
}

// Writes a tree as a plan to the front of two lists that are long enough, lent one by one as the callers' are.
pub(crate) fn write_plan(tree: &Tree<'_>, nodes_out: &mut [u8], edges_out: &mut [u8]) -> Answer
    requires nodes { node_count (net_under tree.now) ≤ length nodes_out.old }
    requires edges { edge_count (net_under tree.now) ≤ length edges_out.old }
    ensures answer { result ≡ answer_of (plan_under tree.now) }
    ensures nodes { nodes_out.new ≡ (plan_under tree.now).node_marks ++ drop (node_count (net_under tree.now)) nodes_out.old }
    ensures edges { edges_out.new ≡ (plan_under tree.now).edge_marks ++ drop (edge_count (net_under tree.now)) edges_out.old }
{
    let nodes = &mut nodes_out[..node_count(tree.network)];
    write_marks(nodes, |v| is_marked(tree.nodes, v));
    let edges = &mut edges_out[..edge_count(tree.network)];
    write_marks(edges, |s| tree.has_edge(s));
    plan_answer(tree.network, nodes_out, edges_out)
}
