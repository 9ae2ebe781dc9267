// The strong plan in a tree, written to the lists of the caller.
ghost use Rattle.std.specs.Prelude.{◌≡◌};
ghost use Rattle.network.specs.Networks.{net_of};
ghost use Rattle.theory.specs.Nets.{node_count, edge_count};
ghost use Rattle.theory.specs.Prune.{marked};
ghost use Rattle.pruning.specs.Strong.{strong_plan_in, strong_answer};
ghost use Rattle.pruning.specs.Written.{too_short, unless_short};

use super::answer::Answer;
use super::keeping::strong_nodes;
use super::tree::Tree;
use super::writing::{check_room, write_plan};
use network::Network;
use refusal::Refusal;

// Of the tree with the marked nodes and edges, writes the strong plan to the front of the two lists, and answers for it.
// A list shorter than the nodes or the edges refuses, and nothing is written.
pub fn strong_prune_tree(
    network: &Network,
    tree_nodes: &[u8],
    tree_edges: &[u8],
    nodes_out: &mut [u8],
    edges_out: &mut [u8],
) -> Result<Answer, Refusal>
    ensures answer { result ≡ strong_answer (net_of network.now) (marked tree_nodes.now) (marked tree_edges.now) nodes_out.old edges_out.old }
    ensures nodes { nodes_out.new ≡ unless_short (too_short (net_of network.now) nodes_out.old edges_out.old) (strong_plan_in (net_of network.now) (marked tree_nodes.now) (marked tree_edges.now)).node_marks (node_count (net_of network.now)) nodes_out.old }
    ensures edges { edges_out.new ≡ unless_short (too_short (net_of network.now) nodes_out.old edges_out.old) (strong_plan_in (net_of network.now) (marked tree_nodes.now) (marked tree_edges.now)).edge_marks (edge_count (net_of network.now)) edges_out.old }
{
    check_room(network, nodes_out, edges_out)?;
    let nodes = strong_nodes(network, tree_nodes, tree_edges);
    let kept = Tree {
        network,
        edges: tree_edges,
        nodes: &nodes,
    };
    Ok(write_plan(&kept, nodes_out, edges_out))
}
