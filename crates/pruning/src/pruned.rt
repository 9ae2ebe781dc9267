// What pruning leaves of a tree, written to the lists of the caller.
ghost use Rattle.std.specs.Prelude.{◌≡◌, ℕ, ◌<◌, ◌≤◌, ◌&&◌, length};
ghost use Rattle.network.specs.Networks.{net_of};
ghost use Rattle.theory.specs.Sums.{differ};
ghost use Rattle.theory.specs.Nets.{node_count, edge_count, first_end, second_end};
ghost use Rattle.theory.specs.Prune.{marked};
ghost use Rattle.pruning.specs.Pruned.{heeded, member, leaving, prunable_at, next_pruned, except, pruned_in, plan_in, prune_answer};
ghost use Rattle.pruning.specs.Trees.{net_under, edges_in};
ghost use Rattle.pruning.specs.Written.{too_short, unless_short};

use super::answer::Answer;
use super::members::members_of;
use super::reads::{edge_count, has_one_end, is_marked, node_count};
use super::shape::Shape;
use super::tree::Tree;
use super::writing::{check_room, write_plan};
use network::Network;
use refusal::Refusal;
use std::array;

// How many edges of the tree have just one end among the members.
fn count_leaving(tree: &Tree<'_>, members: &[u8]) -> usize
    ensures { result ≡ leaving (net_under tree.now) (edges_in tree.now) (marked members.now) }
{
    (0..edge_count(tree.network))
        .filter(|&s| tree.has_edge(s) && has_one_end(tree.network, members, s))
        .count()
}

// How many edges of the tree have just one end in a cluster.
fn degree(tree: &Tree<'_>, shapes: &[Shape], c: usize) -> usize
    requires listed { c < length shapes.now }
    requires few { length shapes.now ≤ 511 }
    ensures { result ≡ leaving (net_under tree.now) (edges_in tree.now) (member shapes.now c) }
{
    count_leaving(tree, &members_of(shapes, c))
}

// Whether a cluster is inactive and just one edge of the tree leaves it.
// Here and around it the shapes are few by a `requires`: a struct round one slice would say no more.
fn is_prunable(tree: &Tree<'_>, shapes: &[Shape], c: usize) -> bool
    requires listed { c < length shapes.now }
    requires few { length shapes.now ≤ 511 }
    ensures { result ≡ prunable_at (net_under tree.now) shapes.now (edges_in tree.now) c }
{
    shapes[c].inactive && degree(tree, shapes, c) == 1
}

// The lowest-numbered cluster that can be pruned.
fn next_cluster(tree: &Tree<'_>, shapes: &[Shape]) -> Option<usize>
    requires { length shapes.now ≤ 511 }
    ensures { result ≡ next_pruned (net_under tree.now) shapes.now (marked tree.now.edges.now) (marked tree.now.nodes.now) }
{
    (0..shapes.len()).find(|&c| is_prunable(tree, shapes, c))
}

// Whether a place is among the nodes and not among the members.
fn is_left(nodes: &[u8], members: &[u8], v: usize) -> bool
    ensures { result ≡ except (marked nodes.now) (marked members.now) v }
{
    is_marked(nodes, v) && !is_marked(members, v)
}

// Marks the places that are among the nodes and not among the members.
fn take_away(nodes: &[u8], members: &[u8]) -> [u8; 256]
    ensures { (v : ℕ) → v < 256 → marked result v ≡ except (marked nodes.now) (marked members.now) v }
{
    array::from_fn(|v| is_left(nodes, members, v) as u8)
}

// Marks the nodes of the tree that pruning leaves.
fn pruned_nodes(network: &Network, shapes: &[Shape], chosen: &[u8], tree_nodes: &[u8]) -> [u8; 256]
    requires { length shapes.now ≤ 511 }
    ensures { (v : ℕ) → v < node_count (net_of network.now) → marked result v ≡ pruned_in (net_of network.now) shapes.now (marked tree_nodes.now) (marked chosen.now) v }
{
    let mut nodes = array::from_fn(|v| is_marked(tree_nodes, v) as u8);
    for _ in 0..node_count(network) {
        let tree = Tree {
            network,
            edges: chosen,
            nodes: &nodes,
        };
        let Some(c) = next_cluster(&tree, shapes) else {
            break;
        };
        nodes = take_away(&nodes, &members_of(shapes, c));
    }
    nodes
}

// The shapes that count: a family over 256 nodes has at most 511 clusters.
#[tactic(auto, using(std::proofs::lemmas::List::take_min))]
fn first_shapes(shapes: &[Shape]) -> &[Shape]
    ensures few { length result.now ≤ 511 }
    ensures value { result.now ≡ heeded shapes.now }
{
    &shapes[..511usize.min(shapes.len())]
}

// Of the tree with the marked nodes and the chosen edges among them, takes away inactive clusters that just one edge leaves,
// the lowest-numbered first, until there is none. Writes what is left to the front of the two lists, and answers for it.
// Only the first 511 shapes count. A list shorter than the nodes or the edges refuses, and nothing is written.
pub fn prune_tree(
    network: &Network,
    shapes: &[Shape],
    chosen: &[u8],
    tree_nodes: &[u8],
    nodes_out: &mut [u8],
    edges_out: &mut [u8],
) -> Result<Answer, Refusal>
    ensures answer { result ≡ prune_answer (net_of network.now) (heeded shapes.now) (marked tree_nodes.now) (marked chosen.now) nodes_out.old edges_out.old }
    ensures nodes { nodes_out.new ≡ unless_short (too_short (net_of network.now) nodes_out.old edges_out.old) (plan_in (net_of network.now) (heeded shapes.now) (marked tree_nodes.now) (marked chosen.now)).node_marks (node_count (net_of network.now)) nodes_out.old }
    ensures edges { edges_out.new ≡ unless_short (too_short (net_of network.now) nodes_out.old edges_out.old) (plan_in (net_of network.now) (heeded shapes.now) (marked tree_nodes.now) (marked chosen.now)).edge_marks (edge_count (net_of network.now)) edges_out.old }
{
    check_room(network, nodes_out, edges_out)?;
    let nodes = pruned_nodes(network, first_shapes(shapes), chosen, tree_nodes);
    let pruned = Tree {
        network,
        edges: chosen,
        nodes: &nodes,
    };
    Ok(write_plan(&pruned, nodes_out, edges_out))
}
