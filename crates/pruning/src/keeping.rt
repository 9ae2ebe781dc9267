// The nodes that strong pruning keeps.
ghost use Rattle.std.specs.Prelude.{◌≡◌, ◌<◌, ◌≤◌, ◌&&◌, ◌||◌, length, if◌then◌else◌, ◌==◌, nat_lt};
ghost use Rattle.network.specs.Networks.{net_of};
ghost use Rattle.theory.specs.Nets.{edge_count, cost};
ghost use Rattle.theory.specs.Prune.{marked};
ghost use Rattle.theory.specs.Strong.{lowest_below, greatest, kept};
ghost use Rattle.pruning.specs.Branches.{newest_first, by_node, Rooted};
ghost use Rattle.pruning.specs.Strong.{nodes_in};

use super::branch::Branch;
use super::hanging::hang;
use super::reads::{is_marked, node_count};
use super::worths::net_worths;
use network::Network;

// The lowest-numbered of the first `n` that are marked.
fn lowest_marked(nodes: &[u8], n: usize) -> Option<usize>
    ensures { result ≡ lowest_below n (marked nodes.now) }
{
    (0..n).find(|&v| is_marked(nodes, v))
}

// The node `v` if it is marked and worth more, else `best`.
fn better(nodes: &[u8], table: &[u64], best: usize, v: usize) -> usize
    requires best { best < length table.now }
    requires next { v < length table.now }
    ensures { result ≡ (if marked nodes.now v && nat_lt (by_node table.now best) (by_node table.now v) then v else best) }
{
    if is_marked(nodes, v) && table[best] < table[v] {
        v
    } else {
        best
    }
}

// Of the first `n` that are marked, one of greatest worth, the lowest-numbered among equals.
fn best_node(nodes: &[u8], n: usize, table: &[u64], root: usize) -> usize
    requires room { n ≤ length table.now }
    requires root { root < length table.now }
    ensures { result ≡ greatest n (marked nodes.now) (by_node table.now) root }
{
    let mut best = root;
    // Not `max_by_key`, which takes the last of equals; a fold would have to carry that `best` is a node.
    for v in 0..n {
        best = better(nodes, table, best, v);
    }
    best
}

// Whether the child of a branch is kept: it is the best node, or its parent is kept and it is worth more than its edge costs.
#[tactic(auto, using(crate::proofs::EdgeReads::edge_reads))]
fn is_kept(network: &Network, table: &[u64], best: usize, above: &[u8], next: Branch) -> bool
    requires edge { next.edge < edge_count (net_of network.now) }
    requires child { next.child < length table.now }
    ensures { result ≡ (next.child == best || (marked above.now next.parent && nat_lt (cost (net_of network.now) next.edge) (by_node table.now next.child))) }
{
    if next.child == best {
        return true;
    }
    let price = network.edges()[next.edge].cost;
    is_marked(above, next.parent) && price < table[next.child]
}

// Marks the nodes that are kept below the best node.
fn keep(
    network: &Network,
    branches: &[Branch],
    table: &[u64],
    root: usize,
    best: usize,
) -> [u8; 256]
    requires rooted { Rooted (net_of network.now) (newest_first branches.now) }
    requires root { root < 256 }
    requires table { 256 ≤ length table.now }
    ensures { marked result ≡ kept (net_of network.now) (by_node table.now) root best (newest_first branches.now) }
{
    let mut above = [0u8; 256];
    above[root] = (root == best) as u8;
    for next in branches {
        above[next.child] = is_kept(network, table, best, &above, *next) as u8;
    }
    above
}

// Marks the nodes of the tree that strong pruning keeps.
pub(crate) fn strong_nodes(network: &Network, nodes: &[u8], edges: &[u8]) -> [u8; 256]
    ensures { marked result ≡ nodes_in (net_of network.now) (marked nodes.now) (marked edges.now) }
{
    let n = node_count(network);
    let root = lowest_marked(nodes, n).unwrap_or(0);
    let branches = hang(network, edges, root);
    let table = net_worths(network, &branches);
    let best = best_node(nodes, n, &table, root);
    keep(network, &branches, &table, root, best)
}
