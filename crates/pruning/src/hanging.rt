// Rooting a tree: its branches, each parent before its children.
ghost use Rattle.std.specs.Prelude.{◌≡◌, ◌<◌, ◌&&◌, []};
ghost use Rattle.network.specs.Networks.{net_of};
ghost use Rattle.theory.specs.Sums.{differ};
ghost use Rattle.theory.specs.Nets.{node_count, edge_count, first_end, second_end};
ghost use Rattle.theory.specs.Prune.{marked};
ghost use Rattle.theory.specs.Strong.{branch, next_edge, hang_from};
ghost use Rattle.pruning.specs.Branches.{branch_of, newest_first};

use super::branch::Branch;
use super::reads::{edge_count, has_one_end, is_marked, node_count};
use arrayvec::ArrayVec;
use network::Network;

// The lowest-numbered marked edge with just one end placed.
fn next_edge(network: &Network, edges: &[u8], placed: &[u8]) -> Option<usize>
    ensures { result ≡ next_edge (net_of network.now) (marked edges.now) (marked placed.now) }
{
    (0..edge_count(network)).find(|&s| is_marked(edges, s) && has_one_end(network, placed, s))
}

// The branch of an edge: its parent is the end that is placed.
#[tactic(auto, using(crate::proofs::EdgeReads::edge_reads))]
fn branch_at(network: &Network, placed: &[u8], s: usize) -> Branch
    requires { s < edge_count (net_of network.now) }
    ensures { branch_of result ≡ branch (net_of network.now) (marked placed.now) s }
{
    let edge = network.edges()[s];
    if is_marked(placed, edge.first) {
        Branch {
            child: edge.second,
            parent: edge.first,
            edge: s,
        }
    } else {
        Branch {
            child: edge.first,
            parent: edge.second,
            edge: s,
        }
    }
}

// The branches of the tree from its root on.
pub(crate) fn hang(network: &Network, edges: &[u8], root: usize) -> ArrayVec<Branch, 256>
    requires { root < 256 }
    ensures { newest_first result.items ≡ hang_from (node_count (net_of network.now)) (net_of network.now) (marked edges.now) root [] }
{
    let mut placed = [0u8; 256];
    placed[root] = 1;
    let mut branches = ArrayVec::new();
    for _ in 0..node_count(network) {
        let Some(s) = next_edge(network, edges, &placed) else {
            break;
        };
        let next = branch_at(network, &placed, s);
        branches.push(next);
        placed[next.child] = 1;
    }
    branches
}
