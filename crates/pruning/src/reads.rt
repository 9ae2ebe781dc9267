// Reading marks, and the numbers of a network by place.
ghost use Rattle.std.specs.Prelude.{◌≡◌, ◌<◌};
ghost use Rattle.network.specs.Networks.{net_of};
ghost use Rattle.theory.specs.Sums.{differ};
ghost use Rattle.theory.specs.Nets.{node_count, edge_count, first_end, second_end};
ghost use Rattle.theory.specs.Prune.{marked};

use network::Network;

// Only the byte 1 counts; a place beyond the list is not marked. Marks are bytes everywhere: the callers' lists are, and this reads both.
pub(crate) fn is_marked(marks: &[u8], i: usize) -> bool
    ensures { result ≡ marked marks.now i }
{
    marks.get(i) == Some(&1)
}

pub(crate) fn node_count(network: &Network) -> usize
    ensures { result ≡ node_count (net_of network.now) }
{
    network.prizes().len()
}

#[tactic(auto, using(crate::proofs::EdgeReads::edge_reads))]
pub(crate) fn edge_count(network: &Network) -> usize
    ensures { result ≡ edge_count (net_of network.now) }
{
    network.edges().len()
}

// Whether just one end of an edge is marked.
#[tactic(auto, using(crate::proofs::EdgeReads::edge_reads))]
pub(crate) fn has_one_end(network: &Network, nodes: &[u8], s: usize) -> bool
    requires { s < edge_count (net_of network.now) }
    ensures { result ≡ differ (marked nodes.now (first_end (net_of network.now) s)) (marked nodes.now (second_end (net_of network.now) s)) }
{
    let edge = network.edges()[s];
    is_marked(nodes, edge.first) != is_marked(nodes, edge.second)
}
