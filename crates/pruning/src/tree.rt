// Some nodes of a network with the marked edges among them, as lent to the functions that read them.
ghost use Rattle.std.specs.Prelude.{◌≡◌, ◌<◌};
ghost use Rattle.theory.specs.Nets.{edge_count};

use super::reads::is_marked;
use network::Network;

#[derive(Clone, Copy)]
pub(crate) struct Tree<'a> {
    pub(crate) network: &'a Network,
    pub(crate) edges: &'a [u8],
    pub(crate) nodes: &'a [u8],
}

impl Tree<'_> {
    ghost use Rattle.pruning.specs.Trees.{net_under, edges_in};

    // Whether an edge is marked and both its ends are among the nodes.
    #[tactic(auto, using(crate::proofs::EdgeReads::edge_reads))]
    pub(crate) fn has_edge(&self, s: usize) -> bool
        requires { s < edge_count (net_under self.now) }
        ensures { result ≡ edges_in self.now s }
    {
        let edge = self.network.edges()[s];
        is_marked(self.edges, s)
            && is_marked(self.nodes, edge.first)
            && is_marked(self.nodes, edge.second)
    }
}
