// The grown tree as marks, and the clusters as shapes: what pruning asks for.
ghost use Rattle.std.specs.Prelude.{◌≡◌, ◌<◌, map};
ghost use Rattle.theory.specs.Nets.{edge_count};
ghost use Rattle.theory.specs.Prune.{marked, grown_node, grown_edge};
ghost use Rattle.pruning.specs.Written.{edges_among};
ghost use Rattle.growth.specs.Plans.{shape_of};
ghost use Rattle.growth.specs.Snapshots.{net_in, state_in};

use crate::cluster::Phase;
use crate::memberships::grows;
use crate::reads::edge_at;
use crate::{Cluster, Family, Snapshot};
use pruning::Shape;
use std::array;

impl Cluster {
    // A method and no `From`: only this file asks for it, of a record that is lent.
    fn shape(&self) -> Shape
        ensures { result ≡ shape_of self.now }
    {
        Shape {
            parts: self.parts,
            inactive: self.phase == Phase::Inactive,
        }
    }
}

impl Family {
    // The shape of each record, vacant ones too.
    pub(crate) fn shapes(&self) -> [Shape; 511]
        ensures { result ≡ map shape_of self.now.clusters }
    {
        array::from_fn(|c| self.clusters[c].shape())
    }
}

impl Snapshot<'_> {
    // Whether a node is in the grown tree: it is entered, and its cluster grows.
    fn is_grown(&self, v: usize) -> bool
        requires { v < 256 }
        ensures { result ≡ grown_node (state_in self.now).slots v }
    {
        v < self.network.prizes().len()
            && grows(
                &self.tables.family.clusters,
                self.tables.nodes.list[v].cluster,
            )
    }

    // Marks the nodes of the grown tree.
    pub(crate) fn grown_nodes(&self) -> [u8; 256]
        ensures { marked result ≡ grown_node (state_in self.now).slots }
    {
        array::from_fn(|v| self.is_grown(v) as u8)
    }

    // Whether an edge is chosen and both its ends are among the nodes. Pruning's own takes lists of any length.
    fn is_among(&self, nodes: &[u8; 256], s: usize) -> bool
        requires { s < edge_count (net_in self.now) }
        ensures { result ≡ edges_among (net_in self.now) (marked self.now.tables.now.chosen.marks) (marked nodes.now) s }
    {
        let edge = edge_at(self.network, s);
        self.tables.chosen.marks[s] == 1 && nodes[edge.first] == 1 && nodes[edge.second] == 1
    }

    // Whether an edge is in the grown tree, whose nodes are marked.
    fn is_tree_edge(&self, nodes: &[u8; 256], s: usize) -> bool
        requires { marked nodes.now ≡ grown_node (state_in self.now).slots }
        ensures { result ≡ grown_edge (net_in self.now) (state_in self.now).slots s }
    {
        s < self.network.edges().len() && self.is_among(nodes, s)
    }

    // Marks the edges of the grown tree, whose nodes are marked.
    pub(crate) fn grown_edges(&self, nodes: &[u8; 256]) -> [u8; 1024]
        requires { marked nodes.now ≡ grown_node (state_in self.now).slots }
        ensures { marked result ≡ grown_edge (net_in self.now) (state_in self.now).slots }
    {
        array::from_fn(|s| self.is_tree_edge(nodes, s) as u8)
    }
}
