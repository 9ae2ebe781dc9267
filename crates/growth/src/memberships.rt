// The table by node: opening it, and what one event does to it.
ghost use Rattle.std.specs.Prelude.{◌≡◌, ℕ, ◌+◌, ◌^◌, ◌<◌, ◌≤◌, map};
ghost use Rattle.growth.specs.NodeTables.{grows_at, cluster_at, depth_at, regrouped, moved, deeper};

use crate::Cluster;
use crate::nodes::{Node, Nodes};
use std::array;

// Whether the cluster of this number grows; one that is not in the table does not.
pub(crate) fn grows(clusters: &[Cluster], c: usize) -> bool
    ensures { result ≡ grows_at clusters.now c }
{
    clusters.get(c).is_some_and(|cluster| cluster.is_growing())
}

fn regrouped(first: usize, second: usize, new: usize, c: usize) -> usize
    ensures { result ≡ regrouped first second new c }
{
    if c == first || c == second { new } else { c }
}

impl Nodes {
    // Each node in the cluster of its own number, at depth 0.
    pub(crate) fn open() -> Nodes
        ensures clusters { (v : ℕ) → v < 256 → cluster_at result.list v ≡ v }
        ensures depths { (v : ℕ) → v < 256 → depth_at result.list v ≡ 0 }
    {
        Nodes {
            list: array::from_fn(|cluster| Node { cluster, depth: 0 }),
        }
    }

    // The nodes of two clusters are in a new one now.
    pub(crate) fn regroup(&mut self, first: usize, second: usize, new: usize)
        ensures { self.new.list ≡ map (moved first second new) self.old.list }
    {
        for node in self.list.iter_mut() {
            node.cluster = regrouped(first, second, new, node.cluster);
        }
    }

    // The depth of each of the first `n` nodes that is in a growing cluster grows.
    pub(crate) fn deepen(&mut self, clusters: &[Cluster], n: usize, by: u64)
        requires few { n ≤ 256 }
        requires fits { (v : ℕ) → v < n → depth_at self.old.list v + by < 2 ^ 64 }
        ensures clusters { (v : ℕ) → cluster_at self.new.list v ≡ cluster_at self.old.list v }
        ensures depths { (v : ℕ) → v < n → depth_at self.new.list v ≡ deeper clusters.now by (cluster_at self.old.list v) (depth_at self.old.list v) }
    {
        for node in self.list[0..n].iter_mut() {
            if grows(clusters, node.cluster) {
                node.depth += by;
            }
        }
    }
}
