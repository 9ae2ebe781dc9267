// Opening the table, and what one event does to it.
ghost use Rattle.std.specs.Prelude.{◌≡◌, ℕ, ◌+◌, ◌-◌, ◌^◌, ◌<◌, ◌≤◌, ◌++◌, map, length, get_or, drop, replicate, slice_index_or, slice_set};
ghost use Rattle.growth.specs.Records.{vacant, lone_record, inactivated, widened, merged_records};
ghost use Rattle.growth.specs.Events.{growing};

use crate::{Cluster, Family};

impl Family {
    // Each of n nodes alone.
    pub(crate) fn open(n: usize) -> Family
        requires { n ≤ 511 }
        ensures clusters { result.clusters ≡ replicate n lone_record ++ replicate (511 - n) vacant }
        ensures formed { result.formed ≡ n }
    {
        let mut clusters = [Cluster::vacant(); 511];
        clusters[0..n].fill(Cluster::lone());
        Family {
            clusters,
            formed: n,
        }
    }

    // How many clusters are active and maximal.
    pub(crate) fn growing(&self) -> usize
        ensures { result ≡ growing self.now.clusters }
    {
        self.clusters
            .iter()
            .map(|cluster| cluster.is_growing() as usize)
            .sum()
    }

    // Every active maximal cluster's moat grows.
    pub(crate) fn pass(&mut self, by: u64)
        requires { (c : ℕ) → (get_or self.old.clusters c vacant).moat + by < 2 ^ 64 }
        ensures clusters { self.new.clusters ≡ map (widened by) self.old.clusters }
        ensures formed { self.new.formed ≡ self.old.formed }
    {
        for cluster in self.clusters.iter_mut() {
            cluster.grow(by);
        }
    }

    pub(crate) fn deactivate(&mut self, c: usize)
        requires { c < 511 }
        ensures clusters { self.new.clusters ≡ slice_set self.old.clusters c (inactivated (slice_index_or self.old.clusters c vacant)) }
        ensures formed { self.new.formed ≡ self.old.formed }
    {
        self.clusters[c].close();
    }

    // Two maximal clusters become the parts of a new one: its number.
    pub(crate) fn merge(&mut self, first: usize, second: usize) -> usize
        requires { (first < 511) × (second < 511) × (self.old.formed < 511) }
        ensures number { result ≡ self.old.formed }
        ensures clusters { self.new.clusters ≡ merged_records self.old.clusters self.old.formed first second }
        ensures formed { self.new.formed ≡ self.old.formed + 1 }
    {
        let number = self.formed;
        self.clusters[first].enclose();
        self.clusters[second].enclose();
        self.clusters[number] = Cluster::join(first, second);
        self.formed = number + 1;
        number
    }
}
