// Inner moats and doubled prizes of a cluster, from the tables.
ghost use Rattle.std.specs.Prelude.{◌≡◌, ℕ, ◌*◌, ◌^◌, ◌<◌, ◌≤◌, length, slice_index};
ghost use Rattle.growth.specs.Moats.{Falls, inner_moats};
ghost use Rattle.growth.specs.Sums.{prizes_in};

use crate::Cluster;
use crate::nodes::Node;

// A cluster's inner moats: its own and, in turn, those of its two parts.
pub(crate) fn inner_moats(clusters: &[Cluster], c: usize) -> u64
    requires there { c < length clusters.now }
    requires falls { Falls clusters.now }
    requires fits { (k : ℕ) → inner_moats clusters.now k < 2 ^ 64 }
    ensures { result ≡ inner_moats clusters.now c }
{
    let own = clusters[c].moat;
    match clusters[c].parts {
        None => own,
        Some((first, second)) => {
            own + inner_moats(clusters, first) + inner_moats(clusters, second)
        }
    }
}

// The doubled prizes of a maximal cluster's nodes.
pub(crate) fn doubled_prizes(prizes: &[u64], nodes: &[Node], c: usize) -> u64
    requires few { length prizes.now ≤ 256 }
    requires long { length prizes.now ≤ length nodes.now }
    requires small { (v : ℕ) → slice_index prizes.now v ≤ 1000000000 }
    ensures { result ≡ prizes_in prizes.now nodes.now c (length prizes.now) }
{
    let mut sum: u64 = 0;
    for (v, prize) in prizes.iter().enumerate() {
        if nodes[v].cluster == c {
            sum += 2 * *prize;
        }
    }
    sum
}
