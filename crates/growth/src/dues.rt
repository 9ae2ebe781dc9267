// Due times, from the tables.
ghost use Rattle.std.specs.Prelude.{◌≡◌, ◌+◌, ◌^◌, ◌<◌, slice_index_or};
ghost use Rattle.theory.specs.Clusters.Slot.{inside};
ghost use Rattle.theory.specs.Due.{cluster_due, slack_due, edge_due};
ghost use Rattle.theory.specs.Nets.{edge_count};
ghost use Rattle.growth.specs.Snapshots.{net_in, state_in};

use crate::Snapshot;
use crate::memberships::grows;
use crate::moats::{doubled_prizes, inner_moats};
use crate::reads::edge_at;

// When so much slack has run out: each active cluster at the edge uses it up.
fn slack_due(first: bool, second: bool, time: u64, left: u64) -> Option<u64>
    requires { time + left < 2 ^ 64 }
    ensures { result ≡ slack_due first second time left }
{
    match (first, second) {
        (true, true) => Some(time + left / 2),
        (true, false) => Some(time + left),
        (false, true) => Some(time + left),
        (false, false) => None,
    }
}

impl Snapshot<'_> {
    // When the cluster of this number is due: an active maximal one when its surplus has run out, any other not at all.
    // Kept a call: most numbers that are brought up to date are edges', and their loop is quicker without this in it.
    #[inline(never)]
    pub(crate) fn cluster_due(&self, c: usize) -> Option<u64>
        ensures { result ≡ cluster_due (net_in self.now) (state_in self.now).time (slice_index_or (state_in self.now).slots c inside) }
    {
        let tables = self.tables;
        if !grows(&tables.family.clusters, c) {
            return None;
        }
        let prizes = doubled_prizes(self.network.prizes(), &tables.nodes.list, c);
        let moats = inner_moats(&tables.family.clusters, c);
        Some(tables.time + (prizes - moats))
    }

    // When an edge is due: half its slack from now between two active clusters, its slack from now with one active, else not at all.
    pub(crate) fn edge_due(&self, s: usize) -> Option<u64>
        requires { s < edge_count (net_in self.now) }
        ensures { result ≡ edge_due (net_in self.now) (state_in self.now).time (state_in self.now).slots s }
    {
        let tables = self.tables;
        let edge = edge_at(self.network, s);
        let first = tables.nodes.list[edge.first];
        let second = tables.nodes.list[edge.second];
        if first.cluster == second.cluster {
            return None;
        }
        slack_due(
            grows(&tables.family.clusters, first.cluster),
            grows(&tables.family.clusters, second.cluster),
            tables.time,
            2 * edge.cost - (first.depth + second.depth),
        )
    }
}
