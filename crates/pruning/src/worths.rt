// Net worths of the nodes of a rooted tree.
ghost use Rattle.std.specs.Prelude.{◌≡◌, ◌+◌, ◌-◌, ◌<◌, ◌≤◌, length, slice_set};
ghost use Rattle.network.specs.Networks.{net_of};
ghost use Rattle.theory.specs.Nets.{edge_count, prize, cost};
ghost use Rattle.theory.specs.Strong.{worths};
ghost use Rattle.pruning.specs.Branches.{newest_first, by_node, Rooted};

use super::branch::Branch;
use network::Network;

// The prizes by node.
fn prizes_by_node(network: &Network) -> [u64; 256]
    ensures long { length result ≡ 256 }
    ensures value { by_node result ≡ prize (net_of network.now) }
{
    let prizes = network.prizes();
    let mut table = [0u64; 256];
    table[0..prizes.len()].copy_from_slice(prizes);
    table
}

// Takes the child of a branch off: the parent gains what the child is worth beyond the edge's cost.
#[tactic(auto, using(crate::proofs::EdgeReads::edge_reads))]
fn lift(network: &Network, last: Branch, table: &mut [u64])
    requires edge { last.edge < edge_count (net_of network.now) }
    requires child { last.child < length table.old }
    requires parent { last.parent < length table.old }
    requires small { by_node table.old last.parent + (by_node table.old last.child - cost (net_of network.now) last.edge) ≤ 257000000000 }
    ensures { table.new ≡ slice_set table.old last.parent (by_node table.old last.parent + (by_node table.old last.child - cost (net_of network.now) last.edge)) }
{
    let price = network.edges()[last.edge].cost;
    let gain = table[last.child].saturating_sub(price);
    table[last.parent] += gain;
}

// The net worths by node: the branches are taken off from the last to the first.
pub(crate) fn net_worths(network: &Network, branches: &[Branch]) -> [u64; 256]
    requires few { length branches.now ≤ 256 }
    requires rooted { Rooted (net_of network.now) (newest_first branches.now) }
    ensures { by_node result ≡ worths (net_of network.now) (newest_first branches.now) (prize (net_of network.now)) }
{
    let mut table = prizes_by_node(network);
    for last in branches.iter().rev() {
        lift(network, *last, &mut table);
    }
    table
}
