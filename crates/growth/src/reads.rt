// An edge of a network by number.
ghost use Rattle.std.specs.Prelude.{◌≡◌, ◌<◌};
ghost use Rattle.network.specs.Networks.{net_of};
ghost use Rattle.theory.specs.Nets.{edge_count, first_end, second_end, cost};

use network::{Edge, Network};

// Asked of a number, as its callers are: a type of known numbers would have to carry the network.
pub(crate) fn edge_at(network: &Network, s: usize) -> Edge
    requires { s < edge_count (net_of network.now) }
    ensures first { result.first ≡ first_end (net_of network.now) s }
    ensures second { result.second ≡ second_end (net_of network.now) s }
    ensures within { (result.first < 256) × (result.second < 256) }
    ensures cost { result.cost ≡ cost (net_of network.now) s }
{
    network.edges()[s]
}
