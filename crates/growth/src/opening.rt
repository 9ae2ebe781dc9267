// The tables at the start of growth.
ghost use Rattle.network.specs.Networks.{net_of};
ghost use Rattle.theory.specs.Growth.{start};
ghost use Rattle.growth.specs.Shown.{ShowsAll};

use crate::marks::EdgeMarks;
use crate::nodes::Nodes;
use crate::{Family, Tables};
use network::Network;

impl Tables {
    // Each node alone, no moat, no edge chosen.
    pub(crate) fn open(network: &Network) -> Tables
        ensures { ShowsAll (net_of network.now) result (start (net_of network.now)) }
    {
        Tables {
            family: Family::open(network.prizes().len()),
            nodes: Nodes::open(),
            chosen: EdgeMarks { marks: [0; 1024] },
            time: 0,
            steps: 0,
            total: 0,
        }
    }
}
