// A network under growth.
ghost use Rattle.std.specs.Prelude.{◌≡◌};

use crate::Tables;
use network::Network;
use queue::EventQueue;
use std::marker::Model;

// The network as entered, the tables that show how far it has grown, and the queue of what is due.
#[derive(Drop)]
pub struct Growth<Q: EventQueue> {
    pub(crate) network: Network,
    pub(crate) tables: Tables,
    pub(crate) queue: Q,
}

// A caller sees the network and how many steps it has grown. That the tables show the state after these steps,
// and that the queue holds its due times and no others, is true of every growing network.
impl<Q: EventQueue> Model for Growth<Q> {
    ghost use Rattle.network.specs.Networks.{net_of};
    ghost use Rattle.growth.specs.Grown.{Grown, Sound};

    ghost Value = { Grown };

    ghost view = { λ g. record { network = net_of g.network; entered = g.network.valid; steps = g.tables.steps } };

    ghost invariant = { λ g. Sound (net_of g.network) g.tables (Q.EventQueue.table g.queue) };
}
