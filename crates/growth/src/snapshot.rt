// A network together with the tables that show how far it has grown.
ghost use Rattle.network.specs.Networks.{net_of};
ghost use Rattle.growth.specs.Shown.{Shown};

use crate::Tables;
use network::Network;

#[derive(Clone, Copy)]
pub(crate) struct Snapshot<'a> {
    pub(crate) network: &'a Network,
    pub(crate) tables: &'a Tables,
    ghost shown: { Shown (net_of network.now) tables.now },
}
