// The table of clusters by number.
ghost use Rattle.std.specs.Prelude.{◌≡◌, ◌≤◌, length};

use crate::Cluster;

// The first `formed` records are clusters; those behind them are vacant. One table, cleared at the start, is a rule of the project.
#[derive(Drop)]
pub(crate) struct Family {
    pub(crate) clusters: [Cluster; 511],
    pub(crate) formed: usize,
    ghost whole: { length clusters ≡ 511 },
    ghost within: { formed ≤ 511 },
}
