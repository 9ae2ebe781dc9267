// Growth of moats in a network: start, steps, questions and both prunings.
#![tactic(auto)]

mod cluster;
mod dues;
mod engine;
mod event;
mod events;
mod families;
mod family;
mod marks;
mod memberships;
mod moats;
mod nodes;
mod opening;
mod plans;
mod questions;
mod reads;
mod refresh;
mod runs;
mod snapshot;
mod standing;
mod steps;
mod tables;
mod tree;

use cluster::Cluster;
pub use cluster::Phase;
pub use engine::Growth;
pub use event::Event;
use family::Family;
pub use runs::run;
use snapshot::Snapshot;
pub use standing::Standing;
use tables::Tables;
