// The final report of a network: growth to its end and both plans, as one value.
#![tactic(auto)]

mod ending;
mod kept;

pub use ending::plan_network;
pub use kept::{Kept, Report};
