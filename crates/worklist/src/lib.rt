// The work list: the marked edges of a network in the order of their codes.
#![tactic(auto)]

mod key;
mod listing;

pub use listing::work_list;
