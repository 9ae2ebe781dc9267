// Pruning and strong pruning of a tree, and what a plan answers, over lists of marks. It wants no memory.
#![tactic(auto)]

mod answer;
mod answers;
mod branch;
mod hanging;
mod keeping;
mod members;
mod pruned;
mod reads;
mod shape;
mod strong;
#[cfg(test)]
mod tests;
mod tree;
mod worths;
mod writing;

pub use answer::{Answer, Coverage};
pub use answers::plan_answer;
pub use pruned::prune_tree;
pub use shape::Shape;
pub use strong::strong_prune_tree;
