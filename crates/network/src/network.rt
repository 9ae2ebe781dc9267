// The network type: whatever value of it exists is valid.
ghost use Rattle.std.specs.Prelude.{◌≡◌, ◌≤◌, true, vec_capacity};
ghost use Rattle.network.specs.Edges.{net_from};
ghost use Rattle.network.specs.Nets.{valid};

use super::Edge;

// Nodes and edges are numbered from 0 in the order of their entry. Its room is reserved as it opens.
#[derive(Drop)]
pub struct Network {
    pub(super) prizes: Vec<u64>,
    pub(super) edges: Vec<Edge>,
    ghost valid: { valid (net_from prizes.items edges.items) ≡ true },
    ghost nodes_room: { 256 ≤ vec_capacity prizes },
    ghost edges_room: { 1024 ≤ vec_capacity edges },
}
