// What growth keeps for each node.
ghost use Rattle.std.specs.Prelude.{◌≡◌, length};

// The maximal cluster that holds a node, and the node's depth.
#[derive(Clone, Copy, Default)]
pub(crate) struct Node {
    pub(crate) cluster: usize,
    pub(crate) depth: u64,
}

// The nodes by number.
#[derive(Drop)]
pub(crate) struct Nodes {
    pub(crate) list: [Node; 256],
    ghost whole: { length list ≡ 256 },
}
