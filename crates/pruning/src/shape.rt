// A cluster of a family that is given by number.

// The numbers of a cluster's two parts, none for a node alone, and whether the cluster is inactive: no more of its state is asked.
#[derive(Clone, Copy, PartialEq, Eq, Debug)]
pub struct Shape {
    pub parts: Option<(usize, usize)>,
    pub inactive: bool,
}
