// A branch of a rooted tree.

// A node below the root, the node it hangs from, and the edge between them.
#[derive(Clone, Copy, Default)]
pub(crate) struct Branch {
    pub(crate) child: usize,
    pub(crate) parent: usize,
    pub(crate) edge: usize,
}
