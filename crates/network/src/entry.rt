// One entry of a network, as a list of calls has it.

#[derive(Clone, Copy)]
pub enum Entry<'a> {
    Node {
        prize: u64,
    },
    Edge {
        first: usize,
        second: usize,
        cost: u64,
        code: &'a [u8],
    },
}
