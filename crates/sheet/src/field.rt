// A field of a line, with its bytes of the sheet and their place in it. One enum whose cases borrow these is a rule of the project.

#[derive(Clone, Copy)]
pub(crate) enum Field<'a> {
    Letter(&'a [u8], usize),
    Number(&'a [u8], usize, u64),
    Code(&'a [u8], usize),
}
