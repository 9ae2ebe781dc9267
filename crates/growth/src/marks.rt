// Which edges are chosen.
ghost use Rattle.std.specs.Prelude.{◌≡◌, length};

// The mark of a chosen edge is 1, any other 0: bytes, since pruning reads callers' lists of bytes too.
#[derive(Drop)]
pub(crate) struct EdgeMarks {
    pub(crate) marks: [u8; 1024],
    ghost whole: { length marks ≡ 1024 },
}
