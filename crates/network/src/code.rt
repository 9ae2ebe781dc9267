// An edge's code: its text of 1 to 8 bytes in a fixed place, so that an entry wants no memory.
ghost use Rattle.std.specs.Prelude.{◌≡◌, ◌-◌, ◌≤◌, true, length, take, drop, replicate};
ghost use Rattle.network.specs.Codes.{is_code};

// The text is the first `len` bytes, and every byte behind it is 0. Length and bytes stand side by side, since an edge is copied and its key is all eight bytes.
#[derive(Clone, Copy)]
pub struct Code {
    pub(super) bytes: [u8; 8],
    pub(super) len: usize,
    ghost whole: { length bytes ≡ 8 },
    ghost within: { len ≤ 8 },
    ghost spelled: { is_code (take len bytes) ≡ true },
    ghost padded: { drop len bytes ≡ replicate (8 - len) 0 },
}
