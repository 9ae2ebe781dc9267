// The reader: a sheet and how far it is read, since a field is handed out with its place.
ghost use Rattle.std.specs.Prelude.{◌≤◌, length};

#[derive(Drop)]
pub(crate) struct Reader<'a> {
    pub(super) sheet: &'a [u8],
    pub(super) at: usize,
    ghost within: { at ≤ length sheet.now },
}
