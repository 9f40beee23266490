// Where a field begins: an input, no longer than one may be, and a place in it or at its end.
ghost use Rattle.std.specs.Prelude.{◌≤◌, length};
ghost use Rattle.refusals.specs.Limits.{most_bytes};

#[derive(Clone, Copy)]
pub struct Cursor<'a> {
    pub input: &'a [u8],
    pub at: u32,
    pub ghost bound: { length input.now ≤ most_bytes },
    pub ghost within: { at ≤ length input.now },
}
