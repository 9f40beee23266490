// The stores that the writer is lent, as its functions hand them on.

ghost use Rattle.std.specs.Prelude.{◌≤◌, length};
ghost use Rattle.refusals.specs.Limits.{most_bytes};
ghost use Rattle.grammar.specs.Input.{Bytes};

// How many nodes and how many entries are said to be used.
#[derive(Clone, Copy)]
pub struct Used {
    pub nodes: u32,
    pub entries: u32,
}

// The input and both stores, whatever stands in them.
#[derive(Clone, Copy)]
pub struct Lent<'a> {
    pub input: &'a [u8],
    pub nodes: &'a [u32],
    pub entries: &'a [u32],
    pub used: Used,
    pub ghost bytes: { Bytes input.now },
}

// The same, of an input that is no longer than one may be.
#[derive(Clone, Copy)]
pub struct Bounded<'a> {
    pub lent: Lent<'a>,
    pub ghost bound: { length lent.input.now ≤ most_bytes },
}
