// Golden files, moved into fields and back, for C and Rust callers. See include/sillgarland.h for what a caller owes.
ghost use Rattle.std.specs.Prelude.{◌≡◌, length};
ghost use Rattle.grammar.specs.Numbered.{numbered};
ghost use Rattle.readalone.specs.Alone.{lent};
ghost use Rattle.goldens.specs.Moving.{to_fields, to_plain, moved_as};
ghost use Rattle.sillgarland.specs.Goldenfiles.{moved_struct, Moves};

use refusals::Fault;

// A move's answer: its refusal and place, or how many bytes were written.
// A type of C's header, with the fields of `SillWritten`.
#[repr(C)]
#[derive(Clone, Copy)]
pub struct SillMoved {
    pub refusal: u32,
    pub place: u32,
    pub written: u32,
}

// An old golden, code and result back to back, into fields.
// This export and `sill_golden_from_fields` are names of C, which lends the stores of nodes, entries and slots one by one.
pub fn sill_golden_to_fields(
    plain: &[u8],
    nodes: &mut [u32],
    entries: &mut [u32],
    slots: &mut [u32],
    nesting: u32,
    out: &mut [u8],
) -> SillMoved
    ensures { Moves (moved_as (to_fields (lent (length nodes.old) (length entries.old) (length slots.old) nesting)
        plain.now) (length out.old))
        result out.new nodes.old nodes.new entries.old entries.new slots.old slots.new }
{
    SillMoved::from(goldens::to_fields(plain, nodes, entries, slots, nesting, out))
}

// A golden in fields into the old form.
pub fn sill_golden_from_fields(
    fields: &[u8],
    nodes: &mut [u32],
    entries: &mut [u32],
    slots: &mut [u32],
    nesting: u32,
    out: &mut [u8],
) -> SillMoved
    ensures { Moves (moved_as (to_plain (lent (length nodes.old) (length entries.old) (length slots.old) nesting)
        fields.now) (length out.old))
        result out.new nodes.old nodes.new entries.old entries.new slots.old slots.new }
{
    SillMoved::from(goldens::to_plain(fields, nodes, entries, slots, nesting, out))
}

impl From<Result<u32, Fault>> for SillMoved {
    ghost from_gives = { λ answer it. it ≡ moved_struct (numbered answer) };

    fn from(answer: Result<u32, Fault>) -> SillMoved {
        match answer {
            Ok(written) => SillMoved {
                refusal: refusals::ACCEPTED,
                place: 0,
                written,
            },
            Err(fault) => SillMoved {
                refusal: fault.refusal.number(),
                place: fault.place,
                written: 0,
            },
        }
    }
}
