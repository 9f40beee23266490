// Golden files, moved into fields and back, for C and Rust callers. See include/sillgarland.h for what a caller owes.
ghost use Rattle.std.specs.Prelude.{length};
ghost use Rattle.readalone.specs.Alone.{lent};
ghost use Rattle.goldens.specs.Moving.{to_fields, to_plain, moved_as};
ghost use Rattle.sillgarland.specs.Goldenfiles.{Moves};

use sillgarland::goldenfiles::SillMoved;

// An old golden, code and result back to back, into fields.
#[unsafe(no_mangle)]
pub extern "C" fn sill_golden_to_fields(
    plain: &[u8],
    nodes: &mut [u32],
    entries: &mut [u32],
    slots: &mut [u32],
    nesting: u32,
    out: &mut [u8],
) -> SillMoved
    ensures { Moves (moved_as (to_fields (lent (length nodes.old) (length entries.old) (length slots.old) nesting)
        plain.now) (length out.old))
        result out.new nodes.old nodes.new entries.old entries.new slots.old slots.new }
{
    sillgarland::goldenfiles::sill_golden_to_fields(plain, nodes, entries, slots, nesting, out)
}

// A golden in fields into the old form.
#[unsafe(no_mangle)]
pub extern "C" fn sill_golden_from_fields(
    fields: &[u8],
    nodes: &mut [u32],
    entries: &mut [u32],
    slots: &mut [u32],
    nesting: u32,
    out: &mut [u8],
) -> SillMoved
    ensures { Moves (moved_as (to_plain (lent (length nodes.old) (length entries.old) (length slots.old) nesting)
        fields.now) (length out.old))
        result out.new nodes.old nodes.new entries.old entries.new slots.old slots.new }
{
    sillgarland::goldenfiles::sill_golden_from_fields(fields, nodes, entries, slots, nesting, out)
}
