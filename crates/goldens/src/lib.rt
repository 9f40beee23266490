// Golden files moved from the old form into fields, and back. Both values are read before a byte is written; the stores are working room,
// zero afterwards, and a refused move leaves the output zero.
#![tactic(auto)]

ghost use Rattle.std.specs.Prelude.{◌≡◌, [], ◌∷◌, ◌++◌, ◌+◌, ◌/◌, ◌%◌, ◌≤◌, ◌<◌, length, take, drop};
ghost use Rattle.std.proofs.lemmas.List.Edits.{sets};
ghost use Rattle.clearing.specs.Lent.{zeros};
ghost use Rattle.taggedfields.specs.Fields.{bytes_of};
ghost use Rattle.grammar.specs.Numbered.{numbered};
ghost use Rattle.readalone.specs.Alone.{lent};
ghost use Rattle.goldenparts.specs.Spans.{golden_in};
ghost use Rattle.goldens.specs.Moving.{written, new_form, old_form, fielded, to_fields, to_plain, in_room, moved_as};

use goldenparts::Golden;
use refusals::{Fault, Refusal};

// The most bytes that a field's length can say.
const MOST_CONTENTS: u32 = 65_535;

// What stands in a new golden beside its two values: the edition's field, and two headers.
const HEADERS: usize = 10;

// The edition's field.
fn put_edition(out: &mut [u8])
    requires { 4 ≤ length out.old }
    ensures { out.new ≡ sets out.old 0 (1 ∷ 1 ∷ 0 ∷ 1 ∷ []) }
{
    out[0..4].copy_from_slice(&[1, 1, 0, 1]);
}

// A field's tag and length.
fn put_header(out: &mut [u8], at: usize, tag: u8, size: u16)
    requires { at + 3 ≤ length out.old }
    ensures { out.new ≡ sets out.old at (tag ∷ size % 256 ∷ size / 256 ∷ []) }
{
    out[at] = tag;
    out[at + 1..at + 3].copy_from_slice(&size.to_le_bytes());
}

// A field.
fn put_field(out: &mut [u8], at: usize, tag: u8, contents: &[u8])
    requires { (at + 3 + length contents.now ≤ length out.old) × (length contents.now < 65536) }
    ensures { out.new ≡ sets out.old at (bytes_of (written tag contents.now)) }
{
    put_header(out, at, tag, contents.len() as u16);
    copying::copy_bytes(&mut out[at + 3..at + 3 + contents.len()], contents);
}

// The whole new golden.
fn put_fields(golden: Golden, out: &mut [u8])
    requires { (golden.parts.code.size < 65536) × (golden.parts.result.size < 65536)
        × (10 + golden.parts.code.size + golden.parts.result.size ≤ length out.old) }
    ensures { out.new ≡ sets out.old 0 (new_form (golden_in golden.entry.file.now golden.entry.parts)) }
{
    let code = golden.parts.code.of(golden.file);
    put_edition(out);
    put_field(out, 4, 2, code);
    put_field(out, 7 + code.len(), 3, golden.parts.result.of(golden.file));
}

// The new golden, if there is room.
fn fields_in_room(golden: Golden, out: &mut [u8]) -> Result<u32, Fault>
    requires { (golden.parts.code.size < 65536) × (golden.parts.result.size < 65536) × (out.old ≡ zeros (length out.old)) }
    ensures { (numbered result, out.new) ≡ in_room (new_form (golden_in golden.entry.file.now golden.entry.parts)) (length out.old) }
{
    let parts = golden.parts;
    let total = HEADERS + parts.code.size as usize + parts.result.size as usize;
    let size = taggedfields::fitting(out.len(), total)?;
    put_fields(golden, out);
    Ok(size)
}

// The new golden, where a field can hold each value.
fn write_fields(golden: Golden, out: &mut [u8]) -> Result<u32, Fault>
    requires { out.old ≡ zeros (length out.old) }
    ensures { (numbered result, out.new) ≡ moved_as (fielded (golden_in golden.entry.file.now golden.entry.parts)) (length out.old) }
{
    let parts = golden.parts;
    if MOST_CONTENTS < parts.code.size {
        return Err(Refusal::ValueTooLong.at(parts.code.start));
    }
    if MOST_CONTENTS < parts.result.size {
        return Err(Refusal::ValueTooLong.at(parts.result.start));
    }
    fields_in_room(golden, out)
}

// The whole old golden.
fn put_plain(golden: Golden, out: &mut [u8])
    requires { golden.parts.code.size + golden.parts.result.size ≤ length out.old }
    ensures { out.new ≡ sets out.old 0 (old_form (golden_in golden.entry.file.now golden.entry.parts)) }
{
    let code = golden.parts.code.of(golden.file);
    let result = golden.parts.result.of(golden.file);
    let end = code.len();
    copying::copy_bytes(&mut out[0..end], code);
    copying::copy_bytes(&mut out[end..end + result.len()], result);
}

// The old golden, if there is room.
fn write_plain(golden: Golden, out: &mut [u8]) -> Result<u32, Fault>
    requires { out.old ≡ zeros (length out.old) }
    ensures { (numbered result, out.new) ≡ in_room (old_form (golden_in golden.entry.file.now golden.entry.parts)) (length out.old) }
{
    let parts = golden.parts;
    let total = parts.code.size as usize + parts.result.size as usize;
    let size = taggedfields::fitting(out.len(), total)?;
    put_plain(golden, out);
    Ok(size)
}

// Old to new: how many bytes were written. The three stores stand one by one for the reason beside readalone's `read_alone`.
// `to_plain` is alike but for what takes the file apart and what writes: passing both as closures would be longer than the three lines.
pub fn to_fields(
    plain: &[u8],
    nodes: &mut [u32],
    entries: &mut [u32],
    slots: &mut [u32],
    nesting: u32,
    out: &mut [u8],
) -> Result<u32, Fault>
    ensures { ((numbered result, out.new) ≡ moved_as (to_fields (lent (length nodes.old) (length entries.old)
        (length slots.old) nesting) plain.now) (length out.old))
        × (nodes.new ≡ zeros (length nodes.old)) × (entries.new ≡ zeros (length entries.old)) × (slots.new ≡ zeros (length slots.old)) }
{
    clearing::clear_bytes(out);
    let parts = goldenparts::old_parts(plain, nodes, entries, slots, nesting)?;
    write_fields(Golden { file: plain, parts }, out)
}

// New to old: how many bytes were written.
pub fn to_plain(
    fields: &[u8],
    nodes: &mut [u32],
    entries: &mut [u32],
    slots: &mut [u32],
    nesting: u32,
    out: &mut [u8],
) -> Result<u32, Fault>
    ensures { ((numbered result, out.new) ≡ moved_as (to_plain (lent (length nodes.old) (length entries.old)
        (length slots.old) nesting) fields.now) (length out.old))
        × (nodes.new ≡ zeros (length nodes.old)) × (entries.new ≡ zeros (length entries.old)) × (slots.new ≡ zeros (length slots.old)) }
{
    clearing::clear_bytes(out);
    let parts = goldenparts::new_parts(fields, nodes, entries, slots, nesting)?;
    write_plain(
        Golden {
            file: fields,
            parts,
        },
        out,
    )
}
