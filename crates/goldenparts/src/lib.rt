// Golden files taken apart: the old form, which is two values back to back, and the new one, which has them in fields. Both values are
// read before either is judged. The stores are working room and zero afterwards.
#![tactic(auto)]

ghost use Rattle.std.specs.Prelude.{◌≡◌, ℕ, ◌+◌, ◌≤◌, ◌<◌, eqb, length, get_or};
ghost use Rattle.std.proofs.Math.Option.{none};
ghost use Rattle.clearing.specs.Lent.{zeros};
ghost use Rattle.taggedfields.specs.Fields.{reading};
ghost use Rattle.taggedfields.specs.Looking.{size_in};
ghost use Rattle.grammar.specs.LetterNames.{code_letter};
ghost use Rattle.grammar.specs.Letters.{letter_of};
ghost use Rattle.grammar.specs.Numbered.{numbered};
ghost use Rattle.readalone.specs.Alone.{lent};
ghost use Rattle.goldenparts.specs.Forms.{judged, result_read, old_parts, golden_fields, in_fields, both_read, new_parts};
ghost use Rattle.goldenparts.specs.Spans.{spanned, spans_if, golden_in, Standing, StandingIn, StandingIf, behind_field};

use refusals::{Fault, Refusal};
use taggedfields::Span;

// The parts of a golden: its code, and the expected result.
#[derive(Clone, Copy, Debug, PartialEq, Eq)]
pub struct Spans {
    pub code: Span,
    pub result: Span,
}

// A file, and where its parts stand in it.
#[derive(Clone, Copy, Drop)]
pub struct Golden<'a> {
    pub file: &'a [u8],
    pub parts: Spans,
    pub ghost standing: { Standing (length file.now) parts },
}

// Whether a value is a code, by its header.
fn is_code(header: u8) -> bool
    ensures { result ≡ eqb (letter_of header) code_letter }
{
    header % 128 == grammar::WRITTEN_CODE
}

// Both values are read and take `code` and `result` bytes: the first must be a code, and nothing may stand behind either.
fn judge(golden: Golden, code: u32, res: u32) -> Result<Spans, Fault>
    requires { 0 < golden.parts.code.size }
    ensures { numbered result ≡ spanned (judged (golden_in golden.entry.file.now golden.entry.parts) code res) }
{
    let first = golden.parts.code;
    let second = golden.parts.result;
    if !is_code(golden.file[first.start as usize]) {
        return Err(Refusal::BadType.at(first.start));
    }
    if code < first.size {
        return Err(Refusal::TrailingBytes.at(first.start + code));
    }
    if res < second.size {
        return Err(Refusal::TrailingBytes.at(second.start + res));
    }
    Ok(golden.parts)
}

// The code is read and takes `code` bytes: the result is read, and both are judged.
// The three stores stand one by one, here and in what follows, for the reason beside readalone's `read_alone`.
fn read_result(
    golden: Golden,
    code: u32,
    nodes: &mut [u32],
    entries: &mut [u32],
    slots: &mut [u32],
    nesting: u32,
) -> Result<Spans, Fault>
    requires { 0 < golden.parts.code.size }
    ensures { (numbered result ≡ spanned (result_read (lent (length nodes.old) (length entries.old) (length slots.old) nesting)
        (golden_in golden.entry.file.now golden.entry.parts) code))
        × (nodes.new ≡ zeros (length nodes.old)) × (entries.new ≡ zeros (length entries.old)) × (slots.new ≡ zeros (length slots.old)) }
{
    let part = golden.parts.result;
    let result = readalone::read_alone(
        part.of(golden.file),
        part.start,
        nodes,
        entries,
        slots,
        nesting,
    )?;
    judge(golden, code, result)
}

// An old golden: the result stands where the code ends.
pub fn old_parts(
    file: &[u8],
    nodes: &mut [u32],
    entries: &mut [u32],
    slots: &mut [u32],
    nesting: u32,
) -> Result<Spans, Fault>
    ensures { (numbered result ≡ spanned (old_parts (lent (length nodes.old) (length entries.old) (length slots.old) nesting) file.now))
        × StandingIn (length file.now) (numbered result)
        × (nodes.new ≡ zeros (length nodes.old)) × (entries.new ≡ zeros (length entries.old)) × (slots.new ≡ zeros (length slots.old)) }
{
    let code = readalone::read_alone(file, 0, nodes, entries, slots, nesting)?;
    let parts = Spans {
        code: Span {
            start: 0,
            size: code,
        },
        result: Span {
            start: code,
            size: file.len() as u32 - code,
        },
    };
    read_result(Golden { file, parts }, code, nodes, entries, slots, nesting)
}

// The place behind the field at a place, where one of this tag stands there.
fn behind(file: &[u8], at: usize, tag: u8) -> Option<usize>
    requires { at < length file.now → at + 3 + size_in file.now at ≤ length file.now }
    ensures { (result ≡ behind_field file.now at tag) × ((end : ℕ) → result ≡ Some end → (end < at + 65539) × (end ≤ length file.now)) }
{
    if file.len() <= at {
        return None;
    }
    if file[at] != tag {
        return None;
    }
    Some(at + 3 + taggedfields::size_at(file, at))
}

// The parts of a file without a fault, where it has exactly the three fields of a golden: the edition's is four bytes.
fn exact_fields(file: &[u8]) -> Option<Spans>
    requires { (reading file.now).fault ≡ none }
    ensures { (result ≡ spans_if (golden_fields (reading file.now).fields)) × StandingIf (length file.now) result }
{
    let code = behind(file, 0, 1)?;
    if code != 4 {
        return None;
    }
    if file[3] != 1 {
        return None;
    }
    let result = behind(file, 4, 2)?;
    let end = behind(file, result, 3)?;
    if end != file.len() {
        return None;
    }
    Some(Spans {
        code: Span {
            start: 7,
            size: result as u32 - 7,
        },
        result: Span {
            start: result as u32 + 3,
            size: (end - result) as u32 - 3,
        },
    })
}

// The parts of a new golden, by its fields alone.
fn golden_fields(file: &[u8]) -> Result<Spans, Fault>
    ensures { (numbered result ≡ spanned (in_fields file.now)) × StandingIn (length file.now) (numbered result) }
{
    let mut places = [0u32; 256];
    taggedfields::index_fields(file, &mut places)?;
    exact_fields(file).ok_or(Refusal::NoSuchField.at(0))
}

// Both values of a golden in fields are read, each from its own field, and judged.
fn read_both(
    golden: Golden,
    nodes: &mut [u32],
    entries: &mut [u32],
    slots: &mut [u32],
    nesting: u32,
) -> Result<Spans, Fault>
    ensures { (numbered result ≡ spanned (both_read (lent (length nodes.old) (length entries.old) (length slots.old) nesting)
        (golden_in golden.entry.file.now golden.entry.parts)))
        × (nodes.new ≡ zeros (length nodes.old)) × (entries.new ≡ zeros (length entries.old)) × (slots.new ≡ zeros (length slots.old)) }
{
    let part = golden.parts.code;
    let code = readalone::read_alone(
        part.of(golden.file),
        part.start,
        nodes,
        entries,
        slots,
        nesting,
    )?;
    read_result(golden, code, nodes, entries, slots, nesting)
}

// A new golden: its fields, then both values.
pub fn new_parts(
    file: &[u8],
    nodes: &mut [u32],
    entries: &mut [u32],
    slots: &mut [u32],
    nesting: u32,
) -> Result<Spans, Fault>
    ensures { (numbered result ≡ spanned (new_parts (lent (length nodes.old) (length entries.old) (length slots.old) nesting) file.now))
        × StandingIn (length file.now) (numbered result)
        × (nodes.new ≡ zeros (length nodes.old)) × (entries.new ≡ zeros (length entries.old)) × (slots.new ≡ zeros (length slots.old)) }
{
    clearing::clear_words(nodes);
    clearing::clear_words(entries);
    clearing::clear_words(slots);
    let parts = golden_fields(file)?;
    read_both(Golden { file, parts }, nodes, entries, slots, nesting)
}
