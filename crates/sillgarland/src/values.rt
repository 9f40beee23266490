// Reading and writing a value for C and Rust callers. See include/sillgarland.h for what a caller owes.
ghost use Rattle.std.specs.Prelude.{◌≡◌, length};
ghost use Rattle.grammar.specs.Answer.{read_of};
ghost use Rattle.reader.specs.Delivered.{answer_of};
ghost use Rattle.writing.specs.Answer.{written};
ghost use Rattle.grammar.specs.Record.{tables_of};
ghost use Rattle.sillgarland.specs.Values.{read_struct, ReadAs, WroteAs};

use crate::varints::SillWritten;
use reader::Read;
use refusals::Fault;

// A reading's answer: its refusal and place, or how many bytes and how many of each record were used.
#[repr(C)]
#[derive(Clone, Copy)]
pub struct SillRead {
    pub refusal: u32,
    pub place: u32,
    pub consumed: u32,
    pub nodes: u32,
    pub entries: u32,
    pub slots: u32,
}

impl From<Result<Read, Fault>> for SillRead {
    ghost from_gives = { λ answer numbers. numbers ≡ read_struct (answer_of answer) };

    fn from(answer: Result<Read, Fault>) -> SillRead {
        match answer {
            Ok(read) => SillRead {
                refusal: refusals::ACCEPTED,
                place: 0,
                consumed: read.consumed,
                nodes: read.nodes,
                entries: read.entries,
                slots: read.slots,
            },
            Err(fault) => SillRead {
                refusal: fault.refusal.number(),
                place: fault.place,
                consumed: 0,
                nodes: 0,
                entries: 0,
                slots: 0,
            },
        }
    }
}

// `deserialize_value`.
// C lends the stores of nodes, entries and slots one by one here, and in `sill_write` with the counts of what is used of them.
pub fn sill_read(
    input: &[u8],
    nodes: &mut [u32],
    entries: &mut [u32],
    slots: &mut [u32],
    nesting: u32,
) -> SillRead
    ensures { ReadAs (read_of input.now (length nodes.old) (length entries.old) (length slots.old) nesting)
        result nodes.new entries.new slots.new }
{
    SillRead::from(reader::deserialize_value(input, nodes, entries, slots, nesting))
}

// `serialize_value`.
pub fn sill_write(
    input: &[u8],
    nodes: &[u32],
    entries: &[u32],
    used_nodes: u32,
    used_entries: u32,
    root: u32,
    nesting: u32,
    out: &mut [u8],
) -> SillWritten
    ensures { WroteAs (written (tables_of input.now nodes.now entries.now used_nodes used_entries) root nesting (length out.old))
        (length out.old) result out.new }
{
    SillWritten::from(writer::serialize_value(
        input,
        nodes,
        entries,
        used_nodes,
        used_entries,
        root,
        nesting,
        out,
    ))
}
