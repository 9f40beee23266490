// Where a node's bytes begin and end, for C and Rust callers. See include/sillgarland.h for what a caller owes.
ghost use Rattle.std.specs.Prelude.{◌≡◌};
ghost use Rattle.grammar.specs.Record.{tables_of};
ghost use Rattle.grammar.specs.Numbered.{numbered};
ghost use Rattle.nodespan.specs.Span.{span_of};
ghost use Rattle.nodespan.specs.Walk.{answered_of};
ghost use Rattle.sillgarland.specs.Spans.{span_struct};

use nodespan::Found;
use refusals::Fault;

// A span's answer: its refusal and place, or where the node's bytes begin and end, whether every reference in them names a slot
// reserved in them, and how many slots are reserved before them.
#[repr(C)]
#[derive(Clone, Copy)]
pub struct SillSpan {
    pub refusal: u32,
    pub place: u32,
    pub start: u32,
    pub end: u32,
    pub closed: u32,
    pub slots_before: u32,
}

// The bytes of a node, and whether they stand alone.
// C lends the stores of nodes and entries, whose records are told by their index, and the counts of what is used of them.
pub fn sill_span(
    input: &[u8],
    nodes: &[u32],
    entries: &[u32],
    used_nodes: u32,
    used_entries: u32,
    node: u32,
) -> SillSpan
    ensures { result ≡ span_struct (answered_of (span_of (tables_of input.now nodes.now entries.now used_nodes used_entries) node)) }
{
    SillSpan::from(nodespan::span_of(input, nodes, entries, used_nodes, used_entries, node))
}

impl From<Result<Found, Fault>> for SillSpan {
    ghost from_gives = { λ answer numbers. numbers ≡ span_struct (numbered answer) };

    fn from(answer: Result<Found, Fault>) -> SillSpan {
        match answer {
            Ok(found) => SillSpan {
                refusal: refusals::ACCEPTED,
                place: 0,
                start: found.start,
                end: found.end,
                closed: found.closed as u32,
                slots_before: found.slots_before,
            },
            Err(fault) => SillSpan {
                refusal: fault.refusal.number(),
                place: fault.place,
                start: 0,
                end: 0,
                closed: 0,
                slots_before: 0,
            },
        }
    }
}
