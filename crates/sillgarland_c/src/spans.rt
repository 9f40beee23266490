// Where a node's bytes begin and end, for C and Rust callers. See include/sillgarland.h for what a caller owes.
ghost use Rattle.std.specs.Prelude.{◌≡◌};
ghost use Rattle.grammar.specs.Record.{tables_of};
ghost use Rattle.nodespan.specs.Span.{span_of};
ghost use Rattle.nodespan.specs.Walk.{answered_of};
ghost use Rattle.sillgarland.specs.Spans.{span_struct};

use sillgarland::spans::SillSpan;

// The bytes of a node, and whether they stand alone.
#[unsafe(no_mangle)]
pub extern "C" fn sill_span(
    input: &[u8],
    nodes: &[u32],
    entries: &[u32],
    used_nodes: u32,
    used_entries: u32,
    node: u32,
) -> SillSpan
    ensures { result ≡ span_struct (answered_of (span_of (tables_of input.now nodes.now entries.now used_nodes used_entries) node)) }
{
    sillgarland::spans::sill_span(input, nodes, entries, used_nodes, used_entries, node)
}
