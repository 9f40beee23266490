// Reading and writing a value for C and Rust callers. See include/sillgarland.h for what a caller owes.
ghost use Rattle.std.specs.Prelude.{length};
ghost use Rattle.grammar.specs.Answer.{read_of};
ghost use Rattle.writing.specs.Answer.{written};
ghost use Rattle.grammar.specs.Record.{tables_of};
ghost use Rattle.sillgarland.specs.Values.{ReadAs, WroteAs};

use sillgarland::values::SillRead;
use sillgarland::varints::SillWritten;

// `deserialize_value`.
#[unsafe(no_mangle)]
pub extern "C" fn sill_read(
    input: &[u8],
    nodes: &mut [u32],
    entries: &mut [u32],
    slots: &mut [u32],
    nesting: u32,
) -> SillRead
    ensures { ReadAs (read_of input.now (length nodes.old) (length entries.old) (length slots.old) nesting)
        result nodes.new entries.new slots.new }
{
    sillgarland::values::sill_read(input, nodes, entries, slots, nesting)
}

// `serialize_value`.
#[unsafe(no_mangle)]
pub extern "C" fn sill_write(
    input: &[u8],
    nodes: &[u32],
    entries: &[u32],
    used_nodes: u32,
    used_entries: u32,
    root: u32,
    nesting: u32,
    out: &mut [u8],
) -> SillWritten
    ensures { WroteAs (written (tables_of input.now nodes.now entries.now used_nodes used_entries) root nesting (length out.old))
        (length out.old) result out.new }
{
    sillgarland::values::sill_write(
        input,
        nodes,
        entries,
        used_nodes,
        used_entries,
        root,
        nesting,
        out,
    )
}
