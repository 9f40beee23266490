// The repair of line tables for C and Rust callers. See include/sillgarland.h for what a caller owes.
ghost use Rattle.std.specs.Prelude.{◌≡◌, length};
ghost use Rattle.linetable.specs.Answer.{first_line_of};
ghost use Rattle.salvage.specs.Repair.{repair};
ghost use Rattle.sillgarland.specs.Salvage.{salvaged_struct};

use sillgarland::repairs::SillSalvaged;

// Makes a whole line table of what a cut or damaged one still says.
#[unsafe(no_mangle)]
pub extern "C" fn sill_salvage(
    table: &[u8],
    first_line: i32,
    count: u32,
    out: &mut [u8],
) -> SillSalvaged
    ensures { (result ≡ salvaged_struct (repair table.now (first_line_of first_line) count (length out.old)).0)
        × (out.new ≡ (repair table.now (first_line_of first_line) count (length out.old)).1) }
{
    sillgarland::repairs::sill_salvage(table, first_line, count, out)
}
