// The split of local names for C and Rust callers. See include/sillgarland.h for what a caller owes.
ghost use Rattle.sillgarland.specs.Locals.{SplitAs};

use sillgarland::locals::SillSplit;

// `split_localplus`.
#[unsafe(no_mangle)]
pub extern "C" fn sill_split(
    kinds: &[u8],
    names: u32,
    args: u32,
    kwonly: u32,
    flags: u32,
    locals: &mut [u32],
    cells: &mut [u32],
    frees: &mut [u32],
    map: &mut [u32],
    cell_args: &mut [u32],
) -> SillSplit
    ensures { SplitAs kinds.now names args kwonly flags
        locals.old cells.old frees.old map.old cell_args.old
        result
        locals.new cells.new frees.new map.new cell_args.new }
{
    sillgarland::locals::sill_split(
        kinds, names, args, kwonly, flags, locals, cells, frees, map, cell_args,
    )
}
