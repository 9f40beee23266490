// The split of local names for C and Rust callers. See include/sillgarland.h for what a caller owes.
ghost use Rattle.std.specs.Prelude.{◌≡◌};
ghost use Rattle.localsplus.specs.Answer.{rooms_of, split_of, IsSplit};
ghost use Rattle.sillgarland.specs.Locals.{split_struct, SplitAs};

use localsplus::Split;
use refusals::Fault;

// The split's answer: its refusal and place, or how many names of each kind, and whether the cell-to-argument list is present.
#[repr(C)]
#[derive(Clone, Copy)]
pub struct SillSplit {
    pub refusal: u32,
    pub place: u32,
    pub locals: u32,
    pub cells: u32,
    pub frees: u32,
    pub present: u32,
}

// `split_localplus`.
pub fn sill_split(
    kinds: &[u8],
    names: u32,
    args: u32,
    kwonly: u32,
    flags: u32,
    locals: &mut [u32],
    cells: &mut [u32],
    frees: &mut [u32],
    map: &mut [u32],
    cell_args: &mut [u32],
) -> SillSplit
    ensures { SplitAs kinds.now names args kwonly flags
        locals.old cells.old frees.old map.old cell_args.old
        result
        locals.new cells.new frees.new map.new cell_args.new }
{
    let answer = localsplus::split_localplus(
        kinds, names, args, kwonly, flags, locals, cells, frees, map, cell_args,
    );
    SillSplit::from(answer)
}

impl From<Result<Split, Fault>> for SillSplit {
    ghost from_gives = { λ answer numbers. numbers ≡ split_struct answer };

    fn from(answer: Result<Split, Fault>) -> SillSplit {
        match answer {
            Ok(split) => SillSplit {
                refusal: refusals::ACCEPTED,
                place: 0,
                locals: split.locals,
                cells: split.cells,
                frees: split.frees,
                present: split.present as u32,
            },
            Err(fault) => SillSplit {
                refusal: fault.refusal.number(),
                place: fault.place,
                locals: 0,
                cells: 0,
                frees: 0,
                present: 0,
            },
        }
    }
}
