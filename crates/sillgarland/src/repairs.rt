// The repair of line tables for C and Rust callers. See include/sillgarland.h for what a caller owes.
ghost use Rattle.std.specs.Prelude.{◌≡◌, length};
ghost use Rattle.linetable.specs.Answer.{first_line_of};
ghost use Rattle.salvage.specs.Repair.{repair};
ghost use Rattle.sillgarland.specs.Salvage.{salvaged_struct};

use refusals::Fault;
use salvage::Salvaged;

// A repair's answer: its refusal and place, or how many bytes were written, and the list: entries kept, bytes dropped, whether one was
// shortened, instructions covered.
#[repr(C)]
#[derive(Clone, Copy)]
pub struct SillSalvaged {
    pub refusal: u32,
    pub place: u32,
    pub written: u32,
    pub kept: u32,
    pub dropped: u32,
    pub shortened: u32,
    pub covered: u32,
}

// Makes a whole line table of what a cut or damaged one still says.
pub fn sill_salvage(table: &[u8], first_line: i32, count: u32, out: &mut [u8]) -> SillSalvaged
    ensures { (result ≡ salvaged_struct (repair table.now (first_line_of first_line) count (length out.old)).0)
        × (out.new ≡ (repair table.now (first_line_of first_line) count (length out.old)).1) }
{
    SillSalvaged::from(salvage::salvage_table(table, first_line, count, out))
}

impl From<Result<Salvaged, Fault>> for SillSalvaged {
    ghost from_gives = { λ answer it. it ≡ salvaged_struct answer };

    fn from(answer: Result<Salvaged, Fault>) -> SillSalvaged {
        match answer {
            Ok(told) => SillSalvaged {
                refusal: refusals::ACCEPTED,
                place: 0,
                written: told.written,
                kept: told.kept,
                dropped: told.dropped,
                shortened: told.shortened,
                covered: told.covered,
            },
            Err(why) => SillSalvaged {
                refusal: why.refusal.number(),
                place: why.place,
                written: 0,
                kept: 0,
                dropped: 0,
                shortened: 0,
                covered: 0,
            },
        }
    }
}
