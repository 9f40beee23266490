// Row starts for C and Rust callers. See include/sillgarland.h for what a caller owes.
ghost use Rattle.std.specs.Prelude.{◌≡◌, length};
ghost use Rattle.startindex.specs.Index.{indexed};
ghost use Rattle.starts.specs.Questions.{starts_before, start_at};
ghost use Rattle.sillgarland.specs.Starts.{indexed_struct, indexed_as, start_struct};

use refusals::Fault;

// The answer of a building: its refusal and place, or how many starts there are.
#[repr(C)]
#[derive(Clone, Copy)]
pub struct SillIndexed {
    pub refusal: u32,
    pub place: u32,
    pub starts: u32,
}

// The answer of a question: its refusal and place, or the number that was asked for.
#[repr(C)]
#[derive(Clone, Copy)]
pub struct SillStart {
    pub refusal: u32,
    pub place: u32,
    pub value: u64,
}

// `index_starts`.
// This export, `sill_starts_before` and `sill_start_at` are names of C, which lends an index and says how many records it stands for.
pub fn sill_index_starts(records: &[u32], count: u32, index: &mut [u64]) -> SillIndexed
    ensures { (result, index.new) ≡ indexed_as (indexed records.now count (length index.old)) }
{
    SillIndexed::from(startindex::index_starts(records, count, index))
}

// `starts_before`.
pub fn sill_starts_before(index: &[u64], count: u32, n: u32) -> SillStart
    ensures { result ≡ start_struct (starts_before index.now count n) }
{
    SillStart::from(starts::starts_before(index, count, n))
}

// `start_at`.
pub fn sill_start_at(index: &[u64], count: u32, k: u32) -> SillStart
    ensures { result ≡ start_struct (start_at index.now count k) }
{
    SillStart::from(starts::start_at(index, count, k))
}

impl From<Result<u32, Fault>> for SillIndexed {
    ghost from_gives = { λ answer it. it ≡ indexed_struct answer };

    fn from(answer: Result<u32, Fault>) -> SillIndexed {
        match answer {
            Ok(starts) => SillIndexed {
                refusal: refusals::ACCEPTED,
                place: 0,
                starts,
            },
            Err(fault) => SillIndexed {
                refusal: fault.refusal.number(),
                place: fault.place,
                starts: 0,
            },
        }
    }
}

impl From<Result<u64, Fault>> for SillStart {
    ghost from_gives = { λ answer it. it ≡ start_struct answer };

    fn from(answer: Result<u64, Fault>) -> SillStart {
        match answer {
            Ok(value) => SillStart {
                refusal: refusals::ACCEPTED,
                place: 0,
                value,
            },
            Err(fault) => SillStart {
                refusal: fault.refusal.number(),
                place: fault.place,
                value: 0,
            },
        }
    }
}
