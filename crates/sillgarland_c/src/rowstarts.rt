// Row starts for C and Rust callers. See include/sillgarland.h for what a caller owes.
ghost use Rattle.std.specs.Prelude.{◌≡◌, length};
ghost use Rattle.startindex.specs.Index.{indexed};
ghost use Rattle.starts.specs.Questions.{starts_before, start_at};
ghost use Rattle.sillgarland.specs.Starts.{indexed_as, start_struct};

use sillgarland::rowstarts::{SillIndexed, SillStart};

// `index_starts`.
#[unsafe(no_mangle)]
pub extern "C" fn sill_index_starts(records: &[u32], count: u32, index: &mut [u64]) -> SillIndexed
    ensures { (result, index.new) ≡ indexed_as (indexed records.now count (length index.old)) }
{
    sillgarland::rowstarts::sill_index_starts(records, count, index)
}

// `starts_before`.
#[unsafe(no_mangle)]
pub extern "C" fn sill_starts_before(index: &[u64], count: u32, n: u32) -> SillStart
    ensures { result ≡ start_struct (starts_before index.now count n) }
{
    sillgarland::rowstarts::sill_starts_before(index, count, n)
}

// `start_at`.
#[unsafe(no_mangle)]
pub extern "C" fn sill_start_at(index: &[u64], count: u32, k: u32) -> SillStart
    ensures { result ≡ start_struct (start_at index.now count k) }
{
    sillgarland::rowstarts::sill_start_at(index, count, k)
}
