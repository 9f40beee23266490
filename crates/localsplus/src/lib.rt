// `split_localplus`: the local names of a code object by their kinds, into five lent stores.
// The checks come first and touch no store; then each list is written by one walk over the kind bytes.
#![tactic(auto)]

ghost use Rattle.std.specs.Prelude.{◌≡◌, ◌+◌, ◌≤◌, ◌<◌, length};
ghost use Rattle.refusals.specs.Limits.{most_bytes, nothing};
ghost use Rattle.clearing.specs.Lent.{padded};
ghost use Rattle.localsplus.specs.Sum.{argument_sum};
ghost use Rattle.localsplus.specs.Kind.{has};
ghost use Rattle.localsplus.specs.Lists.{positions, mapped, counted, map_from, argument_of, cell_args_from, present, cell_to_argument};
ghost use Rattle.localsplus.specs.Answer.{in_order, room_for, checks, IsSplit};

use refusals::{Fault, Refusal};

// The bits of a kind byte.
pub const LOCAL: u8 = 0x20;

pub const CELL: u8 = 0x40;

pub const FREE: u8 = 0x80;

// The lengths of the five stores, in the order in which they are tested.
#[derive(Clone, Copy, Debug, PartialEq, Eq)]
pub struct Rooms {
    pub locals: usize,
    pub cells: usize,
    pub frees: usize,
    pub map: usize,
    pub arguments: usize,
}

// What a split tells: how many names of each kind, and whether the cell-to-argument list is present.
#[derive(Clone, Copy, Debug, PartialEq, Eq)]
pub struct Split {
    pub locals: u32,
    pub cells: u32,
    pub frees: u32,
    pub present: bool,
}

// The arguments, the keyword-only ones, and one each for flag 0x04 (`*args`) and flag 0x08 (`**kwargs`).
pub fn argument_sum(args: u32, kwonly: u32, flags: u32) -> u64
    ensures { result ≡ argument_sum args kwonly flags }
{
    args as u64 + kwonly as u64 + (flags / 4 % 2) as u64 + (flags / 8 % 2) as u64
}

// The first output that is shorter than the names.
#[tactic(auto, unfolding(crate::specs::Answer::room_for))]
fn room_for(names: usize, sum: u32, rooms: Rooms) -> Result<u32, Fault>
    requires { names ≤ most_bytes }
    ensures { result ≡ room_for names sum (in_order rooms) }
{
    if rooms.locals < names {
        return Err(Refusal::NoRoom.at(rooms.locals as u32));
    }
    if rooms.cells < names {
        return Err(Refusal::NoRoom.at(rooms.cells as u32));
    }
    if rooms.frees < names {
        return Err(Refusal::NoRoom.at(rooms.frees as u32));
    }
    if rooms.map < names {
        return Err(Refusal::NoRoom.at(rooms.map as u32));
    }
    if rooms.arguments < names {
        return Err(Refusal::NoRoom.at(rooms.arguments as u32));
    }
    Ok(sum)
}

// Every check, in 01's order.
#[tactic(auto, unfolding(crate::specs::Answer::checks))]
fn check(count: usize, names: u32, sum: u64, rooms: Rooms) -> Result<u32, Fault>
    ensures { result ≡ checks count names sum rooms }
{
    if (refusals::MOST_BYTES as usize) < count {
        return Err(Refusal::InputTooLong.at(0));
    }
    if names as usize != count {
        return Err(Refusal::InvalidBytecode.at(0));
    }
    if 0x1_0000_0000 <= sum {
        return Err(Refusal::NumberRange.at(0));
    }
    room_for(names as usize, sum as u32, rooms)
}

// Whether a kind byte has a bit.
#[tactic(auto, unfolding(crate::specs::Kind::has))]
fn has_bit(bit: u8, kind: u8) -> bool
    requires { 0 < bit }
    ensures { result ≡ has bit kind }
{
    kind / bit % 2 == 1
}

// The positions of the names whose kind has the bit; answers how many.
fn write_positions(kinds: &[u8], bit: u8, out: &mut [u32]) -> u32
    requires { (0 < bit) × (length kinds.now ≤ most_bytes) × (length kinds.now ≤ length out.old) }
    ensures { (result ≡ length (positions bit kinds.now)) × (result ≤ most_bytes)
        × (out.new ≡ padded (length out.old) (positions bit kinds.now)) }
{
    clearing::clear_words(out);
    let mut n = 0;
    for (i, &kind) in kinds.iter().enumerate() {
        if has_bit(bit, kind) {
            out[n] = i as u32;
            n += 1;
        }
    }
    n as u32
}

// A name's number in the map: that of the next Free, or of the next Cell, or none.
#[tactic(auto, unfolding(crate::specs::Lists::mapped))]
fn map_number(cell: u32, free: u32, kind: u8) -> u32
    ensures { result ≡ mapped cell free kind }
{
    if has_bit(FREE, kind) {
        return free;
    }
    if has_bit(CELL, kind) {
        return cell;
    }
    refusals::NOTHING
}

// One more if the kind has the bit.
#[tactic(auto, unfolding(crate::specs::Lists::counted))]
fn count_bit(bit: u8, kind: u8, n: u32) -> u32
    requires { (0 < bit) × (n < nothing) }
    ensures { (result ≡ counted bit kind n) × (result ≤ n + 1) }
{
    if has_bit(bit, kind) { n + 1 } else { n }
}

// The map: one number for each name, the cells before the frees.
fn write_map(kinds: &[u8], cells: u32, map: &mut [u32])
    requires { (cells ≤ most_bytes) × (length kinds.now ≤ most_bytes) × (length kinds.now ≤ length map.old) }
    ensures { map.new ≡ padded (length map.old) (map_from 0 cells kinds.now) }
{
    clearing::clear_words(map);
    let mut cell = 0;
    let mut free = cells;
    for (i, &kind) in kinds.iter().enumerate() {
        map[i] = map_number(cell, free, kind);
        cell = count_bit(CELL, kind, cell);
        free = count_bit(FREE, kind, free);
    }
}

// What the cell-to-argument list holds for a Cell: its position if it is an argument cell, else none.
#[tactic(auto, unfolding(crate::specs::Lists::argument_of, crate::specs::Lists::argument_cell))]
fn argument_of(sum: u32, position: u32, kind: u8) -> u32
    ensures { result ≡ argument_of sum position kind }
{
    if has_bit(LOCAL, kind) && has_bit(CELL, kind) && position < sum {
        position
    } else {
        refusals::NOTHING
    }
}

// Whether some cell is an argument cell.
fn any_argument(kinds: &[u8], sum: u32) -> bool
    requires { length kinds.now ≤ most_bytes }
    ensures { result ≡ present sum kinds.now }
{
    for (i, &kind) in kinds.iter().enumerate() {
        if argument_of(sum, i as u32, kind) != refusals::NOTHING {
            return true;
        }
    }
    false
}

// One number for each Cell.
fn write_arguments(kinds: &[u8], sum: u32, out: &mut [u32])
    requires { (length kinds.now ≤ most_bytes) × (length kinds.now ≤ length out.old) }
    ensures { out.new ≡ padded (length out.old) (cell_args_from sum 0 kinds.now) }
{
    clearing::clear_words(out);
    let mut n = 0;
    for (i, &kind) in kinds.iter().enumerate() {
        if has_bit(CELL, kind) {
            out[n] = argument_of(sum, i as u32, kind);
            n += 1;
        }
    }
}

// The cell-to-argument list, and whether it is present; the store is zero where it is absent.
fn cell_to_argument(kinds: &[u8], sum: u32, out: &mut [u32]) -> bool
    requires { (length kinds.now ≤ most_bytes) × (length kinds.now ≤ length out.old) }
    ensures { (result ≡ present sum kinds.now)
        × (out.new ≡ padded (length out.old) (cell_to_argument sum kinds.now)) }
{
    if any_argument(kinds, sum) {
        write_arguments(kinds, sum, out);
        return true;
    }
    clearing::clear_words(out);
    false
}

// The split of a code object's local names: positions of Local, Cell and Free, the map, and the cell-to-argument list.
pub fn split_localplus(
    kinds: &[u8],
    names: u32,
    args: u32,
    kwonly: u32,
    flags: u32,
    locals: &mut [u32],
    cells: &mut [u32],
    frees: &mut [u32],
    map: &mut [u32],
    arguments: &mut [u32],
) -> Result<Split, Fault>
    ensures { IsSplit kinds.now names args kwonly flags
        locals.old cells.old frees.old map.old arguments.old
        result
        locals.new cells.new frees.new map.new arguments.new }
{
    let rooms = Rooms {
        locals: locals.len(),
        cells: cells.len(),
        frees: frees.len(),
        map: map.len(),
        arguments: arguments.len(),
    };
    let sum = argument_sum(args, kwonly, flags);
    match check(kinds.len(), names, sum, rooms) {
        Err(fault) => {
            clearing::clear_words(locals);
            clearing::clear_words(cells);
            clearing::clear_words(frees);
            clearing::clear_words(map);
            clearing::clear_words(arguments);
            Err(fault)
        }
        Ok(sum) => {
            let local_count = write_positions(kinds, LOCAL, locals);
            let cell_count = write_positions(kinds, CELL, cells);
            let free_count = write_positions(kinds, FREE, frees);
            write_map(kinds, cell_count, map);
            let present = cell_to_argument(kinds, sum, arguments);
            Ok(Split {
                locals: local_count,
                cells: cell_count,
                frees: free_count,
                present,
            })
        }
    }
}
