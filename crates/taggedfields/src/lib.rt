// Files of tagged fields: the first fault, the place of each tag, and where one tag's contents stand. `settings`, `editions` and golden files
// in fields are read by these. One walk over the fields, with a place for each of the 256 tags, so that the cost is linear.
#![tactic(auto)]

ghost use Rattle.std.specs.Prelude.{◌≡◌, ℕ, ◌+◌, ◌*◌, ◌≤◌, ◌<◌, length, get_or};
ghost use Rattle.clearing.specs.Lent.{zeros};
ghost use Rattle.taggedfields.specs.Fields.{field_in};
ghost use Rattle.taggedfields.specs.Looking.{fault_of, placed, size_in, looked, part_of};
ghost use Rattle.taggedfields.specs.Fitting.{fitting};

use refusals::{Fault, Refusal};

// Where a part of a file stands.
#[derive(Clone, Copy, Debug, PartialEq, Eq)]
pub struct Span {
    pub start: u32,
    pub size: u32,
}

impl Span {
    // The part itself.
    pub fn of<'a>(self, file: &'a [u8]) -> &'a [u8]
        requires { self.start + self.size ≤ length file.now }
        ensures { result.now ≡ part_of file.now self }
    {
        let start = self.start as usize;
        &file[start..start + self.size as usize]
    }
}

// The length of the contents of the field at a place, whose header is whole.
pub fn size_at(file: &[u8], at: usize) -> usize
    requires { at + 3 ≤ length file.now }
    ensures { (result ≡ size_in file.now at) × (result < 65536) }
{
    usize::from(u16::from_le_bytes([file[at + 1], file[at + 2]]))
}

// Reads the fields up to the first fault. For each tag there is then the place of its field and one more, or 0. No place is above 16,777,728,
// since no two fields have one tag.
// The table holds numbers, not Options: the contract lends it as zeros and speaks of each place as a number.
pub fn index_fields(file: &[u8], places: &mut [u32; 256]) -> Result<(), Fault>
    requires { places.old ≡ zeros 256 }
    ensures { (result ≡ fault_of file.now)
        × ((t : ℕ) → t < 256 → get_or places.new t 0 ≡ placed (field_in file.now t))
        × ((t : ℕ) → t < 256 → get_or places.new t 0 ≤ 16777729)
        × (length places.new ≡ 256) }
{
    let mut at = 0;
    while at < file.len() {
        let tag = usize::from(file[at]);
        if places[tag] != 0 {
            return Err(Refusal::RepeatedTag.at(at as u32));
        }
        if file.len() - at < 3 {
            return Err(Refusal::DataTooShort.at(at as u32));
        }
        let size = size_at(file, at);
        if file.len() - at - 3 < size {
            return Err(Refusal::DataTooShort.at(at as u32));
        }
        places[tag] = at as u32 + 1;
        at = at + 3 + size;
    }
    Ok(())
}

// Where the contents of a tag stand in a file, if the tag is in it, or the file's first fault. A tag above 255 is in none.
pub fn look(file: &[u8], tag: u32) -> Result<Option<Span>, Fault>
    ensures { result ≡ looked file.now tag }
{
    let mut places = [0u32; 256];
    index_fields(file, &mut places)?;
    if 255 < tag {
        return Ok(None);
    }
    let place = places[tag as usize];
    if place == 0 {
        return Ok(None);
    }
    let size = size_at(file, (place - 1) as usize) as u32;
    Ok(Some(Span {
        start: place + 2,
        size,
    }))
}

// How many bytes are to be written, if an output with room for so many holds them. The room counts as at most 4,294,967,295.
pub fn fitting(room: usize, size: usize) -> Result<u32, Fault>
    ensures { result ≡ fitting room size }
{
    let room = room.min(refusals::NOTHING as usize);
    if room < size {
        return Err(Refusal::NoRoom.at(room as u32));
    }
    Ok(size as u32)
}
