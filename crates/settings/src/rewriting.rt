// Rewriting a file of fields with changes, over a cleared output. Writing ends at the first bytes that do not fit.
ghost use Rattle.std.specs.Prelude.{◌≡◌, cond, [], ℕ, ◌+◌, ◌-◌, ◌≤◌, ◌<◌, eqb, length, get_or};
ghost use Rattle.taggedfields.specs.Fields.{reading, field_in, spelt};
ghost use Rattle.taggedfields.specs.Promised.{Sound};
ghost use Rattle.taggedfields.specs.Looking.{placed, size_in, bytes_at};
ghost use Rattle.settings.specs.Rewriting.{changed, added, rewritten, in_room, rewrite_of};
ghost use Rattle.clearing.specs.Lent.{zeros};
ghost use Rattle.settings.specs.Putting.{Puts};

use refusals::{Fault, Refusal};

// A file without a fault, and for each tag the place of its field and one more, or 0.
#[derive(Clone, Copy)]
struct Indexed<'a> {
    file: &'a [u8],
    places: &'a [u32; 256],
    ghost sound: { Sound file.now },
    ghost noted: { (t : ℕ) → t < 256 → get_or places.now t 0 ≡ placed (field_in file.now t) },
}

// Bytes behind those that are written, if they fit.
// Here the room is tested at each put, and not once as `taggedfields::fitting` does: how many bytes come is known only behind both files.
fn put(bytes: &[u8], room: usize, used: usize, out: &mut [u8]) -> Option<usize>
    requires { (room ≤ length out.old) × (room ≤ 4294967295) }
    ensures { Puts room used out.old bytes.now result out.new }
{
    if room < used || room - used < bytes.len() {
        return None;
    }
    let end = used + bytes.len();
    copying::copy_bytes(&mut out[used..end], bytes);
    Some(end)
}

// The whole field at a place.
fn put_field(s: &[u8], at: usize, room: usize, used: usize, out: &mut [u8]) -> Option<usize>
    requires { (at + 3 + size_in s.now at ≤ length s.now) × (room ≤ length out.old) × (room ≤ 4294967295) }
    ensures { Puts room used out.old (bytes_at s.now at) result out.new }
{
    let end = at + 3 + taggedfields::size_at(s, at);
    put(&s[at..end], room, used, out)
}

// The field at a place of the file, or where the changes have its tag (their place and one more) the field there.
fn put_changed(
    file: &[u8],
    at: usize,
    changes: &[u8],
    place: usize,
    room: usize,
    used: usize,
    out: &mut [u8],
) -> Option<usize>
    requires { (at + 3 + size_in file.now at ≤ length file.now) × (0 < place → place - 1 + 3 + size_in changes.now (place - 1) ≤ length changes.now)
        × (room ≤ length out.old) × (room ≤ 4294967295) }
    ensures { Puts room used out.old (cond (eqb place 0) (bytes_at file.now at) (bytes_at changes.now (place - 1))) result out.new }
{
    if place == 0 {
        return put_field(file, at, room, used, out);
    }
    put_field(changes, place - 1, room, used, out)
}

// A field of the changes, where the file has no place for its tag.
fn put_added(
    changes: &[u8],
    at: usize,
    place: u32,
    room: usize,
    used: usize,
    out: &mut [u8],
) -> Option<usize>
    requires { (at + 3 + size_in changes.now at ≤ length changes.now) × (used ≤ room) × (room ≤ length out.old) × (room ≤ 4294967295) }
    ensures { Puts room used out.old (cond (eqb place 0) (bytes_at changes.now at) []) result out.new }
{
    if place == 0 {
        return put_field(changes, at, room, used, out);
    }
    Some(used)
}

// What is noted for the tag of the field at a place of another file.
fn noted(own: Indexed, other: &[u8], at: usize) -> u32
    requires { at < length other.now }
    ensures { result ≡ placed (field_in own.entry.file.now (get_or other.now at 0)) }
{
    own.places[usize::from(other[at])]
}

// The fields of a file without a fault, changed where the changes have their tags.
fn put_file(own: Indexed, changes: Indexed, room: usize, out: &mut [u8]) -> Option<usize>
    requires { (room ≤ length out.old) × (room ≤ 4294967295) }
    ensures { Puts room 0 out.old (spelt (changed (reading changes.entry.file.now).fields (reading own.entry.file.now).fields)) result out.new }
{
    let file = own.file;
    let mut at = 0;
    let mut used = 0;
    while at < file.len() {
        let place = noted(changes, file, at) as usize;
        used = put_changed(file, at, changes.file, place, room, used, out)?;
        at = at + 3 + taggedfields::size_at(file, at);
    }
    Some(used)
}

// The fields of changes without a fault whose tags the file does not have.
fn put_new(
    own: Indexed,
    changes: Indexed,
    room: usize,
    start: usize,
    out: &mut [u8],
) -> Option<usize>
    requires { (start ≤ room) × (room ≤ length out.old) × (room ≤ 4294967295) }
    ensures { Puts room start out.old (spelt (added (reading own.entry.file.now).fields (reading changes.entry.file.now).fields)) result out.new }
{
    let file = changes.file;
    let mut at = 0;
    let mut used = start;
    while at < file.len() {
        let place = noted(own, file, at);
        used = put_added(file, at, place, room, used, out)?;
        at = at + 3 + taggedfields::size_at(file, at);
    }
    Some(used)
}

// All fields of two files without a fault, if they fit.
fn put_both(own: Indexed, changes: Indexed, room: usize, out: &mut [u8]) -> Option<usize>
    requires { (room ≤ length out.old) × (room ≤ 4294967295) }
    ensures { Puts room 0 out.old (rewritten own.entry.file.now changes.entry.file.now) result out.new }
{
    let kept = put_file(own, changes, room, out)?;
    put_new(own, changes, room, kept, out)
}

// The same, and the output is cleared again if they do not fit. Its length counts as at most 4,294,967,295.
fn put_all(own: Indexed, changes: Indexed, out: &mut [u8]) -> Result<u32, Fault>
    requires { out.old ≡ zeros (length out.old) }
    ensures { (result, out.new) ≡ in_room (rewritten own.entry.file.now changes.entry.file.now) (length out.old) }
{
    let room = out.len().min(refusals::NOTHING as usize);
    match put_both(own, changes, room, out) {
        Some(used) => Ok(used as u32),
        None => {
            clearing::clear_bytes(out);
            Err(Refusal::NoRoom.at(room as u32))
        }
    }
}

// Writes a file again with the contents that the changes have, and answers how many bytes were written.
pub fn rewrite(file: &[u8], changes: &[u8], out: &mut [u8]) -> Result<u32, Fault>
    ensures { (result, out.new) ≡ rewrite_of file.now changes.now (length out.old) }
{
    clearing::clear_bytes(out);
    let mut places = [0u32; 256];
    taggedfields::index_fields(file, &mut places)?;
    let mut new = [0u32; 256];
    taggedfields::index_fields(changes, &mut new)?;
    let own = Indexed {
        file,
        places: &places,
    };
    let changes = Indexed {
        file: changes,
        places: &new,
    };
    put_all(own, changes, out)
}
