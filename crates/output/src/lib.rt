// Bytes put into the output behind those that are written: every test of its room stands here.
// What a value's own bytes are is `writing`'s Canonical; where they come from is the caller's.
#![tactic(auto)]

ghost use Rattle.std.specs.Prelude.{◌≡◌, [], ◌∷◌, ◌+◌, ◌*◌, ◌≤◌, length};
ghost use Rattle.std.proofs.lemmas.List.Edits.{sets};
ghost use Rattle.grammar.specs.Fields.{contents};
ghost use Rattle.writing.specs.Writing.{emit, ended};
ghost use Rattle.writing.specs.Canonical.{bytes32, sized};
ghost use Rattle.output.specs.Puts.{Open, Puts};

use refusals::{Fault, Refusal};

// Bytes of the input, from a place on.
pub fn contents(s: &[u8], from: u32, size: u32) -> &[u8]
    requires { from + size ≤ length s.now }
    ensures { result.now ≡ contents s.now from size }
{
    let start = from as usize;
    &s[start..start + size as usize]
}

// Bytes over others for which there is room.
pub fn store_bytes(out: &mut [u8], at: usize, bytes: &[u8])
    requires { at + length bytes.now ≤ length out.old }
    ensures { out.new ≡ sets out.old at bytes.now }
{
    copying::copy_bytes(&mut out[at..at + bytes.len()], bytes);
}

pub fn store_u32(out: &mut [u8], at: usize, x: u32)
    requires { at + 4 ≤ length out.old }
    ensures { out.new ≡ sets out.old at (bytes32 x) }
{
    store_bytes(out, at, &x.to_le_bytes());
}

// N bytes, by way of a block of their own: the compiler does not know that the two slices lie apart, and would else ask at each call, and
// copy them one by one.
fn store_block<const N: usize>(out: &mut [u8], at: usize, bytes: &[u8])
    requires { (at + N ≤ length out.old) × (length bytes.now ≡ N) }
    ensures { out.new ≡ sets out.old at bytes.now }
{
    let mut block = [0u8; N];
    block.copy_from_slice(bytes);
    store_bytes(out, at, &block);
}

// From N to twice as many bytes: a block at each end, the last one first; the two may overlap.
fn store_ends<const N: usize>(out: &mut [u8], at: usize, bytes: &[u8])
    requires { (at + length bytes.now ≤ length out.old) × (N ≤ length bytes.now) × (length bytes.now ≤ 2 * N) }
    ensures { out.new ≡ sets out.old at bytes.now }
{
    let rest = bytes.len() - N;
    store_block::<N>(out, at + rest, &bytes[rest..rest + N]);
    store_block::<N>(out, at, &bytes[..N]);
}

// Any number of bytes, the common ones without a loop.
pub fn store_slice(out: &mut [u8], at: usize, bytes: &[u8])
    requires { at + length bytes.now ≤ length out.old }
    ensures { out.new ≡ sets out.old at bytes.now }
{
    let size = bytes.len();
    if size < 4 || 32 < size {
        return store_bytes(out, at, bytes);
    }
    if 16 <= size {
        return store_ends::<16>(out, at, bytes);
    }
    if 8 <= size {
        return store_ends::<8>(out, at, bytes);
    }
    store_ends::<4>(out, at, bytes)
}

// A letter alone, a number of 32 bits alone, or one behind a letter.
// `(out, at)` stay two parameters, here, in outputtext, in outputlongs and in the crates above: as a struct that holds both (tried on
// `write_u8`, where it proves), `Open at out.old` goes into the type, but each contract then says that `w.new.out` is the same reference
// as `w.old.out`, and `w.old.at w.old.out.now (reached w.new.at result) w.new.out.now` for `at out.old result out.new`.
pub fn write_u8(out: &mut [u8], at: u32, letter: u8) -> Result<u32, Fault>
    requires { Open at out.old }
    ensures { Puts (emit (letter ∷ []) ended) at out.old result out.new }
{
    let room = out.len();
    let place = at as usize;
    if room - place < 1 {
        return Err(Refusal::NoRoom.at(room as u32));
    }
    out[place] = letter;
    Ok(at + 1)
}

pub fn write_u32(out: &mut [u8], at: u32, x: u32) -> Result<u32, Fault>
    requires { Open at out.old }
    ensures { Puts (emit (bytes32 x) ended) at out.old result out.new }
{
    let room = out.len();
    let place = at as usize;
    if room - place < 4 {
        return Err(Refusal::NoRoom.at(room as u32));
    }
    store_u32(out, place, x);
    Ok(at + 4)
}

pub fn write_len(out: &mut [u8], at: u32, letter: u8, len: u32) -> Result<u32, Fault>
    requires { Open at out.old }
    ensures { Puts (emit (letter ∷ bytes32 len) ended) at out.old result out.new }
{
    let room = out.len();
    let place = at as usize;
    if room - place < 5 {
        return Err(Refusal::NoRoom.at(room as u32));
    }
    out[place] = letter;
    store_u32(out, place + 1, len);
    Ok(at + 5)
}

// A letter, and bytes behind it.
pub fn write_slice(out: &mut [u8], at: u32, letter: u8, bytes: &[u8]) -> Result<u32, Fault>
    requires { Open at out.old }
    ensures { Puts (emit (letter ∷ bytes.now) ended) at out.old result out.new }
{
    let room = out.len();
    let place = at as usize;
    if room - place < 1 + bytes.len() {
        return Err(Refusal::NoRoom.at(room as u32));
    }
    out[place] = letter;
    store_slice(out, place + 1, bytes);
    Ok(at + 1 + bytes.len() as u32)
}

// A letter, a length, and so many bytes.
pub fn write_vec(out: &mut [u8], at: u32, letter: u8, bytes: &[u8]) -> Result<u32, Fault>
    requires { Open at out.old }
    ensures { Puts (emit (sized letter bytes.now) ended) at out.old result out.new }
{
    let room = out.len();
    let place = at as usize;
    if room - place < 5 + bytes.len() {
        return Err(Refusal::NoRoom.at(room as u32));
    }
    let size = bytes.len() as u32;
    out[place] = letter;
    store_u32(out, place + 1, size);
    store_slice(out, place + 5, bytes);
    Ok(at + 5 + size)
}
