// A code's strings put into the output: short ASCII ones with a length of one byte, all others with four.
// What is written is `writing`'s Canonical `code_string`; room is tested by `output`'s rules.
#![tactic(auto)]

ghost use Rattle.std.specs.Prelude.{◌≡◌, ◌∷◌, ◌<◌, length};
ghost use Rattle.grammar.specs.LetterNames.{short_letter};
ghost use Rattle.writing.specs.Writing.{emit, ended};
ghost use Rattle.writing.specs.Canonical.{ascii, code_string};
ghost use Rattle.output.specs.Puts.{Open, Puts};
ghost use Rattle.outputtext.specs.Short.{Short};

use grammar::{WRITTEN_SHORT, WRITTEN_UNICODE};
use refusals::{Fault, Refusal};

// Whether bytes are all below 128.
fn is_ascii(bytes: &[u8]) -> bool
    ensures { result ≡ ascii bytes.now }
{
    bytes.iter().all(|byte| *byte < 128)
}

// Whether bytes are few and ASCII.
fn is_short(bytes: &[u8]) -> bool
    ensures { Short bytes.now result }
{
    bytes.len() < 256 && is_ascii(bytes)
}

// A one-byte length, and so many bytes.
fn write_short(out: &mut [u8], at: u32, bytes: &[u8]) -> Result<u32, Fault>
    requires { Open at out.old × (length bytes.now < 256) }
    ensures { Puts (emit (short_letter ∷ length bytes.now ∷ bytes.now) ended) at out.old result out.new }
{
    let room = out.len();
    let place = at as usize;
    if room - place < 2 + bytes.len() {
        return Err(Refusal::NoRoom.at(room as u32));
    }
    let size = bytes.len() as u8;
    out[place] = WRITTEN_SHORT;
    out[place + 1] = size;
    output::store_slice(out, place + 2, bytes);
    Ok(at + 2 + u32::from(size))
}

// A code string.
pub fn write_marshal_str(out: &mut [u8], at: u32, bytes: &[u8]) -> Result<u32, Fault>
    requires { Open at out.old }
    ensures { Puts (emit (code_string bytes.now) ended) at out.old result out.new }
{
    if is_short(bytes) {
        return write_short(out, at, bytes);
    }
    output::write_vec(out, at, WRITTEN_UNICODE, bytes)
}
