// The readers of `varint.rs`: big-endian numbers of 32 bits, as exception tables have them.
// A number that is cut, or too large, is refused at its start.
#![tactic(auto)]

ghost use Rattle.std.specs.Prelude.{◌≡◌, ◌+◌, ◌*◌, ◌%◌, ◌≤◌, cond, ltb};
ghost use Rattle.varintread.specs.Reading.{whole_at, read_varint, read_varint_with_start};

use refusals::Refusal;

// A number that was read, and the position after it.
#[derive(Clone, Copy, Debug, PartialEq, Eq)]
pub struct Found {
    pub value: u32,
    pub next: usize,
}

// A refusal and the place that it names, which is any position here: the input may be longer than a `Fault` counts.
#[derive(Clone, Copy, Debug, PartialEq, Eq)]
pub struct Unread {
    pub refusal: Refusal,
    pub place: usize,
}

// A group below those read; of a number that no longer fits in 32 bits, only that is kept.
fn with_group(val: u64, byte: u8) -> u64
    requires { val ≤ 0x1_0000_0000 }
    ensures { result ≡ cond (ltb (val * 64 + byte % 64) 0x1_0000_0000) (val * 64 + byte % 64) 0x1_0000_0000 }
{
    (val * 64 + (byte % 64) as u64).min(0x1_0000_0000)
}

// The answer of a number that was not cut.
fn whole(at: usize, val: u64, next: usize) -> Result<Option<Found>, Unread>
    ensures { result ≡ whole_at at val next }
{
    if val < 0x1_0000_0000 {
        return Ok(Some(Found {
            value: val as u32,
            next,
        }));
    }
    Err(Unread {
        refusal: Refusal::NumberRange,
        place: at,
    })
}

// Reads a big-endian varint, at any position.
pub fn read_varint(data: &[u8], at: usize) -> Result<Option<Found>, Unread>
    ensures { result ≡ read_varint «data».now at }
{
    if data.len() <= at {
        return Ok(None);
    }
    let mut val = 0u64;
    for i in at..data.len() {
        let byte = data[i];
        val = with_group(val, byte);
        if byte / 0x40 % 2 == 0 {
            return whole(at, val, i + 1);
        }
    }
    Err(Unread {
        refusal: Refusal::DataTooShort,
        place: at,
    })
}

// Reads a big-endian varint with the start marker (0x80), at any position.
pub fn read_varint_with_start(data: &[u8], at: usize) -> Result<Option<Found>, Unread>
    ensures { result ≡ read_varint_with_start «data».now at }
{
    if data.len() <= at {
        return Ok(None);
    }
    if data[at] < 0x80 {
        return Ok(None);
    }
    read_varint(data, at)
}
