// Signed numbers and their bits in two's complement, the one place where the port goes from one to the other; and a byte as a wide number.
// Everything below works on the bits, or on a line with an offset, so that its facts are facts of unsigned numbers.
#![tactic(auto)]

ghost use Rattle.std.specs.Prelude.{◌≡◌, ◌<◌};
ghost use Rattle.std.specs.Int.{w32, w64, cast_signed, cast_unsigned};

// The 32 bits of a signed number.
pub fn bits32(number: i32) -> u32
    ensures { result ≡ cast_unsigned w32 number }
{
    number.cast_unsigned()
}

// The signed number that 32 bits stand for.
// std's casts, as in `bits32` and `signed64`, under the names that the clauses above speak of.
pub fn signed32(bits: u32) -> i32
    ensures { result ≡ cast_signed w32 bits }
{
    u32::cast_signed(bits)
}

// The signed number that 64 bits stand for.
pub fn signed64(bits: u64) -> i64
    ensures { result ≡ cast_signed w64 bits }
{
    u64::cast_signed(bits)
}

// A byte, and that it is small: sums of such take no proof.
pub fn wide(byte: u8) -> u64
    ensures { (result ≡ byte) × (result < 256) }
{
    byte as u64
}
