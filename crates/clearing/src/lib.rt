// Clearing a store that was lent, so that what is not written there is zero, and all of it where a call is refused.
#![tactic(auto)]

ghost use Rattle.std.specs.Prelude.{◌≡◌, length};
ghost use Rattle.clearing.specs.Lent.{zeros};

// Every byte of the store is zero.
pub fn clear_bytes(bytes: &mut [u8])
    ensures { bytes.new ≡ zeros (length bytes.old) }
{
    bytes.fill(0);
}

// Every number of the store is zero.
// `clear_bytes` is the same of bytes: each is one line of std's `fill` that says `zeros`, the documents' word; a trait of zeros for both would be longer.
pub fn clear_words(words: &mut [u32])
    ensures { words.new ≡ zeros (length words.old) }
{
    words.fill(0);
}
