// Bytes of one slice, one after another, into another: for what is put together of parts of others.
// A loop, and not std's `copy_from_slice`, which between two lent slices becomes a call of memmove: the archive for C needs no more from elsewhere than
// memset and memcpy.
#![tactic(auto)]

ghost use Rattle.std.specs.Prelude.{◌≡◌, length};

// As many bytes as the output has.
pub fn copy_bytes(out: &mut [u8], bytes: &[u8])
    requires { length out.old ≡ length bytes.now }
    ensures { out.new ≡ bytes.now }
{
    for i in 0..bytes.len() {
        out[i] = bytes[i];
    }
}
