// Prints for some byte strings whether they are UTF-8 with surrogate code points allowed, a line each: yes or no, the bytes, what they are.
// The bounds of the Unicode Standard's Table 3-7 are shown from both sides.
#![tactic(auto)]

ghost use Rattle.std.specs.Prelude.{◌≤◌, ◌<◌, length};

use printing::{say, say_bytes};
use std::io::{self, BufWriter, Write};

fn show(out: &mut impl Write, bytes: &[u8], what: &[u8]) -> io::Result<()> {
    if wtf8::is_wtf8(bytes) {
        say(out, b"yes:")?;
    } else {
        say(out, b"no: ")?;
    }
    say_bytes(out, bytes)?;
    say(out, b" (")?;
    say(out, what)?;
    say(out, b")\n")
}

fn plain_text(out: &mut impl Write) -> io::Result<()> {
    show(out, b"", b"nothing")?;
    show(out, b"abc", b"ASCII")?;
    show(out, b"\x00\x7F", b"the first and the last of ASCII")?;
    show(out, b"na\xC3\xAFve", b"two bytes within ASCII")?;
    show(
        out,
        b"eight by\xC3\xB6tes and twenty-three more",
        b"blocks of ASCII around two bytes",
    )?;
    show(out, b"\xE2\x82\xAC 5", b"three bytes")?;
    show(out, b"\xF0\x9F\x90\x8D", b"four bytes")
}

fn bounds(out: &mut impl Write) -> io::Result<()> {
    show(out, b"\xC2\x80", b"0080, the first of two bytes")?;
    show(out, b"\xDF\xBF", b"07FF, the last of two bytes")?;
    show(out, b"\xE0\xA0\x80", b"0800, the first of three bytes")?;
    show(out, b"\xEF\xBF\xBF", b"FFFF, the last of three bytes")?;
    show(out, b"\xF0\x90\x80\x80", b"10000, the first of four bytes")?;
    show(out, b"\xF4\x8F\xBF\xBF", b"10FFFF, the last of all")?;
    show(out, b"\xF4\x90\x80\x80", b"110000")?;
    show(out, b"\xF5\x80\x80\x80", b"F5 leads nothing")?;
    show(out, b"\xFF", b"FF leads nothing")
}

fn surrogates(out: &mut impl Write) -> io::Result<()> {
    show(out, b"\xED\x9F\xBF", b"D7FF, before the surrogates")?;
    show(out, b"\xED\xA0\x80", b"D800, the first surrogate")?;
    show(out, b"\xED\xBF\xBF", b"DFFF, the last surrogate")?;
    show(
        out,
        b"\xED\xA0\xBD\xED\xB8\x80",
        b"a high and a low surrogate",
    )?;
    show(
        out,
        b"\xED\xB8\x80\xED\xA0\xBD",
        b"a low and a high surrogate",
    )?;
    show(out, b"\xEE\x80\x80", b"E000, after the surrogates")
}

fn overlong(out: &mut impl Write) -> io::Result<()> {
    show(out, b"\xC0\x80", b"0000 in two bytes")?;
    show(out, b"\xC1\xBF", b"007F in two bytes")?;
    show(out, b"\xE0\x80\x80", b"0000 in three bytes")?;
    show(out, b"\xE0\x9F\xBF", b"07FF in three bytes")?;
    show(out, b"\xF0\x80\x80\x80", b"0000 in four bytes")?;
    show(out, b"\xF0\x8F\xBF\xBF", b"FFFF in four bytes")
}

fn cut(out: &mut impl Write) -> io::Result<()> {
    show(out, b"a\xC3", b"one of two bytes")?;
    show(out, b"a\xE2\x82", b"two of three bytes")?;
    show(out, b"a\xF0\x9F\x90", b"three of four bytes")?;
    show(out, b"\xE2\x82b", b"ASCII where a third byte is due")?;
    show(out, b"\xC3\xC3\xA9", b"a lead where a second byte is due")?;
    show(
        out,
        b"\xF0\x9F\x90\xCD",
        b"a lead where a fourth byte is due",
    )?;
    show(out, b"\xC2\xC0", b"C0 where 80 to BF is due")?;
    show(out, b"\x80", b"a trailing byte alone")?;
    show(out, b"abcdefg\xBF", b"a trailing byte at the end of eight")
}

// A part of a text is judged by itself.
fn show_part(
    out: &mut impl Write,
    text: &[u8],
    from: usize,
    end: usize,
    what: &[u8],
) -> io::Result<()>
    requires { (from ≤ end) × (end ≤ length text.now) }
{
    show(out, &text[from..end], what)
}

fn parts(out: &mut impl Write) -> io::Result<()> {
    show_part(out, b"a\xE2\x82\xACb", 1, 4, b"a part that is a sequence")?;
    show_part(
        out,
        b"a\xE2\x82\xACb",
        2,
        5,
        b"a part that begins within it",
    )?;
    show_part(out, b"a\xE2\x82\xACb", 0, 3, b"a part that ends within it")
}

fn main(rt: HostRuntime) -> io::Result<()> {
    let mut out = BufWriter::new(rt.alloc(), io::writer(&rt))?;
    plain_text(&mut out)?;
    bounds(&mut out)?;
    surrogates(&mut out)?;
    overlong(&mut out)?;
    cut(&mut out)?;
    parts(&mut out)?;
    out.flush()
}
