// Prints splits in lines for a person: the answer, then every store whole, a dash standing for none.
// The stores are lent full of sevens, so that what is not written shows as cleared.
#![tactic(auto)]

use localsplus::Split;
use printing::{say, say_fault, say_field, say_store};
use refusals::Fault;
use std::io::{self, BufWriter, Write};

fn say_answer(out: &mut impl Write, answer: Result<Split, Fault>) -> io::Result<()> {
    match answer {
        Ok(split) => {
            say(out, b"  Local, Cell, Free:")?;
            say_field(out, split.locals)?;
            say_field(out, split.cells)?;
            say_field(out, split.frees)?;
            if split.present {
                say(out, b"; cell-to-argument present\n")
            } else {
                say(out, b"; cell-to-argument absent\n")
            }
        }
        Err(fault) => {
            say(out, b"  ")?;
            say_fault(out, fault)?;
            say(out, b"\n")
        }
    }
}

// One split: its title, its answer and its five stores, the last of which is lent.
fn show(
    out: &mut impl Write,
    title: &[u8],
    kinds: &[u8],
    names: u32,
    args: u32,
    kwonly: u32,
    flags: u32,
    arguments: &mut [u32],
) -> io::Result<()> {
    say(out, title)?;
    let mut locals = [7u32; 7];
    let mut cells = [7u32; 7];
    let mut frees = [7u32; 7];
    let mut map = [7u32; 7];
    say_answer(
        out,
        localsplus::split_localplus(
            kinds,
            names,
            args,
            kwonly,
            flags,
            &mut locals,
            &mut cells,
            &mut frees,
            &mut map,
            arguments,
        ),
    )?;
    say_store(out, b"  Local", &locals)?;
    say_store(out, b"  Cell", &cells)?;
    say_store(out, b"  Free", &frees)?;
    say_store(out, b"  map", &map)?;
    say_store(out, b"  cell-to-argument", arguments)
}

fn main(rt: HostRuntime) -> io::Result<()> {
    let mut out = BufWriter::new(rt.alloc(), io::writer(&rt))?;
    let kinds = [0x20u8, 0x60, 0x20, 0x40, 0xC0, 0x80];
    show(
        &mut out,
        b"two arguments\n",
        &kinds,
        6,
        2,
        0,
        0,
        &mut [7; 7],
    )?;
    show(
        &mut out,
        b"one argument, so no argument cell\n",
        &kinds,
        6,
        1,
        0,
        0,
        &mut [7; 7],
    )?;
    show(
        &mut out,
        b"one argument and flag 0x08\n",
        &kinds,
        6,
        1,
        0,
        8,
        &mut [7; 7],
    )?;
    show(&mut out, b"no names\n", &[], 0, 0, 0, 0, &mut [7; 0])?;
    show(
        &mut out,
        b"five names for six kinds\n",
        &kinds,
        5,
        4_294_967_295,
        1,
        0,
        &mut [7; 4],
    )?;
    show(
        &mut out,
        b"a sum of 2^32\n",
        &kinds,
        6,
        4_294_967_295,
        0,
        4,
        &mut [7; 4],
    )?;
    show(
        &mut out,
        b"a sum of 2^32 - 1, and four numbers of room at the end\n",
        &kinds,
        6,
        4_294_967_294,
        1,
        0,
        &mut [7; 4],
    )?;
    out.flush()
}
