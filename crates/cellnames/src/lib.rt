// The groups of a code's local names: which names are written as Local, Cell or Free. A cell's name is compared with the Local ones.
// Everything here only reads; the names are sound strings, as `writecheck` has tested them.
#![tactic(auto)]

ghost use Rattle.std.specs.Prelude.{◌≡◌, true, ◌&&◌, ◌+◌, ◌≤◌, ◌<◌, length};
ghost use Rattle.grammar.specs.Fields.{contents};
ghost use Rattle.localsplus.specs.Kind;
ghost use Rattle.writing.specs.Names.{same_bytes};
ghost use Rattle.writecheck.specs.Looking.{lent_of, StringAt};
ghost use Rattle.cellnames.specs.Groups.{same_as, is_local, is_member, Listed};

use writecheck::Lent;

// The bits of a kind.
pub const LOCAL: u32 = localsplus::LOCAL as u32;

pub const CELL: u32 = localsplus::CELL as u32;

pub const FREE: u32 = localsplus::FREE as u32;

// The local names of a code: their chain, and the place of their kinds, one for each.
#[derive(Clone, Copy)]
pub struct Locals {
    pub first: u32,
    pub count: u32,
    pub kinds: u32,
}

// Whether two parts of the input hold the same bytes.
fn same_bytes(s: &[u8], a: usize, b: usize, size: usize) -> bool
    requires { (a + size ≤ length s.now) × (b + size ≤ length s.now) }
    ensures { result ≡ same_bytes (contents s.now a size) (contents s.now b size) }
{
    for i in 0..size {
        if s[a + i] != s[b + i] {
            return false;
        }
    }
    true
}

// Whether a part of the input and a sound string are the same.
fn same_name(lent: &Lent, place: u32, size: u32, name: u32) -> bool
    requires { (place + size ≤ length lent.now.input.now) × StringAt lent.now name }
    ensures { result ≡ same_as lent.now.input.now lent.now.nodes.now name place size }
{
    let n = stores::node_at(lent.nodes, name);
    if size != n.size {
        return false;
    }
    same_bytes(lent.input, place as usize, n.place as usize, size as usize)
}

fn has(bit: u32, kind: u8) -> bool
    requires { 0 < bit }
    ensures { result ≡ Kind.has bit kind }
{
    kind as u32 / bit % 2 == 1
}

// Whether a name of a kind is Local and the same as a part of the input.
fn local_is(lent: &Lent, kind: u8, name: u32, place: u32, size: u32) -> bool
    requires { (place + size ≤ length lent.now.input.now) × StringAt lent.now name }
    ensures { result ≡ (Kind.has Kind.local_bit kind && same_as lent.now.input.now lent.now.nodes.now name place size) }
{
    if !has(LOCAL, kind) {
        return false;
    }
    same_name(lent, place, size, name)
}

// Whether a name equals a Local name.
fn is_local(lent: &Lent, locals: Locals, node: u32) -> bool
    requires { Listed (lent_of lent.now) locals × StringAt lent.now node }
    ensures { result ≡ is_local (lent_of lent.now) locals node }
{
    let own = stores::node_at(lent.nodes, node);
    let kinds = locals.kinds as usize;
    let count = locals.count;
    let mut e = locals.first;
    for i in 0..count {
        let kind = lent.input[kinds + i as usize];
        let name = stores::child_at(lent.entries, e);
        if local_is(lent, kind, name, own.place, own.size) {
            return true;
        }
        e = stores::next_at(lent.entries, e);
    }
    false
}

// Whether a name of a kind stands in the group of a bit.
pub fn belongs(lent: &Lent, locals: Locals, bit: u32, kind: u8, node: u32) -> bool
    requires { Listed (lent_of lent.now) locals × StringAt lent.now node × (0 < bit) }
    ensures { result ≡ is_member (lent_of lent.now) locals bit kind node }
{
    if !has(bit, kind) {
        return false;
    }
    if bit != CELL {
        return true;
    }
    !is_local(lent, locals, node)
}
