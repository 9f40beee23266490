// What stands behind a header and is read without looking at any child: numbers, classes of letters, and the fields of each class.
// The reader asks it of a header that it has read, and the record test of a node that claims to have been read.
#![tactic(auto)]

ghost use Rattle.std.specs.Prelude.{◌≡◌, ◌+◌, ◌*◌, ◌%◌, ◌≤◌, ◌<◌, length};
ghost use Rattle.refusals.specs.Limits.{most_bytes};
ghost use Rattle.grammar.specs.Letters.{class_of, keeps, contains, codes, fixed, double, long, bytes, text, short, sequence, few};
ghost use Rattle.grammar.specs.Fields;
ghost use Rattle.fields.specs.Classes.{class_at, form_classes, kept_classes, refusal_of};
ghost use Rattle.fields.specs.Behind.{Reads, Judges};

use byte_tables::{ClassTable, LeadTable};
use cursor::Cursor;
use refusals::{Fault, Refusal};

pub mod byte_tables;
pub mod cursor;
pub mod header_bytes;

// The children to come: so many values, pairs up to the null in a key's place, or the parts of a code.
#[derive(Clone, Copy)]
pub enum Kids {
    Items(u32),
    Pairs,
    Parts,
}

// What the fields say: place, size and children.
#[derive(Clone, Copy)]
pub struct Behind {
    pub place: u32,
    pub size: u32,
    pub kids: Kids,
}

// The number of each class, as `specs/Classes` counts them. From REFUSED_CLASS on, a class is its refusal's number above REFUSED_CLASS.
// They stay numbers, as the table of header bytes holds them: a header's class is then one load.
pub const SINGLE_CLASS: u32 = 0;

pub const FIXED4_CLASS: u32 = 1;

pub const FIXED8_CLASS: u32 = 2;

pub const DOUBLE_CLASS: u32 = 3;

pub const LONG_CLASS: u32 = 4;

pub const SEQUENCE_CLASS: u32 = 5;

pub const FEW_CLASS: u32 = 6;

pub const SLICE_CLASS: u32 = 7;

pub const DICT_CLASS: u32 = 8;

pub const BYTES_CLASS: u32 = 9;

pub const TEXT_CLASS: u32 = 10;

pub const SHORT_CLASS: u32 = 11;

pub const CODE_CLASS: u32 = 12;

pub const REFERENCE_CLASS: u32 = 13;

pub const REFUSED_CLASS: u32 = 14;

pub const UNKNOWN_CLASS: u32 = REFUSED_CLASS + refusals::UNKNOWN_TYPE;

pub const NULL_CLASS: u32 = REFUSED_CLASS + refusals::NULL_OBJECT;

pub const TEXT_NUMBER_CLASS: u32 = REFUSED_CLASS + refusals::NOT_CARRIED;

fn word(byte: u8) -> u32
    ensures { (result ≡ byte) × (result < 256) }
{
    byte as u32
}

// Little-endian numbers of two, four and eight bytes.
pub fn le16(s: &[u8], at: usize) -> u32
    requires { at + 2 ≤ length s.now }
    ensures { (result ≡ Fields.le16 s.now at) × (result < 65536) }
{
    word(s[at]) + word(s[at + 1]) * 256
}

pub fn le32(s: &[u8], at: usize) -> u32
    requires { at + 4 ≤ length s.now }
    ensures { result ≡ Fields.le32 s.now at }
{
    let b0 = word(s[at]);
    let b1 = word(s[at + 1]);
    let b2 = word(s[at + 2]);
    let b3 = word(s[at + 3]);
    b0 + b1 * 256 + b2 * 65536 + b3 * 16777216
}

pub fn le64(s: &[u8], at: usize) -> u64
    requires { at + 8 ≤ length s.now }
    ensures { result ≡ Fields.le64 s.now at }
{
    let b0 = signed::wide(s[at]);
    let b1 = signed::wide(s[at + 1]);
    let b2 = signed::wide(s[at + 2]);
    let b3 = signed::wide(s[at + 3]);
    let b4 = signed::wide(s[at + 4]);
    let b5 = signed::wide(s[at + 5]);
    let b6 = signed::wide(s[at + 6]);
    let b7 = signed::wide(s[at + 7]);
    b0 + b1 * 256
        + b2 * 65536
        + b3 * 16777216
        + b4 * 4294967296
        + b5 * 1099511627776
        + b6 * 281474976710656
        + b7 * 72057594037927936
}

// The class of a letter.
pub fn class_of(letter: u32) -> u32
    ensures { class_at result ≡ class_of letter }
{
    match letter {
        grammar::NONE_LETTER => SINGLE_CLASS,
        grammar::FALSE_LETTER => SINGLE_CLASS,
        grammar::TRUE_LETTER => SINGLE_CLASS,
        grammar::STOP_LETTER => SINGLE_CLASS,
        grammar::ELLIPSIS_LETTER => SINGLE_CLASS,
        grammar::INT_LETTER => FIXED4_CLASS,
        grammar::INT64_LETTER => FIXED8_CLASS,
        grammar::FLOAT_LETTER => FIXED8_CLASS,
        grammar::COMPLEX_LETTER => DOUBLE_CLASS,
        grammar::LONG_LETTER => LONG_CLASS,
        grammar::BYTES_LETTER => BYTES_CLASS,
        grammar::UNICODE_LETTER => TEXT_CLASS,
        grammar::INTERNED_LETTER => TEXT_CLASS,
        grammar::ASCII_LETTER => TEXT_CLASS,
        grammar::ASCII_INTERNED_LETTER => TEXT_CLASS,
        grammar::SHORT_LETTER => SHORT_CLASS,
        grammar::SHORT_INTERNED_LETTER => SHORT_CLASS,
        grammar::TUPLE_LETTER => SEQUENCE_CLASS,
        grammar::LIST_LETTER => SEQUENCE_CLASS,
        grammar::SET_LETTER => SEQUENCE_CLASS,
        grammar::FROZENSET_LETTER => SEQUENCE_CLASS,
        grammar::SMALL_TUPLE_LETTER => FEW_CLASS,
        grammar::SLICE_LETTER => SLICE_CLASS,
        grammar::DICT_LETTER => DICT_CLASS,
        grammar::CODE_LETTER => CODE_CLASS,
        grammar::REFERENCE_LETTER => REFERENCE_CLASS,
        grammar::NULL_LETTER => NULL_CLASS,
        grammar::TEXT_FLOAT_LETTER => TEXT_NUMBER_CLASS,
        grammar::TEXT_COMPLEX_LETTER => TEXT_NUMBER_CLASS,
        _ => UNKNOWN_CLASS,
    }
}

// The class of a header byte's letter, by the table of header bytes. A letter of a record, which may be any number of 32
// bits, is asked of `class_of`.
pub fn class_at(table: &ClassTable, header: u32) -> u32
    requires { header < 256 }
    ensures { class_at result ≡ class_of (header % 128) }
{
    word(table.classes[header as usize])
}

// Why a letter is refused, by its class, which is one from REFUSED_CLASS on.
pub fn refusal_of(class: u32) -> Refusal
    ensures { result ≡ refusal_of class }
{
    match class {
        NULL_CLASS => Refusal::NullObject,
        TEXT_NUMBER_CLASS => Refusal::NotCarried,
        _ => Refusal::UnknownType,
    }
}

// A field of a fixed size, and no children.
pub fn read_fixed(from: Cursor, size: u32) -> Result<Behind, Fault>
    requires { size ≤ most_bytes }
    ensures { Reads from.entry.input.now (keeps (fixed size)) from.entry.at result }
{
    if from.input.len() < from.at as usize + size as usize {
        return Err(Refusal::DataTooShort.at(from.at));
    }
    Ok(Behind {
        place: from.at,
        size,
        kids: Kids::Items(0),
    })
}

// Two fields of eight bytes: a cut second one is refused at its own start.
fn read_double(from: Cursor) -> Result<Behind, Fault>
    ensures { Reads from.entry.input.now (keeps double) from.entry.at result }
{
    let p = from.at as usize;
    if from.input.len() < p + 8 {
        return Err(Refusal::DataTooShort.at(from.at));
    }
    if from.input.len() < p + 8 + 8 {
        return Err(Refusal::DataTooShort.at(from.at + 8));
    }
    Ok(Behind {
        place: from.at,
        size: 16,
        kids: Kids::Items(0),
    })
}

// A signed 32-bit length that is there and is not negative.
fn read_len(from: Cursor) -> Result<(), Fault>
    ensures { Judges from.entry.input.now (from.entry.at + 4) (Fields.size32 from.entry.input.now from.entry.at) result }
{
    let p = from.at as usize;
    if from.input.len() < p + 4 {
        return Err(Refusal::DataTooShort.at(from.at));
    }
    if 0x8000_0000 <= le32(from.input, p) {
        return Err(Refusal::BadSize.at(from.at));
    }
    Ok(())
}

// A length, and so many values.
fn read_sequence(from: Cursor) -> Result<Behind, Fault>
    ensures { Reads from.entry.input.now (keeps sequence) from.entry.at result }
{
    read_len(from)?;
    Ok(Behind {
        place: from.at,
        size: 4,
        kids: Kids::Items(le32(from.input, from.at as usize)),
    })
}

// A one-byte length, and so many values.
fn read_few(from: Cursor) -> Result<Behind, Fault>
    ensures { Reads from.entry.input.now (keeps few) from.entry.at result }
{
    let p = from.at as usize;
    if from.input.len() < p + 1 {
        return Err(Refusal::DataTooShort.at(from.at));
    }
    Ok(Behind {
        place: from.at,
        size: 1,
        kids: Kids::Items(word(from.input[p])),
    })
}

// A length, and so many bytes.
pub fn read_bytes(from: Cursor) -> Result<Behind, Fault>
    ensures { Reads from.entry.input.now (contains bytes) from.entry.at result }
{
    read_len(from)?;
    let p = from.at as usize;
    let size = le32(from.input, p);
    if from.input.len() < p + 4 + size as usize {
        return Err(Refusal::DataTooShort.at(from.at + 4));
    }
    Ok(Behind {
        place: from.at + 4,
        size,
        kids: Kids::Items(0),
    })
}

// So many bytes that are UTF-8 with surrogates allowed.
fn read_wtf8(from: Cursor, size: u32, table: &LeadTable) -> Result<(), Fault>
    ensures { Judges from.entry.input.now (from.entry.at + size) (Fields.string from.entry.input.now from.entry.at size) result }
{
    let start = from.at as usize;
    let count = size as usize;
    if from.input.len() < start + count {
        return Err(Refusal::DataTooShort.at(from.at));
    }
    if !wtf8::is_wtf8_by_table(&from.input[start..start + count], &table.leads) {
        return Err(Refusal::InvalidUtf8.at(from.at));
    }
    Ok(())
}

// A length, and a string of so many bytes. Inlined, as `read_short` is: strings are read where a call and an answer in memory are felt.
#[inline(always)]
pub fn read_text(from: Cursor, table: &LeadTable) -> Result<Behind, Fault>
    ensures { Reads from.entry.input.now (contains text) from.entry.at result }
{
    read_len(from)?;
    let size = le32(from.input, from.at as usize);
    let string = Cursor {
        input: from.input,
        at: from.at + 4,
    };
    read_wtf8(string, size, table)?;
    Ok(Behind {
        place: from.at + 4,
        size,
        kids: Kids::Items(0),
    })
}

// A one-byte length, and a string of so many bytes.
#[inline(always)]
pub fn read_short(from: Cursor, table: &LeadTable) -> Result<Behind, Fault>
    ensures { Reads from.entry.input.now (contains short) from.entry.at result }
{
    let p = from.at as usize;
    if from.input.len() < p + 1 {
        return Err(Refusal::DataTooShort.at(from.at));
    }
    let size = word(from.input[p]);
    let string = Cursor {
        input: from.input,
        at: from.at + 1,
    };
    read_wtf8(string, size, table)?;
    Ok(Behind {
        place: from.at + 1,
        size,
        kids: Kids::Items(0),
    })
}

// How many digits a signed count stands for: its sign is the number's.
pub fn digit_count(count: u32) -> u32
    ensures { (result ≡ Fields.digit_count count) × (result ≤ 2147483648) }
{
    if count < 0x8000_0000 {
        count
    } else {
        0xFFFF_FFFF - count + 1
    }
}

// So many digits, each judged as it is read. Those that are there are counted first: with the end tested at each digit, by a place made anew, LLVM made both
// refusals ready there.
fn read_digits(from: Cursor, count: u32) -> Result<(), Fault>
    ensures { Judges from.entry.input.now (from.entry.at + 2 * count) (Fields.digits from.entry.input.now count from.entry.at) result }
{
    let start = from.at as usize;
    let there = (from.input.len() - start) / 2;
    let whole = there.min(count as usize);
    for i in 0..whole {
        let p = start + 2 * i;
        if 0x8000 <= le16(from.input, p) {
            return Err(Refusal::InvalidBytecode.at(p as u32));
        }
    }
    if whole < count as usize {
        return Err(Refusal::DataTooShort.at((start + 2 * whole) as u32));
    }
    Ok(())
}

// The last of so many digits is not zero.
fn last_digit(from: Cursor, count: u32) -> Result<(), Fault>
    requires { from.at + 2 * count ≤ length from.input.now }
    ensures { Judges from.entry.input.now 0 (Fields.last_digit from.entry.input.now count from.entry.at) result }
{
    if count == 0 {
        return Ok(());
    }
    let place = from.at + 2 * (count - 1);
    if le16(from.input, place as usize) == 0 {
        return Err(Refusal::InvalidBytecode.at(place));
    }
    Ok(())
}

// A signed count of digits, and the digits.
fn read_pylong(from: Cursor) -> Result<Behind, Fault>
    ensures { Reads from.entry.input.now (keeps long) from.entry.at result }
{
    let p = from.at as usize;
    if from.input.len() < p + 4 {
        return Err(Refusal::DataTooShort.at(from.at));
    }
    let count = digit_count(le32(from.input, p));
    let digits = Cursor {
        input: from.input,
        at: from.at + 4,
    };
    read_digits(digits, count)?;
    last_digit(digits, count)?;
    Ok(Behind {
        place: from.at,
        size: 4 + 2 * count,
        kids: Kids::Items(0),
    })
}

// Five numbers of 32 bits, each a field of its own.
fn read_numbers(from: Cursor) -> Result<Behind, Fault>
    ensures { Reads from.entry.input.now codes from.entry.at result }
{
    let whole = (from.input.len() - from.at as usize) / 4;
    if whole < grammar::CODE_WORDS {
        return Err(Refusal::DataTooShort.at(from.at + 4 * whole as u32));
    }
    Ok(Behind {
        place: from.at,
        size: grammar::CODE_NUMBERS,
        kids: Kids::Parts,
    })
}

// The argument sum of the code whose numbers stand at a place.
pub fn argument_sum(s: &[u8], place: usize) -> u64
    requires { place + Fields.code_numbers ≤ length s.now }
    ensures { result ≡ Fields.sum_at s.now place }
{
    let arguments = le32(s, place) as u64;
    let keyword_only = le32(s, place + 8) as u64;
    let flags = le32(s, place + 16) as u64;
    arguments + keyword_only + flags / 4 % 2 + flags / 8 % 2
}

// The fields behind the header of a node whose place is the byte after the header.
pub fn read_form(from: Cursor, class: u32) -> Result<Behind, Fault>
    requires { class < form_classes }
    ensures { Reads from.entry.input.now (class_at class) from.entry.at result }
{
    match class {
        SINGLE_CLASS => Ok(Behind {
            place: from.at,
            size: 0,
            kids: Kids::Items(0),
        }),
        FIXED4_CLASS => read_fixed(from, 4),
        FIXED8_CLASS => read_fixed(from, 8),
        DOUBLE_CLASS => read_double(from),
        LONG_CLASS => read_pylong(from),
        SEQUENCE_CLASS => read_sequence(from),
        FEW_CLASS => read_few(from),
        SLICE_CLASS => Ok(Behind {
            place: from.at,
            size: 0,
            kids: Kids::Items(3),
        }),
        _ => Ok(Behind {
            place: from.at,
            size: 0,
            kids: Kids::Pairs,
        }),
    }
}

// The fields behind the header of a node, from the byte after it on.
pub fn read_fields(from: Cursor, class: u32, table: &LeadTable) -> Result<Behind, Fault>
    requires { class < kept_classes }
    ensures { Reads from.entry.input.now (class_at class) from.entry.at result }
{
    if class < BYTES_CLASS {
        return read_form(from, class);
    }
    match class {
        BYTES_CLASS => read_bytes(from),
        TEXT_CLASS => read_text(from, table),
        SHORT_CLASS => read_short(from, table),
        _ => read_numbers(from),
    }
}
