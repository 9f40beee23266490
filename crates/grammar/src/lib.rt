// What bytes mean and in which order room is asked for: definitions and theorems, which reader, leaf question, writer and promises cite.
// For the code of these crates 01's letters and the parts of a code are named here, as `specs/LetterNames` and `specs/Steps` name them.
#![tactic(auto)]

// One value each: N F T S .
pub const NONE_LETTER: u32 = 0x4E;

pub const FALSE_LETTER: u32 = 0x46;

pub const TRUE_LETTER: u32 = 0x54;

pub const STOP_LETTER: u32 = 0x53;

pub const ELLIPSIS_LETTER: u32 = 0x2E;

// Signed 32 bits, signed 64 bits, any number of digits; float bits, one and two: i I l g y.
pub const INT_LETTER: u32 = 0x69;

pub const INT64_LETTER: u32 = 0x49;

pub const LONG_LETTER: u32 = 0x6C;

pub const FLOAT_LETTER: u32 = 0x67;

pub const COMPLEX_LETTER: u32 = 0x79;

// s
pub const BYTES_LETTER: u32 = 0x73;

// Strings: u t a A, and with a one-byte length z Z.
pub const UNICODE_LETTER: u32 = 0x75;

pub const INTERNED_LETTER: u32 = 0x74;

pub const ASCII_LETTER: u32 = 0x61;

pub const ASCII_INTERNED_LETTER: u32 = 0x41;

pub const SHORT_LETTER: u32 = 0x7A;

pub const SHORT_INTERNED_LETTER: u32 = 0x5A;

// Tuple, the same with a one-byte length, list, set, frozenset: ( ) [ < >.
pub const TUPLE_LETTER: u32 = 0x28;

pub const SMALL_TUPLE_LETTER: u32 = 0x29;

pub const LIST_LETTER: u32 = 0x5B;

pub const SET_LETTER: u32 = 0x3C;

pub const FROZENSET_LETTER: u32 = 0x3E;

// Three values; pairs; code: : { c.
pub const SLICE_LETTER: u32 = 0x3A;

pub const DICT_LETTER: u32 = 0x7B;

pub const CODE_LETTER: u32 = 0x63;

// r
pub const REFERENCE_LETTER: u32 = 0x72;

// The null in a key's place: 0.
pub const NULL_LETTER: u32 = 0x30;

// Floats in text, which are not carried: f x.
pub const TEXT_FLOAT_LETTER: u32 = 0x66;

pub const TEXT_COMPLEX_LETTER: u32 = 0x78;

// The letters that values are written with, as bytes of the output.
pub const WRITTEN_INT: u8 = INT_LETTER as u8;

pub const WRITTEN_LONG: u8 = LONG_LETTER as u8;

pub const WRITTEN_FLOAT: u8 = FLOAT_LETTER as u8;

pub const WRITTEN_COMPLEX: u8 = COMPLEX_LETTER as u8;

pub const WRITTEN_BYTES: u8 = BYTES_LETTER as u8;

pub const WRITTEN_UNICODE: u8 = UNICODE_LETTER as u8;

pub const WRITTEN_SHORT: u8 = SHORT_LETTER as u8;

pub const WRITTEN_TUPLE: u8 = TUPLE_LETTER as u8;

pub const WRITTEN_SLICE: u8 = SLICE_LETTER as u8;

pub const WRITTEN_DICT: u8 = DICT_LETTER as u8;

pub const WRITTEN_NULL: u8 = NULL_LETTER as u8;

pub const WRITTEN_CODE: u8 = CODE_LETTER as u8;

// The parts of a code by their number, and how many they are.
pub const CODE_PART: u32 = 0;

pub const CONSTANTS_PART: u32 = 1;

pub const NAMES_PART: u32 = 2;

pub const LOCALS_PART: u32 = 3;

pub const KINDS_PART: u32 = 4;

pub const FILE_PART: u32 = 5;

pub const NAME_PART: u32 = 6;

pub const QUALIFIED_NAME_PART: u32 = 7;

pub const LINES_PART: u32 = 8;

pub const EXCEPTIONS_PART: u32 = 9;

pub const CODE_PARTS: u32 = 10;

// The first line stands before this part.
pub const LINE_PART: u32 = LINES_PART;

// How many numbers stand in front of a code's parts, and their bytes.
pub const CODE_WORDS: usize = 5;

pub const CODE_NUMBERS: u32 = 20;
