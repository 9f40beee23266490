// The refusals of documents 01 and 02 as one enum, each with its number, and a refusal with the place that it names: the error of every function
// that can refuse. And the limits of 01, each named once for the code of every crate. `specs/Numbers` and `specs/Limits` name the same numbers.
#![tactic(auto)]

ghost use Rattle.std.specs.Prelude.{◌≡◌};
ghost use Rattle.refusals.specs.Faults.{number_of, fault};

// Why nothing is read or written.
#[derive(Clone, Copy, Debug, PartialEq, Eq)]
pub enum Refusal {
    EofObject,
    DataTooShort,
    UnknownType,
    NullObject,
    InvalidRef,
    BadSize,
    BadType,
    InvalidBytecode,
    InvalidUtf8,
    TooDeep,
    NoNode,
    NoEntry,
    NoSlot,
    InputTooLong,
    NotCarried,
    BadTable,
    NoRoom,
    NumberRange,
    NoMarker,
    NoSuchStart,
    AlreadyEnded,
    RepeatedTag,
    NoSuchField,
    NotJoined,
    TrailingBytes,
    ValueTooLong,
}

// A refusal and the place that it names.
#[derive(Clone, Copy, Debug, PartialEq, Eq)]
pub struct Fault {
    pub refusal: Refusal,
    pub place: u32,
}

impl Refusal {
    // The number that the documents give it.
    pub fn number(self) -> u32
        ensures { result ≡ number_of self }
    {
        match self {
            Refusal::EofObject => EOF_OBJECT,
            Refusal::DataTooShort => DATA_TOO_SHORT,
            Refusal::UnknownType => UNKNOWN_TYPE,
            Refusal::NullObject => NULL_OBJECT,
            Refusal::InvalidRef => INVALID_REF,
            Refusal::BadSize => BAD_SIZE,
            Refusal::BadType => BAD_TYPE,
            Refusal::InvalidBytecode => INVALID_BYTECODE,
            Refusal::InvalidUtf8 => INVALID_UTF8,
            Refusal::TooDeep => TOO_DEEP,
            Refusal::NoNode => NO_NODE,
            Refusal::NoEntry => NO_ENTRY,
            Refusal::NoSlot => NO_SLOT,
            Refusal::InputTooLong => INPUT_TOO_LONG,
            Refusal::NotCarried => NOT_CARRIED,
            Refusal::BadTable => BAD_TABLE,
            Refusal::NoRoom => NO_ROOM,
            Refusal::NumberRange => NUMBER_RANGE,
            Refusal::NoMarker => NO_MARKER,
            Refusal::NoSuchStart => NO_SUCH_START,
            Refusal::AlreadyEnded => ALREADY_ENDED,
            Refusal::RepeatedTag => REPEATED_TAG,
            Refusal::NoSuchField => NO_SUCH_FIELD,
            Refusal::NotJoined => NOT_JOINED,
            Refusal::TrailingBytes => TRAILING_BYTES,
            Refusal::ValueTooLong => VALUE_TOO_LONG,
        }
    }

    // The refusal at a place.
    pub fn at(self, place: u32) -> Fault
        ensures { result ≡ fault self place }
    {
        Fault {
            refusal: self,
            place,
        }
    }
}

pub const ACCEPTED: u32 = 0;

pub const EOF_OBJECT: u32 = 1;

pub const DATA_TOO_SHORT: u32 = 2;

pub const UNKNOWN_TYPE: u32 = 3;

pub const NULL_OBJECT: u32 = 4;

pub const INVALID_REF: u32 = 5;

pub const BAD_SIZE: u32 = 6;

pub const BAD_TYPE: u32 = 7;

pub const INVALID_BYTECODE: u32 = 8;

pub const INVALID_UTF8: u32 = 9;

pub const TOO_DEEP: u32 = 10;

pub const NO_NODE: u32 = 11;

pub const NO_ENTRY: u32 = 12;

pub const NO_SLOT: u32 = 13;

pub const INPUT_TOO_LONG: u32 = 14;

pub const NOT_CARRIED: u32 = 15;

pub const BAD_TABLE: u32 = 16;

pub const NO_ROOM: u32 = 17;

pub const NUMBER_RANGE: u32 = 18;

pub const NO_MARKER: u32 = 19;

pub const NO_SUCH_START: u32 = 20;

pub const ALREADY_ENDED: u32 = 21;

pub const REPEATED_TAG: u32 = 22;

pub const NO_SUCH_FIELD: u32 = 23;

pub const NOT_JOINED: u32 = 24;

pub const TRAILING_BYTES: u32 = 25;

pub const VALUE_TOO_LONG: u32 = 26;

// The last of the table.
pub const LAST_NUMBER: u32 = VALUE_TOO_LONG;

// The longest input, the largest capacity that counts, the deepest nesting that counts, and "no entry".
pub const MOST_BYTES: u32 = 16_777_216;

pub const MOST_RECORDS: u32 = 1_048_576;

pub const MOST_NESTING: u32 = 2_000;

pub const NOTHING: u32 = 4_294_967_295;
