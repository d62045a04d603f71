// The types of a sheet: what a row says, the record that it passes with, and refusals. The definitions over them are in
// specs/, their laws in proofs/.
#![tactic(auto)]

ghost use Rattle.std.specs.Prelude.{◌≡◌};
ghost use Rattle.sheet.specs.Rows.{named};
ghost use Rattle.sheet.specs.Acceptance.{refusal_number};

use circuit::Counts;

// The kinds of rows, in the order of document 01.
#[derive(Clone, Copy, PartialEq, Eq)]
pub enum Kind {
    BooleanConstant,
    BooleanUnknown,
    NaturalUnknown,
    IntegerUnknown,
    NumberConstant,
    Not,
    And,
    Or,
    Implies,
    Iff,
    Sum,
    Difference,
    Product,
    Choice,
    Greater,
    Equal,
}

#[derive(Clone, Copy)]
pub struct Fields {
    pub kind: Kind,
    pub p: u8,
    pub x: u16,
    pub y: u16,
    pub z: u16,
}

// One of something for each row that a row's fields x, y and z name.
#[derive(Clone, Copy)]
pub struct References<T> {
    pub x: T,
    pub y: T,
    pub z: T,
}

// Sort 0 is a Boolean, 1 a number. `first` is the row's first slot, from 0, `slots` their number.
#[repr(C)]
#[derive(Clone, Copy)]
pub struct Record {
    pub sort: u32,
    pub width: u32,
    pub denominator: u32,
    pub first: u32,
    pub slots: u32,
}

// What stands for a row that is not earlier: false.
pub const MISSING: Record = Record {
    sort: 0,
    width: 1,
    denominator: 1,
    first: 0,
    slots: 0,
};

// A row that passes: its record, and what it counts.
#[derive(Clone, Copy)]
pub struct Passed {
    pub row: Record,
    pub counts: Counts,
}

// Why something is refused, by document 01's numbers.
#[derive(Clone, Copy, PartialEq, Eq)]
pub enum Reason {
    WrongLength = 1,
    TooManyRows = 2,
    UnknownKind = 3,
    UnusedField = 4,
    OutOfRange = 5,
    NotEarlier = 6,
    WrongSort = 7,
    LargeDenominator = 8,
    TooWide = 9,
    EndsInNumber = 10,
    FewRecords = 11,
    ShortMap = 12,
    FewSlots = 13,
    ValueCount = 14,
    ValueOutside = 15,
    ModelLength = 16,
    NotABit = 17,
    ShortBuffer = 18,
    FalseClause = 19,
    BadLine = 20,
    BadClaim = 21,
    NoSuchRow = 22,
}

impl Reason {
    // Its number in document 01.
    pub fn number(self) -> u32
        ensures { result ≡ refusal_number self }
    {
        self as u32
    }

    // The refusal at a place.
    pub fn at(self, place: usize) -> Refusal
        ensures { result ≡ record { reason = self; place = place } }
    {
        Refusal {
            reason: self,
            place,
        }
    }
}

// A refusal: why, and at which place.
#[derive(Clone, Copy, PartialEq, Eq)]
pub struct Refusal {
    pub reason: Reason,
    pub place: usize,
}

// What a reader of lines found: how many rows, where the text behind them begins, and whether an empty line ended them.
#[derive(Clone, Copy)]
pub struct LinesFound {
    pub rows: u32,
    pub rest: usize,
    pub ended: bool,
}

impl TryFrom<u8> for Kind {
    type Error = Reason;

    ghost try_from_gives = { λ k kind. kind ≡ named k };

    #[tactic(auto, unfolding(crate::specs::Rows::named))]
    fn try_from(k: u8) -> Result<Self, Reason> {
        match k {
            0x00 => Ok(Kind::BooleanConstant),
            0x01 => Ok(Kind::BooleanUnknown),
            0x02 => Ok(Kind::NaturalUnknown),
            0x03 => Ok(Kind::IntegerUnknown),
            0x04 => Ok(Kind::NumberConstant),
            0x10 => Ok(Kind::Not),
            0x11 => Ok(Kind::And),
            0x12 => Ok(Kind::Or),
            0x13 => Ok(Kind::Implies),
            0x14 => Ok(Kind::Iff),
            0x20 => Ok(Kind::Sum),
            0x21 => Ok(Kind::Difference),
            0x22 => Ok(Kind::Product),
            0x23 => Ok(Kind::Choice),
            0x30 => Ok(Kind::Greater),
            0x31 => Ok(Kind::Equal),
            _ => Err(Reason::UnknownKind),
        }
    }
}
