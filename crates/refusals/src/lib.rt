// The refusal numbers of document 01, by name: every error that a reader, a call or a program answers. Nothing is read here.
#![tactic(auto)]

ghost use Rattle.std.specs.Prelude.{◌≡◌};
ghost use Rattle.refusals.specs.Refusals.{number};

use std::error::Error;
use std::fmt;

// What is wrong, each with its sentence of 01.
#[derive(Clone, Copy, Debug, PartialEq, Eq)]
pub enum Refusal {
    // 1, "sheet over 16,384 bytes"
    TooLong,
    // 2, "a field isn't wholly there"
    CutOff,
    // 3, "edition other than 1"
    OtherEdition,
    // 4, "a count not allowed"
    WrongCount,
    // 5, "kind 3, variable 24..31, operator 9..15"
    UnknownCode,
    // 6, "column, key or table number not below its count; a held column at or above C"
    NumberNotThere,
    // 7, "equated variables of unlike kinds, an order operator on a non-integer, a value not of the kind"
    WrongKind,
    // 8, "no command"
    NoCommand,
    // 9, "a selector node at depth seven, before its bits are read"
    TooDeep,
    // 10, "a padding bit 1, or bytes left over"
    LeftOver,
    // 11, "a selector matches a table without a column that the policy's atoms use"
    ColumnNotHeld,
    // 12, "table or policy number asked not there, or command over 3"
    NotAsked,
    // 13, "N over 256 (dead and isolated only)"
    TooManyBranches,
    // 14, "output shorter than the sheet (normal form) or than the row list (listing)"
    NoRoom,
    // 15, "session or row list not of the form above"
    WrongRows,
    // 16, "the normal form is longer than its sheet"
    LongerForm,
}

impl Refusal {
    // Its number in 01's table.
    pub fn number(self) -> u32
        ensures { result ≡ number self }
    {
        self as u32 + 1
    }
}

impl fmt::Display for Refusal {
    fn fmt<W: fmt::Write>(&self, f: &mut fmt::Formatter<W>) -> fmt::Result {
        write!(f, "refused {}", self.number())
    }
}

impl Error for Refusal {}
