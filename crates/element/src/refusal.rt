// Why a reading or a writing is refused.
ghost use Rattle.std.specs.Prelude.{◌≡◌, eqb, false};
ghost use Rattle.element.specs.Told.{number_of};

use std::error::Error;
use std::fmt;

// What is amiss, by the paper's number.
#[derive(Clone, Copy, Debug, PartialEq, Eq)]
pub enum Reason {
    // The table is too short.
    Table = 1,
    // No octets, or more than 4,096.
    Size = 2,
    // No type of a component.
    Type = 3,
    // No length field.
    Length = 4,
    // Contents that run past the parent.
    Overrun = 5,
    // No component ID, or one that the type does not have.
    Id = 6,
    // No operation code.
    Operation = 7,
    // No set of parameters.
    Set = 8,
    // No identifier.
    Identifier = 9,
    // More than 64 parameters.
    Many = 10,
    // No row for the operation and the type.
    NoRow = 11,
    // A parameter again that may not repeat.
    Again = 12,
    // A mandatory parameter, a choice or a group is missing.
    Missing = 13,
    // Both members of a choice.
    Both = 14,
    // More than 4,096 octets would be written.
    TooLong = 15,
    // An entry that is none.
    Entry = 16,
    // The output is too short.
    Output = 17,
    // Octets left over behind an element that has to end where its parent ends.
    LeftOver = 20,
    // No error code or problem.
    Problem = 21,
    // No layout of a package.
    Layout = 22,
    // No component in a package, or more than eight.
    Count = 23,
    // A component that the package does not carry.
    Package = 24,
    // An element wanted where the parent has ended.
    Ended = 25,
    // A size that the parameter does not have.
    WrongSize = 26,
}

impl Reason {
    // 18 is no number of these, and gets no other sense.
    pub fn number(self) -> u8
        ensures number { result ≡ number_of self }
        ensures never { eqb result 18 ≡ false }
    {
        self as u8
    }

    pub fn at(self, detail: u32) -> Refusal
        ensures { result ≡ record { reason = self; detail = detail } }
    {
        Refusal {
            reason: self,
            detail,
        }
    }
}

// What is amiss, and the detail that the paper gives to it: mostly a place.
#[derive(Clone, Copy, Debug, PartialEq, Eq)]
pub struct Refusal {
    pub reason: Reason,
    pub detail: u32,
}

impl fmt::Display for Refusal {
    fn fmt<W: fmt::Write>(&self, f: &mut fmt::Formatter<W>) -> fmt::Result {
        write!(f, "{} {}", self.reason.number(), self.detail)
    }
}

impl Error for Refusal {}
