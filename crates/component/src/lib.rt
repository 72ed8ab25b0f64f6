// One component: the steps of its layout, a part of it handed back, and its octets composed.
#![tactic(auto)]

mod composing;
mod reading;
mod types;

pub use composing::{compose, compose_measured, measure};
use element::Refusal;
pub use reading::{element_from, head_from, parameter_from, part, part_fits, wanted_from};
pub use types::Kind;

// The numbers of an entry of a table: number, form, start and length of the contents, and place of the identifier.
pub const WIDTH: usize = 5;

// The numbers of a table for as many parameters as a component may have.
pub const TABLE: usize = 64 * WIDTH;

// The octets of a component ID: `count` of them, and 0 where there is none.
#[derive(Clone, Copy, Debug, PartialEq, Eq)]
pub struct Id {
    pub count: u8,
    pub first: u8,
    pub second: u8,
}

// The code of a component, as it is told and handed in: the specifier of an INVOKE or of a RESULT's operation, the
// error octet, or the two problem octets. The second is 0, and not looked at, but in a REJECT.
#[derive(Clone, Copy, Debug, PartialEq, Eq)]
pub struct Code {
    pub first: u8,
    pub second: u8,
}

// The contents of an element.
#[derive(Clone, Copy, Debug, PartialEq, Eq)]
pub struct Span {
    pub start: usize,
    pub end: usize,
}

// All but the parameters: the octets of the component ID, and where the code and the parameters start. A RESULT has no
// code: the set stands there.
#[derive(Clone, Copy, Debug, PartialEq, Eq)]
pub struct Head {
    pub kind: Kind,
    pub id: Span,
    pub code: usize,
    pub set: usize,
}

// A parameter, as an entry of a table shows it.
#[derive(Clone, Copy, Debug, PartialEq, Eq)]
pub struct Entry {
    pub number: u16,
    pub form: u16,
    pub start: usize,
    pub size: usize,
    pub place: usize,
}

// What a component takes: its octets, those of the contents of its type's element, and those of its parameters.
#[derive(Clone, Copy, Debug, PartialEq, Eq)]
pub struct Measured {
    pub whole: usize,
    pub body: usize,
    pub set: usize,
}
