// Whole packages: their layout, the components in them by the component's own reader and writer, and Table 2.
#![tactic(auto)]

mod carriage;
mod layout;
mod reading;
mod writing;

pub use carriage::carried_by;
use component::Span;
use element::Refusal;
pub use reading::{read, read_into};
pub use writing::write;

// The numbers of a table for as many components as a package may have.
pub const TABLES: usize = 8 * component::TABLE;

// What is told of a package that is accepted: its type, where the transaction ID octets start, how many they are, and how
// many components there are.
#[derive(Clone, Copy, Debug, PartialEq, Eq)]
pub struct Package {
    pub kind: u8,
    pub ids: usize,
    pub size: usize,
    pub count: usize,
}

// The answer, and beside it for each component its place and its summary, as `operation::summary_from` gives it: 0
// behind the last component, and where the package is refused.
#[derive(Clone, Copy, Debug, PartialEq, Eq)]
pub struct Packages {
    pub answer: Result<Package, Refusal>,
    pub places: [u16; 8],
    pub components: [u64; 8],
}

// Up to the components: where the transaction ID octets start and end, where the component sequence stands, and where
// its contents start.
#[derive(Clone, Copy)]
struct Opening {
    ids: Span,
    sequence: usize,
    first: usize,
}
