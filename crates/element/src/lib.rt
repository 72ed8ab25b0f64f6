// Lengths and identifiers: what stands at the head of the octets that are left of the parent, and the field that says
// a length or an identifier, by value; and why a reading or a writing is refused.
#![tactic(auto)]

mod refusal;

ghost use Rattle.std.specs.Prelude.{◌≡◌, ◌%◌, ◌<◌, ◌≤◌, length, IfSome};
ghost use Rattle.element.specs.Encoded.{field_of};
ghost use Rattle.element.specs.Length.{shortest, field_size};
ghost use Rattle.element.specs.Decoded.{length_at, identifier_at};
ghost use Rattle.element.specs.Identifier.{identifier, identifier_size};

pub use refusal::{Reason, Refusal};

// A length field: the value that it says, and how many octets it takes.
#[derive(Clone, Copy, Debug, PartialEq, Eq)]
pub struct Length {
    pub value: usize,
    pub size: usize,
}

// An identifier: a number, 0 primitive or 1 constructor, and how many octets it takes.
#[derive(Clone, Copy, Debug, PartialEq, Eq)]
pub struct Identifier {
    pub number: u16,
    pub form: u16,
    pub size: usize,
}

// A field: how many octets it has, one to three, and each of them; 0 where there is none.
#[derive(Clone, Copy, Debug, PartialEq, Eq)]
pub struct Field {
    pub size: usize,
    pub first: u8,
    pub second: u8,
    pub third: u8,
}

// ---- length fields

// The length field at the head of what is left of the parent, in any form that can say its value; none where the form
// is wrong, or the parent's end cuts the field.
#[tactic(auto, unfolding(crate::specs::Decoded::length_at))]
#[inline(always)]
pub fn read_length(rest: &[u8]) -> Option<Length>
    ensures field { result ≡ length_at rest.now }
    ensures inside { IfSome result (λ l. (1 ≤ l.size) × (l.size ≤ length rest.now) × (l.value < 65536)) }
{
    match *rest {
        [value, ..] if value < 0x80 => Some(Length {
            value: usize::from(value),
            size: 1,
        }),
        [0x81, value, ..] => Some(Length {
            value: usize::from(value),
            size: 2,
        }),
        [0x82, high, low, ..] => Some(Length {
            value: usize::from(high) * 256 + usize::from(low),
            size: 3,
        }),
        _ => None,
    }
}

// How many octets the shortest field takes; over 65,535, which no field says, four are counted.
#[tactic(auto, unfolding(crate::specs::Length::field_size))]
pub fn length_size(value: usize) -> usize
    ensures { result ≡ field_size value }
{
    match value {
        0..=0x7F => 1,
        0x80..=0xFF => 2,
        0x100..=0xFFFF => 3,
        _ => 4,
    }
}

// The shortest field that says a value.
#[tactic(auto, unfolding(crate::specs::Length::shortest, crate::specs::Encoded::field_of))]
pub fn length_field(value: u16) -> Field
    ensures { result ≡ field_of (shortest value) }
{
    let low = (value % 256) as u8;
    match value {
        0..=0x7F => Field {
            size: 1,
            first: low,
            second: 0,
            third: 0,
        },
        0x80..=0xFF => Field {
            size: 2,
            first: 0x81,
            second: low,
            third: 0,
        },
        _ => Field {
            size: 3,
            first: 0x82,
            second: (value / 256) as u8,
            third: low,
        },
    }
}

// ---- identifiers

// The identifier at the head of what is left of the parent: class bits 10, the bit of value 32 for a constructor, and a
// number in one of three sizes.
#[tactic(auto, unfolding(crate::specs::Decoded::identifier_at, crate::specs::Decoded::numbered))]
#[inline(always)]
pub fn read_identifier(rest: &[u8]) -> Option<Identifier>
    ensures identifier { result ≡ identifier_at rest.now }
    ensures inside { IfSome result (λ i. (1 ≤ i.size) × (i.size ≤ length rest.now)) }
{
    let (&lead, behind) = rest.split_first()?;
    // before the class is asked: behind it the compiler takes the octet twice
    let form = u16::from(lead / 32 % 2);
    if lead < 0x80 || 0xBF < lead {
        return None;
    }
    // One octet, 0 to 30: the low five bits.
    let number = u16::from(lead % 32);
    if number < 31 {
        return Some(Identifier {
            number,
            form,
            size: 1,
        });
    }
    match *behind {
        // Two octets, 31 to 127: all ones, and an octet with the top bit clear.
        [number, ..] if number < 0x80 => (31 <= number).then_some(Identifier {
            number: u16::from(number),
            form,
            size: 2,
        }),
        // Three octets, 128 to 16,383: all ones, and seven bits each of two, high first; no leading 80 and no longer
        // run.
        [high, low, ..] if 0x80 < high && low < 0x80 => Some(Identifier {
            number: u16::from(high - 0x80) * 128 + u16::from(low),
            form,
            size: 3,
        }),
        _ => None,
    }
}

// How many octets the identifier of a number takes, in either form.
#[tactic(auto, unfolding(crate::specs::Identifier::identifier_size))]
pub fn identifier_size(number: u16) -> usize
    ensures { result ≡ identifier_size number }
{
    match number {
        0..=30 => 1,
        31..=127 => 2,
        _ => 3,
    }
}

// The low eight bits.
fn octet(x: u32) -> u8
    ensures { result ≡ x % 256 }
{
    (x % 256) as u8
}

// The identifier of a number in a form. A number over 16,383 and a form over 1 have none: of what would be an octet the
// low eight bits are given, so that the writer, which knows its entries, is spared a second test.
#[tactic(auto, unfolding(crate::specs::Identifier::identifier, crate::specs::Encoded::field_of))]
pub fn identifier_field(number: u16, form: u16) -> Field
    ensures { result ≡ field_of (identifier number form) }
{
    let number = u32::from(number);
    let form = u32::from(form);
    let lead = octet(0x9F + 32 * form);
    match number {
        0..=30 => Field {
            size: 1,
            first: octet(0x80 + 32 * form + number),
            second: 0,
            third: 0,
        },
        31..=127 => Field {
            size: 2,
            first: lead,
            second: octet(number),
            third: 0,
        },
        _ => Field {
            size: 3,
            first: lead,
            second: octet(0x80 + number / 128),
            third: octet(number % 128),
        },
    }
}
