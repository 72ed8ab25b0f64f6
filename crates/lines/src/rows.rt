// A line of five numbers, and what writes octets where there is room.
ghost use Rattle.std.specs.Prelude.{◌≡◌, ◌+◌, ◌≤◌, length, nat_le};
ghost use Rattle.element.specs.Field.{output_after};
ghost use Rattle.element.specs.Told.{number_of};
ghost use Rattle.lines.specs.Decimal.{decimal};
ghost use Rattle.lines.specs.Line.{cell, row, longest, line_said, line_written, Front};
ghost use Rattle.lines.specs.inner.Rows.{row_of};

use super::{Figures, LONGEST, NoRoom};
use element::Refusal;

#[derive(Clone, Copy)]
pub struct Row {
    item: u64,
    answer: u64,
    detail: u64,
    named: u64,
    other: u64,
}

impl Row {
    pub fn of(item: u64, figures: Figures) -> Self
        ensures { row_of result ≡ line_said item figures }
    {
        Row {
            item,
            answer: u64::from(figures.answer),
            detail: u64::from(figures.detail),
            named: figures.named as u64,
            other: figures.other as u64,
        }
    }

    // Of an item that is accepted; the two counts of a component, or what stands in their place.
    pub fn accepted(item: u64, named: u64, other: u64) -> Self
        ensures { row_of result ≡ row item 0 0 named other }
    {
        Row {
            item,
            answer: 0,
            detail: 0,
            named,
            other,
        }
    }

    pub fn refused(item: u64, refusal: Refusal) -> Self
        ensures { row_of result ≡ row item (number_of refusal.reason) refusal.detail 0 0 }
    {
        Row {
            item,
            answer: u64::from(refusal.reason.number()),
            detail: u64::from(refusal.detail),
            named: 0,
            other: 0,
        }
    }

    // Into a lent output at a position.
    pub fn write(self, out: &mut [u8], at: usize) -> Result<usize, NoRoom>
        ensures { (result ≡ line_written (row_of self) at out.old)
            × (out.new ≡ output_after (row_of self) at out.old) }
    {
        // From the line's end to its start, which is known last.
        let mut text = [0u8; LONGEST];
        let first = self.before(&mut text, LONGEST);
        put(&text[first..], out, at)
    }

    // In front of what stands at a position; answers where it starts.
    pub fn before(self, text: &mut [u8], at: usize) -> usize
        requires { (longest ≤ at) × (at ≤ length text.old) }
        ensures { Front (row_of self) at text.old result text.new × (at ≤ result + longest) }
    {
        let fifth = number_before(self.other, b'\n', text, at);
        let fourth = number_before(self.named, b' ', text, fifth);
        let third = number_before(self.detail, b' ', text, fourth);
        let second = number_before(self.answer, b' ', text, third);
        number_before(self.item, b' ', text, second)
    }
}

// A number and the octet behind it, in front of what stands at a position; answers where they start.
fn number_before(number: u64, mark: u8, text: &mut [u8], at: usize) -> usize
    requires { (21 ≤ at) × (at ≤ length text.old) }
    ensures { Front (cell number mark) at text.old result text.new × (at ≤ result + 21) }
{
    let last = at - 1;
    text[last] = mark;
    digits_before(number, text, last)
}

// The decimal digits of a number, in front of what stands at a position; answers where they start.
fn digits_before(number: u64, text: &mut [u8], at: usize) -> usize
    requires { (20 ≤ at) × (at ≤ length text.old) }
    ensures { Front (decimal number) at text.old result text.new × (at ≤ result + 20) }
{
    let mut rest = number;
    let mut start = at;
    while 9 < rest {
        start -= 1;
        text[start] = (48 + rest % 10) as u8;
        rest /= 10;
    }
    start -= 1;
    text[start] = (48 + rest) as u8;
    start
}

// Whether so many octets have room in an output at a position.
pub fn has_room(out: &[u8], at: usize, size: usize) -> bool
    ensures { result ≡ nat_le (at + size) (length out.now) }
{
    at <= out.len() && size <= out.len() - at
}

// All of some octets, into a lent output at a position.
pub fn put(octets: &[u8], out: &mut [u8], at: usize) -> Result<usize, NoRoom>
    ensures { (result ≡ line_written octets.now at out.old)
        × (out.new ≡ output_after octets.now at out.old) }
{
    if !has_room(out, at, octets.len()) {
        return Err(NoRoom);
    }
    let end = at + octets.len();
    out[at..end].copy_from_slice(octets);
    Ok(end)
}
