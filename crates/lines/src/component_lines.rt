// The listing of components on values and slices: the line of a reading.
ghost use Rattle.std.specs.Prelude.{◌≡◌, ℕ, refl};
ghost use Rattle.element.specs.Field.{output_after};
ghost use Rattle.operation.specs.Told.{answer_in};
ghost use Rattle.lines.specs.Line.{figures_of, line_of, line_said, line_written, longest};
ghost use Rattle.lines.specs.Listing.{components};

use super::rows::Row;
use super::{NoRoom, Subject};
use element::Refusal;
use operation::Reading;

// Five numbers of twenty digits, and the octet behind each.
pub const LONGEST: usize = 105;

pub struct Components;

impl Subject for Components {
    ghost subject = { components };

    ghost TAG = { 1 };

    ghost LONGEST = { longest };

    const TAG: u8 = 1;

    const LONGEST: usize = LONGEST;

    fn write_item(
        item: u64,
        specifier: u8,
        contents: &[u8],
        table: &mut [u16],
        out: &mut [u8],
        at: usize,
    ) -> Result<usize, NoRoom> {
        let reading = operation::read(contents, specifier, table);
        write_line(item, Figures::from(reading), out, at)
    }

    ghost tag_is = { refl };

    ghost longest_is = { refl };
}

// What a line says behind the number of its item, of any answer, also of one that no reader gives.
#[derive(Clone, Copy, Debug, PartialEq, Eq)]
pub struct Figures {
    pub answer: u8,
    pub detail: u32,
    pub named: usize,
    pub other: usize,
}

// Of a reading: the counts are 0 where the component is refused, answer and detail where it is accepted.
impl From<Result<Reading, Refusal>> for Figures {
    ghost from_gives = { λ reading figures. (figures ≡ figures_of (answer_in reading))
        × ((item : ℕ) → line_said item figures ≡ line_of item (answer_in reading)) };

    #[tactic(auto, unfolding(crate::specs::Line::line_of))]
    fn from(reading: Result<Reading, Refusal>) -> Self {
        match reading {
            Ok(reading) => Figures {
                answer: 0,
                detail: 0,
                named: reading.named,
                other: reading.other,
            },
            Err(refusal) => Figures {
                answer: refusal.reason.number(),
                detail: refusal.detail,
                named: 0,
                other: 0,
            },
        }
    }
}

// The line of an item, into a lent output at a position: item, answer, detail, named and other.
pub fn write_line(item: u64, figures: Figures, out: &mut [u8], at: usize) -> Result<usize, NoRoom>
    ensures { (result ≡ line_written (line_said item figures) at out.old)
        × (out.new ≡ output_after (line_said item figures) at out.old) }
{
    Row::of(item, figures).write(out, at)
}
