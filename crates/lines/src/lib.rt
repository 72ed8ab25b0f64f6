// The listing on values and slices: the header of a tagged field, what a field does to the run, the line of a reading.
#![tactic(auto)]

mod component_lines;
mod package_lines;
mod rows;

ghost use Rattle.std.specs.Prelude.{◌≡◌, ℕ, ◌≤◌, length, IfOk};
ghost use Rattle.element.specs.Field.{output_after};
ghost use Rattle.lines.specs.Header.{field_at};
ghost use Rattle.lines.specs.Line.{line_written};
ghost use Rattle.lines.specs.Listing as Listing;
ghost use Rattle.lines.specs.Listing.{tagged, start, after, listed, table_left, text_left};

pub use component_lines::{Components, Figures, LONGEST, write_line};
pub use package_lines::{LONGEST_PACKAGE, Packages};
use rows::has_room;
use std::error::Error;
use std::fmt;

// A tag, and how many octets of contents follow.
#[derive(Clone, Copy)]
pub struct Field {
    pub tag: u8,
    pub size: usize,
}

// There is no room where lines are to stand.
#[derive(Clone, Copy, Debug, PartialEq, Eq)]
pub struct NoRoom;

// What is kept between two fields.
#[derive(Clone, Copy)]
pub struct Kept {
    // For the items behind it.
    pub specifier: u8,
    // How many items there were.
    pub item: u64,
}

// What is kept behind a field, and where the octets behind its lines start.
#[derive(Clone, Copy)]
pub struct Listed {
    pub kept: Kept,
    pub at: usize,
}

impl fmt::Display for NoRoom {
    fn fmt<W: fmt::Write>(&self, f: &mut fmt::Formatter<W>) -> fmt::Result {
        f.write_str("there is no room for the lines")
    }
}

impl Error for NoRoom {}

// The tag and the length, high octet first, of a field whose header is the first three octets; none where there are
// fewer.
pub fn read_field(header: &[u8]) -> Option<Field>
    ensures { result ≡ field_at header.now }
{
    match header {
        [tag, high, low, ..] => Some(Field {
            tag: *tag,
            size: usize::from(u16::from_be_bytes([*high, *low])),
        }),
        _ => None,
    }
}

impl Kept {
    pub fn start() -> Self
        ensures { result ≡ start }
    {
        Kept {
            specifier: 0,
            item: 0,
        }
    }

    // A field with the tag that is listed is counted, a specifier is kept for the items behind it, and all else is
    // skipped.
    #[tactic(auto, unfolding(crate::specs::Listing::after))]
    pub fn after(mut self, listed: u8, tag: u8, contents: &[u8]) -> Self
        ensures { result ≡ after listed self (tagged tag contents.now) }
    {
        if tag == listed {
            self.item = self.item.wrapping_add(1);
        } else if tag == 2 && contents.len() == 1 {
            self.specifier = contents[0];
        }
        self
    }
}

// What can be listed: the fields of one tag are its items. `subject` says which tag, which lines and how many octets of
// them at most.
pub trait Subject {
    ghost subject: { Listing.Subject };

    ghost TAG: { ℕ };

    ghost LONGEST: { ℕ };

    const TAG: u8;

    // No item has more octets of lines.
    const LONGEST: usize;

    // Reads an item, with a table lent for it, and writes its lines into a lent output at a position.
    fn write_item(
        item: u64,
        specifier: u8,
        contents: &[u8],
        table: &mut [u16],
        out: &mut [u8],
        at: usize,
    ) -> Result<usize, NoRoom>
        ensures lines { result ≡ line_written (subject.lines item specifier (length table.old) contents.now)
            at out.old }
        ensures out { out.new ≡ output_after (subject.lines item specifier (length table.old) contents.now)
            at out.old }
        ensures table { table.new ≡ subject.left specifier contents.now table.old }
        ensures short { length (subject.lines item specifier (length table.old) contents.now) ≤ subject.longest };

    ghost tag_is: { TAG ≡ subject.tag };

    ghost longest_is: { LONGEST ≡ subject.longest };
}

// A whole field: what is kept behind it, and where it is an item its lines, into a lent text at a position. Where the
// longest lines have no room there, nothing changes.
pub fn list_field<S: Subject>(
    kept: Kept,
    tag: u8,
    contents: &[u8],
    table: &mut [u16],
    text: &mut [u8],
    at: usize,
) -> Result<Listed, NoRoom>
    ensures answer { result ≡ listed S.subject kept (tagged tag contents.now) at table.old text.old }
    ensures table { table.new ≡ table_left S.subject kept (tagged tag contents.now) at table.old text.old }
    ensures text { text.new ≡ text_left S.subject kept (tagged tag contents.now) at table.old text.old }
    ensures within { IfOk result (λ l. l.at ≤ length text.new) }
{
    if !has_room(text, at, S::LONGEST) {
        return Err(NoRoom);
    }
    let behind = kept.after(S::TAG, tag, contents);
    if tag != S::TAG {
        return Ok(Listed { kept: behind, at });
    }
    let next = S::write_item(behind.item, kept.specifier, contents, table, text, at)?;
    Ok(Listed {
        kept: behind,
        at: next,
    })
}
