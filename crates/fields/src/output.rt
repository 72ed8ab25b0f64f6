// Output, written once the longest lines of all have no room behind what waits.
ghost use Rattle.std.specs.Prelude.{◌≤◌};

use super::{Failure, write};
use lines::{Kept, LONGEST_PACKAGE, NoRoom, Subject};
use std::io::Write;

// Lines that wait to be written, in the first octets of a text.
#[derive(Drop)]
pub struct Output<const N: usize> {
    text: [u8; N],
    filled: usize,
    ghost within: { filled ≤ N },
}

impl<const N: usize> Output<N> {
    pub fn new() -> Self {
        Output {
            text: [0u8; N],
            filled: 0,
        }
    }

    // Writes the lines that wait. None waits behind a write that failed.
    pub fn write<W: Write>(&mut self, to: &mut W) -> Result<(), Failure> {
        let filled = self.filled;
        self.filled = 0;
        write(to, &self.text[..filled])
    }

    // A whole field: answers what is kept behind it. An empty text has room for the longest lines. When lines are
    // written does not hang on what is listed: once those of a package have no room.
    pub fn list<S: Subject, W: Write>(
        &mut self,
        to: &mut W,
        kept: Kept,
        tag: u8,
        contents: &[u8],
        table: &mut [u16],
    ) -> Result<Kept, Failure> {
        if N - self.filled < S::LONGEST.max(LONGEST_PACKAGE) {
            self.write(to)?;
        }
        match lines::list_field::<S>(kept, tag, contents, table, &mut self.text, self.filled) {
            Ok(listed) => {
                self.filled = listed.at;
                Ok(listed.kept)
            }
            Err(NoRoom) => Ok(kept),
        }
    }
}
