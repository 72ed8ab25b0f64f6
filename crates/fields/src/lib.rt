// The loop that reads and writes: tagged fields are read from a reader, and lines are written to a writer. No contract
// can say what the system reads or writes, so the loop is proved safe and ending and states no outcome. What a field
// does to the run is `lines::list_field`, which states all of it. A read or a write that fails ends the run, and is
// answered.
#![tactic(auto)]

mod failure;
mod input;
mod output;

ghost use Rattle.std.specs.Prelude.{OnOk, IfErr};
ghost use Rattle.std.specs.Io.KnownBytes.{Appends, Keeps};
ghost use Rattle.fields.specs.Status.{IsUnwritten};

pub use failure::{Failure, status};
use input::Input;
use lines::{Field, Kept, Subject};
use output::Output;
use std::io::{Read, Write};

// Why no field is left: the input ends between two fields or within one, or a read or a write failed.
#[derive(Clone, Copy)]
enum End {
    Whole,
    Cut,
    Failed(Failure),
}

impl From<Failure> for End {
    fn from(failure: Failure) -> Self {
        End::Failed(failure)
    }
}

// The listing between two fields.
#[derive(Drop)]
struct Run {
    input: Input<16384>,
    output: Output<8192>,
    kept: Kept,
}

// As many octets at the front of a slice as there are.
fn front(octets: &[u8], size: usize) -> &[u8] {
    &octets[..size.min(octets.len())]
}

// Writes all of the octets, or says that it cannot, where some of them may be written.
pub fn write<W: Write>(to: &mut W, octets: &[u8]) -> Result<(), Failure>
    ensures written { OnOk result (Appends (W.contents to.old) (W.contents to.new) octets.now) }
    ensures failed { IfErr result IsUnwritten }
{
    to.write_all(octets).map_err(Failure::Unwritten)
}

// Ends what was written to: what the writer still holds is written. Standard output holds nothing, and std closes it
// nowhere, though some file systems say only then that it was not kept: `./roadquill` has it closed.
pub fn close<W: Write>(to: &mut W) -> Result<(), Failure>
    ensures kept { Keeps (W.contents to.old) (W.contents to.new) }
    ensures failed { IfErr result IsUnwritten }
{
    to.flush().map_err(Failure::Unwritten)
}

impl Run {
    fn start() -> Self {
        Run {
            input: Input::new(),
            output: Output::new(),
            kept: Kept::start(),
        }
    }

    fn read_header<R: Read>(&mut self, from: &mut R) -> Result<Field, End> {
        let mut header = [0u8; 3];
        let count = self.input.take(from, &mut header, 3)?;
        let end = if count == 0 { End::Whole } else { End::Cut };
        lines::read_field(front(&header, count)).ok_or(end)
    }

    // A field, with octets and a table lent for an item; of an item one octet more is kept than any has.
    fn step<S: Subject, R: Read, W: Write>(
        &mut self,
        from: &mut R,
        to: &mut W,
        octets: &mut [u8],
        table: &mut [u16],
    ) -> Result<(), End> {
        let field = self.read_header(from)?;
        if self.input.take(from, octets, field.size)? < field.size {
            return Err(End::Cut);
        }
        let contents = front(octets, field.size);
        self.kept = self
            .output
            .list::<S, W>(to, self.kept, field.tag, contents, table)?;
        Ok(())
    }

    // Writes the lines that wait, and the last one of an input that is cut. Answers what failed first, where not all
    // was read and written.
    fn finish<W: Write>(&mut self, to: &mut W, end: End) -> Result<(), Failure> {
        let written = self.output.write(to);
        match end {
            End::Whole => written,
            End::Cut => {
                written?;
                write(to, b"cut\n")
            }
            End::Failed(failure) => Err(failure),
        }
    }
}

// Lists the items of the input, with octets and a table lent for one of them. A proved loop has to end, and nothing
// says that the input does. So the loop has a number of turns that no run uses up. Answers what failed first, where not
// all was read and written.
pub fn list<S: Subject, R: Read, W: Write>(
    from: &mut R,
    to: &mut W,
    octets: &mut [u8],
    table: &mut [u16],
) -> Result<(), Failure> {
    let mut run = Run::start();
    for _ in 0..u64::MAX {
        if let Err(end) = run.step::<S, R, W>(from, to, octets, table) {
            return run.finish(to, end);
        }
    }
    run.finish(to, End::Whole)
}

#[cfg(test)]
mod tests {
    use super::*;
    use lines::Components;
    use std::io;
    use std::io::ErrorKind;
    use std::test::Fail;

    // An octet at a time, with an interruption before each.
    #[derive(Drop)]
    struct Halting<'a> {
        octets: &'a [u8],
        interrupted: bool,
        // What fails behind the last octet, where the input does not end there.
        behind: Option<io::Error>,
    }

    impl Read for Halting<'_> {
        fn read(&mut self, piece: &mut [u8]) -> io::Result<usize> {
            self.interrupted = !self.interrupted;
            if self.interrupted {
                return Err(io::Error::from(ErrorKind::Interrupted));
            }
            if piece.is_empty() {
                return Ok(0);
            }
            match self.octets.split_first() {
                Some((octet, others)) => {
                    piece[0] = *octet;
                    self.octets = others;
                    Ok(1)
                }
                None => match self.behind {
                    Some(error) => Err(error),
                    None => Ok(0),
                },
            }
        }
    }

    // A specifier, a component and, but for its last octet, another.
    const CUT: &[u8] = &[
        2, 0, 1, 4, 1, 0, 9, 0xEA, 7, 0xCF, 1, 5, 0xF2, 2, 0x85, 0, 1, 0, 2, 0xE9,
    ];

    #[test]
    fn a_read_that_fails_is_no_end(rt: HostRuntime) -> Result<(), Fail> {
        let fails = io::Error::from(ErrorKind::TimedOut);
        let cases = [
            (None, true, "1 0 0 1 0\ncut\n"),
            (Some(fails), false, "1 0 0 1 0\n"),
        ];
        for (behind, whole, text) in cases {
            let mut from = Halting {
                octets: CUT,
                interrupted: false,
                behind,
            };
            let mut to = Vec::new(rt.alloc());
            let mut component = [0u8; 4097];
            let mut table = [0u16; 320];
            let ended = list::<Components, _, _>(&mut from, &mut to, &mut component, &mut table);
            assert_eq!(rt; ended.is_ok(), whole);
            assert_eq!(rt; to.as_slice(), text.as_bytes());
        }
        Ok(())
    }
}
