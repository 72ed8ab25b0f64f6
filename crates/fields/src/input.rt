// Input, read a piece at a time.
ghost use Rattle.std.specs.Prelude.{◌≤◌};
ghost use Rattle.std.specs.Io.{ReadsAtMost};

use super::Failure;
use std::io;
use std::io::{ErrorKind, Read};

// The piece of input that was read last, of which some octets are left.
#[derive(Drop)]
pub struct Input<const N: usize> {
    piece: [u8; N],
    at: usize,
    end: usize,
    ghost within: { (at ≤ end) × (end ≤ N) },
}

// A piece of input, or none at its end. A read that a signal ended before it had any is made again.
fn read<R: Read>(from: &mut R, piece: &mut [u8]) -> io::Result<usize>
    ensures { ReadsAtMost result piece.new }
{
    for _ in 0..u64::MAX {
        match from.read(piece) {
            Err(error) if error.kind() == ErrorKind::Interrupted => {}
            got => return got,
        }
    }
    Err(io::Error::from(ErrorKind::Interrupted))
}

impl<const N: usize> Input<N> {
    pub fn new() -> Self {
        Input {
            piece: [0u8; N],
            at: 0,
            end: 0,
        }
    }

    // Another piece, where nothing is left of the last one; nothing of that at the input's end.
    fn ready<R: Read>(&mut self, from: &mut R) -> Result<(), Failure> {
        if self.at == self.end {
            let end = read(from, &mut self.piece).map_err(Failure::Unread)?;
            self.end = end;
            self.at = 0;
        }
        Ok(())
    }

    // Takes so many octets, or fewer at the input's end, and keeps those that there is room for. Answers how many there
    // were. No piece is read where no octet is wanted of it; each turn but the last takes one octet at least.
    pub fn take<R: Read>(
        &mut self,
        from: &mut R,
        kept: &mut [u8],
        want: usize,
    ) -> Result<usize, Failure> {
        let mut count = 0;
        for _ in 0..want {
            if count == want {
                break;
            }
            self.ready(from)?;
            let size = (self.end - self.at).min(want - count);
            if size == 0 {
                break;
            }
            let behind = self.at + size;
            let piece = &self.piece[..];
            keep(kept, count, &piece[self.at..behind]);
            self.at = behind;
            count += size;
        }
        Ok(count)
    }
}

fn keep(kept: &mut [u8], at: usize, octets: &[u8]) {
    if at < kept.len() {
        let size = octets.len().min(kept.len() - at);
        kept[at..at + size].copy_from_slice(&octets[..size]);
    }
}
