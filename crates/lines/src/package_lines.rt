// The listing of packages on values and slices: the line of a package, and those of its components.
ghost use Rattle.std.specs.Prelude.{◌≡◌, ◌+◌, ◌*◌, ◌≤◌, length, refl};
ghost use Rattle.element.specs.Field.{output_after};
ghost use Rattle.package.specs.Told.{answer_in};
ghost use Rattle.lines.specs.Line.{longest, line_written, Front};
ghost use Rattle.lines.specs.Packages.{inside_line, inside_lines, package_lines, eight_of, packages};
ghost use Rattle.lines.specs.inner.Parcels.{count_in, accepted_lines, inside_in, insides, parcel_in};

use super::rows::{Row, put};
use super::{LONGEST, NoRoom, Subject};
use package::Package;

// The line of a package, and of each of eight components a blank and a line.
pub const LONGEST_PACKAGE: usize = LONGEST + 8 * (1 + LONGEST);

pub struct Packages;

impl Subject for Packages {
    ghost subject = { packages };

    ghost TAG = { 5 };

    ghost LONGEST = { longest + 8 * (1 + longest) };

    const TAG: u8 = 5;

    const LONGEST: usize = LONGEST_PACKAGE;

    fn write_item(
        item: u64,
        specifier: u8,
        contents: &[u8],
        table: &mut [u16],
        out: &mut [u8],
        at: usize,
    ) -> Result<usize, NoRoom> {
        let reading = package::read(contents, eight_of(specifier), table);
        write_package(item, reading, out, at)
    }

    ghost tag_is = { refl };

    ghost longest_is = { refl };
}

// The same specifier for each of eight components.
fn eight_of(specifier: u8) -> u64
    ensures { result ≡ eight_of specifier }
{
    u64::from_be_bytes([specifier; 8])
}

fn write_package(
    item: u64,
    reading: package::Packages,
    out: &mut [u8],
    at: usize,
) -> Result<usize, NoRoom>
    requires { count_in (answer_in reading.answer) ≤ 8 }
    ensures { (result ≡ line_written (package_lines item (parcel_in reading)) at out.old)
        × (out.new ≡ output_after (package_lines item (parcel_in reading)) at out.old) }
{
    match reading.answer {
        Ok(told) => { write_accepted(item, told, reading.places, reading.components, out, at) }
        Err(refusal) => Row::refused(item, refusal).write(out, at),
    }
}

fn write_accepted(
    item: u64,
    told: Package,
    places: [u16; 8],
    summaries: [u64; 8],
    out: &mut [u8],
    at: usize,
) -> Result<usize, NoRoom>
    requires { told.count ≤ 8 }
    ensures { (result ≡ line_written (accepted_lines item told places summaries) at out.old)
        × (out.new ≡ output_after (accepted_lines item told places summaries) at out.old) }
{
    let count = told.count;
    // From the end of the lines to their start, which is known last.
    let mut text = [0u8; LONGEST_PACKAGE];
    let behind = components_before(count, places, summaries, &mut text, LONGEST_PACKAGE);
    let line = Row::accepted(item, u64::from(told.kind), count as u64);
    let first = line.before(&mut text, behind);
    put(&text[first..], out, at)
}

// The lines of the components, in front of what stands at a position; answers where they start.
fn components_before(
    count: usize,
    places: [u16; 8],
    summaries: [u64; 8],
    text: &mut [u8],
    at: usize,
) -> usize
    requires { (count ≤ 8) × (count * (1 + longest) ≤ at) × (at ≤ length text.old) }
    ensures { Front (inside_lines (insides count places summaries)) at text.old result text.new
        × (at ≤ result + count * (1 + longest)) }
{
    let mut start = at;
    for i in (0..count).rev() {
        start = component_before(places[i], summaries[i], text, start);
    }
    start
}

// The line of a component and the blank before it, in front of what stands at a position; answers where they start.
fn component_before(place: u16, summary: u64, text: &mut [u8], at: usize) -> usize
    requires { (1 + longest ≤ at) × (at ≤ length text.old) }
    ensures { Front (inside_line (inside_in place summary)) at text.old result text.new
        × (at ≤ result + (1 + longest)) }
{
    let counts = summary / 281474976710656;
    let named = counts % 128;
    let other = (counts / 128 % 128).saturating_sub(named);
    let line = Row::accepted(u64::from(place), named, other);
    let start = line.before(text, at) - 1;
    text[start] = b' ';
    start
}
