// The work sheet of a reading, a table of its own: a refusal never reaches the lent one.
ghost use Rattle.std.specs.Prelude.{◌≡◌, ◌+◌, ◌*◌, ◌≤◌, length};
ghost use Rattle.std.proofs.lemmas.List.Edits.{sets};
ghost use Rattle.component.specs.Table.{width, table_size, numbers_of};
ghost use Rattle.component.specs.Layout.{parameters};
ghost use Rattle.component.specs.Told.{entry_said};
ghost use Rattle.operation.specs.inner.Sheet.{Walked, copied, shown_from};

use component::{Entry, WIDTH};
use element::{Reason, Refusal};

// The numbers of entry `i`.
fn show(sheet: &mut [u16], i: usize, entry: Entry)
    requires { (width * i + width ≤ length sheet.old) × (entry.start ≤ 4096) × (entry.size ≤ 4096)
        × (entry.place ≤ 4096) }
    ensures { sheet.new ≡ sets sheet.old (width * i) (numbers_of (entry_said entry)) }
{
    let at = WIDTH * i;
    sheet[at] = entry.number;
    sheet[at + 1] = entry.form;
    sheet[at + 2] = entry.start as u16;
    sheet[at + 3] = entry.size as u16;
    sheet[at + 4] = entry.place as u16;
}

// The parameters that a component may have.
const MOST: usize = 64;

// The parameters from `from` to the end of the octets, each shown in the sheet. A function of its own, so that the loop
// keeps its registers.
#[inline(never)]
pub(crate) fn parameters_from(
    octets: &[u8],
    from: usize,
    sheet: &mut [u16],
) -> Result<usize, Refusal>
    requires { (from ≤ length octets.now) × (length octets.now ≤ 4096) × (table_size ≤ length sheet.old) }
    ensures { Walked (parameters 64 octets.now from (length octets.now)) result
        sheet.old sheet.new }
{
    let mut at = from;
    let mut count: usize = 0;
    'parameters: loop {
        if octets.len() <= at {
            break 'parameters Ok(count);
        }
        if MOST <= count {
            break 'parameters Err(Reason::Many.at(at as u32));
        }
        match component::parameter_from(octets, at) {
            Ok(entry) => {
                show(sheet, count, entry);
                at = entry.start + entry.size;
                count += 1;
            }
            Err(Refusal { reason, detail }) => break 'parameters Err(reason.at(detail)),
        }
    }
}

// The first `count` numbers of the one in place of the other's.
pub(crate) fn copy_numbers(from: &[u16], to: &mut [u16], count: usize)
    requires { (count ≤ length from.now) × (count ≤ length to.old) }
    ensures { to.new ≡ copied from.now to.old count }
{
    to[..count].copy_from_slice(&from[..count]);
}

// The numbers of the first `count` entries of a sheet in front of a table; where one of the two is too short, nothing.
pub fn show_entries(sheet: &[u16], count: usize, table: &mut [u16])
    ensures { table.new ≡ shown_from sheet.now count table.old }
{
    if 64 < count || sheet.len() < WIDTH * count || table.len() < WIDTH * count {
        return;
    }
    copy_numbers(sheet, table, WIDTH * count);
}
