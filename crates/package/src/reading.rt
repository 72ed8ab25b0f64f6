// A package read: its layout, its components in order, and Table 2.
ghost use Rattle.std.specs.Prelude.{◌≡◌, ◌∷◌, ◌*◌, ◌≤◌, ◌<◌, length, drop, replicate};
ghost use Rattle.component.specs.Table.{table_size};
ghost use Rattle.operation.specs.Packed.{told_in};
ghost use Rattle.operation.specs.inner.Sheet.{shown_from};
ghost use Rattle.package.specs.Reading.{sequence_reading, reading_into, tables_after};
ghost use Rattle.package.specs.Told.{told, outlined, answer_in, places_after, summaries_after};
ghost use Rattle.package.specs.Model.{reader};
ghost use Rattle.package.specs.inner.Opened.{found};
ghost use Rattle.package.specs.inner.Leftover.{
  Stand,
  EndsAt,
  rest_in,
  closing,
  leftover,
  done,
  tables_rest,
  places_rest,
  summaries_rest,
};

use super::carriage::first_wrong;
use super::layout::{count_components, opening};
use super::{Opening, Package, Packages, TABLES};
use component::TABLE;
use element::{Reason, Refusal};

// ---- one component

// Where the component at `at` ends.
fn end_of(octets: &[u8], at: usize) -> usize
    requires { (at < length octets.now) × (length octets.now ≤ 4096) }
    ensures { EndsAt octets.now at result }
{
    match component::element_from(octets, at) {
        Ok(component) => component.end,
        // Not reached: all components were walked over.
        Err(_) => octets.len(),
    }
}

// A component that is accepted: its entries, its place and its summary in front of what is lent.
fn show(
    sheet: &[u16],
    summary: u64,
    at: usize,
    table: &mut [u16],
    places: &mut [u16],
    summaries: &mut [u64],
)
    requires { (at ≤ 4096) × (1 ≤ length places.old) × (1 ≤ length summaries.old) }
    ensures { (table.new ≡
        shown_from sheet.now (told_in summary).all table.old)
        × (places.new ≡ at ∷ drop 1 places.old)
        × (summaries.new ≡ summary ∷ drop 1 summaries.old) }
{
    operation::show_entries(sheet, operation::outline_of(summary).all, table);
    places[0] = at as u16;
    summaries[0] = summary;
}

// ---- the components

// The end of the components: 24 where one is not carried.
#[tactic(auto, unfolding(crate::specs::inner::Leftover::closing))]
fn close(wrong: Option<u32>) -> Result<(), Refusal>
    ensures { rest_in result ≡ closing wrong }
{
    match wrong {
        Some(at) => Err(Reason::Package.at(at)),
        None => Ok(()),
    }
}

// The `left` components from `at` on, of which the first is judged by the lowest octet of the specifiers. Each is shown
// once all behind it are accepted and carried too, so that a refusal changes nothing.
fn read_rest(
    octets: &[u8],
    packet: u8,
    at: usize,
    left: usize,
    specifiers: u64,
    wrong: Option<u32>,
    table: &mut [u16],
    places: &mut [u16],
    summaries: &mut [u64],
) -> Result<(), Refusal>
    requires { Stand octets.now at left × (length octets.now ≤ 4096)
        × (table_size * left ≤ length table.old) × (left ≤ length places.old) × (left ≤ length summaries.old) }
    ensures { (rest_in result ≡ done (leftover packet octets.now at left specifiers wrong))
        × (table.new ≡
        tables_rest table.old (leftover packet octets.now at left specifiers wrong))
        × (places.new ≡
        places_rest places.old (leftover packet octets.now at left specifiers wrong))
        × (summaries.new ≡
        summaries_rest summaries.old (leftover packet octets.now at left specifiers wrong)) }
{
    if left == 0 {
        return close(wrong);
    }
    let end = end_of(octets, at);
    let given = (specifiers % 256) as u8;
    let mut sheet = [0u16; TABLE];
    match operation::summarize(&octets[0..end], at, given, &mut sheet) {
        Ok(summary) => {
            let outline = operation::outline_of(summary);
            let wrong = first_wrong(packet, outline, given, at, wrong);
            match read_rest(
                octets,
                packet,
                end,
                left - 1,
                specifiers / 256,
                wrong,
                &mut table[TABLE..],
                &mut places[1..],
                &mut summaries[1..],
            ) {
                Ok(()) => {
                    show(&sheet, summary, at, table, places, summaries);
                    Ok(())
                }
                Err(refusal) => Err(refusal),
            }
        }
        Err(refusal) => Err(refusal),
    }
}

// ---- the package

// The component sequence, whose contents start at `first`: 22 of its walk, 23, and the components.
fn read_sequence(
    octets: &[u8],
    opening: Opening,
    specifiers: u64,
    table: &mut [u16],
    places: &mut [u16],
    summaries: &mut [u64],
) -> Result<Package, Refusal>
    requires { (0 < opening.first) × (opening.first ≤ length octets.now) × (length octets.now ≤ 4096)
        × (opening.ids.start ≤ opening.ids.end) × (opening.sequence ≤ 4096) × (8 * table_size ≤ length table.old)
        × (8 ≤ length places.old) × (8 ≤ length summaries.old) }
    ensures { (answer_in result ≡
        outlined (told (sequence_reading octets.now specifiers (found opening))))
        × (table.new ≡ tables_after table.old (sequence_reading octets.now specifiers (found opening)))
        × (places.new ≡
        places_after places.old (told (sequence_reading octets.now specifiers (found opening))))
        × (summaries.new ≡
        summaries_after summaries.old (told (sequence_reading octets.now specifiers (found opening)))) }
{
    let count = count_components(octets, opening.first)?;
    if count == 0 || 8 < count {
        return Err(Reason::Count.at(opening.sequence as u32));
    }
    let kind = octets[0];
    read_rest(
        octets,
        kind,
        opening.first,
        count,
        specifiers,
        None,
        table,
        places,
        summaries,
    )?;
    Ok(Package {
        kind,
        ids: opening.ids.start,
        size: opening.ids.end - opening.ids.start,
        count,
    })
}

// Reads a package. Component `i`, from 0, is judged by octet `i` of the specifiers, 0 the least significant; an INVOKE
// by its own. Its entries go to the lent table from number 320 * i on, its place and its summary to lists lent for
// eight. A refusal leaves all three as they were.
pub fn read_into(
    octets: &[u8],
    specifiers: u64,
    table: &mut [u16],
    places: &mut [u16],
    summaries: &mut [u64],
) -> Result<Package, Refusal>
    ensures { (answer_in result ≡ outlined (told (reading_into octets.now specifiers
        (length table.old) (length places.old) (length summaries.old))))
        × (table.new ≡ tables_after table.old (reading_into octets.now specifiers
        (length table.old) (length places.old) (length summaries.old)))
        × (places.new ≡ places_after places.old (told (reading_into octets.now specifiers
        (length table.old) (length places.old) (length summaries.old))))
        × (summaries.new ≡ summaries_after summaries.old (told (reading_into octets.now
        specifiers
        (length table.old) (length places.old) (length summaries.old)))) }
{
    if places.len() < 8 || summaries.len() < 8 || table.len() < TABLES {
        return Err(Reason::Table.at(0));
    }
    if octets.is_empty() || 4096 < octets.len() {
        return Err(Reason::Size.at(0));
    }
    let opening = opening(octets)?;
    read_sequence(octets, opening, specifiers, table, places, summaries)
}

// The same, with places and summaries by value.
pub fn read(octets: &[u8], specifiers: u64, table: &mut [u16]) -> Packages
    ensures { (answer_in result.answer ≡
        outlined (reader octets.now specifiers table.old).answer)
        × (result.places ≡
        places_after (replicate 8 0) (reader octets.now specifiers table.old).answer)
        × (result.components ≡
        summaries_after (replicate 8 0) (reader octets.now specifiers table.old).answer)
        × (table.new ≡ (reader octets.now specifiers table.old).table) }
{
    let mut places = [0u16; 8];
    let mut components = [0u64; 8];
    let answer = read_into(octets, specifiers, table, &mut places, &mut components);
    Packages {
        answer,
        places,
        components,
    }
}
