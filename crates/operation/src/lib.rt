// The operation rows over a component: reading and writing.
#![tactic(auto)]

mod engine;
mod names;
mod rows;
mod sheet;
mod sizes;
mod summary;
mod table;

ghost use Rattle.std.specs.Prelude.{◌≡◌, ◌+◌, ◌*◌, ◌<◌, ◌≤◌, length};
ghost use Rattle.element.specs.Octets.{between};
ghost use Rattle.component.specs.Kinds.{octet_of};
ghost use Rattle.component.specs.Table.{table_size, held, id_of, code_of};
ghost use Rattle.component.specs.Layout.{code_octets, operation_place};
ghost use Rattle.component.specs.Told.{count_in, head_said, measure_in};
ghost use Rattle.operation.specs.inner.Coded.{judged_in, said};
ghost use Rattle.operation.specs.inner.Finishing.{
  Headed,
  Pointing,
  finished,
  table_finished,
};
ghost use Rattle.operation.specs.Codes.{told_code};
ghost use Rattle.operation.specs.Caller.{order};
ghost use Rattle.operation.specs.Reading.{operation_in, reading_at, table_after};
ghost use Rattle.operation.specs.Writing.{weighing, weighing_sizes};
ghost use Rattle.operation.specs.Model.{reader, writer};
ghost use Rattle.operation.specs.Told.{told, answer_in, written_in};

use component::{Code, Head, Id, Kind, Measured, Span, TABLE, WIDTH};
use element::{Reason, Refusal};
use engine::RowFault;
use rows::{judge_operation, judge_sheet};
pub use sheet::show_entries;
use sheet::{copy_numbers, parameters_from};
pub use summary::{Outline, outline_of, packed, summarize, summary_from};
use table::Entries;

// What is told of a component that is accepted: its type, ID octets and code, and how many parameters it has, those that
// the row names and the others.
#[derive(Clone, Copy, Debug, PartialEq, Eq)]
pub struct Reading {
    pub kind: Kind,
    pub id: Id,
    pub code: Code,
    pub all: usize,
    pub named: usize,
    pub other: usize,
}

// ---- reader

// The octets of the component ID.
#[tactic(auto, unfolding(component::specs::Table::id_of))]
fn id_of(octets: &[u8], id: Span) -> Id
    requires { (id.start ≤ id.end) × (id.end ≤ id.start + 2) × (id.end ≤ length octets.now) }
    ensures { result ≡ id_of (between id.start id.end octets.now) }
{
    match &octets[id.start..id.end] {
        &[first, second] => Id {
            count: 2,
            first,
            second,
        },
        &[first] => Id {
            count: 1,
            first,
            second: 0,
        },
        _ => Id {
            count: 0,
            first: 0,
            second: 0,
        },
    }
}

// The code that is told: a RESULT's is the specifier that is handed in, and a REJECT alone has a second octet.
#[tactic(auto, unfolding(crate::specs::Codes::told_code, component::specs::Layout::code_octets, component::specs::Table::code_of, component::specs::Types::format_of))]
fn code_of(octets: &[u8], head: Head, given: u8) -> Code
    requires { (head.code + 1 < length octets.now) × (length octets.now ≤ 4096) }
    ensures { result ≡ code_of (told_code (octet_of head.kind) (code_octets octets.now (head_said head)) given) }
{
    let at = head.code;
    match head.kind {
        Kind::Invoke => Code {
            first: octets[at],
            second: 0,
        },
        Kind::Result => Code {
            first: given,
            second: 0,
        },
        Kind::Error => Code {
            first: octets[at],
            second: 0,
        },
        Kind::Reject => Code {
            first: octets[at],
            second: octets[at + 1],
        },
    }
}

// Where the operation of a component stands, 0 but in an INVOKE.
#[tactic(auto, unfolding(component::specs::Layout::operation_place))]
fn operation_place(head: Head) -> u32
    requires { head.code ≤ 4096 }
    ensures { result ≡ operation_place (head_said head) }
{
    match head.kind {
        Kind::Invoke => head.code as u32,
        _ => 0,
    }
}

// The operation that its row is found by: an INVOKE's own code says it, else it is handed in.
#[tactic(auto, unfolding(crate::specs::Reading::operation_in, crate::specs::Codes::operation_of))]
fn operation_of(octets: &[u8], head: Head, given: u8) -> u8
    requires { head.code < length octets.now }
    ensures { result ≡ operation_in octets.now (head_said head) given }
{
    match head.kind {
        Kind::Invoke => octets[head.code],
        Kind::Result => given,
        Kind::Error => given,
        Kind::Reject => given,
    }
}

// The place of an entry of the sheet.
fn place_of(sheet: &[u16], entry: usize) -> u32
    requires { (entry < 64) × (table_size ≤ length sheet.now) }
    ensures { result ≡ (held sheet.now entry).place }
{
    u32::from(sheet[WIDTH * entry + 4])
}

// What the row says of the parameters: where all fits they are shown, else a refusal points into the component.
#[tactic(auto, unfolding(crate::specs::inner::Finishing::finished, crate::specs::inner::Finishing::table_finished, crate::specs::inner::Finishing::detail_of))]
fn finish(
    octets: &[u8],
    head: Head,
    given: u8,
    count: usize,
    judged: Result<usize, RowFault>,
    sheet: &[u16],
    table: &mut [u16],
) -> Result<Reading, Refusal>
    requires { Headed octets.now head × (count ≤ 64) × (table_size ≤ length sheet.now)
        × (table_size ≤ length table.old) × Pointing count judged }
    ensures { (answer_in result ≡
        finished octets.now (head_said head) given count sheet.now (judged_in judged))
        × (table.new ≡ table_finished count sheet.now table.old (judged_in judged)) }
{
    match judged {
        Ok(named) => {
            copy_numbers(sheet, table, WIDTH * count);
            Ok(Reading {
                kind: head.kind,
                id: id_of(octets, head.id),
                code: code_of(octets, head, given),
                all: count,
                named,
                other: count - named,
            })
        }
        Err(RowFault::NoRow) => Err(Reason::NoRow.at(operation_place(head))),
        Err(RowFault::Again(entry)) => Err(Reason::Again.at(place_of(sheet, entry))),
        Err(RowFault::WrongSize(entry)) => Err(Reason::WrongSize.at(place_of(sheet, entry))),
        Err(RowFault::Missing(number)) => Err(Reason::Missing.at(u32::from(number))),
        Err(RowFault::Both(entry)) => Err(Reason::Both.at(place_of(sheet, entry))),
    }
}

// Reads the component that stands from `from` to the end of the octets. A RESULT is of the operation whose specifier is
// handed in, which plays no part in the others; an entry for each parameter goes to the lent table, which a refusal
// leaves as it was.
pub fn read_from(
    octets: &[u8],
    from: usize,
    specifier: u8,
    table: &mut [u16],
) -> Result<Reading, Refusal>
    ensures { (answer_in result ≡ told (reading_at octets.now from specifier (length table.old)))
        × (table.new ≡ table_after table.old
        (reading_at octets.now from specifier (length table.old))) }
{
    if table.len() < TABLE {
        return Err(Reason::Table.at(0));
    }
    match component::head_from(octets, from) {
        Ok(head) => {
            let mut sheet = [0u16; TABLE];
            match parameters_from(octets, head.set, &mut sheet) {
                Ok(count) => {
                    let operation = operation_of(octets, head, specifier);
                    let entries = Entries {
                        table: &sheet,
                        count,
                    };
                    let judged = judge_sheet(head.kind, operation, entries);
                    finish(octets, head, specifier, count, judged, &sheet, table)
                }
                Err(Refusal { reason, detail }) => Err(reason.at(detail)),
            }
        }
        Err(Refusal { reason, detail }) => Err(reason.at(detail)),
    }
}

// Reads a component that is all of the octets.
pub fn read(component: &[u8], specifier: u8, table: &mut [u16]) -> Result<Reading, Refusal>
    ensures { (answer_in result ≡ (reader component.now specifier table.old).answer)
        × (table.new ≡ (reader component.now specifier table.old).table) }
{
    read_from(component, 0, specifier, table)
}

// ---- writer

// What the row says of the entries. Where the table has no room for them it says nothing: `measure` refuses that.
fn judge_table(kind: u8, specifier: u8, count: usize, table: &[u16]) -> Result<usize, RowFault>
    ensures { (judged_in result ≡ said kind specifier count table.now) × Pointing 64 result }
{
    if 64 < count || table.len() < WIDTH * count {
        return Ok(0);
    }
    match Kind::try_from(kind) {
        Ok(kind) => judge_operation(kind, specifier, Entries { table, count }),
        Err(_) => Ok(0),
    }
}

// The writer's answer by it: an entry is the detail of 12, of 26 and of 14.
fn row_answer(judged: Result<usize, RowFault>) -> Result<usize, Refusal>
    requires { Pointing 64 judged }
    ensures { written_in result ≡ judged_in judged }
{
    match judged {
        Ok(named) => Ok(named),
        Err(RowFault::NoRow) => Err(Reason::NoRow.at(0)),
        Err(RowFault::Again(entry)) => Err(Reason::Again.at(entry as u32)),
        Err(RowFault::WrongSize(entry)) => Err(Reason::WrongSize.at(entry as u32)),
        Err(RowFault::Missing(number)) => Err(Reason::Missing.at(u32::from(number))),
        Err(RowFault::Both(entry)) => Err(Reason::Both.at(entry as u32)),
    }
}

// What a component takes: all of the writer's refusals but 17, which needs the output.
pub fn weigh_sizes(
    kind: u8,
    id: Id,
    code: Code,
    count: usize,
    table: &[u16],
    source: &[u8],
) -> Result<Measured, Refusal>
    ensures { measure_in result ≡ weighing_sizes kind id code count table.now source.now }
{
    let sizes = component::measure(kind, id, count, table, source)?;
    row_answer(judge_table(kind, code.first, count, table))?;
    Ok(sizes)
}

// How many octets that are.
pub fn weigh(
    kind: u8,
    id: Id,
    code: Code,
    count: usize,
    table: &[u16],
    source: &[u8],
) -> Result<usize, Refusal>
    ensures { count_in result ≡ weighing kind id code count table.now source.now }
{
    let sizes = weigh_sizes(kind, id, code, count, table, source)?;
    Ok(sizes.whole)
}

// Writes a component from a table of entries and the octets that they point into. Only the octets that are counted
// change, and on a refusal none. The row is judged first, so that `compose` measures once; where the row refuses, what
// `measure` refuses comes before it.
pub fn write(
    kind: u8,
    id: Id,
    code: Code,
    count: usize,
    table: &[u16],
    source: &[u8],
    out: &mut [u8],
) -> Result<usize, Refusal>
    ensures { (written_in result ≡
        (writer (order kind id code count table.now source.now) out.old).answer)
        × (out.new ≡
        (writer (order kind id code count table.now source.now)
        out.old).output) }
{
    let judged = judge_table(kind, code.first, count, table);
    match judged {
        Ok(_) => component::compose(kind, id, code, count, table, source, out),
        Err(_) => {
            component::measure(kind, id, count, table, source)?;
            row_answer(judged)
        }
    }
}
