// An answer as one number of eight octets, the least significant first.
ghost use Rattle.std.specs.Prelude.{◌≡◌, ◌≤◌, length, IfOk, IfErr};
ghost use Rattle.operation.specs.Reading.{reading_at, table_after};
ghost use Rattle.element.specs.Answer.{accepted, refused};
ghost use Rattle.element.specs.Told.{number_of};
ghost use Rattle.operation.specs.Told.{told, reading_said};
ghost use Rattle.operation.specs.Packed.{number_with, packed_reading, told_in};
ghost use Rattle.operation.specs.Summaries.{Summarizes};

use super::{Reading, read_from};
use component::{Code, Id};
use element::Refusal;

// An answer's number in octet 0, and what goes with it in octets 1 to 4.
pub fn packed(number: u8, detail: u32) -> u64
    ensures { result ≡ number_with number detail }
{
    u64::from(number) + 256 * u64::from(detail)
}

// What is told of an accepted component: its type, ID octets and code in octets 1 to 5, the counts in 6 and 7. Octet 0
// is 0.
fn shown(reading: Reading) -> u64
    requires { (reading.id.count ≤ 2) × (reading.all ≤ 64) × (reading.named ≤ reading.all) }
    ensures { result ≡ packed_reading (accepted (reading_said reading)) }
{
    let Reading { kind, id, code, .. } = reading;
    let counts = 16384 * u64::from(id.count) + 128 * (reading.all as u64) + reading.named as u64;
    let codes = u64::from(code.first) + 256 * (u64::from(code.second) + 256 * counts);
    let ids = u64::from(id.first) + 256 * (u64::from(id.second) + 256 * codes);
    256 * (u64::from(kind.octet()) + 256 * ids)
}

// Reads as `read_from` does, and tells of an accepted component by one number: octet 0 is 0, octet 1 the type, 2 and 3
// the ID octets, 4 and 5 the code, each 0 where absent; 6 and 7 are 16,384 times the count of ID octets, and 128 times
// the count of all parameters, and the count of named ones.
pub fn summarize(
    octets: &[u8],
    from: usize,
    specifier: u8,
    table: &mut [u16],
) -> Result<u64, Refusal>
    ensures accepted { IfOk result (λ summary. Summarizes summary (told (reading_at octets.now from specifier
        (length table.old)))) }
    ensures refused { IfErr result (λ r. refused (number_of r.reason) r.detail
        ≡ told (reading_at octets.now from specifier (length table.old))) }
    ensures table { table.new ≡ table_after table.old
        (reading_at octets.now from specifier (length table.old)) }
{
    match read_from(octets, from, specifier, table) {
        Ok(reading) => Ok(shown(reading)),
        Err(Refusal { reason, detail }) => Err(reason.at(detail)),
    }
}

// The same, and tells of a refusal too: octet 0 is the number, and 1 to 4 are the detail.
pub fn summary_from(octets: &[u8], from: usize, specifier: u8, table: &mut [u16]) -> u64
    ensures { (result ≡ packed_reading (told (reading_at octets.now from specifier
        (length table.old))))
        × (table.new ≡ table_after table.old
        (reading_at octets.now from specifier (length table.old))) }
{
    match summarize(octets, from, specifier, table) {
        Ok(summary) => summary,
        Err(Refusal { reason, detail }) => packed(reason.number(), detail),
    }
}

// What a summary says of an accepted component, and what a package writer looks at of it.
#[derive(Clone, Copy, Debug, PartialEq, Eq)]
pub struct Outline {
    pub kind: u8,
    pub id: Id,
    pub code: Code,
    pub all: usize,
}

// A summary taken apart.
pub fn outline_of(summary: u64) -> Outline
    ensures { (result.kind ≡ (told_in summary).kind) × (result.id ≡ (told_in summary).id)
        × (result.code ≡ (told_in summary).code) × (result.all ≡ (told_in summary).all) }
{
    let kind = summary / 256;
    let first = kind / 256;
    let second = first / 256;
    let code = second / 256;
    let problem = code / 256;
    let counts = summary / 281474976710656;
    Outline {
        kind: (kind % 256) as u8,
        id: Id {
            count: (counts / 16384) as u8,
            first: (first % 256) as u8,
            second: (second % 256) as u8,
        },
        code: Code {
            first: (code % 256) as u8,
            second: (problem % 256) as u8,
        },
        all: (counts / 128 % 128) as usize,
    }
}
