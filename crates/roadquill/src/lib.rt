// The readers and writers of components and of packages, and the names of errors, for C: numbers and slices alone.
#![tactic(auto)]

ghost use Rattle.std.specs.Prelude.{◌≡◌, ◌<◌, map, length, IfOk};
ghost use Rattle.element.specs.Output.{written, output_after};
ghost use Rattle.errors.specs.Naming.{naming};
ghost use Rattle.operation.specs.Caller.{order};
ghost use Rattle.operation.specs.Model.{reader, writer};
ghost use Rattle.operation.specs.Packed.{packed_reading, packed_writing};
ghost use Rattle.operation.specs.Told.{written_in};
ghost use Rattle.package.specs.Caller.{order as parcel};
ghost use Rattle.package.specs.Reading.{reading_into, tables_after};
ghost use Rattle.package.specs.Told.{told, outlined, answer_in, summaries_after, part_in};
ghost use Rattle.package.specs.Model as PM;
ghost use Rattle.package.specs.Packed.{packed_package, PackageFits};
ghost use Rattle.roadquill.specs.Id.{id_from, code_from};

use component::{Code, Id};
use element::Refusal;
use package::Package;

// An answer of a writer: octet 0 is the answer, 0 where it is accepted. Octets 1 to 4 are then the count of octets, else
// the detail.
#[tactic(auto, unfolding(operation::specs::Packed::packed_writing))]
fn packed_writing(answer: Result<usize, Refusal>) -> u64
    requires { IfOk answer (λ octets. octets < 4294967296) }
    ensures { result ≡ packed_writing (written_in answer) }
{
    match answer {
        Ok(octets) => operation::packed(0, octets as u32),
        Err(refusal) => operation::packed(refusal.reason.number(), refusal.detail),
    }
}

// Reads a component. Octet 0 of the result is the answer, 0 where it is accepted. Then octet 1 is the type, 2 and 3 are
// the ID octets, 4 and 5 the code, each 0 where absent; 6 and 7 are 16,384 times the count of ID octets, and 128 times
// the count of all parameters, and the count of named ones. Else octets 1 to 4 are the detail. An entry for each
// parameter goes to the lent table, which a refusal leaves as it was.
#[unsafe(no_mangle)]
pub extern "C" fn roadquill_read(component: &[u8], specifier: u8, table: &mut [u16]) -> u64
    ensures { (result ≡ packed_reading (reader component.now specifier table.old).answer)
        × (table.new ≡ (reader component.now specifier table.old).table) }
{
    operation::summary_from(component, 0, specifier, table)
}

// Writes a component from a table of entries and the octets that they point into. The second octet of the code is
// looked at in a REJECT alone, whose second problem octet it is. Octet 0 of the result is the answer, 0 where it is
// accepted. Octets 1 to 4 are then the count of octets written, else the detail. Only the octets that are counted
// change, and on a refusal none.
#[unsafe(no_mangle)]
pub extern "C" fn roadquill_write(
    kind: u8,
    count: u8,
    first: u8,
    second: u8,
    code: u8,
    problem: u8,
    entries: usize,
    table: &[u16],
    source: &[u8],
    output: &mut [u8],
) -> u64
    ensures { (result ≡ packed_writing (writer (order kind (id_from count first second) (code_from code problem) entries
        table.now source.now) output.old).answer)
        × (output.new ≡ (writer (order kind (id_from count first second) (code_from code problem) entries
        table.now source.now) output.old).output) }
{
    let id = Id {
        count,
        first,
        second,
    };
    let codes = Code {
        first: code,
        second: problem,
    };
    packed_writing(operation::write(kind, id, codes, entries, table, source, output))
}

// An answer of the package reader: octet 0 is the answer, 0 where it is accepted. Then octet 1 is the type, 2 the count
// of transaction ID octets, 3 and 4 their place, least significant first, and 5 the count of components. Else octets 1
// to 4 are the detail.
fn packed_package(answer: Result<Package, Refusal>) -> u64
    requires { PackageFits (answer_in answer) }
    ensures { result ≡ packed_package (answer_in answer) }
{
    match answer {
        Ok(told) => {
            let places = told.ids as u64 + 65536 * (told.count as u64);
            256 * (u64::from(told.kind) + 256 * (told.size as u64 + 256 * places))
        }
        Err(refusal) => operation::packed(refusal.reason.number(), refusal.detail),
    }
}

// Reads a package. Octet `i` of the specifiers, 0 the least significant, is component `i`'s. Its entries go to the lent
// table from number 320 * i on, and its summary, as `roadquill_read` gives it, to `components`, which is lent for
// eight. A refusal leaves both as they were.
#[unsafe(no_mangle)]
pub extern "C" fn roadquill_read_package(
    octets: &[u8],
    specifiers: u64,
    table: &mut [u16],
    components: &mut [u64],
) -> u64
    ensures { (result ≡ packed_package (outlined (told (reading_into octets.now specifiers
        (length table.old) 8 (length components.old)))))
        × (table.new ≡ tables_after table.old (reading_into octets.now specifiers
        (length table.old) 8 (length components.old)))
        × (components.new ≡ summaries_after components.old (told (reading_into octets.now
        specifiers (length table.old) 8 (length components.old)))) }
{
    let mut places = [0u16; 8];
    packed_package(package::read_into(octets, specifiers, table, &mut places, components))
}

// Writes a package from its type, its transaction ID octets, a summary for each component, of which the type, ID
// octets, code and count of all are used, the specifiers, the table of entries and the octets that they point into.
// Result and output are as those of `roadquill_write`.
#[unsafe(no_mangle)]
pub extern "C" fn roadquill_write_package(
    kind: u8,
    ids: &[u8],
    components: &[u64],
    specifiers: u64,
    table: &[u16],
    source: &[u8],
    output: &mut [u8],
) -> u64
    ensures { (result ≡ packed_writing (PM.writer (parcel kind ids.now
        (map part_in components.now) specifiers table.now source.now)
        output.old).answer)
        × (output.new ≡ (PM.writer (parcel kind ids.now (map part_in components.now)
        specifiers table.now source.now) output.old).output) }
{
    packed_writing(package::write(kind, ids, components, specifiers, table, source, output))
}

// Puts the name of an error code at the start of a lent buffer; a code that Table 6 reserves has a name of no octets.
// Octet 0 of the result is the answer, 0 or, where the buffer is too short, 17. Octets 1 to 4 are the count of octets
// of the name. Only these change, and on a refusal none.
#[unsafe(no_mangle)]
pub extern "C" fn roadquill_error_name(code: u8, name: &mut [u8]) -> u64
    ensures { (result ≡ packed_writing (written (naming code (length name.old))))
        × (name.new ≡ output_after name.old (naming code (length name.old))) }
{
    packed_writing(errors::put_name(code, name))
}
