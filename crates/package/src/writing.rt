// A package written: its components are weighed first, and then put down one behind another by what was measured of them,
// so that none is measured twice.
ghost use Rattle.std.specs.Prelude.{◌≡◌, [], ◌∷◌, map, ◌+◌, ◌<◌, ◌≤◌, length, true};
ghost use Rattle.element.specs.Answer.{accepted};
ghost use Rattle.element.specs.Length.{shortest};
ghost use Rattle.element.specs.Output.{written, output_after};
ghost use Rattle.component.specs.Composed.{element};
ghost use Rattle.component.specs.Told.{count_in};
ghost use Rattle.component.specs.inner.Emitting.{Put};
ghost use Rattle.operation.specs.Told.{written_in};
ghost use Rattle.package.specs.Reading.{tables_size};
ghost use Rattle.package.specs.Types.{package_type, id_size};
ghost use Rattle.package.specs.Caller.{order};
ghost use Rattle.package.specs.Told.{part_in};
ghost use Rattle.package.specs.Model.{writer};
ghost use Rattle.package.specs.inner.Weighed.{outline_for, Outcome, Fits};

use super::TABLES;
use super::carriage::first_wrong;
use super::layout::{id_size, is_package};
use component::{Measured, TABLE};
use element::{Reason, Refusal};
use operation::Outline;

// What a summary orders of the component writer: a RESULT is judged by its specifier of the eight.
fn ordered(summary: u64, given: u8) -> Outline
    ensures { result ≡ outline_for (part_in summary) given }
{
    let mut outline = operation::outline_of(summary);
    if outline.kind == 0xEA {
        outline.code.first = given;
    }
    outline
}

// ---- the octets, each at the start of what is lent: the answer is how many

// An identifier octet and the shortest length field.
fn put_head(octet: u8, body: usize, out: &mut [u8]) -> usize
    requires { (body < 65536) × (1 + length (shortest body) ≤ length out.old) }
    ensures { Put (octet ∷ shortest body) 0 out.old result out.new }
{
    let field = element::length_field(body as u16);
    let size = field.size;
    out[0] = octet;
    out[1] = field.first;
    if size == 1 {
        return 2;
    }
    out[2] = field.second;
    if size == 2 {
        return 3;
    }
    out[3] = field.third;
    4
}

// The transaction IDs.
fn put_ids(ids: &[u8], out: &mut [u8]) -> usize
    requires { (length ids.now < 128) × (2 + length ids.now ≤ length out.old) }
    ensures { (result ≡ 2 + length ids.now)
        × Put (element (0xC7 ∷ []) ids.now) 0 out.old result out.new }
{
    out[0] = 0xC7;
    out[1] = ids.len() as u8;
    for (i, id) in ids.iter().enumerate() {
        out[2 + i] = *id;
    }
    2 + ids.len()
}

// ---- an order, and what is done by it

// What a package is made of, where neither 1 nor 22 nor 23 is to be answered.
#[derive(Clone, Copy)]
struct Order<'a> {
    kind: u8,
    ids: &'a [u8],
    components: &'a [u64],
    specifiers: u64,
    table: &'a [u16],
    source: &'a [u8],
    ghost tables: { tables_size ≤ length table.now },
    ghost typed: { package_type kind ≡ true },
    ghost identified: { length ids.now ≡ id_size kind },
    ghost some: { 0 < length components.now },
    ghost few: { length components.now ≤ 8 },
}

impl Order<'_> {
    ghost use Rattle.package.specs.inner.Ordered.{
      sequence_of,
      weighed_of,
      packaged_of,
      lodged_of,
      writing_of,
      NotedOf,
      AllNotedOf,
    };

    // The octets that the components take. What the others are refused for comes before 24, so the index of a component
    // that is not carried goes along as `wrong`. The octets of each one's parameters are noted in `sets`: what puts the
    // components down need not measure them again.
    fn weigh(&self, sets: &mut [u16; 8]) -> Result<usize, Refusal>
        requires { length sets.old ≡ 8 }
        ensures { (count_in result ≡ weighed_of self.now) × AllNotedOf self.now sets.new result }
    {
        let specifiers = self.specifiers.to_le_bytes();
        let mut wrong: Option<u32> = None;
        let mut sum: usize = 0;
        for (index, summary) in self.components.iter().enumerate() {
            let given = specifiers[index];
            let outline = ordered(*summary, given);
            let Measured { whole, set, .. } = operation::weigh_sizes(
                outline.kind,
                outline.id,
                outline.code,
                outline.all,
                &self.table[TABLE * index..],
                self.source,
            )?;
            sets[index] = set as u16;
            wrong = first_wrong(self.kind, outline, given, index, wrong);
            sum += whole;
        }
        match wrong {
            Some(index) => Err(Reason::Package.at(index)),
            None => Ok(sum),
        }
    }

    // The components, each by what was measured of it.
    fn put_components(&self, sets: &[u16; 8], out: &mut [u8])
        requires { NotedOf self.now sets.now × Fits (sequence_of self.now) (length out.old) }
        ensures { out.new ≡ output_after out.old (sequence_of self.now) }
    {
        let specifiers = self.specifiers.to_le_bytes();
        let mut at: usize = 0;
        for (index, summary) in self.components.iter().enumerate() {
            let outline = ordered(*summary, specifiers[index]);
            at += component::compose_measured(
                outline.kind,
                outline.id,
                outline.code,
                outline.all,
                &self.table[TABLE * index..],
                self.source,
                sets[index],
                &mut out[at..],
            );
        }
    }

    // The package, where its component sequence has `set` octets of contents and its type's element `body`.
    fn put(&self, body: usize, set: usize, sets: &[u16; 8], out: &mut [u8])
        requires { (written (sequence_of self.now) ≡ accepted set)
            × (body ≡ 2 + length self.now.ids.now + (1 + length (shortest set) + set)) × (body < 65536)
            × (1 + length (shortest body) + body ≤ length out.old) × NotedOf self.now sets.now }
        ensures { out.new ≡ output_after out.old (packaged_of self.now) }
    {
        let at = put_head(self.kind, body, out);
        let sequence = at + put_ids(self.ids, &mut out[at..]);
        let first = sequence + put_head(0xE8, set, &mut out[sequence..]);
        self.put_components(sets, &mut out[first..]);
    }

    // 15 and 17 of the package, whose components take `set` octets, and then its octets.
    fn lay(&self, set: usize, sets: &[u16; 8], out: &mut [u8]) -> Result<usize, Refusal>
        requires { (set ≤ 32768) × (written (sequence_of self.now) ≡ accepted set) × NotedOf self.now sets.now }
        ensures { Outcome out.old (lodged_of self.now (length out.old)) (written_in result) out.new }
    {
        let body = 3 + self.ids.len() + element::length_size(set) + set;
        let whole = 1 + element::length_size(body) + body;
        if 4096 < whole {
            return Err(Reason::TooLong.at(whole as u32));
        }
        if out.len() < whole {
            return Err(Reason::Output.at(whole as u32));
        }
        self.put(body, set, sets, out);
        Ok(whole)
    }

    // All that is answered behind 1, 22 and 23, and the package.
    fn write(&self, out: &mut [u8]) -> Result<usize, Refusal>
        ensures { Outcome out.old (writing_of self.now (length out.old)) (written_in result) out.new }
    {
        let mut sets = [0u16; 8];
        let set = self.weigh(&mut sets)?;
        self.lay(set, &sets, out)
    }
}

// ---- the writer

// Writes a package. Of a summary its type, ID octets, code and count of all are looked at; the entries of component `i`
// stand in the table from number 320 * i on. Only the octets that are counted change, and on a refusal none.
pub fn write(
    kind: u8,
    ids: &[u8],
    components: &[u64],
    specifiers: u64,
    table: &[u16],
    source: &[u8],
    out: &mut [u8],
) -> Result<usize, Refusal>
    ensures { (written_in result ≡ (writer (order kind ids.now (map part_in components.now)
        specifiers table.now source.now) out.old).answer)
        × (out.new ≡ (writer (order kind ids.now (map part_in components.now)
        specifiers table.now source.now) out.old).output) }
{
    if table.len() < TABLES {
        return Err(Reason::Table.at(0));
    }
    if !is_package(kind) || ids.len() != id_size(kind) {
        return Err(Reason::Layout.at(0));
    }
    if components.is_empty() || 8 < components.len() {
        return Err(Reason::Count.at(0));
    }
    let order = Order {
        kind,
        ids,
        components,
        specifiers,
        table,
        source,
    };
    order.write(out)
}
