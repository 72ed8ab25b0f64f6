// The octets of a component, counted and composed.
ghost use Rattle.std.specs.Prelude.{◌≡◌, [], ◌∷◌, ◌+◌, ◌*◌, ◌-◌, ◌≤◌, ◌<◌, length, take, drop};
ghost use Rattle.element.specs.Length.{shortest};
ghost use Rattle.element.specs.Identifier.{identifier};
ghost use Rattle.element.specs.Encoded.{octets_in};
ghost use Rattle.component.specs.Types.{coding_of};
ghost use Rattle.component.specs.Composed.{element, set_of};
ghost use Rattle.component.specs.Needed.{element_size, coding_size, body_size};
ghost use Rattle.component.specs.Composing.{entries_from, measured, composing};
ghost use Rattle.element.specs.Output.{written, output_after};
ghost use Rattle.component.specs.Table.{width, held, held_from, EntryStands, parameters_from};
ghost use Rattle.component.specs.inner.Emitting.{
  Put,
  coded_octets,
  head_octets,
  AllStand,
  sized,
  measured_of,
  at_most,
  octets_at,
  size_in,
  fitting,
  laid,
};
ghost use Rattle.component.specs.Told.{entry_said, count_in, measure_in};

use super::{Code, Entry, Id, Kind, Measured, WIDTH};
use element::{Field, Reason, Refusal};

// The octets that a component would take: the writer's refusals that need neither a row nor the output.
#[tactic(auto, unfolding(crate::specs::Composing::measured, crate::specs::Composing::entries_of))]
pub fn measure(
    kind: u8,
    id: Id,
    count: usize,
    table: &[u16],
    source: &[u8],
) -> Result<Measured, Refusal>
    ensures { measure_in result ≡ measured kind id count table.now source.now }
{
    let kind = Kind::try_from(kind)?;
    if !kind.fits(usize::from(id.count)) {
        return Err(Reason::Id.at(0));
    }
    if 64 < count {
        return Err(Reason::Many.at(0));
    }
    if table.len() < WIDTH * count {
        return Err(Reason::Table.at(0));
    }
    let set = set_size(count, table, source)?;
    whole_size(kind.octet(), id.count, set)
}

// ---- how many octets

// An element: its identifier, its length field and its contents.
fn element_size(head: usize, body: usize) -> usize
    requires { (head ≤ 3) × (body ≤ 5000000) }
    ensures { (result ≡ element_size head body) × (result ≤ head + body + 4) }
{
    head + element::length_size(body) + body
}

// The element of the code; a RESULT has none, and neither has what is no type.
#[tactic(auto, unfolding(crate::specs::Needed::coding_size, crate::specs::Types::format_of))]
fn coding_size(kind: u8) -> usize
    ensures { (result ≡ coding_size (coding_of kind)) × (result ≤ 4) }
{
    match Kind::try_from(kind) {
        Ok(Kind::Invoke) => 4,
        Ok(Kind::Error) => 3,
        Ok(Kind::Reject) => 4,
        Ok(Kind::Result) => 0,
        Err(_) => 0,
    }
}

// The contents of the type's element.
fn body_size(kind: u8, octets: u8, set: usize) -> usize
    requires { (octets ≤ 2) × (set ≤ 4194688) }
    ensures { (result ≡ body_size kind octets set) × (result ≤ 4200000) }
{
    2 + usize::from(octets) + coding_size(kind) + element_size(1, set)
}

// The whole component, where its parameters take `set` octets: 15 where it is longer than 4,096.
#[tactic(auto, unfolding(crate::specs::inner::Emitting::measured_of))]
#[inline(always)]
fn whole_size(kind: u8, octets: u8, set: usize) -> Result<Measured, Refusal>
    requires { (octets ≤ 2) × (set ≤ 4194688) }
    ensures { measure_in result ≡ measured_of kind octets set }
{
    let body = body_size(kind, octets, set);
    let whole = element_size(1, body);
    if 4096 < whole {
        return Err(Reason::TooLong.at(whole as u32));
    }
    Ok(Measured { whole, body, set })
}

impl Entry {
    // The entry that a table holds.
    #[inline(always)]
    fn held(table: &[u16], i: usize) -> Self
        requires { width * i + 4 < length table.now }
        ensures held { entry_said result ≡ held table.now i }
        ensures small { (result.start < 65536) × (result.size < 65536) }
    {
        let at = WIDTH * i;
        Entry {
            number: table[at],
            form: table[at + 1],
            start: usize::from(table[at + 2]),
            size: usize::from(table[at + 3]),
            place: usize::from(table[at + 4]),
        }
    }

    // The octets of its parameter, where it is one of a parameter whose contents stand in the source.
    #[tactic(auto, unfolding(crate::specs::Composing::entry_stands, crate::specs::Part::fits))]
    #[inline(always)]
    fn octets_in(self, source: &[u8]) -> Option<usize>
        requires { (self.start < 65536) × (self.size < 65536) }
        ensures { result ≡ size_in source.now (entry_said self) }
    {
        if 16383 < self.number || 1 < self.form || source.len() < self.start + self.size {
            return None;
        }
        Some(element_size(element::identifier_size(self.number), self.size))
    }
}

// The parameters: 16 at the first entry that does not stand.
#[inline(always)]
fn set_size(count: usize, table: &[u16], source: &[u8]) -> Result<usize, Refusal>
    requires { (count ≤ 64) × (width * count ≤ length table.now) }
    ensures { (count_in result ≡ sized (entries_from 0 count table.now source.now))
        × at_most 4194688 result }
{
    let mut sum: usize = 0;
    for i in 0..count {
        let Some(size) = Entry::held(table, i).octets_in(source) else {
            return Err(Reason::Entry.at(i as u32));
        };
        sum += size;
    }
    Ok(sum)
}

// ---- the octets, each at a place of the output: the answer is the place behind them

fn put_field(out: &mut [u8], at: usize, field: Field) -> usize
    requires { (1 ≤ field.size) × (field.size ≤ 3) × (at + field.size ≤ length out.old) }
    ensures { Put (octets_in field) at out.old result out.new }
{
    let size = field.size;
    out[at] = field.first;
    if size == 1 {
        return at + 1;
    }
    out[at + 1] = field.second;
    if size == 2 {
        return at + 2;
    }
    out[at + 2] = field.third;
    at + 3
}

fn put_length(out: &mut [u8], at: usize, value: usize) -> usize
    requires { (value < 65536) × (at + length (shortest value) ≤ length out.old) }
    ensures { Put (shortest value) at out.old result out.new }
{
    put_field(out, at, element::length_field(value as u16))
}

fn put_identifier(out: &mut [u8], at: usize, number: u16, form: u16) -> usize
    requires { (number ≤ 16383) × (form ≤ 1) × (at + length (identifier number form) ≤ length out.old) }
    ensures { Put (identifier number form) at out.old result out.new }
{
    put_field(out, at, element::identifier_field(number, form))
}

// Octets one by one.
fn copy_each(source: &[u8], start: usize, size: usize, out: &mut [u8], at: usize) -> usize
    requires { (start + size ≤ length source.now) × (at + size ≤ length out.old) }
    ensures { Put (take size (drop start source.now)) at out.old result out.new }
{
    let mut i: usize = 0;
    'octets: while i < size {
        out[at + i] = source[start + i];
        i = i + 1;
    }
    at + size
}

// At most 32 octets as a block: where the compiler knows how many, they are loaded and stored at once.
fn copy_block(source: &[u8], start: usize, size: usize, out: &mut [u8], at: usize) -> usize
    requires { (start + size ≤ length source.now) × (at + size ≤ length out.old) × (size ≤ 32) }
    ensures { Put (take size (drop start source.now)) at out.old result out.new }
{
    let mut block = [0u8; 32];
    copy_each(source, start, size, &mut block, 0);
    copy_each(&block, 0, size, out, at)
}

// The first `width` octets and the last `width`, of which some may be in both.
fn copy_ends(
    source: &[u8],
    start: usize,
    size: usize,
    out: &mut [u8],
    at: usize,
    width: usize,
) -> usize
    requires { (start + size ≤ length source.now) × (at + size ≤ length out.old)
        × (width ≤ 16) × (width ≤ size) × (size ≤ 2 * width) }
    ensures { Put (take size (drop start source.now)) at out.old result out.new }
{
    let last = size - width;
    copy_block(source, start, width, out, at);
    copy_block(source, start + last, width, out, at + last)
}

// Fewer than 32 octets as two blocks of 16; else blocks of 32, and the last 32, of which some may be in both.
fn copy_blocks(source: &[u8], start: usize, size: usize, out: &mut [u8], at: usize) -> usize
    requires { (start + size ≤ length source.now) × (at + size ≤ length out.old) × (16 ≤ size) }
    ensures { Put (take size (drop start source.now)) at out.old result out.new }
{
    if size < 32 {
        return copy_ends(source, start, size, out, at, 16);
    }
    let mut i: usize = 0;
    'blocks: while i + 32 < size {
        copy_block(source, start + i, 32, out, at + i);
        i = i + 32;
    }
    let last = size - 32;
    copy_block(source, start + last, 32, out, at + last)
}

fn copy_octets(source: &[u8], start: usize, size: usize, out: &mut [u8], at: usize) -> usize
    requires { (start + size ≤ length source.now) × (at + size ≤ length out.old) }
    ensures { Put (take size (drop start source.now)) at out.old result out.new }
{
    if size < 4 {
        if size < 2 {
            return copy_each(source, start, size, out, at);
        }
        return copy_ends(source, start, size, out, at, 2);
    }
    if size < 8 {
        return copy_ends(source, start, size, out, at, 4);
    }
    if size < 16 {
        return copy_ends(source, start, size, out, at, 8);
    }
    copy_blocks(source, start, size, out, at)
}

// An element of at most two octets of contents.
fn put_few(out: &mut [u8], at: usize, octet: u8, count: u8, first: u8, second: u8) -> usize
    requires { (count ≤ 2)
        × (at + length (element (octet ∷ []) (take count (first ∷ second ∷ []))) ≤ length out.old) }
    ensures { Put (element (octet ∷ []) (take count (first ∷ second ∷ []))) at out.old result
        out.new }
{
    out[at] = octet;
    out[at + 1] = count;
    if count == 0 {
        return at + 2;
    }
    out[at + 2] = first;
    if count == 1 {
        return at + 3;
    }
    out[at + 3] = second;
    at + 4
}

// The element of the code, as the type has it: behind the family in an INVOKE, and none in a RESULT.
#[tactic(auto, unfolding(crate::specs::inner::Emitting::coded_octets, crate::specs::Composed::code_element, crate::specs::Types::format_of, crate::specs::Table::written_code))]
fn put_code(out: &mut [u8], at: usize, kind: u8, code: Code) -> usize
    requires { at + length (coded_octets kind code) ≤ length out.old }
    ensures { Put (coded_octets kind code) at out.old result out.new }
{
    match Kind::try_from(kind) {
        Ok(Kind::Invoke) => put_few(out, at, 0xD1, 2, 9, code.first),
        Ok(Kind::Error) => put_few(out, at, 0xD4, 1, code.first, 0),
        Ok(Kind::Reject) => put_few(out, at, 0xD5, 2, code.first, code.second),
        Ok(Kind::Result) => at,
        Err(_) => at,
    }
}

// All that stands before the parameters: the contents of the type's element take `body` octets, and the parameters
// `set`.
fn put_head(kind: u8, id: Id, code: Code, body: usize, set: usize, out: &mut [u8]) -> usize
    requires { (id.count ≤ 2) × (body < 65536) × (set < 65536)
        × (length (head_octets kind id code body set) ≤ length out.old) }
    ensures { Put (head_octets kind id code body set) 0 out.old result out.new }
{
    out[0] = kind;
    let component = put_length(out, 1, body);
    let encoded = put_few(out, component, 0xCF, id.count, id.first, id.second);
    let parameters = put_code(out, encoded, kind, code);
    out[parameters] = 0xF2;
    put_length(out, parameters + 1, set)
}

#[inline(always)]
fn put_parameter(entry: Entry, source: &[u8], out: &mut [u8], at: usize) -> usize
    requires { EntryStands source.now (entry_said entry) × (entry.size < 65536)
        × (at + length (octets_at source.now (entry_said entry)) ≤ length out.old) }
    ensures { Put (octets_at source.now (entry_said entry)) at out.old result out.new }
{
    let field = put_identifier(out, at, entry.number, entry.form);
    let contents = put_length(out, field, entry.size);
    copy_octets(source, entry.start, entry.size, out, contents)
}

fn put_parameters(count: usize, table: &[u16], source: &[u8], out: &mut [u8], at: usize) -> usize
    requires { (count ≤ 64) × (width * count ≤ length table.now) × AllStand count table.now source.now
        × (at + length (set_of (parameters_from 0 count table.now source.now)) ≤ length out.old) }
    ensures { Put (set_of (parameters_from 0 count table.now source.now)) at
        out.old result out.new }
{
    let mut next = at;
    for i in 0..count {
        next = put_parameter(Entry::held(table, i), source, out, next);
    }
    next
}

// The component into a lent output: what `measure` refuses, then 17; only the octets that are counted change.
pub fn compose(
    kind: u8,
    id: Id,
    code: Code,
    count: usize,
    table: &[u16],
    source: &[u8],
    out: &mut [u8],
) -> Result<usize, Refusal>
    ensures { (count_in result ≡
        written (composing kind id code count table.now source.now
        (length out.old)))
        × (out.new ≡ output_after out.old
        (composing kind id code count table.now source.now (length out.old))) }
{
    let sizes = measure(kind, id, count, table, source)?;
    if out.len() < sizes.whole {
        return Err(Reason::Output.at(sizes.whole as u32));
    }
    let parameters = put_head(kind, id, code, sizes.body, sizes.set, out);
    Ok(put_parameters(count, table, source, out, parameters))
}

// ---- a component that was measured before

// The parameters, up to the first that does not stand or finds no room.
fn put_fitting(count: usize, table: &[u16], source: &[u8], out: &mut [u8], at: usize) -> usize
    requires { (count ≤ 64) × (width * count ≤ length table.now) × (at ≤ length out.old) }
    ensures { Put (fitting source.now (length out.old - at)
        (held_from 0 count table.now)) at out.old result out.new }
{
    let mut next = at;
    for i in 0..count {
        let entry = Entry::held(table, i);
        match entry.octets_in(source) {
            Some(size) if size <= out.len() - next => {
                next = put_parameter(entry, source, out, next);
            }
            _ => return next,
        }
    }
    next
}

// The component of parameters that take `set` octets, as `measure` has said: they are not measured again. So that this
// is safe whatever it is handed, each is asked as it is put down. The answer is how many octets were.
pub fn compose_measured(
    kind: u8,
    id: Id,
    code: Code,
    count: usize,
    table: &[u16],
    source: &[u8],
    set: u16,
    out: &mut [u8],
) -> usize
    ensures { Put (laid kind id code count table.now source.now set
        (length out.old)) 0 out.old result out.new }
{
    if 2 < id.count || 64 < count || 4096 < set || table.len() < WIDTH * count {
        return 0;
    }
    let set = usize::from(set);
    let body = body_size(kind, id.count, set);
    if out.len() < element_size(1, body) {
        return 0;
    }
    let parameters = put_head(kind, id, code, body, set, out);
    put_fitting(count, table, source, out, parameters)
}
