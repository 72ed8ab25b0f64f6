// The layout of a component, from left to right, and a part of it handed back.
ghost use Rattle.std.specs.Prelude.{ℕ, ◌≡◌, ◌+◌, ◌<◌, ◌≤◌, length, IfOk, IfSome};
ghost use Rattle.element.specs.Told.{number_of};
ghost use Rattle.component.specs.Types.{coding_of};
ghost use Rattle.component.specs.Kinds.{octet_of};
ghost use Rattle.component.specs.Layout.{
  span,
  contents,
  wanted,
  element_from,
  wanted_from,
  set_at,
  coded_at,
  code_at,
  behind_id,
  body_at,
  head_at,
  parameter_at,
  parameter_from,
};
ghost use Rattle.component.specs.inner.Within.{Bounds};
ghost use Rattle.component.specs.Part.{fits, part_of};
ghost use Rattle.component.specs.Told.{span_said, span_in, wanted_in, entry_in, head_in};

use super::{Entry, Head, Kind, Span};
use element::{Identifier, Length, Reason, Refusal};

// Octets that a component may have. Each parent in them ends where they end.
#[derive(Clone, Copy)]
struct Component<'a> {
    octets: &'a [u8],
    ghost short: { length octets.now ≤ 4096 },
}

// A refusal is handed on by its reason and its detail: moved whole, it goes through memory, octet by octet where it is
// padded, and the reader waits for that.
impl Component<'_> {
    // ---- one element

    // The contents of the element at `at`, whose length field stands at `from`.
    #[tactic(auto, unfolding(crate::specs::Layout::contents, crate::specs::Layout::span_of))]
    #[inline(always)]
    fn contents_at(self, at: usize, from: usize) -> Result<Span, Refusal>
        requires { (at ≤ from) × (from ≤ length self.octets.now) }
        ensures answer { span_in result ≡ contents self.entry.octets.now at from (length self.entry.octets.now) }
        ensures inside { IfOk result (λ x. (from < x.start) × (x.start ≤ x.end) × (x.end ≤ length self.entry.octets.now)) }
    {
        let octets = self.octets;
        let field = element::read_length(&octets[from..octets.len()]);
        let Some(Length { value, size }) = field else {
            return Err(Reason::Length.at(from as u32));
        };
        let start = from + size;
        let end = start + value;
        if octets.len() < end {
            return Err(Reason::Overrun.at(at as u32));
        }
        Ok(Span { start, end })
    }

    // The element of one identifier octet that is wanted at `at`: another octet there is refused for the reason.
    #[tactic(auto, unfolding(crate::specs::Layout::wanted))]
    #[inline(always)]
    fn wanted_at(self, octet: u8, reason: Reason, at: usize) -> Result<Span, Refusal>
        requires { at ≤ length self.octets.now }
        ensures answer { span_in result
            ≡ wanted self.entry.octets.now octet (number_of reason) at (length self.entry.octets.now) }
        ensures inside { IfOk result (λ x. (at + 1 < x.start) × (x.start ≤ x.end) × (x.end ≤ length self.entry.octets.now)) }
    {
        let octets = self.octets;
        match octets.get(at) {
            None => Err(Reason::Ended.at(octets.len() as u32)),
            Some(&first) if first == octet => self.contents_at(at, at + 1),
            Some(_) => Err(reason.at(at as u32)),
        }
    }

    // The set of parameters that is wanted at `at`, and has to end where its parent ends.
    #[tactic(auto, unfolding(crate::specs::Layout::set_at))]
    #[inline(always)]
    fn set_at(self, at: usize) -> Result<Span, Refusal>
        requires { at ≤ length self.octets.now }
        ensures answer { span_in result ≡ set_at self.entry.octets.now at (length self.entry.octets.now) }
        ensures inside { IfOk result (λ x. (at + 1 < x.start) × (x.start ≤ length self.entry.octets.now)) }
    {
        match self.wanted_at(0xF2, Reason::Set, at) {
            Ok(set) if set.end != self.octets.len() => Err(Reason::LeftOver.at(set.end as u32)),
            Ok(Span { start, end }) => Ok(Span { start, end }),
            Err(Refusal { reason, detail }) => Err(reason.at(detail)),
        }
    }

    // ---- all but the parameters

    // The element of a code of `size` octets, with the family before it or without: the code in it.
    #[tactic(auto, unfolding(crate::specs::Layout::coded_at))]
    #[inline(always)]
    fn coded_at(
        self,
        octet: u8,
        reason: Reason,
        family: bool,
        size: usize,
        at: usize,
    ) -> Result<Span, Refusal>
        requires { (size ≤ 2) × (at ≤ length self.octets.now) }
        ensures answer { span_in result
            ≡ coded_at self.entry.octets.now octet (number_of reason) family size at (length self.entry.octets.now) }
        ensures inside { IfOk result (λ x. (at < x.start) × (x.start ≤ x.end) × (x.end ≤ length self.entry.octets.now)) }
    {
        match self.wanted_at(octet, reason, at) {
            Ok(Span { start, end }) => {
                let before = usize::from(family);
                if end - start != before + size || family && self.octets[start] != 9 {
                    return Err(reason.at(at as u32));
                }
                Ok(Span {
                    start: start + before,
                    end,
                })
            }
            Err(Refusal { reason, detail }) => Err(reason.at(detail)),
        }
    }

    // The element between the component ID and the set, as the type has it; a RESULT has none.
    #[tactic(auto, unfolding(crate::specs::Layout::code_at, crate::specs::Types::format_of))]
    #[inline(always)]
    fn code_at(self, kind: Kind, at: usize) -> Result<Span, Refusal>
        requires { at ≤ length self.octets.now }
        ensures answer { span_in result
            ≡ code_at self.entry.octets.now (coding_of (octet_of kind)) at (length self.entry.octets.now) }
        ensures inside { IfOk result (λ x. (at ≤ x.start) × (x.start ≤ x.end) × (x.end ≤ length self.entry.octets.now)) }
    {
        match kind {
            Kind::Invoke => self.coded_at(0xD1, Reason::Operation, true, 1, at),
            Kind::Result => Ok(Span { start: at, end: at }),
            Kind::Error => self.coded_at(0xD4, Reason::Problem, false, 1, at),
            Kind::Reject => self.coded_at(0xD5, Reason::Problem, false, 2, at),
        }
    }

    // The code behind a component ID, and the set behind it.
    #[tactic(auto, unfolding(crate::specs::Layout::behind_id))]
    #[inline(always)]
    fn behind_id(self, kind: Kind, id: Span) -> Result<Head, Refusal>
        requires { id.end ≤ length self.octets.now }
        ensures answer { head_in result
            ≡ behind_id self.entry.octets.now (octet_of kind) (span_said id) (length self.entry.octets.now) }
        ensures inside { IfOk result (λ h. (h.id ≡ id) × (h.code + 1 < length self.entry.octets.now) × (h.set ≤ length self.entry.octets.now)) }
    {
        match self.code_at(kind, id.end) {
            Ok(code) => match self.set_at(code.end) {
                Ok(set) => Ok(Head {
                    kind,
                    id,
                    code: code.start,
                    set: set.start,
                }),
                Err(Refusal { reason, detail }) => Err(reason.at(detail)),
            },
            Err(Refusal { reason, detail }) => Err(reason.at(detail)),
        }
    }

    // The contents of the type's element, which go from `start` to the end of the octets.
    #[tactic(auto, unfolding(crate::specs::Layout::body_at))]
    #[inline(always)]
    fn body_at(self, kind: Kind, start: usize) -> Result<Head, Refusal>
        requires { start ≤ length self.octets.now }
        ensures answer { head_in result
            ≡ body_at self.entry.octets.now (octet_of kind) (span start (length self.entry.octets.now)) }
        ensures inside { IfOk result (λ h. Bounds h.id.start h.id.end h.code h.set (length self.entry.octets.now)) }
    {
        match self.wanted_at(0xCF, Reason::Id, start) {
            Ok(id) if kind.fits(id.end - id.start) => self.behind_id(kind, id),
            Ok(_) => Err(Reason::Id.at(start as u32)),
            Err(Refusal { reason, detail }) => Err(reason.at(detail)),
        }
    }

    // ---- parameters

    #[tactic(auto, unfolding(crate::specs::Layout::parameter_at, crate::specs::Layout::parameter))]
    #[inline(always)]
    fn parameter_at(self, at: usize) -> Result<Entry, Refusal>
        requires { at ≤ length self.octets.now }
        ensures answer { entry_in result ≡ parameter_at self.entry.octets.now at (length self.entry.octets.now) }
        ensures inside { IfOk result (λ e. (e.place ≡ at) × (at < e.start) × (e.start + e.size ≤ length self.entry.octets.now)) }
    {
        let octets = self.octets;
        let identifier = element::read_identifier(&octets[at..octets.len()]);
        let Some(Identifier { number, form, size }) = identifier else {
            return Err(Reason::Identifier.at(at as u32));
        };
        match self.contents_at(at, at + size) {
            Ok(Span { start, end }) => Ok(Entry {
                number,
                form,
                start,
                size: end - start,
                place: at,
            }),
            Err(Refusal { reason, detail }) => Err(reason.at(detail)),
        }
    }
}

// ---- the steps, of any octets

// The element at `at`, whichever octet it begins with, in a parent that ends where the octets end.
#[tactic(auto, unfolding(crate::specs::Layout::element_from))]
pub fn element_from(octets: &[u8], at: usize) -> Result<Span, Refusal>
    ensures answer { span_in result ≡ element_from octets.now at }
    ensures inside { IfOk result (λ x. (at + 1 < x.start) × (x.start ≤ x.end) × (x.end ≤ length octets.now)) }
{
    if 4096 < octets.len() {
        return Err(Reason::Size.at(0));
    }
    let component = Component { octets };
    if octets.len() <= at {
        return Err(Reason::Ended.at(octets.len() as u32));
    }
    component.contents_at(at, at + 1)
}

// The element of one identifier octet that is wanted at `at`, in such a parent: none where another octet stands there,
// whatever number the caller refuses that by.
#[tactic(auto, unfolding(crate::specs::Layout::wanted_from, crate::specs::Layout::wanted))]
pub fn wanted_from(octets: &[u8], octet: u8, at: usize) -> Result<Option<Span>, Refusal>
    ensures answer { (number : ℕ) → wanted_in number at result ≡ wanted_from octets.now octet number at }
    ensures inside { IfOk result (λ found. IfSome found (λ x. (at + 1 < x.start) × (x.start ≤ x.end)
        × (x.end ≤ length octets.now))) }
{
    if 4096 < octets.len() {
        return Err(Reason::Size.at(0));
    }
    let component = Component { octets };
    match octets.get(at) {
        None => Err(Reason::Ended.at(octets.len() as u32)),
        Some(&first) if first == octet => component.contents_at(at, at + 1).map(Some),
        Some(_) => Ok(None),
    }
}

// The component that stands from `from` to the end of the octets.
#[tactic(auto, unfolding(crate::specs::Layout::head_at, crate::specs::Layout::head_from))]
#[inline(always)]
pub fn head_from(octets: &[u8], from: usize) -> Result<Head, Refusal>
    ensures answer { head_in result ≡ head_at octets.now from }
    ensures inside { IfOk result (λ h. Bounds h.id.start h.id.end h.code h.set (length octets.now)) }
    ensures short { IfOk result (λ _. length octets.now ≤ 4096) }
{
    if octets.len() <= from {
        return Err(Reason::Size.at(0));
    }
    if 4096 < octets.len() {
        return Err(Reason::Size.at(0));
    }
    let component = Component { octets };
    let kind = Kind::try_from(octets[from])?;
    match component.contents_at(from, from + 1) {
        Ok(body) if body.end == octets.len() => component.body_at(kind, body.start),
        Ok(body) => Err(Reason::LeftOver.at(body.end as u32)),
        Err(Refusal { reason, detail }) => Err(reason.at(detail)),
    }
}

// The parameter that stands at `at`, in a parent that ends where the octets end.
#[tactic(auto, unfolding(crate::specs::Layout::parameter_from))]
#[inline(always)]
pub fn parameter_from(octets: &[u8], at: usize) -> Result<Entry, Refusal>
    ensures answer { entry_in result ≡ parameter_from octets.now at }
    ensures inside { IfOk result (λ e. (e.place ≡ at) × (at < e.start)
        × (e.start + e.size ≤ length octets.now)) }
    ensures short { IfOk result (λ _. length octets.now ≤ 4096) }
{
    if 4096 < octets.len() {
        return Err(Reason::Size.at(0));
    }
    let component = Component { octets };
    if octets.len() <= at {
        return Err(Reason::Ended.at(octets.len() as u32));
    }
    component.parameter_at(at)
}

// ---- a part of the component

// Whether contents of `size` octets from `start` on stand in the component.
#[tactic(auto, unfolding(crate::specs::Part::fits))]
pub fn part_fits(component: &[u8], start: usize, size: usize) -> bool
    ensures { result ≡ fits component.now start size }
{
    start <= component.len() && size <= component.len() - start
}

// Those contents as a part of the component itself; the empty part where they do not fit.
#[tactic(auto, unfolding(crate::specs::Part::part_of, crate::specs::Part::fits))]
pub fn part(component: &[u8], start: usize, size: usize) -> &[u8]
    ensures { result.now ≡ part_of component.now start size }
{
    if !part_fits(component, start, size) {
        return &component[..0];
    }
    let end = start + size;
    &component[start..end]
}
