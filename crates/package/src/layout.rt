// The layout of a package, from left to right: every fault of it is 22.
ghost use Rattle.std.specs.Prelude.{◌≡◌, ◌≤◌, ◌<◌, ◌+◌, length, IfOk};
ghost use Rattle.component.specs.Layout.{contents, wanted};
ghost use Rattle.component.specs.Told.{span_said, span_in, count_in};
ghost use Rattle.package.specs.Types.{package_type, id_size};
ghost use Rattle.package.specs.Layout.{layout_fault, sequence_at, ids_at, opening};
ghost use Rattle.package.specs.inner.Opened.{opening_in, counted};

use super::Opening;
use component::Span;
use element::{Reason, Refusal};

pub(crate) fn is_package(kind: u8) -> bool
    ensures { result ≡ package_type kind }
{
    matches!(kind, 0xE1..=0xE6)
}

// How many octets of transaction IDs a package of this type has.
pub(crate) fn id_size(kind: u8) -> usize
    ensures { result ≡ id_size kind }
{
    match kind {
        0xE1 => 0,
        0..=0xE4 => 4,
        _ => 8,
    }
}

// Each step of the opening hands a refusal on by its reason and its detail, as those of a component do.

// The element at `at`, whichever octet it begins with.
#[inline(always)]
fn element_at(octets: &[u8], at: usize) -> Result<Span, Refusal>
    requires { (at < length octets.now) × (length octets.now ≤ 4096) }
    ensures answer { span_in result ≡ layout_fault (contents octets.now at (at + 1) (length octets.now)) }
    ensures inside { IfOk result (λ x. (at + 1 < x.start) × (x.start ≤ x.end) × (x.end ≤ length octets.now)) }
{
    match component::element_from(octets, at) {
        Ok(found) => Ok(found),
        Err(refusal) => Err(Reason::Layout.at(refusal.detail)),
    }
}

// The element of one identifier octet that is wanted at `at`.
#[inline(always)]
fn wanted_at(octets: &[u8], octet: u8, at: usize) -> Result<Span, Refusal>
    requires { (at ≤ length octets.now) × (length octets.now ≤ 4096) }
    ensures answer { span_in result ≡ layout_fault (wanted octets.now octet 22 at (length octets.now)) }
    ensures inside { IfOk result (λ x. (at + 1 < x.start) × (x.start ≤ x.end) × (x.end ≤ length octets.now)) }
{
    match component::wanted_from(octets, octet, at) {
        Ok(Some(found)) => Ok(found),
        Ok(None) => Err(Reason::Layout.at(at as u32)),
        Err(refusal) => Err(Reason::Layout.at(refusal.detail)),
    }
}

// The component sequence that is wanted behind the transaction IDs, and has to end where the package ends.
#[tactic(auto, unfolding(crate::specs::Layout::sequence_at))]
#[inline(always)]
fn sequence_at(octets: &[u8], ids: Span, at: usize) -> Result<Opening, Refusal>
    requires { (at ≤ length octets.now) × (length octets.now ≤ 4096) }
    ensures answer { opening_in result ≡ sequence_at octets.now (span_said ids) at }
    ensures inside { IfOk result (λ o. (o.ids ≡ ids) × (o.sequence ≡ at) × (at < o.first)
        × (o.first ≤ length octets.now)) }
{
    match wanted_at(octets, 0xE8, at) {
        Ok(sequence) if sequence.end != octets.len() => Err(Reason::Layout.at(sequence.end as u32)),
        Ok(sequence) => Ok(Opening {
            ids,
            sequence: at,
            first: sequence.start,
        }),
        Err(Refusal { reason, detail }) => Err(reason.at(detail)),
    }
}

// The transaction IDs that are wanted at `at`, and the component sequence behind them.
#[tactic(auto, unfolding(crate::specs::Layout::ids_at))]
#[inline(always)]
fn ids_at(octets: &[u8], kind: u8, at: usize) -> Result<Opening, Refusal>
    requires { (at ≤ length octets.now) × (length octets.now ≤ 4096) }
    ensures answer { opening_in result ≡ ids_at octets.now kind at }
    ensures inside { IfOk result (λ o. (o.ids.start ≤ o.ids.end) × (o.sequence < o.first)
        × (o.first ≤ length octets.now)) }
{
    match wanted_at(octets, 0xC7, at) {
        Ok(ids) if ids.end - ids.start != id_size(kind) => Err(Reason::Layout.at(at as u32)),
        Ok(ids) => sequence_at(octets, ids, ids.end),
        Err(Refusal { reason, detail }) => Err(reason.at(detail)),
    }
}

// All that stands before the components.
#[tactic(auto, unfolding(crate::specs::Layout::opening))]
#[inline(always)]
pub(crate) fn opening(octets: &[u8]) -> Result<Opening, Refusal>
    requires { (0 < length octets.now) × (length octets.now ≤ 4096) }
    ensures answer { opening_in result ≡ opening octets.now }
    ensures inside { IfOk result (λ o. (o.ids.start ≤ o.ids.end) × (o.sequence < o.first)
        × (o.first ≤ length octets.now)) }
{
    let kind = octets[0];
    if !is_package(kind) {
        return Err(Reason::Layout.at(0));
    }
    match element_at(octets, 0) {
        Ok(body) if body.end != octets.len() => Err(Reason::Layout.at(body.end as u32)),
        Ok(body) => ids_at(octets, kind, body.start),
        Err(Refusal { reason, detail }) => Err(reason.at(detail)),
    }
}

// How many components stand from `first` to the end of the octets, whatever they are.
pub(crate) fn count_components(octets: &[u8], first: usize) -> Result<usize, Refusal>
    requires { (first ≤ length octets.now) × (length octets.now ≤ 4096) }
    ensures { count_in result ≡ counted octets.now first }
{
    let mut at = first;
    let mut count: usize = 0;
    while at < octets.len() {
        let component = element_at(octets, at)?;
        at = component.end;
        count += 1;
    }
    Ok(count)
}
