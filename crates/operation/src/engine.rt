// The judgement of a row over entries: 12, 26, 13 and 14, in their order.
ghost use Rattle.std.specs.Prelude.{◌≡◌, ◌<◌, ◌≤◌, length, Err};
ghost use Rattle.operation.specs.Row.{one_of};
ghost use Rattle.operation.specs.Judge.{last_mark};
ghost use Rattle.operation.specs.inner.Coded.{holds, Judges};
ghost use Rattle.operation.specs.inner.Run.{run};
ghost use Rattle.operation.specs.inner.Firsts.{missing_in, lacking_all, lacking, Walked, Faulted, Settles};

use super::rows::DIGITS;
use super::sizes::missized;
use super::table::Entries;

// What is amiss with a run of entries, or that no row says what they must be. It points by entries.
#[derive(Clone, Copy, PartialEq, Eq, Debug)]
pub(crate) enum RowFault {
    NoRow,
    Again(usize),
    WrongSize(usize),
    // The number that is asked for.
    Missing(u16),
    Both(usize),
}

// A row, as the code holds it.
#[derive(Clone, Copy)]
pub(crate) struct Row<const MUST: usize, const GROUP: usize, const NAMES: usize> {
    // What must occur, in the paper's order; of a choice its first member.
    pub(crate) must: [u16; MUST],
    // The members of its group; none where it has no group.
    pub(crate) group: [u16; GROUP],
    // The members of its choice; the same twice where it has no choice.
    pub(crate) one: u16,
    pub(crate) other: u16,
    // All that it names, as a set.
    pub(crate) names: [u64; NAMES],
}

// What a walk over all entries found: how many of them the row names, and their keys.
#[derive(Drop)]
struct Notes {
    named: usize,
    seen: [u64; 13],
}

// Whether a key is in a set: one bit for each key, 64 to a word. Beyond the words there is none.
fn has(set: &[u64], key: u64) -> bool
    ensures { result ≡ holds set.now key }
{
    let word = (key / 64) as usize;
    if word < set.len() {
        return (set[word] >> (key % 64)) % 2 == 1;
    }
    false
}

// The last entry that is one of two.
fn last_of(one: u64, other: u64, entries: Entries<'_>) -> usize
    ensures { result ≡ last_mark (one_of one other) 0 (run entries.entry) }
{
    let mut last: usize = 0;
    for entry in 0..entries.count {
        let key = entries.key_at(entry);
        if key == one || key == other {
            last = entry;
        }
    }
    last
}

// ---- the judgement

// A walk that goes on while nothing of 12 and 26 is amiss: it notes each entry that the row names, and stops at the
// first that was noted before and may not repeat, or whose size is wrong. What is not noted did not occur before.
fn note(names: &[u64], entries: Entries<'_>) -> Result<Notes, usize>
    requires { length names.now ≤ 13 }
    ensures { Walked result names.now (run entries.entry) }
{
    let mut seen = [0u64; 13];
    let mut at: usize = 0;
    let mut named: usize = 0;
    'parameters: loop {
        if entries.count <= at {
            break 'parameters Ok(Notes { named, seen });
        }
        let key = entries.key_at(at);
        if has(names, key) {
            named += 1;
            let word = (key / 64) as usize;
            let bit = key % 64;
            let noted = seen[word];
            if (noted >> bit) % 2 == 1 {
                if key != u64::from(DIGITS) {
                    break 'parameters Err(at);
                }
            } else {
                if missized(key, entries.size_at(at)) {
                    break 'parameters Err(at);
                }
                seen[word] = noted + (1 << bit);
            }
        }
        at += 1;
    }
}

// 12, or else 26, of a run that `note` left at `stop`: the first entry that occurred before, of those that the row
// names and may not repeat; where none did, the size at `stop` is the first wrong one. The first entry with a key is at
// the latest the one that is looked at.
fn fault(names: &[u64], entries: Entries<'_>, stop: usize) -> RowFault
    ensures { Faulted result names.now stop (run entries.entry) }
{
    let mut at: usize = 0;
    'parameters: loop {
        if entries.count <= at {
            break 'parameters RowFault::WrongSize(stop);
        }
        let key = entries.key_at(at);
        if has(names, key) && key != u64::from(DIGITS) {
            let mut first: usize = 0;
            while entries.key_at(first) != key {
                first += 1;
            }
            let before = first < at;
            if before {
                break 'parameters RowFault::Again(at);
            }
        }
        at += 1;
    }
}

// 13 of a group, of which one must have been noted: it gives the first. No members are no group.
fn group_missing(group: &[u16], seen: &[u64]) -> Option<u16>
    ensures { missing_in result ≡ lacking_all group.now seen.now }
{
    if group.iter().any(|&member| has(seen, u64::from(member))) {
        return None;
    }
    group.first().map(|&member| member / 2)
}

// 13: the first that must occur and was not noted, and behind these the group. Of a choice `one` stands in the list,
// and the other will do.
fn first_missing(must: &[u16], group: &[u16], one: u64, other: u64, seen: &[u64]) -> Option<u16>
    ensures { missing_in result ≡ lacking must.now group.now one other seen.now }
{
    for &asked in must {
        let key = u64::from(asked);
        if !has(seen, key) && (key != one || !has(seen, other)) {
            return Some(asked / 2);
        }
    }
    group_missing(group, seen)
}

// 13 and 14 by what was noted, where the walk came to the end. A row with no choice gives the same key twice. The two
// keys are numbers and no struct: by them the compiler sees what an arm does not need, and unrolls the rest there.
fn settle(
    must: &[u16],
    group: &[u16],
    one: u64,
    other: u64,
    entries: Entries<'_>,
    notes: Notes,
) -> Result<usize, RowFault>
    ensures { Settles result must.now group.now one other notes (run entries.entry) }
{
    let seen = notes.seen;
    if let Some(number) = first_missing(must, group, one, other, &seen) {
        return Err(RowFault::Missing(number));
    }
    if one != other && has(&seen, one) && has(&seen, other) {
        return Err(RowFault::Both(last_of(one, other, entries)));
    }
    Ok(notes.named)
}

// What a row says of entries: how many of them it names, or what is amiss. It stands anew in each arm that calls it,
// where the compiler knows the row and unrolls `note` and `settle`; with `fault` in one of them it would not.
#[inline(always)]
pub(crate) fn judge<const MUST: usize, const GROUP: usize, const NAMES: usize>(
    row: Row<MUST, GROUP, NAMES>,
    entries: Entries<'_>,
) -> Result<usize, RowFault>
    requires { length row.names ≤ 13 }
    ensures { Judges result row.entry.must row.entry.group row.entry.one row.entry.other row.entry.names
        (run entries.entry) }
{
    match note(&row.names, entries) {
        Ok(notes) => settle(
            &row.must,
            &row.group,
            u64::from(row.one),
            u64::from(row.other),
            entries,
            notes,
        ),
        Err(stop) => Err(fault(&row.names, entries, stop)),
    }
}
