//! Which parts have an entry of which stamp.
ghost use Rattle.std.specs.Prelude.{◌≡◌, ◌+◌, ◌<◌, ◌++◌, ◌^◌, length, vec_len, IfSome, IsTrue};
ghost use Rattle.std.specs.List.{AllByRecursion};
ghost use Rattle.bd_log.specs.Merge.{IsPart};
ghost use Rattle.bd_log.specs.Places.{AreMarked, Grows, IsMarked};

use crate::part::LogPart;
use bd_base::{Entry, ThreadId, ThreadSet};
use std::alloc::Global;

/// For each stamp from the first one on, the set of the parts that have an entry of it, by their places.
#[derive(Drop)]
pub(crate) struct Places {
    pub(crate) first: u128,
    pub(crate) sets: Vec<ThreadSet>,
}

/// The places for these parts. None where there are more than 16, where there are more stamps from the least to the
/// greatest than entries, or where there is no memory for the sets.
pub(crate) fn places_of(alloc: Global, parts: &[LogPart]) -> Option<Places>
    ensures marked { IfSome result (λ places. AreMarked places.first places.sets.items parts.now) }
    ensures fits { IfSome result (λ places. places.first + vec_len places.sets < 2 ^ 128) }
{
    if parts.len() > 16 {
        return None;
    }
    let (first, span) = span_of(parts)?;
    let _end = first.checked_add(span as u128)?;
    let mut sets = no_places(alloc, span)?;
    for place in 0..parts.len() {
        if !mark_part(sets.as_mut_slice(), first, place as u32, &parts[place]) {
            return None;
        }
    }
    Some(Places { first, sets })
}

// The least stamp of the parts, and how many there are from it to the greatest, where these are no more than entries.
fn span_of(parts: &[LogPart]) -> Option<(u128, usize)> {
    let mut first = u128::MAX;
    let mut last = 0;
    let mut total: usize = 0;
    for part in parts {
        first = first.min(part.first_stamp());
        last = last.max(part.last_stamp());
        total = total.checked_add(part.len())?;
    }
    let span = last.checked_sub(first)?;
    if span < total as u128 {
        Some((first, span as usize + 1))
    } else {
        None
    }
}

// This number of sets without a place.
fn no_places(alloc: Global, span: usize) -> Option<Vec<ThreadSet>>
    ensures { IfSome result (λ sets. vec_len sets ≡ span) }
{
    let mut sets = Vec::new(alloc);
    sets.reserve_exact(span).ok()?;
    for _stamp in 0..span {
        sets.push(ThreadSet::empty()).ok()?;
    }
    Some(sets)
}

// Puts the place into the set of each of the part's stamps. False where there is no set for one of them.
fn mark_part(sets: &mut [ThreadSet], first: u128, place: u32, part: &LogPart) -> bool
    requires { place < 16 }
    ensures grows { Grows sets.old sets.new }
    ensures marked { IsTrue result → AllByRecursion (IsMarked first sets.new place) part.now.entries }
    ensures part { IsPart part.now }
{
    let (head, tail) = part.slices();
    mark(sets, first, place, head) && mark(sets, first, place, tail)
}

// Puts the place into the set of each of the entries' stamps. False where there is no set for one of them.
fn mark(sets: &mut [ThreadSet], first: u128, place: u32, entries: &[Entry]) -> bool
    requires { place < 16 }
    ensures grows { Grows sets.old sets.new }
    ensures marked { IsTrue result → AllByRecursion (IsMarked first sets.new place) entries.now }
{
    for entry in entries {
        let Some(at) = entry.stamp.checked_sub(first) else {
            return false;
        };
        if at >= sets.len() as u128 {
            return false;
        }
        sets[at as usize].insert(ThreadId(place));
    }
    true
}
