//! The merge of logs by stamp and thread.
ghost use Rattle.std.specs.Prelude.{◌≡◌, ◌+◌, ◌<◌, ◌≤◌, ◌^◌, length, map, sum_by, vec_len, vec_capacity, IfOk, IfSome};
ghost use Rattle.bd_log.specs.Firsts.{AreByThread};
ghost use Rattle.bd_log.specs.Log.{log_part};
ghost use Rattle.bd_log.specs.Merge.{AppendsMerge, AreOfDifferentThreads, IsMerge, MergeIsUnique, MergingByParts};
ghost use Rattle.bd_log.specs.Places.{AreMarked};

use crate::firsts::{by_thread_len, first_of};
use crate::log::Log;
use crate::part::LogPart;
use crate::places::{Places, places_of};
use bd_base::{Entry, OutOfMemory};
use std::alloc::Global;

/// The logs of different threads as one list, by stamp and thread. No logs give no entries.
pub fn merge(alloc: Global, logs: Vec<Log>) -> Result<Vec<Entry>, OutOfMemory>
    requires { AreOfDifferentThreads (map log_part logs.items) }
    ensures { IfOk result (λ trace. IsMerge (map log_part logs.items) trace.items) }
{
    let parts = into_parts(alloc, logs)?;
    let total = total_len(parts.as_slice()).ok_or(OutOfMemory)?;
    let mut trace = Vec::new(alloc);
    trace.reserve(total)?;
    merge_onto(parts, &mut trace);
    Ok(trace)
}

fn into_parts(alloc: Global, logs: Vec<Log>) -> Result<Vec<LogPart>, OutOfMemory>
    ensures { IfOk result (λ parts. parts.items ≡ map log_part logs.items) }
{
    Ok(logs.into_iter().map(|log| log.into_part()).collect(alloc)?)
}

// How many entries the parts have, where that number fits.
fn total_len(parts: &[LogPart]) -> Option<usize>
    ensures { IfSome result (λ n. n ≡ sum_by (λ p. length p.entries) parts.now) }
{
    let mut total: usize = 0;
    for part in parts {
        total = total.checked_add(part.len())?;
    }
    Some(total)
}

/// Puts the merge of further parts, of different threads, after what was merged so far. It needs no memory, since the
/// trace has room for all their entries, and is faster where there is some. No parts put nothing there.
pub fn merge_onto(parts: Vec<LogPart>, trace: &mut Vec<Entry>)
    requires threads { AreOfDifferentThreads parts.items }
    requires room { vec_len trace.old + sum_by (λ p. length p.entries) parts.items ≤ vec_capacity trace.old }
    ensures { AppendsMerge parts.items trace.old.items trace.new.items }
{
    let mut parts = parts;
    let left = parts.as_mut_slice();
    if left.is_empty() {
        return;
    }
    let by_thread = by_thread_len(left);
    if by_thread == left.len() {
        if let Some(places) = places_of(*trace.allocator(), left) {
            merge_by_places(left, &places, trace);
            return;
        }
    }
    let mut first = first_of(left);
    while let Some(entry) = left[first].take() {
        let stamp = entry.stamp;
        trace.push_reserved(entry);
        // Where the parts stand in order of their threads, those after it follow with their entries of this stamp.
        for place in first + 1..by_thread {
            if let Some(same) = left[place].take_at(stamp) {
                trace.push_reserved(same);
            }
        }
        first = first_of(left);
    }
}

// Puts the entries of each stamp in turn, those of a stamp in order of the parts.
fn merge_by_places(left: &mut [LogPart], places: &Places, trace: &mut Vec<Entry>)
    requires threads { AreOfDifferentThreads left.old }
    requires by_thread { AreByThread (length left.old) left.old }
    requires marked { AreMarked places.now.first places.now.sets.items left.old }
    requires fits { places.now.first + vec_len places.now.sets < 2 ^ 128 }
    requires room { vec_len trace.old + sum_by (λ p. length p.entries) left.old ≤ vec_capacity trace.old }
    ensures { AppendsMerge left.old trace.old.items trace.new.items }
{
    let mut stamp = places.first;
    for set in places.sets.as_slice() {
        let mut rest = *set;
        // The places below this one aren't in the set any more.
        let mut past = 0;
        while let Some(thread) = rest.first() {
            rest.remove(thread);
            past = thread.0 + 1;
            let place = thread.0 as usize;
            if place < left.len() {
                if let Some(entry) = left[place].take_at(stamp) {
                    trace.push_reserved(entry);
                }
            }
        }
        stamp += 1;
    }
}

/// Law: logs have one merge.
pub fn merge_is_unique()
    ensures { MergeIsUnique }
{}

/// Law: merging by parts is merging the whole, where each entry comes before all of a later part.
pub fn merging_by_parts()
    ensures { MergingByParts }
{}
