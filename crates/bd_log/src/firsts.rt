//! Which of many parts comes first, and whether the parts stand in order of their threads.
ghost use Rattle.std.specs.Prelude.{◌≡◌, ◌<◌, ◌≤◌, ℕ, ◌⊎◌, length, slice_index_or, All};
ghost use Rattle.bd_log.specs.Firsts.{AreByThread, IsNotBefore};
ghost use Rattle.bd_log.specs.Merge.{IsPart, Part};

use crate::part::LogPart;

// The place of the first part of all.
pub(crate) fn first_of(parts: &[LogPart]) -> usize
    requires { 0 < length parts.now }
    ensures within { result < length parts.now }
    ensures least { (j : ℕ) → j < length parts.now → IsNotBefore parts.now j result }
    ensures parts { All IsPart parts.now }
{
    let mut first = 0;
    for place in 0..parts.len() {
        first = sooner(parts, first, place);
    }
    first
}

// That of two places whose part comes before the other's.
fn sooner(parts: &[LogPart], one: usize, other: usize) -> usize
    requires one { one < length parts.now }
    requires other { other < length parts.now }
    ensures either { (result ≡ one) ⊎ (result ≡ other) }
    ensures first { IsNotBefore parts.now one result }
    ensures second { IsNotBefore parts.now other result }
    ensures part { (d : Part) → IsPart (slice_index_or parts.now other d) }
{
    if parts[other].precedes(&parts[one]) {
        other
    } else {
        one
    }
}

// How many parts stand in order of their threads: all of them, or none where any two don't.
pub(crate) fn by_thread_len(parts: &[LogPart]) -> usize
    ensures within { result ≤ length parts.now }
    ensures threads { AreByThread result parts.now }
{
    for place in 1..parts.len() {
        if parts[place].thread().0 <= parts[place - 1].thread().0 {
            return 0;
        }
    }
    parts.len()
}
