//! What a log handed out.
ghost use Rattle.std.specs.Prelude.{◌≡◌, ◌∷◌, ◌++◌, [], drop, length, IfSome, MatchOption};
ghost use Rattle.bd_log.specs.FirstStamp.{first_stamp, BeginsElsewhere};
ghost use Rattle.bd_log.specs.Merge.{IsPart, head_before};

use bd_base::{Entry, ThreadId};
use std::collections::VecDeque;
use std::marker::Model;

/// Entries of one thread with rising stamps, seen as a `Part`.
#[derive(Drop)]
pub struct LogPart {
    thread: u32,
    // That of the first entry, beside the thread, where the search for the least of all finds it; the greatest number
    // where there is none.
    first_stamp: u128,
    entries: VecDeque<Entry>,
}

impl Model for LogPart {
    ghost use Rattle.bd_log.specs.FirstStamp.{IsKeptPart};
    ghost use Rattle.bd_log.specs.Merge.{Part};

    ghost Value = { Part };

    ghost view = { λ p. record { thread = p.thread; entries = p.entries.items } };

    ghost invariant = { λ p. IsKeptPart p.first_stamp (record { thread = p.thread; entries = p.entries.items }) };
}

impl LogPart {
    // The entries of a thread. It takes no memory.
    pub(crate) fn of(thread: u32, entries: Vec<Entry>) -> LogPart
        requires { IsPart (record { thread = thread; entries = entries.items }) }
        ensures { result ≡ record { thread = thread; entries = entries.items } }
    {
        let entries = VecDeque::from(entries);
        LogPart {
            thread,
            first_stamp: stamp_at(&entries, 0),
            entries,
        }
    }

    /// The thread that made the entries.
    pub fn thread(&self) -> ThreadId
        ensures { result.0 ≡ self.now.thread }
    {
        ThreadId(self.thread)
    }

    /// How many entries it has.
    pub fn len(&self) -> usize
        ensures { result ≡ length self.now.entries }
    {
        self.entries.len()
    }

    // Whether its first entry comes before the other's. A part without entries comes last.
    pub(crate) fn precedes(&self, other: &LogPart) -> bool
        ensures before { result ≡ head_before self.now.entries other.now.entries }
        ensures part { IsPart self.now }
    {
        if self.first_stamp != other.first_stamp {
            return self.first_stamp < other.first_stamp;
        }
        match (self.entries.is_empty(), other.entries.is_empty()) {
            (true, _) => false,
            (false, true) => true,
            (false, false) => self.thread < other.thread,
        }
    }

    // The stamp of its first entry; the greatest number where there is none.
    pub(crate) fn first_stamp(&self) -> u128 {
        self.first_stamp
    }

    // The stamp of its last entry, or 0.
    pub(crate) fn last_stamp(&self) -> u128 {
        match self.entries.back() {
            Some(entry) => entry.stamp,
            None => 0,
        }
    }

    // Its entries, as two slices of which the second goes on.
    pub(crate) fn slices(&self) -> (&[Entry], &[Entry])
        ensures entries { result.0.now ++ result.1.now ≡ self.now.entries }
        ensures part { IsPart self.now }
    {
        self.entries.as_slices()
    }

    // Takes the first entry out.
    pub(crate) fn take(&mut self) -> Option<Entry>
        ensures thread { self.new.thread ≡ self.old.thread }
        ensures part { IsPart self.new }
        ensures entry { MatchOption result ((self.old.entries ≡ []) × (self.new ≡ self.old)) (λ x. self.old.entries ≡ x ∷ self.new.entries) }
    {
        self.first_stamp = stamp_at(&self.entries, 1);
        self.entries.pop_front()
    }

    // Takes the first entry out, where it has this stamp.
    pub(crate) fn take_at(&mut self, stamp: u128) -> Option<Entry>
        ensures thread { self.new.thread ≡ self.old.thread }
        ensures part { IsPart self.new }
        ensures begins { MatchOption result ((self.new ≡ self.old) × BeginsElsewhere stamp self.old.entries) (λ x. x.stamp ≡ stamp) }
        ensures entry { IfSome result (λ x. self.old.entries ≡ x ∷ self.new.entries) }
    {
        if self.first_stamp != stamp {
            return None;
        }
        self.take()
    }
}

// The stamp of the entry at this place, or the greatest number.
fn stamp_at(entries: &VecDeque<Entry>, place: usize) -> u128
    ensures { result ≡ first_stamp (drop place entries.now.items) }
{
    match entries.get(place) {
        Some(entry) => entry.stamp,
        None => u128::MAX,
    }
}
