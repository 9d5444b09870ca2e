//! A thread's log: what it did, each act with a stamp.
ghost use Rattle.std.specs.Prelude.{◌≡◌, ◌+◌, ◌≤◌, ◌<◌, ◌++◌, ◌∷◌, [], length, max, vec_len, vec_capacity, IfOk, IfErr, OnOk, OnErr};
ghost use Rattle.bd_log.specs.Log.{stamped};
ghost use Rattle.bd_log.specs.Merge.{IsPart};

use crate::part::LogPart;
use bd_base::{Act, Entry, OutOfMemory, ThreadId};
use std::alloc::Global;
use std::error::Error;
use std::marker::Model;
use std::{fmt, mem};

/// Why a push was refused.
#[derive(Clone, Copy, Debug, PartialEq, Eq)]
pub enum LogError {
    /// There was no memory for the entry.
    OutOfMemory,
    /// The last stamp, which this carries, is the greatest number.
    StampsSpent(u128),
}

impl fmt::Display for LogError {
    fn fmt<W: fmt::Write>(&self, f: &mut fmt::Formatter<W>) -> fmt::Result {
        match self {
            LogError::OutOfMemory => write!(f, "out of memory"),
            LogError::StampsSpent(last) => write!(f, "no stamp is left above {last}"),
        }
    }
}

impl Error for LogError {}

/// The entries that a thread made and that were not handed out, seen as a `Written`: beside them the
/// thread, the last stamp, and how many entries there is memory for. Stamps rise, from 1 on.
#[derive(Drop)]
pub struct Log {
    thread: u32,
    last: u128,
    entries: Vec<Entry>,
    // how many entries were handed out last: the next ones are mostly as many
    handed: usize,
}

impl Model for Log {
    ghost use Rattle.std.specs.Vec.{vec_capacity};
    ghost use Rattle.bd_log.specs.Log.{Written, IsLog};

    ghost Value = { Written };

    ghost view = { λ l. record { thread = l.thread; entries = l.entries.items; last = l.last; capacity = vec_capacity l.entries } };

    ghost invariant = { λ l. IsLog l.thread l.last l.entries.items };
}

impl Log {
    ghost use Rattle.bd_log.specs.Log.{IsCause, IsCauseOfMany, IsWithin, entry_of, log_part};

    /// An empty log of this thread, whose first stamp is 1. It takes no memory.
    pub fn new(alloc: Global, thread: ThreadId) -> Log
        ensures thread { result.thread ≡ thread.0 }
        ensures entries { result.entries ≡ [] }
        ensures last { result.last ≡ 0 }
    {
        Log {
            thread: thread.0,
            last: 0,
            entries: Vec::new(alloc),
            handed: 0,
        }
    }

    /// Appends an act, and answers its stamp: the least above all that were pushed and met. A refused
    /// push changes nothing. `OutOfMemory` comes only where the room is spent.
    pub fn push(&mut self, act: Act) -> Result<u128, LogError>
        ensures stamp { IfOk result (λ stamp. stamp ≡ self.old.last + 1) }
        ensures entries { OnOk result (self.new.entries ≡ self.old.entries ++ entry_of self.old act ∷ []) }
        ensures last { OnOk result (self.new.last ≡ self.old.last + 1) }
        ensures thread { self.new.thread ≡ self.old.thread }
        ensures capacity { self.old.capacity ≤ self.new.capacity }

        ensures spent { self.old.last ≡ u128.MAX → result ≡ Err (LogError.StampsSpent u128.MAX) }
        ensures cause { IfErr result (λ error. IsCause error self.old) }
        ensures err { OnErr result (self.new ≡ self.old) }
    {
        if self.last == u128::MAX {
            return Err(LogError::StampsSpent(self.last));
        }
        if self.reserve(1).is_err() {
            return Err(LogError::OutOfMemory);
        }
        Ok(self.append(act))
    }

    /// Appends the acts of these entries in order, with the stamps after the last one: the stamps and threads that
    /// they had don't matter. It answers the list without them, with its memory. Where so many stamps aren't left,
    /// or there is no memory for all of them, it appends none.
    #[tactic(auto, using(crate::proofs::Stamping::log_all))]
    pub fn push_all(&mut self, entries: Vec<Entry>) -> Result<Vec<Entry>, LogError>
        ensures entries { OnOk result (self.new.entries ≡ self.old.entries ++ stamped self.old.thread self.old.last entries.items) }
        ensures last { OnOk result (self.new.last ≡ self.old.last + vec_len entries) }
        ensures thread { self.new.thread ≡ self.old.thread }
        ensures capacity { self.old.capacity ≤ self.new.capacity }
        ensures left { IfOk result (λ left. left.items ≡ []) }

        ensures cause { IfErr result (λ error. IsCauseOfMany error self.old (vec_len entries)) }
        ensures err { OnErr result (self.new ≡ record self.old { capacity = self.new.capacity }) }
    {
        let mut entries = entries;
        let Some(last) = self.last.checked_add(entries.len() as u128) else {
            return Err(LogError::StampsSpent(self.last));
        };
        stamp_all(entries.as_mut_slice(), self.thread, self.last);
        make_room(&mut self.entries, self.handed);
        if self.entries.append(&mut entries).is_err() {
            return Err(LogError::OutOfMemory);
        }
        self.last = last;
        Ok(entries)
    }

    // Appends an act for which there is room.
    fn append(&mut self, act: Act) -> u128
        requires stamp { self.old.last < u128.MAX }
        requires room { length self.old.entries < self.old.capacity }
        ensures stamp { result ≡ self.old.last + 1 }
        ensures entries { self.new.entries ≡ self.old.entries ++ entry_of self.old act ∷ [] }
        ensures last { self.new.last ≡ self.old.last + 1 }
        ensures thread { self.new.thread ≡ self.old.thread }
        ensures capacity { self.old.capacity ≤ self.new.capacity }
    {
        let stamp = self.last + 1;
        let entry = Entry {
            stamp,
            thread: self.thread,
            act,
        };
        match self.entries.push(entry) {
            Ok(()) => (),
            Err(_) => unreachable!(),
        }
        self.last = stamp;
        stamp
    }

    /// Takes memory for `n` more pushes. It answers `OutOfMemory` only where that room was missing,
    /// and then nothing changed.
    pub fn reserve(&mut self, n: u32) -> Result<(), OutOfMemory>
        ensures same { self.new ≡ record self.old { capacity = self.new.capacity } }
        ensures capacity { self.old.capacity ≤ self.new.capacity }
        ensures ok { OnOk result (length self.old.entries + n ≤ self.new.capacity) }
        ensures full { OnErr result (self.old.capacity < length self.old.entries + n) }
        ensures err { OnErr result (self.new ≡ self.old) }
    {
        self.entries.reserve(n as usize)?;
        Ok(())
    }

    /// Takes note of a stamp that came from elsewhere: later stamps are above it.
    pub fn meet(&mut self, stamp: u128)
        ensures { self.new ≡ record self.old { last = max self.old.last stamp } }
    {
        self.last = self.last.max(stamp);
    }

    /// The greatest stamp that was pushed or met, 0 at first.
    pub fn last(&self) -> u128
        ensures { result ≡ self.now.last }
    {
        self.last
    }

    /// The entries in order, all of this thread and with rising stamps.
    pub fn entries(&self) -> &[Entry]
        ensures value { result.now ≡ self.now.entries }
        ensures part { IsPart (log_part self.now) }
    {
        self.entries.as_slice()
    }

    /// Hands the entries so far out, with the memory reserved for them, and keeps the last stamp: so
    /// each entry of a later part has a greater stamp than all of this one. It takes no memory. The next `push_all` takes
    /// memory for as many entries, where there is some.
    pub fn hand_out(&mut self) -> LogPart
        ensures handed { result ≡ log_part self.old }
        ensures within { IsWithin self.old.last self.old.entries }
        ensures left { self.new ≡ record self.old { entries = []; capacity = self.new.capacity } }
    {
        let alloc = *self.entries.allocator();
        self.handed = self.entries.len();
        let entries = mem::replace(&mut self.entries, Vec::new(alloc));
        LogPart::of(self.thread, entries)
    }

    /// The whole log as one part. It takes no memory.
    pub fn into_part(self) -> LogPart
        ensures { result ≡ log_part self }
    {
        let Log {
            thread,
            last: _,
            entries,
            handed: _,
        } = self;
        LogPart::of(thread, entries)
    }
}

// Takes memory for this number of entries, where there is none for any.
fn make_room(entries: &mut Vec<Entry>, count: usize)
    ensures same { entries.new.items ≡ entries.old.items }
    ensures capacity { vec_capacity entries.old ≤ vec_capacity entries.new }
{
    if entries.capacity() == 0 {
        let _reserved = entries.reserve(count);
    }
}

// Gives the entries this thread, and the stamps after the last one.
fn stamp_all(entries: &mut [Entry], thread: u32, last: u128)
    requires { last + length entries.old ≤ u128.MAX }
    ensures { entries.new ≡ stamped thread last entries.old }
{
    let mut stamp = last;
    for entry in entries.iter_mut() {
        stamp += 1;
        entry.stamp = stamp;
        entry.thread = thread;
    }
}
