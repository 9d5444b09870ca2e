//! How many requests each handle has open.
ghost use Rattle.std.specs.Prelude.{◌≡◌, ◌+◌, ◌-◌, ℕ, cond, ◌==◌, IfOk, IfSome, IsTrue};
ghost use Rattle.bd_machine.specs.Opens.{count_in, count_of, CountsOneLess, CountsOneMore};

use bd_base::{HandleId, OutOfMemory};
use std::alloc::Global;
use std::collections::HashMap;

/// How many requests each handle has open. The handle that was counted last is at hand: while a thread submits to one
/// handle, nothing is looked up.
#[derive(Drop)]
pub(crate) struct HandleCounts {
    // the handle that was counted last, and how many of its requests are counted here
    handle: u128,
    here: usize,
    // by handle, how many are counted there beside those; a count that falls to 0 leaves it
    others: HashMap<u128, usize>,
}

// Counts so many more there. False where they can't be counted; then counts are no longer to be asked.
fn add_to(others: &mut HashMap<u128, usize>, handle: u128, count: usize) -> bool
    ensures { IsTrue result → (h : ℕ) → count_in others.new h ≡ count_in others.old h + cond (handle == h) count 0 }
{
    let before = match others.get(&handle) {
        Some(count) => *count,
        None => 0,
    };
    match before.checked_add(count) {
        Some(after) => others.insert(handle, after).is_ok(),
        None => false,
    }
}

// Counts one less there.
fn take_from(others: &mut HashMap<u128, usize>, handle: u128)
    ensures { (h : ℕ) → count_in others.new h ≡ count_in others.old h - cond (handle == h) 1 0 }
{
    let before = match others.get(&handle) {
        Some(count) => *count,
        None => return,
    };
    if before > 1 {
        // its place is there already
        let _ = others.insert(handle, before - 1);
    } else {
        others.remove(&handle);
    }
}

impl HandleCounts {
    /// None has any. It takes no memory.
    pub(crate) fn new(alloc: Global) -> HandleCounts
        ensures { (h : ℕ) → count_of result h ≡ 0 }
    {
        HandleCounts {
            handle: 0,
            here: 0,
            others: HashMap::new(alloc),
        }
    }

    /// How many a handle has; none where they are more than a `usize` counts.
    pub(crate) fn of(&self, handle: HandleId) -> Option<usize>
        ensures { IfSome result (λ n. n ≡ count_of self.now handle.0) }
    {
        let here = if self.handle == handle.0 {
            self.here
        } else {
            0
        };
        if self.others.is_empty() {
            return Some(here);
        }
        match self.others.get(&handle.0) {
            Some(count) => here.checked_add(*count),
            None => Some(here),
        }
    }

    /// Takes memory to count one more of a handle. No count changes.
    pub(crate) fn reserve(&mut self, handle: HandleId) -> Result<(), OutOfMemory>
        ensures { (h : ℕ) → count_of self.new h ≡ count_of self.old h }
    {
        if self.here != 0 && self.handle != handle.0 {
            self.others.reserve(1)?;
        }
        Ok(())
    }

    /// Counts one more of a handle. False where it can't be counted; then counts are no longer to be asked. It takes no
    /// memory where it was taken before.
    pub(crate) fn add(&mut self, handle: HandleId) -> bool
        ensures { IsTrue result → CountsOneMore self.old self.new handle }
    {
        if self.handle != handle.0 {
            if self.here != 0 && !add_to(&mut self.others, self.handle, self.here) {
                return false;
            }
            self.handle = handle.0;
            self.here = 0;
        }
        let Some(more) = self.here.checked_add(1) else {
            return false;
        };
        self.here = more;
        true
    }

    /// Counts one less of a handle. It takes no memory.
    pub(crate) fn remove(&mut self, handle: HandleId)
        ensures { CountsOneLess self.old self.new handle }
    {
        if self.here != 0 && self.handle == handle.0 {
            self.here -= 1;
        } else {
            take_from(&mut self.others, handle.0);
        }
    }

    /// Equal counts, or out of memory.
    pub(crate) fn copy(&self) -> Result<HandleCounts, OutOfMemory>
        ensures { IfOk result (λ copy. (h : ℕ) → count_of copy h ≡ count_of self.now h) }
    {
        Ok(HandleCounts {
            handle: self.handle,
            here: self.here,
            others: self.others.clone()?,
        })
    }
}
