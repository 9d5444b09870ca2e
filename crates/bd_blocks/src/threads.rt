//! Sets of threads.
ghost use Rattle.std.specs.Prelude.{◌≡◌, ◌+◌, ◌^◌, cond, IfOk};
ghost use Rattle.bd_machine.specs.Threads.{first_of, has, is_nobody, without};

use bd_base::{OutOfMemory, ThreadSet};

/// Whether a thread is in the set. A number of 16 and on is in none.
#[tactic(auto, using(crate::proofs::Bits::none_above))]
pub fn has(threads: ThreadSet, t: u32) -> bool
    ensures { result ≡ has threads t }
{
    t < 16 && (threads.0 >> t) & 1 == 1
}

/// Whether the set has no thread.
pub fn is_nobody(threads: ThreadSet) -> bool
    ensures { result ≡ is_nobody threads }
{
    threads.0 == 0
}

/// The least thread of the set; none where it has no thread.
pub fn first_of(threads: ThreadSet) -> Option<u32>
    ensures { result ≡ first_of threads }
{
    (0..16).find(|t| has(threads, *t))
}

/// The set without a thread.
pub fn without(threads: ThreadSet, t: u32) -> ThreadSet
    ensures { result ≡ without threads t }
{
    if has(threads, t) {
        ThreadSet(threads.0 - (1 << t))
    } else {
        threads
    }
}

/// A set with one thread more, where it is to be in it: so the set of those of the first threads that
/// pass a test grows by one, from none on. A thread of 16 or more, and one that makes the set pass 16
/// bits, count as out of memory.
pub fn with_thread(threads: ThreadSet, t: u32, here: bool) -> Result<ThreadSet, OutOfMemory>
    ensures { IfOk result (λ s. s.0 ≡ cond here (2 ^ t) 0 + threads.0) }
{
    if !here {
        return Ok(threads);
    }
    if t >= 16 {
        return Err(OutOfMemory);
    }
    match threads.0.checked_add(1 << t) {
        Some(bits) => Ok(ThreadSet(bits)),
        None => Err(OutOfMemory),
    }
}
