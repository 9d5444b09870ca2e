//! A set of threads.
ghost use Rattle.std.specs.Prelude.{◌≡◌, ◌≢◌, ◌<◌, ◌↔◌, ℕ, IsTrue, MatchOption};
ghost use Rattle.std.specs.Int.{bit_at};
ghost use Rattle.bd_base.specs.ThreadSet.{Has, IsFirst};

use crate::id::ThreadId;

/// A set of threads below 16: bit t is thread t.
#[derive(Clone, Copy, PartialEq, Eq)]
pub struct ThreadSet(pub u16);

impl ThreadSet {
    /// The set with no thread.
    pub fn empty() -> ThreadSet
        ensures { result.0 ≡ 0 }
    {
        ThreadSet(0)
    }

    /// Whether the thread is in the set. A number of 16 and on is in none.
    pub fn has(&self, t: ThreadId) -> bool
        ensures { IsTrue result ↔ Has self.now.0 t.0 }
    {
        let bits = self.0;
        t.0 < 16 && (bits >> t.0) & 1 == 1
    }

    /// The least thread of the set; none exactly where the set is empty.
    pub fn first(&self) -> Option<ThreadId>
        ensures { MatchOption result (self.now.0 ≡ 0) (λ t. IsFirst self.now.0 t.0) }
    {
        if self.0 == 0 {
            None
        } else {
            Some(ThreadId(self.0.trailing_zeros()))
        }
    }

    /// Puts a thread into the set.
    pub fn insert(&mut self, t: ThreadId)
        requires { t.0 < 16 }
        ensures same { bit_at self.new.0 t.0 ≡ 1 }
        ensures others { (k : ℕ) → k ≢ t.0 → bit_at self.new.0 k ≡ bit_at self.old.0 k }
    {
        self.0 |= 1 << t.0;
    }

    /// Takes a thread out of the set.
    pub fn remove(&mut self, t: ThreadId)
        requires { t.0 < 16 }
        ensures same { bit_at self.new.0 t.0 ≡ 0 }
        ensures others { (k : ℕ) → k ≢ t.0 → bit_at self.new.0 k ≡ bit_at self.old.0 k }
    {
        let bits = self.0;
        self.0 = bits & !(1 << t.0);
    }
}
