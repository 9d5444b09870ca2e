//! The moments of a thread's turns.
ghost use Rattle.std.specs.Prelude.{◌≡◌};
ghost use Rattle.bd_thread.specs.Asleep.{begun_at, sleeps_for};

use crate::links::Links;
use crate::thread::Thread;
use bd_rule_script::next_line;

impl<'a> Thread<'a> {
    /// Its next turn has this moment of the clock (microseconds), or that of the turn before where that was later.
    /// Called before each `turn` and each `work`, in which the moment stays.
    pub fn begin(&mut self, now: u64)
        ensures { self.new ≡ begun_at now self.old }
    {
        self.time.begin(now);
    }

    /// For how many microseconds from the moment of its turn on its next line sleeps; none where it doesn't, and none
    /// after Shutdown.
    pub fn sleeps_for(&self, links: &Links) -> Option<u64>
        ensures { result ≡ sleeps_for self.now links.now }
    {
        if links.shut {
            return None;
        }
        let line = next_line(self.setup, self.me, &self.part)?;
        self.time.asleep_for(&line.job)
    }
}
