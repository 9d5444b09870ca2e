//! What a thread knows of time.
ghost use Rattle.std.specs.Prelude.{◌≡◌};
ghost use Rattle.bd_moment.specs.Time.{asleep_for, begun, before_any, is_asleep, with_line_ended};
ghost use Rattle.bd_rule_lines.specs.Known.{wakes_at};

use bd_base::Job;

/// The moments that a thread goes by, in microseconds.
#[derive(Clone, Copy, Debug, PartialEq, Eq)]
pub struct Time {
    // the moment of its turn, 0 before the first
    moment: u64,
    // the moment at which the next line of its script was first met
    met: u64,
    // the moment of its first turn, from which timeslices are counted
    start: u64,
    // whether it had a turn
    given: bool,
}

impl Time {
    /// Before any turn.
    pub fn new() -> Time
        ensures { result ≡ before_any }
    {
        Time {
            moment: 0,
            met: 0,
            start: 0,
            given: false,
        }
    }

    /// A turn begins. Its moment is this one (microseconds), or that of the turn before where that was later: a
    /// clock that goes back stands still here. The first line of a script is met in the first turn, from which on
    /// timeslices are counted.
    pub fn begin(&mut self, now: u64)
        ensures { self.new ≡ begun self.old now }
    {
        self.moment = self.moment.max(now);
        if !self.given {
            self.met = self.moment;
            self.start = self.moment;
            self.given = true;
        }
    }

    /// The moment of the turn (microseconds), 0 before the first.
    pub fn moment(&self) -> u64
        ensures { result ≡ self.now.moment }
    {
        self.moment
    }

    /// The moment of the first turn (microseconds), 0 before it.
    pub fn start(&self) -> u64
        ensures { result ≡ self.now.start }
    {
        self.start
    }

    /// A line ended in this turn: the next one is met at the turn's moment.
    pub fn line_ended(&mut self)
        ensures { self.new ≡ with_line_ended self.old }
    {
        self.met = self.moment;
    }

    // The moment at which a sleep of this number of microseconds ends: at the last that there is in any case.
    fn wakes_at(&self, micros: u64) -> u64
        ensures { result ≡ wakes_at self.now.met micros }
    {
        self.met.saturating_add(micros)
    }

    /// Whether the next line, which has this command, sleeps: it is a `sleep`, and its microseconds haven't passed since
    /// it was first met.
    pub fn is_asleep(&self, job: &Job) -> bool
        ensures { result ≡ is_asleep self.now job.now }
    {
        match job {
            Job::Sleep(micros) => self.wakes_at(*micros) > self.moment,
            _ => false,
        }
    }

    /// For how many microseconds from the turn's moment on the next line, which has this command, sleeps; none
    /// where it doesn't, and none before the first turn.
    pub fn asleep_for(&self, job: &Job) -> Option<u64>
        ensures { result ≡ asleep_for self.now job.now }
    {
        let Job::Sleep(micros) = job else {
            return None;
        };
        let end = self.wakes_at(*micros);
        if !self.given || end <= self.moment {
            None
        } else {
            Some(end - self.moment)
        }
    }
}
