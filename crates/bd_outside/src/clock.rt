//! Moments, in microseconds.
ghost use Rattle.std.specs.Prelude.{◌≡◌, ℕ};

use std::marker::Model;
use std::sync::atomic::{AtomicU64, Ordering};

/// A clock, which may answer anything, also a moment before an earlier one.
pub trait Clock {
    ghost use Rattle.std.specs.Prelude.{Option};
    ghost use Rattle.bd_outside.specs.Clock.{Moments, IsWithin};

    // the least and the greatest moment that it may answer, if it tells them
    ghost range: { Self → Option Moments };

    /// The moment, in microseconds.
    fn now(&self) -> u64
        ensures { IsWithin (range self.now) result };

    /// Waits for at most this number of microseconds, or returns at once: nothing is promised of it.
    fn pause(&self, micros: u64);
}

/// A clock that stands still, seen as its moment.
#[derive(Clone, Copy)]
pub struct StillClock {
    at: u64,
}

impl Model for StillClock {
    ghost Value = { ℕ };

    ghost view = { λ c. c.at };

    ghost inverse = { λ n. record { at = n } };
}

impl StillClock {
    /// A clock that always answers this moment (microseconds).
    pub fn new(at: u64) -> StillClock
        ensures { result ≡ at }
    {
        StillClock { at }
    }
}

impl Clock for StillClock {
    ghost use Rattle.std.specs.Prelude.{Some};

    ghost range = { λ at. Some (record { least = at; greatest = at }) };

    fn now(&self) -> u64 {
        self.at
    }

    /// Returns at once.
    fn pause(&self, _micros: u64) {}
}

/// A clock that goes on by a step at each call, from whichever thread it comes; it tells no moments.
#[derive(Drop)]
pub struct StepClock {
    next: AtomicU64,
    step: u64,
}

impl StepClock {
    /// A clock whose first answer is `start`, and each later one the one before plus `step`, modulo
    /// 2^64 (microseconds).
    pub fn new(start: u64, step: u64) -> StepClock
        ensures { result.step ≡ step }
    {
        StepClock {
            next: AtomicU64::new(start),
            step,
        }
    }
}

impl Clock for StepClock {
    ghost use Rattle.std.specs.Prelude.{None};

    ghost range = { λ c. None };

    fn now(&self) -> u64 {
        self.next.fetch_add(self.step, Ordering::SeqCst)
    }

    /// Returns at once: its time goes on by calls alone.
    fn pause(&self, _micros: u64) {}
}
