//! The system's monotonic clock, which tells nothing to a contract.
ghost use Rattle.std.specs.Prelude.{◌≡◌};

use bd_outside::Clock;
use std::thread;
use std::time::{self, Duration};

/// A runtime's clock, in microseconds since a start of its own: 0 where it can't be read.
#[derive(Drop)]
pub struct SystemClock<'a, R: time::Clock> {
    rt: &'a R,
}

impl<'a, R: time::Clock> SystemClock<'a, R> {
    /// The clock of a runtime.
    pub fn new(rt: &'a R) -> SystemClock<'a, R>
        ensures { result.rt.now ≡ rt.now }
    {
        SystemClock { rt }
    }
}

impl<R: time::Clock> Clock for SystemClock<'_, R> {
    ghost use Rattle.std.specs.Prelude.{None};

    ghost range = { λ c. None };

    fn now(&self) -> u64 {
        match self.rt.monotonic() {
            Ok(moment) => u64::try_from(moment.as_micros()).unwrap_or(u64::MAX),
            Err(_) => 0,
        }
    }

    /// The calling thread of the system waits, so that it takes no processor time.
    fn pause(&self, micros: u64) {
        thread::sleep(self.rt, Duration::from_micros(micros));
    }
}

#[cfg(test)]
mod tests {
    use super::*;

    #[test]
    fn a_pause_takes_its_time(rt: HostRuntime) {
        let clock = SystemClock::new(&rt);
        let first = clock.now();
        clock.pause(20_000);
        let passed = clock.now().saturating_sub(first);
        assert!(rt; passed >= 20_000, "a pause of 20 ms took {passed}");
    }

    #[test]
    fn moments_rise(rt: HostRuntime) {
        let clock = SystemClock::new(&rt);
        let first = clock.now();
        let mut last = first;
        for _ in 0..10_000_000 {
            let moment = clock.now();
            assert!(rt; last <= moment, "{moment} after {last}");
            last = moment;
            if 1_000 < last.wrapping_sub(first) {
                return;
            }
        }
        assert!(rt; first < last, "it stands still at {first}");
    }
}
