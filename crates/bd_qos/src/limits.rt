//! The limits of one device.
ghost use Rattle.std.specs.Prelude.{◌≡◌, IsTrue};
ghost use Rattle.bd_machine.specs.Budget.{quotas_of, one_quota, may_pass, charged};
ghost use Rattle.bd_qos.specs.Allowance.{newly_passed, after_slices};
ghost use Rattle.bd_qos.specs.Bounds.{AreInRange, AreBounded};

use crate::budget::{charged, may_pass, renewed, slices_due};
use bd_base::{Rates, Way};
use bd_blocks::one_quota;
use bd_machine::Left;
use std::marker::Model;

/// What is left of each limit of a device, and the timeslices that were counted.
#[derive(Drop)]
pub struct Limits {
    rates: Rates,
    left: Left,
    // The first timeslice begins at this moment (microseconds).
    start: u64,
    // How many timeslices since then were counted.
    slices: u64,
}

impl Model for Limits {
    ghost use Rattle.bd_qos.specs.Allowance.{Allowance};
    ghost use Rattle.bd_qos.specs.Bounds.{AreInRange, AreBounded};

    ghost Value = { Allowance };

    ghost view = { λ l. record { rates = l.rates; left = l.left; start = l.start; slices = l.slices } };

    ghost invariant = { λ l. AreInRange l.rates × AreBounded l.left };
}

impl Limits {
    /// The limits of a device whose first timeslice begins at a moment (microseconds): each has one
    /// quota left. It takes no memory.
    pub fn new(rates: &Rates, start: u64) -> Limits
        requires { AreInRange rates.now }
        ensures { result ≡ record { rates = rates.now; left = one_quota (quotas_of rates.now); start = start; slices = 0 } }
    {
        Limits {
            rates: *rates,
            left: one_quota(*rates),
            start,
            slices: 0,
        }
    }

    /// Counts the timeslices that passed by a moment (microseconds) and weren't counted yet, and
    /// answers how many they are. Each brings a quota to each limit. An overrun stays, and what was
    /// left over before them goes. Where none passed, nothing changes. It takes no memory.
    pub fn tick(&mut self, now: u64) -> u64
        ensures passed { result ≡ newly_passed now self.old }
        ensures after { self.new ≡ after_slices result self.old }
    {
        let slices = slices_due(self.start, now, u128::from(self.slices));
        if slices > 0 {
            if let Ok(left) = renewed(self.rates, slices, self.left) {
                self.left = left;
                self.slices += slices;
            }
        }
        slices
    }

    /// Whether a read or a write may pass: exactly where each limit that counts it has more than 0
    /// left. So its bytes, however many, don't matter: an overrun is paid by the next timeslices.
    /// Limits on reads and writes count both, and those on one of them that one alone. It takes no
    /// memory.
    pub fn may(&self, way: Way, _bytes: u64) -> bool
        ensures { result ≡ may_pass (quotas_of self.now.rates) self.now.left way }
    {
        may_pass(self.rates, self.left, way)
    }

    /// Charges a request, which may pass, to each limit that counts it: 1 where requests are
    /// counted, else its bytes. It takes no memory.
    pub fn charge(&mut self, way: Way, bytes: u64)
        requires { IsTrue (may_pass (quotas_of self.old.rates) self.old.left way) }
        ensures { self.new ≡ record self.old { left = charged (quotas_of self.old.rates) way bytes self.old.left } }
    {
        if let Ok(left) = charged(self.rates, way, bytes, self.left) {
            self.left = left;
        }
    }
}
