//! A set of devices.
ghost use Rattle.std.specs.Prelude.{◌≡◌};
ghost use Rattle.bd_base.specs.DevSet.{has_dev, no_devs, with_dev};

use crate::id::DevId;

/// A set of devices below 256: bit n of `low` is device n, and bit n of `high` is device 128 + n.
#[derive(Clone, Copy, PartialEq, Eq)]
pub struct DevSet {
    pub low: u128,
    pub high: u128,
}

impl DevSet {
    /// The set with no device.
    pub fn empty() -> DevSet
        ensures { result ≡ no_devs }
    {
        DevSet { low: 0, high: 0 }
    }

    /// Whether the device is in the set. A number of 256 and on is in none.
    pub fn has(&self, dev: DevId) -> bool
        ensures { result ≡ has_dev self.now dev }
    {
        let n = dev.0;
        if n < 128 {
            (self.low >> n) & 1 == 1
        } else if n < 256 {
            (self.high >> (n - 128)) & 1 == 1
        } else {
            false
        }
    }

    /// The set with the device; a number of 256 and on comes into none.
    pub fn with(self, dev: DevId) -> DevSet
        ensures { result ≡ with_dev dev self }
    {
        let n = dev.0;
        if n < 128 {
            DevSet {
                low: self.low | 1 << n,
                high: self.high,
            }
        } else if n < 256 {
            DevSet {
                low: self.low,
                high: self.high | 1 << (n - 128),
            }
        } else {
            self
        }
    }
}
