//! The devices over which a request stands.
ghost use Rattle.std.specs.Prelude.{◌≡◌};
ghost use Rattle.bd_tables.specs.Under.{inserted, is_under, set_of};

use bd_base::DevId;

/// A set of devices: those over which a request stands, its own and those below. Their numbers are below
/// 256, since there are at most as many devices.
#[derive(Clone, Copy, Debug)]
pub struct Under {
    devices: [bool; 256],
}

impl Under {
    /// The set of these devices, in whatever order and however often. A number of 256 and on is left out.
    pub fn of(devices: &[DevId]) -> Under
        ensures { result ≡ set_of devices.now }
    {
        let mut set = Under {
            devices: [false; 256],
        };
        for dev in devices {
            set.insert(*dev);
        }
        set
    }

    // Puts a device into the set.
    fn insert(&mut self, dev: DevId)
        ensures { self.new ≡ inserted dev self.old }
    {
        if dev.0 < 256 {
            self.devices[dev.0 as usize] = true;
        }
    }

    /// Whether a device is in the set.
    pub fn has(&self, dev: DevId) -> bool
        ensures { result ≡ is_under dev self.now }
    {
        dev.0 < 256 && self.devices[dev.0 as usize]
    }
}
