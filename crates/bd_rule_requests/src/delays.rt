//! Requests that delays hold.
ghost use Rattle.std.specs.Prelude.{◌≡◌};
ghost use Rattle.bd_machine.specs.Delays.{is_delayed};
ghost use Rattle.bd_machine.specs.Statuses.{is_delay_left};

use bd_base::Setup;
use bd_blocks::{below, is_delay, way_of};
use bd_machine::{Hold, OpenRequest};

/// Whether it is a read or a write over a delay device.
pub fn is_delayed(setup: &Setup, r: OpenRequest) -> bool
    ensures { result ≡ is_delayed setup.now r }
{
    if way_of(r.op).is_none() {
        return false;
    }
    for d in below(setup, r.dev) {
        if is_delay(setup, d) {
            return true;
        }
    }
    false
}

/// Whether delays still hold a request that was cut.
pub fn is_delay_left(setup: &Setup, r: OpenRequest) -> bool
    ensures { result ≡ is_delay_left setup.now r }
{
    is_delayed(setup, r) && r.pieces.is_some() && !matches!(r.hold, Hold::Over)
}
