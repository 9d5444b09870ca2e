//! Which limits count a request, and the next limited device on its way.
ghost use Rattle.std.specs.Prelude.{◌≡◌, filter, slice_get};
ghost use Rattle.bd_machine.specs.BlockMap.{below};
ghost use Rattle.bd_machine.specs.Limits.{counts_way, next_limited, rates_of};

use bd_base::{DevId, Setup, Way};
use bd_blocks::{below, counts_way, rates_of, way_of};
use bd_machine::OpenRequest;

// The device of this place, from 0, among those below whose limits count the way.
#[tactic(auto, using(crate::proofs::Chosen::passes, crate::proofs::Chosen::skips, crate::proofs::Chosen::finds))]
fn limited_at(setup: &Setup, dev: DevId, way: Way, place: u32) -> Option<DevId>
    ensures { result ≡ slice_get (filter (λ d. counts_way way (rates_of setup.now d)) (below setup.now dev)) place }
{
    let mut before = place;
    for d in below(setup, dev) {
        if counts_way(way, rates_of(setup, d)) {
            if before == 0 {
                return Some(d);
            }
            before -= 1;
        }
    }
    None
}

/// The next device whose limits count the request, from the top down; none once it has every Let.
pub fn next_limited(setup: &Setup, r: OpenRequest) -> Option<DevId>
    ensures { result ≡ next_limited setup.now r }
{
    match way_of(r.op) {
        Some(way) => limited_at(setup, r.dev, way, r.lets),
        None => None,
    }
}
