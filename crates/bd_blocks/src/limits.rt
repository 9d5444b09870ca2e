//! The limits of devices.
ghost use Rattle.std.specs.Prelude.{◌≡◌};
ghost use Rattle.bd_machine.specs.Budget.{bytes_in_slice, one_quota, quotas_of, requests_in_slice};
ghost use Rattle.bd_machine.specs.Limits.{counts_both, counts_way, is_limited, rates_of, way_of};

use bd_base::{DevId, Op, Rates, Setup, Way};
use bd_machine::Left;

const NO_LIMIT: Rates = Rates {
    rw_ios_per_sec: 0,
    rw_mbytes_per_sec: 0,
    r_mbytes_per_sec: 0,
    w_mbytes_per_sec: 0,
};

/// The limits of a device; none where the setup doesn't have the device.
pub fn rates_of(setup: &Setup, dev: DevId) -> Rates
    ensures { result ≡ rates_of setup.now dev }
{
    match setup.rates.as_slice().get(dev.0 as usize) {
        Some(rates) => *rates,
        None => NO_LIMIT,
    }
}

fn counts_both(rates: Rates) -> bool
    ensures { result ≡ counts_both rates }
{
    rates.rw_ios_per_sec > 0 || rates.rw_mbytes_per_sec > 0
}

/// The way by which limits and latencies count a type; none but for reads and writes.
pub fn way_of(op: Op) -> Option<Way>
    ensures { result ≡ way_of op }
{
    match op {
        Op::Read => Some(Way::Read),
        Op::Write(_) => Some(Way::Write),
        _ => None,
    }
}

/// Whether some limit counts requests of this way.
pub fn counts_way(way: Way, rates: Rates) -> bool
    ensures { result ≡ counts_way way rates }
{
    match way {
        Way::Read => counts_both(rates) || rates.r_mbytes_per_sec > 0,
        Way::Write => counts_both(rates) || rates.w_mbytes_per_sec > 0,
    }
}

/// Whether a device has a limit.
pub fn is_limited(setup: &Setup, dev: DevId) -> bool
    ensures { result ≡ is_limited setup.now dev }
{
    let rates = rates_of(setup, dev);
    counts_way(Way::Read, rates) || counts_way(Way::Write, rates)
}

/// The requests that a limit per second lets through in a timeslice of 1,000 microseconds, rounded up.
pub fn requests_in_slice(per_second: u64) -> u128
    ensures { result ≡ requests_in_slice per_second }
{
    (u128::from(per_second) + 999) / 1000
}

/// The bytes that a limit in megabytes per second lets through in a timeslice, rounded down.
pub fn bytes_in_slice(megabytes: u64) -> u128
    ensures { result ≡ bytes_in_slice megabytes }
{
    u128::from(megabytes) * 1_048_576 / 1000
}

/// What is left of each limit of these rates at first: one quota.
pub fn one_quota(rates: Rates) -> Left
    ensures { result ≡ one_quota (quotas_of rates) }
{
    Left {
        rw_requests: requests_in_slice(rates.rw_ios_per_sec) as i128,
        rw_bytes: bytes_in_slice(rates.rw_mbytes_per_sec) as i128,
        r_bytes: bytes_in_slice(rates.r_mbytes_per_sec) as i128,
        w_bytes: bytes_in_slice(rates.w_mbytes_per_sec) as i128,
    }
}
