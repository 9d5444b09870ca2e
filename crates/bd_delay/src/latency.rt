//! How long requests wait, and how many of a delay device's were held.
ghost use Rattle.std.specs.Prelude.{◌≡◌, ◌+◌, ◌<◌, ◌^◌, min, sum_by, filter, IsOk, IfOk};
ghost use Rattle.bd_machine.specs.BlockMap.{below, is_delay};
ghost use Rattle.bd_machine.specs.Delays.{counted_all, counted_if_any, counted_once, delayed_of, last_moment, latency, latency_after, latency_at, latency_of_kind};

use bd_base::{DevId, Kind, OutOfMemory, Rows, Setup, Way};
use bd_blocks::{below, is_delay, row_of, way_of, write_row};
use bd_machine::{Delayed, OpenRequest, Part};

// ---- latencies

fn delayed_of(part: &Part, dev: DevId) -> Delayed
    ensures { result ≡ delayed_of part.now dev }
{
    for row in part.delayed.as_slice() {
        if row.0.0 == dev.0 {
            return row.1;
        }
    }
    Delayed {
        reads: 0,
        writes: 0,
    }
}

// Each hundredth request of a way waits the p99 latency, and the others the average.
fn latency_after(count: u128, average: u64, p99: u64) -> u64
    ensures { result ≡ latency_after count average p99 }
{
    if count % 100 == 99 { p99 } else { average }
}

/// The latency of a delay device for the next request of a way (microseconds), after those counted; 0 for
/// any other device.
pub fn latency_of_kind(kind: Kind, way: Way, counted: Delayed) -> u64
    ensures { result ≡ latency_of_kind kind way counted }
{
    match (kind, way) {
        (
            Kind::Delay {
                average_read,
                p99_read,
                ..
            },
            Way::Read,
        ) => latency_after(counted.reads, average_read, p99_read),
        (
            Kind::Delay {
                average_write,
                p99_write,
                ..
            },
            Way::Write,
        ) => latency_after(counted.writes, average_write, p99_write),
        _ => 0,
    }
}

fn latency_at(setup: &Setup, part: &Part, way: Way, dev: DevId) -> u64
    ensures { result ≡ latency_at setup.now part.now way dev }
{
    match row_of(setup, dev) {
        Some(row) => latency_of_kind(row.kind, way, delayed_of(part, dev)),
        None => 0,
    }
}

// The latencies of all delay devices below for the next request of a way. More than 128 bits count
// answer out of memory.
fn latency_below(setup: &Setup, part: &Part, way: Way, dev: DevId) -> Result<u128, OutOfMemory>
    ensures { IfOk result (λ n. n ≡ sum_by (latency_at setup.now part.now way) (below setup.now dev)) }
{
    let mut sum: u128 = 0;
    for d in below(setup, dev) {
        let Some(more) = sum.checked_add(u128::from(latency_at(setup, part, way, d))) else {
            return Err(OutOfMemory);
        };
        sum = more;
    }
    Ok(sum)
}

fn latency(setup: &Setup, part: &Part, dev: DevId, way: Option<Way>) -> Result<u128, OutOfMemory>
    ensures { IfOk result (λ n. n ≡ latency setup.now part.now dev way) }
{
    match way {
        Some(way) => latency_below(setup, part, way, dev),
        None => Ok(0),
    }
}

/// The moment (microseconds) until which a request that is held from a moment on waits: that moment with
/// the latencies of all delay devices below, at most the greatest moment. More than 128 bits count answer
/// out of memory.
pub fn held_until(
    setup: &Setup,
    part: &Part,
    dev: DevId,
    way: Option<Way>,
    now: u64,
) -> Result<u64, OutOfMemory>
    ensures { IfOk result (λ until. until ≡ min (now + latency setup.now part.now dev way) last_moment) }
{
    let Some(end) = latency(setup, part, dev, way)?.checked_add(u128::from(now)) else {
        return Err(OutOfMemory);
    };
    Ok(end.min(u128::from(u64::MAX)) as u64)
}

// ---- counts

/// A way counts one request more. More than 128 bits count answer out of memory, and nothing else does.
pub fn counted_once(way: Way, counted: Delayed) -> Result<Delayed, OutOfMemory>
    ensures counted { IfOk result (λ c. c ≡ counted_once way counted) }
    ensures fits { counted.reads + 1 < 2 ^ 128 → counted.writes + 1 < 2 ^ 128 → IsOk result }
{
    let once = match way {
        Way::Read => counted.reads.checked_add(1),
        Way::Write => counted.writes.checked_add(1),
    };
    let Some(n) = once else {
        return Err(OutOfMemory);
    };
    match way {
        Way::Read => Ok(Delayed {
            reads: n,
            writes: counted.writes,
        }),
        Way::Write => Ok(Delayed {
            reads: counted.reads,
            writes: n,
        }),
    }
}

// Each delay device below counts one request more of a way.
fn count_below(
    setup: &Setup,
    part: &Part,
    way: Way,
    dev: DevId,
) -> Result<Rows<(DevId, Delayed)>, OutOfMemory>
    ensures { IfOk result (λ table. table ≡ counted_all way part.now part.now.delayed (filter (is_delay setup.now) (below setup.now dev))) }
{
    let mut table = part.delayed.copy()?;
    for d in below(setup, dev) {
        if is_delay(setup, d) {
            let counted = counted_once(way, delayed_of(part, d))?;
            write_row(&mut table, d, counted)?;
        }
    }
    Ok(table)
}

/// The counts of a part's delay devices, with the request that is held now among them.
pub fn counted(
    setup: &Setup,
    part: &Part,
    here: Option<OpenRequest>,
) -> Result<Rows<(DevId, Delayed)>, OutOfMemory>
    ensures { IfOk result (λ table. table ≡ counted_if_any setup.now part.now here) }
{
    let way = match here {
        Some(r) => way_of(r.op),
        None => None,
    };
    match (here, way) {
        (Some(r), Some(way)) => count_below(setup, part, way, r.dev),
        _ => part.delayed.copy(),
    }
}
