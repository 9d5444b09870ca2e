//! What is left of a device's limits, over timeslices of 1,000 microseconds.
ghost use Rattle.std.specs.Prelude.{◌≡◌, ◌≤◌, ◌<◌, ◌+◌, ◌-◌, ◌*◌, ◌^◌, pos, true, IsOk, IfNone, IfOk, IfSome};
ghost use Rattle.bd_machine.specs.declared.state.Starts.{Starts};
ghost use Rattle.bd_machine.specs.Budget.{charged, charged_by, lets, may_have_passed, may_pass, quotas_of, renewed, renewed_by, slices_passed, starts_before};
ghost use Rattle.bd_qos.specs.Bounds.{AreInRange, AreBounded, IsBounded, IsOneOf, MayHavePassed};

use bd_base::{OutOfMemory, Rates, Way};
use bd_blocks::{bytes_in_slice, requests_in_slice};
use bd_machine::{Left, Starts};

// ---- a request

// Whether a limit of this quota lets a request through.
fn lets(quota: u128, left: i128) -> bool
    ensures { result ≡ lets quota left }
{
    quota == 0 || 0 < left
}

/// Whether a request may pass: each limit that counts its way lets it through.
pub fn may_pass(rates: Rates, left: Left, way: Way) -> bool
    ensures { result ≡ may_pass (quotas_of rates) left way }
{
    lets(requests_in_slice(rates.rw_ios_per_sec), left.rw_requests)
        && lets(bytes_in_slice(rates.rw_mbytes_per_sec), left.rw_bytes)
        && match way {
            Way::Read => lets(bytes_in_slice(rates.r_mbytes_per_sec), left.r_bytes),
            Way::Write => lets(bytes_in_slice(rates.w_mbytes_per_sec), left.w_bytes),
        }
}

// What is left of a limit that a request was charged to. More than 127 bits count answer out of memory.
fn charged_by(quota: u128, cost: u64, left: i128) -> Result<i128, OutOfMemory>
    ensures left { IfOk result (λ n. n ≡ charged_by quota cost left) }
    ensures fits { IsBounded left → IsOk result }
    ensures bounded { IsBounded left → lets quota left ≡ true → IfOk result IsBounded }
{
    if quota == 0 {
        return Ok(left);
    }
    match left.checked_sub(i128::from(cost)) {
        Some(n) => Ok(n),
        None => Err(OutOfMemory),
    }
}

/// What is left after a request of these bytes passed. More than 127 bits count answer out of memory;
/// where what was left is bounded it never comes to that.
pub fn charged(rates: Rates, way: Way, bytes: u64, left: Left) -> Result<Left, OutOfMemory>
    ensures left { IfOk result (λ l. l ≡ charged (quotas_of rates) way bytes left) }
    ensures fits { AreBounded left → IsOk result }
    ensures bounded { AreBounded left → may_pass (quotas_of rates) left way ≡ true → IfOk result AreBounded }
{
    let rw_requests = charged_by(requests_in_slice(rates.rw_ios_per_sec), 1, left.rw_requests)?;
    let rw_bytes = charged_by(
        bytes_in_slice(rates.rw_mbytes_per_sec),
        bytes,
        left.rw_bytes,
    )?;
    match way {
        Way::Read => {
            let r_bytes = charged_by(bytes_in_slice(rates.r_mbytes_per_sec), bytes, left.r_bytes)?;
            Ok(Left {
                rw_requests,
                rw_bytes,
                r_bytes,
                w_bytes: left.w_bytes,
            })
        }
        Way::Write => {
            let w_bytes = charged_by(bytes_in_slice(rates.w_mbytes_per_sec), bytes, left.w_bytes)?;
            Ok(Left {
                rw_requests,
                rw_bytes,
                r_bytes: left.r_bytes,
                w_bytes,
            })
        }
    }
}

// ---- timeslices

// These quotas. More than 127 bits count answer out of memory.
fn quotas(quota: u128, slices: u64) -> Result<i128, OutOfMemory>
    ensures value { IfOk result (λ n. n ≡ pos (slices * quota)) }
    ensures fits { quota < 2 ^ 30 → IsOk result }
    ensures bounded { quota < 2 ^ 30 → slices * quota < 2 ^ 94 }
{
    let Some(all) = u128::from(slices).checked_mul(quota) else {
        return Err(OutOfMemory);
    };
    match i128::try_from(all) {
        Ok(n) => Ok(n),
        Err(_) => Err(OutOfMemory),
    }
}

// A limit after these timeslices.
fn renewed_by(quota: u128, slices: u64, left: i128) -> Result<i128, OutOfMemory>
    ensures left { IfOk result (λ n. n ≡ renewed_by quota slices left) }
    ensures fits { quota < 2 ^ 30 → IsBounded left → IsOk result }
    ensures bounded { quota < 2 ^ 30 → IsBounded left → IfOk result IsBounded }
{
    let more = quotas(quota, slices)?;
    match left.min(0).checked_add(more) {
        Some(n) => Ok(n),
        None => Err(OutOfMemory),
    }
}

/// What is left after these timeslices: an overrun stays, what was left over goes, and each brings a
/// quota. More than 127 bits count answer out of memory; where the limits are in range and what was left
/// is bounded it never comes to that.
pub fn renewed(rates: Rates, slices: u64, left: Left) -> Result<Left, OutOfMemory>
    ensures left { IfOk result (λ l. l ≡ renewed (quotas_of rates) slices left) }
    ensures fits { AreInRange rates → AreBounded left → IsOk result }
    ensures bounded { AreInRange rates → AreBounded left → IfOk result AreBounded }
{
    Ok(Left {
        rw_requests: renewed_by(
            requests_in_slice(rates.rw_ios_per_sec),
            slices,
            left.rw_requests,
        )?,
        rw_bytes: renewed_by(
            bytes_in_slice(rates.rw_mbytes_per_sec),
            slices,
            left.rw_bytes,
        )?,
        r_bytes: renewed_by(bytes_in_slice(rates.r_mbytes_per_sec), slices, left.r_bytes)?,
        w_bytes: renewed_by(bytes_in_slice(rates.w_mbytes_per_sec), slices, left.w_bytes)?,
    })
}

/// How many timeslices passed from a start to a moment (microseconds) beside those that were counted
/// before. Where they are any, the machine lets them pass at that moment, and the start stays one of
/// those that it leaves.
pub fn slices_due(start: u64, now: u64, counted: u128) -> u64
    ensures due { result ≡ slices_passed start now - counted }
    ensures allowed { 0 < result → (starts : Starts) → IsOneOf start starts → MayHavePassed start now (counted + result) starts }
{
    let passed = now.saturating_sub(start) / 1000;
    u128::from(passed).saturating_sub(counted) as u64
}

// The microseconds of these timeslices, and of all but the last moment of one more; none past 128 bits.
fn span(slices: u128) -> Option<(u128, u128)>
    ensures fits { IfSome result (λ s. (s.0 ≡ slices * 1000) × (s.1 ≡ slices * 1000 + 999)) }
    ensures past { IfNone result (2 ^ 128 ≤ slices * 1000 + 999) }
{
    let whole = slices.checked_mul(1000)?;
    let more = whole.checked_add(999)?;
    Some((whole, more))
}

/// The starts from which exactly so many timeslices passed up to a moment (microseconds). Timeslices
/// whose time is past 128 bits answer out of memory.
pub fn starts_before(now: u64, slices: u128, starts: Starts) -> Result<Starts, OutOfMemory>
    ensures { IfOk result (λ s. s ≡ starts_before now slices starts) }
{
    let Some((whole, more)) = span(slices) else {
        return Err(OutOfMemory);
    };
    let now = u128::from(now);
    Ok(Starts {
        earliest: starts.earliest.max(now.saturating_sub(more) as u64),
        latest: starts.latest.min(now.saturating_sub(whole) as u64),
    })
}

/// Whether so many timeslices may have passed at a moment (microseconds): some start is left.
pub fn may_have_passed(now: u64, slices: u128, starts: Starts) -> bool
    ensures { result ≡ may_have_passed now slices starts }
{
    let Some((whole, more)) = span(slices) else {
        return false;
    };
    let now = u128::from(now);
    let earliest = u128::from(starts.earliest).max(now.saturating_sub(more));
    let latest = u128::from(starts.latest).min(now.saturating_sub(whole));
    whole <= now && earliest <= latest
}
