//! Whether a drain has to wait: an open request has its device below.
ghost use Rattle.std.specs.Prelude.{◌≡◌, ◌≤◌, ◌^◌, length};
ghost use Rattle.std.specs.List.{list_any};
ghost use Rattle.bd_machine.specs.Walks.{is_drained, is_kept_waiting};
ghost use Rattle.bd_rule_walks.specs.Counted.{any_counted};

use bd_base::{DevId, Setup, WalkKind};
use bd_blocks::is_below;
use bd_machine::{Open, OpenList, Part};
use bd_rule_requests::is_reset;

/// Whether the open request is no reset and has the device below.
pub fn is_kept_waiting(setup: &Setup, dev: DevId, request: &Open) -> bool
    ensures { result ≡ is_kept_waiting setup.now dev request.now }
{
    !is_reset(request.op) && is_below(setup, request.dev, dev)
}

// Whether one of these counts, by the numbers of devices, isn't 0, and its device is this one or has it
// below.
fn any_counted(setup: &Setup, counts: &[usize], dev: DevId) -> bool
    requires { length counts.now ≤ 2 ^ 32 }
    ensures { result ≡ any_counted setup.now dev 0 counts.now }
{
    for number in 0..counts.len() {
        if counts[number] != 0 && is_below(setup, DevId(number as u32), dev) {
            return true;
        }
    }
    false
}

/// Whether one of these open requests is no reset and has the device below: each device with open requests is asked
/// once, or where they aren't counted, each request.
pub fn any_waits(setup: &Setup, requests: &OpenList, dev: DevId) -> bool
    ensures { result ≡ list_any (is_kept_waiting setup.now dev) requests.now }
{
    match requests.counts() {
        Some(counts) => any_counted(setup, counts, dev),
        None => requests
            .iter()
            .any(|open| is_kept_waiting(setup, dev, open)),
    }
}

/// Whether no open request of the thread stands against a visit of this kind: against a drain each does
/// that has the device below, but resets.
pub fn is_drained(setup: &Setup, part: &Part, dev: DevId, kind: WalkKind) -> bool
    ensures { result ≡ is_drained setup.now part.now dev kind }
{
    match kind {
        WalkKind::Drain => !any_waits(setup, &part.requests, dev),
        _ => true,
    }
}
