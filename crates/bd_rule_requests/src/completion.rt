//! When a request may be cut and may complete, and the data that its completion shows.
ghost use Rattle.std.specs.Prelude.{◌≡◌, false, true, option_map, IfNone, IfOk, IfSome, Some};
ghost use Rattle.bd_machine.specs.Completion.{data_of, is_shown, is_shown_data, pieces_of, turned_if};
ghost use Rattle.bd_machine.specs.Kept.{request_here};
ghost use Rattle.bd_machine.specs.Requests.{has_extents, is_shown_due, may_complete, may_cut};

use crate::injections::{has_every_decision, is_at_own, is_under_way};
use crate::kept::request_here;
use crate::pieces::{all_back, data_of};
use crate::resets::{is_walking, reset_of};
use bd_base::{Op, OutOfMemory, ReqId, Setup, Shown, Status, digest_of};
use bd_blocks::extents;
use bd_machine::{OpenRequest, ReadBytes};
use bd_rule_view::Sees;
use std::alloc::Global;

// ---- a cut

/// The request, where it may be cut.
pub fn uncut<S: Sees>(seen: &S, setup: &Setup, thread: u32, req: ReqId) -> Option<OpenRequest>
    ensures here { IfSome result (λ r. request_here (S.view_of seen.now) req ≡ Some r) }
    ensures may { IfSome result (λ r. may_cut setup.now thread (S.view_of seen.now) req (Some r) ≡ true) }
    ensures none { IfNone result (may_cut setup.now thread (S.view_of seen.now) req (request_here (S.view_of seen.now) req) ≡ false) }
{
    let r = request_here(seen, req)?;
    if is_under_way(seen, setup, thread, req, r) && has_every_decision(setup, r) {
        Some(r)
    } else {
        None
    }
}

/// Whether a request may be cut: its type has a range, it is on its own thread, has every Let and every
/// decision, and is neither cut nor aborted nor marked.
pub fn may_cut<S: Sees>(seen: &S, setup: &Setup, thread: u32, req: ReqId) -> bool
    ensures { result ≡ may_cut setup.now thread (S.view_of seen.now) req (request_here (S.view_of seen.now) req) }
{
    uncut(seen, setup, thread, req).is_some()
}

// Whether it is cut into n pieces.
fn is_cut_into(
    alloc: Global,
    setup: &Setup,
    n: u32,
    here: Option<OpenRequest>,
) -> Result<bool, OutOfMemory>
    ensures { IfOk result (λ b. b ≡ has_extents setup.now n here) }
{
    match here {
        Some(r) => {
            let found = extents(alloc, setup, r.dev, r.lba, r.count)?;
            Ok(n as usize == found.len())
        }
        None => Ok(false),
    }
}

/// Whether a request that is on the thread is cut into n pieces.
pub fn has_extents<S: Sees>(
    alloc: Global,
    seen: &S,
    setup: &Setup,
    req: ReqId,
    n: u32,
) -> Result<bool, OutOfMemory>
    ensures { IfOk result (λ b. b ≡ has_extents setup.now n (request_here (S.view_of seen.now) req)) }
{
    is_cut_into(alloc, setup, n, request_here(seen, req))
}

// ---- a completion

/// Whether the request is on its own thread, every piece of it is there and not out, and no walk of it
/// is under way.
pub fn may_complete<S: Sees>(seen: &S, thread: u32, req: ReqId) -> bool
    ensures { result ≡ may_complete thread (S.view_of seen.now) req (request_here (S.view_of seen.now) req) }
{
    let Some(r) = request_here(seen, req) else {
        return false;
    };
    let n = r.pieces.unwrap_or(0);
    let is_whole = is_at_own(thread, req, r) && all_back(seen, req, n);
    is_whole && !is_walking(reset_of(seen.part(), req))
}

/// The data that a read shows: what its pieces read in order, with byte 0 complemented where it took an
/// odd number of corruptions; none where a part of it is untold.
pub fn data_read<S: Sees>(
    alloc: Global,
    seen: &S,
    req: ReqId,
    r: OpenRequest,
) -> Result<ReadBytes, OutOfMemory>
    ensures { IfOk result (λ bytes. bytes ≡ turned_if r.injected.turned (data_of (pieces_of (S.view_of seen.now) req r))) }
{
    let n = r.pieces.unwrap_or(0);
    let bytes = data_of(alloc, seen, req, n)?;
    Ok(bytes.turned_if(r.injected.turned))
}

// Whether the first 8 bytes and the digest are those of the data.
fn is_shown_data(bytes: &[u8], shown: &Shown) -> bool
    ensures { result ≡ is_shown_data (Some bytes.now) shown.now }
{
    let digest = digest_of(bytes);
    let first = if bytes.len() < 8 { bytes } else { &bytes[..8] };
    let same_first = shown.first.as_slice() == first;
    let same_digest = shown.digest.as_slice() == digest.as_slice();
    same_first && same_digest
}

fn is_shown(bytes: Option<&[u8]>, shown: &Option<Shown>) -> bool
    ensures { result ≡ is_shown (option_map (λ b. b.now) bytes.entry) shown.now }
{
    match (shown, bytes) {
        (None, _) => false,
        (Some(_), None) => true,
        (Some(s), Some(b)) => is_shown_data(b, s),
    }
}

/// Whether a completion with this status may show this: data exactly for a read with success, and
/// then the data read.
pub fn is_shown_due<S: Sees>(
    alloc: Global,
    seen: &S,
    req: ReqId,
    status: Status,
    shown: &Option<Shown>,
) -> Result<bool, OutOfMemory>
    ensures { IfOk result (λ b. b ≡ is_shown_due (S.view_of seen.now) req status shown.now (request_here (S.view_of seen.now) req)) }
{
    let Some(r) = request_here(seen, req) else {
        return Ok(false);
    };
    if matches!(r.op, Op::Read) && matches!(status, Status::Success) {
        let bytes = data_read(alloc, seen, req, r)?;
        Ok(is_shown(bytes.as_told(), shown))
    } else {
        Ok(shown.is_none())
    }
}
