//! Tests over the pieces of a request that are on the thread, and the data that they read.
ghost use Rattle.std.specs.Prelude.{◌≡◌, IfOk, option_copied};
ghost use Rattle.std.specs.List.{list_all, list_any};
ghost use Rattle.bd_machine.specs.Completion.{both_bytes, bytes_of, data_of, has_end, is_back, is_done, is_faulted, waits_unsent};
ghost use Rattle.bd_machine.specs.Kept.{pieces_here};

use crate::kept::piece_here;
use bd_base::{ApplyEnd, Bytes, OutOfMemory, ReqId};
use bd_machine::{OpenPiece, Progress, ReadBytes};
use bd_rule_view::{PieceId, Sees};
use std::alloc::Global;

fn is_back(piece: Option<&OpenPiece>) -> bool
    ensures { result ≡ is_back (option_copied piece.entry) }
{
    match piece {
        Some(p) => matches!(p.progress, Progress::Held),
        None => false,
    }
}

fn is_done(piece: Option<&OpenPiece>) -> bool
    ensures { result ≡ is_done (option_copied piece.entry) }
{
    match piece {
        Some(p) => matches!(p.end, Some(ApplyEnd::Done)),
        None => false,
    }
}

fn has_end(piece: Option<&OpenPiece>) -> bool
    ensures { result ≡ has_end (option_copied piece.entry) }
{
    match piece {
        Some(p) => p.end.is_some(),
        None => false,
    }
}

fn is_faulted(piece: Option<&OpenPiece>) -> bool
    ensures { result ≡ is_faulted (option_copied piece.entry) }
{
    match piece {
        Some(p) => matches!(p.end, Some(ApplyEnd::Fault)),
        None => false,
    }
}

fn waits_unsent(piece: Option<&OpenPiece>) -> bool
    ensures { result ≡ waits_unsent (option_copied piece.entry) }
{
    match piece {
        Some(p) => p.end.is_none() && matches!(p.progress, Progress::Held),
        None => false,
    }
}

/// Whether each of the first n pieces of a request is on the thread and not out.
#[tactic(auto, using(crate::proofs::Left::left_from))]
pub fn all_back<S: Sees>(seen: &S, req: ReqId, n: u32) -> bool
    ensures { result ≡ list_all is_back (pieces_here (S.view_of seen.now) req n) }
{
    for k in 0..n {
        if !is_back(piece_here(seen, PieceId { req, k })) {
            return false;
        }
    }
    true
}

/// Whether each of the first n pieces of a request is on the thread and was applied.
#[tactic(auto, using(crate::proofs::Left::left_from))]
pub fn all_done<S: Sees>(seen: &S, req: ReqId, n: u32) -> bool
    ensures { result ≡ list_all is_done (pieces_here (S.view_of seen.now) req n) }
{
    for k in 0..n {
        if !is_done(piece_here(seen, PieceId { req, k })) {
            return false;
        }
    }
    true
}

/// Whether each of the first n pieces of a request is on the thread with an end.
#[tactic(auto, using(crate::proofs::Left::left_from))]
pub fn all_ended<S: Sees>(seen: &S, req: ReqId, n: u32) -> bool
    ensures { result ≡ list_all has_end (pieces_here (S.view_of seen.now) req n) }
{
    for k in 0..n {
        if !has_end(piece_here(seen, PieceId { req, k })) {
            return false;
        }
    }
    true
}

/// Whether one of the first n pieces of a request is on the thread and ended with a fault.
#[tactic(auto, using(crate::proofs::Left::left_from))]
pub fn any_faulted<S: Sees>(seen: &S, req: ReqId, n: u32) -> bool
    ensures { result ≡ list_any is_faulted (pieces_here (S.view_of seen.now) req n) }
{
    for k in 0..n {
        if is_faulted(piece_here(seen, PieceId { req, k })) {
            return true;
        }
    }
    false
}

/// Whether one of the first n pieces of a request is on the thread without an end, and not out.
#[tactic(auto, using(crate::proofs::Left::left_from))]
pub fn any_unsent<S: Sees>(seen: &S, req: ReqId, n: u32) -> bool
    ensures { result ≡ list_any waits_unsent (pieces_here (S.view_of seen.now) req n) }
{
    for k in 0..n {
        if waits_unsent(piece_here(seen, PieceId { req, k })) {
            return true;
        }
    }
    false
}

// The bytes that a piece read, put after others; where there is no such piece, nothing.
fn append_read(so_far: ReadBytes, piece: Option<&OpenPiece>) -> Result<ReadBytes, OutOfMemory>
    ensures { IfOk result (λ bytes. bytes ≡ both_bytes so_far (bytes_of (option_copied piece.entry))) }
{
    let Some(p) = piece else {
        return Ok(ReadBytes::none());
    };
    let mut bytes = so_far;
    bytes.append(&p.read)?;
    Ok(bytes)
}

/// The data of the first n pieces of a request in order; none where a part of it is untold: then contracts see
/// nothing of it.
#[tactic(auto, using(crate::proofs::Left::left_from, crate::proofs::Data::both_assoc, crate::proofs::Data::both_none, crate::proofs::Data::both_end))]
pub fn data_of<S: Sees>(
    alloc: Global,
    seen: &S,
    req: ReqId,
    n: u32,
) -> Result<ReadBytes, OutOfMemory>
    ensures { IfOk result (λ bytes. bytes ≡ data_of (pieces_here (S.view_of seen.now) req n)) }
{
    let mut bytes = ReadBytes::told(Bytes::new(alloc));
    for k in 0..n {
        bytes = append_read(bytes, piece_here(seen, PieceId { req, k }))?;
    }
    Ok(bytes)
}
