//! Accept, Refuse, Cut and Complete.
ghost use Rattle.std.specs.Prelude.{◌≡◌, ◌∷◌, [], IfOk, OnOk};
ghost use Rattle.bd_base.specs.declared.act.Act.TheVariants as acts;
ghost use Rattle.bd_machine.specs.Kept.{piece_here, pieces_here};
ghost use Rattle.bd_machine.specs.Requests.{change_complete, change_refuse, is_device_of, pieces_closed, pieces_made};
ghost use Rattle.bd_machine.specs.Same.{is_the, same_errno};
ghost use Rattle.bd_machine.specs.Step.{moved};
ghost use Rattle.bd_play.specs.Words.{changed, made_by, refused, seen};

use crate::side::Side;
use bd_base::{DevId, Errno, HandleId, OutOfMemory, ReqId, Rows, Shown, Status};
use bd_blocks::{copy_of_piece, extents, new_piece};
use bd_clones::Duplicate;
use bd_machine::guard::{
    ADMITTED, ALL_PIECES_BACK, FRESH_ID, LINE_ASKS, MAY_CUT, PIECE_COUNT, REFUSAL_DUE, SHOWN_DATA,
    STATUS_ALLOWED,
};
use bd_machine::{Decided, Extent, Handle, Id, Kept, Open, OpenRequest, Place, State, Tracked};
use bd_rule_effects::{accepted, completed};
use bd_rule_requests::{
    has_extents, is_shown_due, is_status_due, may_complete, may_cut, new_request, piece_here,
    refusal_of, request_here,
};
use bd_rule_script::{asks_submission, is_new, next_line};
use bd_rule_view::{PieceId, Sees, Submission, same_errno};
use bd_state::put_in;
use std::alloc::Global;

// ---- Accept

// Whether the device is that of the handle, where the handle is open.
fn is_device_of(dev: DevId, handle: Option<Handle>) -> bool
    ensures { result ≡ is_device_of dev handle }
{
    match handle {
        Some(h) => h.dev.0 == dev.0,
        None => true,
    }
}

/// Why an Accept isn't allowed.
pub fn refused_accept(
    side: &Side,
    req: ReqId,
    dev: DevId,
    handle: HandleId,
    what: Submission,
) -> Option<u32>
    ensures { result ≡ refused side.now (acts.Accept dev what.lba handle req what.op what.count) }
{
    let shut = side.state.shut;
    let asks = asks_submission(side, side.setup, side.thread, shut, Some(handle), what);
    if !asks || !is_device_of(dev, side.handle(handle)) {
        return Some(LINE_ASKS);
    }
    if refusal_of(side, side.setup, Some(handle), what).is_some() {
        return Some(ADMITTED);
    }
    if is_new(side, side.thread, req) {
        None
    } else {
        Some(FRESH_ID)
    }
}

/// The state with what an Accept changes.
pub fn accept(
    alloc: Global,
    side: &Side,
    req: ReqId,
    dev: DevId,
    handle: HandleId,
    what: Submission,
) -> Result<State, OutOfMemory>
    ensures { IfOk result (λ s. s ≡ changed side.now (made_by side.now (acts.Accept dev what.lba handle req what.op what.count))) }
{
    let mut next = side.state.duplicate(alloc)?;
    let kept = Kept::Request(new_request(side.setup, side.part(), handle, dev, what));
    let place = Place::At(side.thread);
    put_in(&mut next.tokens, Id::Request(req), Tracked { place, kept })?;
    let line = next_line(side.setup, side.thread, side.part());
    let part = next.parts.at_mut(side.thread as usize);
    let open = Open {
        id: req,
        handle,
        dev,
        op: what.op,
    };
    accepted(part, line, open)?;
    Ok(next)
}

// ---- Refuse

fn is_errno(due: Option<Errno>, errno: Errno) -> bool
    ensures { result ≡ is_the same_errno errno due }
{
    match due {
        Some(d) => same_errno(errno, d),
        None => false,
    }
}

/// Why a Refuse isn't allowed.
pub fn refused_refuse(
    side: &Side,
    handle: Option<HandleId>,
    what: Submission,
    errno: Errno,
) -> Option<u32>
    ensures { result ≡ refused side.now (acts.Refuse errno what.lba handle what.op what.count) }
{
    if !asks_submission(side, side.setup, side.thread, side.state.shut, handle, what) {
        return Some(LINE_ASKS);
    }
    if is_errno(refusal_of(side, side.setup, handle, what), errno) {
        None
    } else {
        Some(REFUSAL_DUE)
    }
}

/// The state with what a Refuse changes.
pub fn refuse(alloc: Global, side: &Side, errno: Errno) -> Result<State, OutOfMemory>
    ensures { IfOk result (λ s. s ≡ changed side.now (change_refuse (seen side.now) errno)) }
{
    let mut next = side.state.duplicate(alloc)?;
    next.parts.at_mut(side.thread as usize).decided = Some(Decided::Refused(errno));
    Ok(next)
}

// ---- Cut

/// Why a Cut isn't allowed.
pub fn refused_cut(
    alloc: Global,
    side: &Side,
    req: ReqId,
    n: u32,
) -> Result<Option<u32>, OutOfMemory>
    ensures { IfOk result (λ r. r ≡ refused side.now (acts.Cut req n)) }
{
    if !may_cut(side, side.setup, side.thread, req) {
        return Ok(Some(MAY_CUT));
    }
    if has_extents(alloc, side, side.setup, req, n)? {
        Ok(None)
    } else {
        Ok(Some(PIECE_COUNT))
    }
}

// The pieces of these extents, numbered from 0, come to the thread.
fn make_pieces(
    tokens: &mut Rows<(Id, Tracked)>,
    side: &Side,
    req: ReqId,
    r: OpenRequest,
    extents: &[Extent],
) -> Result<(), OutOfMemory>
    ensures { OnOk result (tokens.new ≡ moved side.now.thread (pieces_made side.now.setup.now req r 0 extents.now) tokens.old) }
{
    let mut k: u32 = 0;
    for extent in extents {
        let kept = Kept::Piece(new_piece(side.setup, r, k, *extent)?);
        let place = Place::At(side.thread);
        put_in(tokens, Id::Piece(req, k), Tracked { place, kept })?;
        let Some(more) = k.checked_add(1) else {
            return Err(OutOfMemory);
        };
        k = more;
    }
    Ok(())
}

/// The state with what a Cut changes.
pub fn cut(alloc: Global, side: &Side, req: ReqId, n: u32) -> Result<State, OutOfMemory>
    ensures { IfOk result (λ s. s ≡ changed side.now (made_by side.now (acts.Cut req n))) }
{
    let mut next = side.state.duplicate(alloc)?;
    let Some(r) = request_here(side, req) else {
        return Ok(next);
    };
    let found = extents(alloc, side.setup, r.dev, r.lba, r.count)?;
    let mut cut = r;
    cut.pieces = Some(n);
    let kept = Kept::Request(cut);
    let place = Place::At(side.thread);
    put_in(&mut next.tokens, Id::Request(req), Tracked { place, kept })?;
    make_pieces(&mut next.tokens, side, req, r, found.as_slice())?;
    Ok(next)
}

// ---- Complete

/// Why a Complete isn't allowed.
pub fn refused_complete(
    alloc: Global,
    side: &Side,
    req: ReqId,
    status: Status,
    shown: &Option<Shown>,
) -> Result<Option<u32>, OutOfMemory>
    ensures { IfOk result (λ r. r ≡ refused side.now (acts.Complete req status shown.now)) }
{
    if !may_complete(side, side.thread, req) {
        return Ok(Some(ALL_PIECES_BACK));
    }
    if !is_status_due(side, side.setup, req, status) {
        return Ok(Some(STATUS_ALLOWED));
    }
    if is_shown_due(alloc, side, req, status, shown)? {
        Ok(None)
    } else {
        Ok(Some(SHOWN_DATA))
    }
}

// A piece that is on the thread ends.
fn close_piece(
    tokens: &mut Rows<(Id, Tracked)>,
    side: &Side,
    id: PieceId,
) -> Result<(), OutOfMemory>
    ensures { OnOk result (tokens.new ≡ moved side.now.thread (pieces_closed id.req id.k (piece_here (seen side.now) id.req id.k ∷ [])) tokens.old) }
{
    if let Some(p) = piece_here(side, id) {
        let place = Place::Nowhere;
        let kept = Kept::Piece(copy_of_piece(p)?);
        put_in(tokens, Id::Piece(id.req, id.k), Tracked { place, kept })?;
    }
    Ok(())
}

// The first n pieces of a request, as far as they are on the thread, end.
#[tactic(auto, using(bd_rule_effects::proofs::Left::left_from, crate::proofs::Closing::closed_next))]
fn close_pieces(
    tokens: &mut Rows<(Id, Tracked)>,
    side: &Side,
    req: ReqId,
    n: u32,
) -> Result<(), OutOfMemory>
    ensures { OnOk result (tokens.new ≡ moved side.now.thread (pieces_closed req 0 (pieces_here (seen side.now) req n)) tokens.old) }
{
    for k in 0..n {
        close_piece(tokens, side, PieceId { req, k })?;
    }
    Ok(())
}

/// The state with what a Complete changes.
pub fn complete(alloc: Global, side: &Side, req: ReqId) -> Result<State, OutOfMemory>
    ensures { IfOk result (λ s. s ≡ changed side.now (change_complete (seen side.now) req)) }
{
    let mut next = side.state.duplicate(alloc)?;
    let part = next.parts.at_mut(side.thread as usize);
    completed(alloc, part, req);
    let Some(r) = request_here(side, req) else {
        return Ok(next);
    };
    let place = Place::Nowhere;
    let kept = Kept::Request(r);
    put_in(&mut next.tokens, Id::Request(req), Tracked { place, kept })?;
    let n = r.pieces.unwrap_or(0);
    close_pieces(&mut next.tokens, side, req, n)?;
    Ok(next)
}
