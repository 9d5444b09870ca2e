//! Apply, NoMem, Destruct and Grow.
ghost use Rattle.std.specs.Prelude.{◌≡◌, IfOk};
ghost use Rattle.bd_base.specs.declared.act.Act.TheVariants as acts;
ghost use Rattle.bd_machine.specs.Homes.{change_destruct, change_grow, change_no_mem, is_base, without_last};
ghost use Rattle.bd_machine.specs.Table.{change_first};
ghost use Rattle.bd_play.specs.Words.{changed, made_by, refused, seen};

use crate::side::Side;
use bd_base::{ApplyEnd, DevId, OutOfMemory, Rows};
use bd_blocks::{base_place, copy_of_piece, serve, size_of};
use bd_clones::Duplicate;
use bd_machine::guard::{
    CONTENT_DIGEST, END_ALLOWED, GROW_DUE, HEAD_OF_QUEUE, MAY_DESTRUCT, QUEUE_FULL,
};
use bd_machine::{Base, Id, Kept, Place, Progress, State, Tracked};
use bd_rule_effects::{destructed, grown};
use bd_rule_registry::is_free;
use bd_rule_requests::{
    is_digest_due, may_apply, may_destruct, may_end, may_grow, may_refuse, piece_here,
};
use bd_rule_view::PieceId;
use bd_state::put_in;
use std::alloc::Global;
use std::mem::replace;

// ---- Apply

/// Why an Apply isn't allowed.
pub fn refused_apply(side: &Side, piece: PieceId, dev: DevId, end: ApplyEnd) -> Option<u32>
    ensures { result ≡ refused side.now (acts.Apply piece.req piece.k dev end) }
{
    if !may_apply(side, side.setup, side.thread, piece, dev) {
        return Some(HEAD_OF_QUEUE);
    }
    if may_end(side.setup, dev, end) {
        None
    } else {
        Some(END_ALLOWED)
    }
}

/// The state with what an Apply changes.
#[tactic(auto, using(crate::proofs::Unfound::unfound))]
pub fn apply(
    alloc: Global,
    side: &Side,
    piece: PieceId,
    dev: DevId,
    end: ApplyEnd,
) -> Result<State, OutOfMemory>
    ensures { IfOk result (λ s. s ≡ changed side.now (made_by side.now (acts.Apply piece.req piece.k dev end))) }
{
    let mut next = side.state.duplicate(alloc)?;
    let Some(p) = piece_here(side, piece) else {
        return Ok(next);
    };
    let bases = &mut next.parts.at_mut(side.thread as usize).bases;
    let Some(served) = serve(alloc, bases, size_of(side.setup, dev), dev, end, p)? else {
        return Ok(next);
    };
    let place = Place::At(side.thread);
    let kept = Kept::Piece(served);
    put_in(
        &mut next.tokens,
        Id::Piece(piece.req, piece.k),
        Tracked { place, kept },
    )?;
    Ok(next)
}

// ---- NoMem

/// Why a NoMem isn't allowed.
pub fn refused_no_mem(side: &Side, piece: PieceId, dev: DevId) -> Option<u32>
    ensures { result ≡ refused side.now (acts.NoMem piece.req piece.k dev) }
{
    if may_refuse(side, side.setup, side.thread, piece, dev) {
        None
    } else {
        Some(QUEUE_FULL)
    }
}

// A base's queue loses its last piece.
fn drop_last(alloc: Global, base: &mut Base)
    ensures { base.new ≡ without_last base.old }
{
    let mut queue = replace(&mut base.queue, Rows::new(alloc)).into_vec();
    let _ = queue.pop();
    base.queue = Rows::from_vec(queue);
}

// The queue of a base device loses its last piece.
fn drop_last_at(alloc: Global, bases: &mut Rows<Base>, dev: DevId)
    ensures { bases.new ≡ change_first (is_base dev) without_last bases.old }
{
    if let Some(place) = base_place(bases.as_slice(), dev) {
        drop_last(alloc, bases.at_mut(place));
    }
}

/// The state with what a NoMem changes: the piece goes back without an end.
pub fn refuse_piece(
    alloc: Global,
    side: &Side,
    piece: PieceId,
    dev: DevId,
) -> Result<State, OutOfMemory>
    ensures { IfOk result (λ s. s ≡ changed side.now (change_no_mem (seen side.now) piece.req piece.k dev)) }
{
    let mut next = side.state.duplicate(alloc)?;
    drop_last_at(
        alloc,
        &mut next.parts.at_mut(side.thread as usize).bases,
        dev,
    );
    if let Some(p) = piece_here(side, piece) {
        let mut refused = copy_of_piece(p)?;
        refused.progress = Progress::Served;
        let place = Place::At(side.thread);
        let kept = Kept::Piece(refused);
        let id = Id::Piece(piece.req, piece.k);
        put_in(&mut next.tokens, id, Tracked { place, kept })?;
    }
    Ok(next)
}

// ---- Destruct

/// Why a Destruct isn't allowed.
pub fn refused_destruct(side: &Side, dev: DevId, digest: &Option<[u8; 32]>) -> Option<u32>
    ensures { result ≡ refused side.now (acts.Destruct dev digest.now) }
{
    let registry = &side.state.registry;
    let free = is_free(side.setup, registry, dev);
    if !may_destruct(side, side.setup, side.thread, free, dev) {
        return Some(MAY_DESTRUCT);
    }
    if is_digest_due(side, side.setup, dev, digest) {
        None
    } else {
        Some(CONTENT_DIGEST)
    }
}

/// The state with what a Destruct changes.
pub fn destruct(alloc: Global, side: &Side, dev: DevId) -> Result<State, OutOfMemory>
    ensures { IfOk result (λ s. s ≡ changed side.now (change_destruct (seen side.now) dev)) }
{
    let mut next = side.state.duplicate(alloc)?;
    destructed(next.parts.at_mut(side.thread as usize), dev)?;
    Ok(next)
}

// ---- Grow

/// Why a Grow isn't allowed.
pub fn refused_grow(side: &Side, dev: DevId, blocks: u64) -> Option<u32>
    ensures { result ≡ refused side.now (acts.Grow dev blocks) }
{
    if may_grow(side, side.setup, side.thread, dev, blocks) {
        None
    } else {
        Some(GROW_DUE)
    }
}

/// The state with what a Grow changes.
pub fn grow(alloc: Global, side: &Side, dev: DevId, blocks: u64) -> Result<State, OutOfMemory>
    ensures { IfOk result (λ s. s ≡ changed side.now (change_grow side.now.setup.now (seen side.now) dev blocks)) }
{
    let mut next = side.state.duplicate(alloc)?;
    let part = next.parts.at_mut(side.thread as usize);
    grown(alloc, part, side.setup, dev, blocks)?;
    Ok(next)
}
