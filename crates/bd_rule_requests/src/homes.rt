//! What a home may do: apply a piece, refuse one, destruct a device, and let one grow.
ghost use Rattle.std.specs.Prelude.{◌≡◌, ◌==◌, ◌&&◌, option_copied};
ghost use Rattle.std.specs.List.{list_any};
ghost use Rattle.bd_machine.specs.BlockMap.{depth_of, is_aio};
ghost use Rattle.bd_machine.specs.Homes.{base_here, holds_at_most, is_digest_due, is_done_or, is_first, is_first_at, is_last, is_on_base, is_told, is_told_to_grow, is_too_many, may_destruct};
ghost use Rattle.bd_machine.specs.Same.{same_dev, same_owed, same_request};
ghost use Rattle.bd_rule_requests.specs.Homes.{may_apply, may_grow, may_refuse};
ghost use Rattle.bd_rule_view.specs.Came.{came_free};

use crate::kept::piece_here;
use bd_base::{ApplyEnd, DevId, ReqId, Setup};
use bd_blocks::{depth_of, find_base, home, is_aio, is_home};
use bd_machine::{Base, OpenPiece, Owed, Part};
use bd_rule_view::{PieceId, Sees, same_owed, same_request};

/// A base device whose home the thread is.
pub fn base_here<S: Sees>(seen: &S, dev: DevId) -> Option<&Base>
    ensures { option_copied result ≡ base_here (S.view_of seen.now) dev }
{
    find_base(seen.part().bases.as_slice(), dev)
}

fn is_piece(entry: (ReqId, u32), piece: PieceId) -> bool
    ensures { result ≡ (same_request entry.0 piece.req && (entry.1 == piece.k)) }
{
    same_request(entry.0, piece.req) && entry.1 == piece.k
}

fn is_first(queue: &[(ReqId, u32)], piece: PieceId) -> bool
    ensures { result ≡ is_first piece.req piece.k queue.now }
{
    match queue {
        [] => false,
        [first, ..] => is_piece(*first, piece),
    }
}

fn is_first_at(base: Option<&Base>, piece: PieceId) -> bool
    ensures { result ≡ is_first_at piece.req piece.k (option_copied base.entry) }
{
    match base {
        Some(b) => is_first(b.queue.as_slice(), piece),
        None => false,
    }
}

fn is_on_base(dev: DevId, piece: Option<&OpenPiece>) -> bool
    ensures { result ≡ is_on_base dev (option_copied piece.entry) }
{
    match piece {
        Some(p) => p.base.0 == dev.0,
        None => false,
    }
}

fn holds_at_most(depth: u32, base: Option<&Base>) -> bool
    ensures { result ≡ holds_at_most depth (option_copied base.entry) }
{
    match base {
        Some(b) => b.queue.len() <= depth as usize,
        None => false,
    }
}

/// Whether a base's queue holds no more pieces than it takes.
pub fn may_hold(setup: &Setup, dev: DevId, base: Option<&Base>) -> bool
    ensures { result ≡ holds_at_most (depth_of setup.now dev) (option_copied base.entry) }
{
    holds_at_most(depth_of(setup, dev), base)
}

/// Whether the thread may apply a piece to a device: it is the device's home, the piece is the first in
/// the device's queue, and it is here and on the device; and the queue holds no more than it takes.
pub fn may_apply<S: Sees>(seen: &S, setup: &Setup, thread: u32, piece: PieceId, dev: DevId) -> bool
    ensures { result ≡ may_apply setup.now thread (S.view_of seen.now) piece.req piece.k dev }
{
    let base = base_here(seen, dev);
    let at_home = home(setup, dev) == thread;
    let is_head = is_first_at(base, piece);
    let is_on = is_on_base(dev, piece_here(seen, piece));
    at_home && is_head && is_on && may_hold(setup, dev, base)
}

/// Whether a piece on a device may end so: a fault comes from a file alone.
pub fn may_end(setup: &Setup, dev: DevId, end: ApplyEnd) -> bool
    ensures { result ≡ is_done_or (is_aio setup.now dev) end }
{
    match end {
        ApplyEnd::Done => true,
        ApplyEnd::Fault => is_aio(setup, dev),
    }
}

#[tactic(auto, using(crate::proofs::Queues::last_is))]
fn is_last(queue: &[(ReqId, u32)], piece: PieceId) -> bool
    ensures { result ≡ is_last piece.req piece.k queue.now }
{
    let n = queue.len();
    n != 0 && is_piece(queue[n - 1], piece)
}

// Whether the piece is the last in the queue, which holds `depth` others.
fn is_too_many(depth: u32, base: Option<&Base>, piece: PieceId) -> bool
    ensures { result ≡ is_too_many piece.req piece.k depth (option_copied base.entry) }
{
    match base {
        Some(b) => {
            is_last(b.queue.as_slice(), piece) && b.queue.len() as u64 == depth as u64 + 1
        }
        None => false,
    }
}

/// Whether the thread may send a piece back without an end: it is the device's home, and the piece is
/// here, on the device, and one more than its queue takes.
pub fn may_refuse<S: Sees>(seen: &S, setup: &Setup, thread: u32, piece: PieceId, dev: DevId) -> bool
    ensures { result ≡ may_refuse setup.now thread (S.view_of seen.now) piece.req piece.k dev }
{
    let at_home = home(setup, dev) == thread;
    let is_on = is_on_base(dev, piece_here(seen, piece));
    at_home && is_on && is_too_many(depth_of(setup, dev), base_here(seen, dev), piece)
}

/// Whether the device is one of those that were destructed.
pub fn has_destructed(destructed: &[DevId], dev: DevId) -> bool
    ensures { result ≡ list_any (same_dev dev) destructed.now }
{
    destructed.iter().any(|d| dev.0 == d.0)
}

// Whether the thread still has to do this once.
fn owes(part: &Part, due: Owed) -> bool
    ensures { result ≡ list_any (same_owed due) part.now.owed }
{
    part.owed
        .as_slice()
        .iter()
        .any(|owed| same_owed(due, *owed))
}

/// Whether the thread was told to destruct the device, and didn't yet.
pub fn is_told<S: Sees>(seen: &S, dev: DevId) -> bool
    ensures { result ≡ is_told (S.view_of seen.now) dev }
{
    owes(seen.part(), Owed::Destruct(dev))
}

// Whether the thread was told to let the device's content grow to this number of blocks, and didn't yet.
fn is_told_to_grow<S: Sees>(seen: &S, dev: DevId, blocks: u64) -> bool
    ensures { result ≡ is_told_to_grow (S.view_of seen.now) dev blocks }
{
    owes(seen.part(), Owed::Grow(dev, blocks))
}

/// Whether the thread may let a device's content grow to this number of blocks: it is the device's home, and was told
/// to and didn't yet.
pub fn may_grow<S: Sees>(seen: &S, setup: &Setup, thread: u32, dev: DevId, blocks: u64) -> bool
    ensures { result ≡ may_grow setup.now thread (S.view_of seen.now) dev blocks }
{
    home(setup, dev) == thread && is_told_to_grow(seen, dev, blocks)
}

/// Whether the thread may destruct a device: it is the device's home, it was told to and didn't yet,
/// and the device is free (it is being removed, with neither handle nor channel), which the thread
/// doesn't see.
pub fn may_destruct<S: Sees>(seen: &S, setup: &Setup, thread: u32, free: bool, dev: DevId) -> bool
    ensures { result ≡ may_destruct setup.now thread (S.view_of seen.now) (came_free free) dev }
{
    let is_called_for = is_told(seen, dev) && free;
    let is_new = !has_destructed(seen.part().destructed.as_slice(), dev);
    is_home(setup, thread, dev) && is_called_for && is_new
}

/// Whether this digest is due at the end of a device: that of its blocks for malloc, else none.
pub fn is_digest_due<S: Sees>(
    seen: &S,
    setup: &Setup,
    dev: DevId,
    digest: &Option<[u8; 32]>,
) -> bool
    ensures { result ≡ is_digest_due setup.now (S.view_of seen.now) dev digest.now }
{
    bd_blocks::is_digest_due(setup, seen.part().bases.as_slice(), dev, digest)
}
