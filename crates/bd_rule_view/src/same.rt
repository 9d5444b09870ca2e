//! When two names, types or tokens are the same.
ghost use Rattle.std.specs.Prelude.{◌≡◌};
ghost use Rattle.bd_machine.specs.Claims.{same_kind};
ghost use Rattle.bd_machine.specs.Same.{same_decision, same_errno, same_handle, same_id, same_if_any, same_news, same_op, same_outcome, same_owed, same_request, same_stage, same_status, same_threads, same_walk, same_walk_kind};

use bd_base::{
    ClaimKind, Decision, Errno, HandleId, Op, Outcome, ReqId, Status, ThreadSet, WalkId, WalkKind,
};
use bd_machine::{Id, News, Owed, Stage};

pub fn same_errno(a: Errno, b: Errno) -> bool
    ensures { result ≡ same_errno a b }
{
    a.number() == b.number()
}

pub fn same_status(a: Status, b: Status) -> bool
    ensures { result ≡ same_status a b }
{
    match (a, b) {
        (Status::Success, Status::Success) => true,
        (Status::Failed, Status::Failed) => true,
        (Status::Aborted, Status::Aborted) => true,
        _ => false,
    }
}

pub fn same_request(a: ReqId, b: ReqId) -> bool
    ensures { result ≡ same_request a b }
{
    a.thread == b.thread && a.seq == b.seq
}

/// Whether the ids name the same walk.
pub fn same_walk(a: WalkId, b: WalkId) -> bool
    ensures { result ≡ same_walk a b }
{
    a.thread == b.thread && a.seq == b.seq
}

pub fn same_threads(a: ThreadSet, b: ThreadSet) -> bool
    ensures { result ≡ same_threads a b }
{
    a.0 == b.0
}

/// Whether the ids name the same token.
pub fn same_id(a: Id, b: Id) -> bool
    ensures { result ≡ same_id a b }
{
    match (a, b) {
        (Id::Request(x), Id::Request(y)) => same_request(x, y),
        (Id::Piece(x, j), Id::Piece(y, k)) => same_request(x, y) && j == k,
        (Id::Walk(x), Id::Walk(y)) => same_walk(x, y),
        (
            Id::Notice {
                sender: s,
                receiver: r,
                number: n,
            },
            Id::Notice {
                sender,
                receiver,
                number,
            },
        ) => { s == sender && (r == receiver && n == number) }
        _ => false,
    }
}

/// Whether what is sent once is the same.
pub fn same_news(a: &News, b: &News) -> bool
    ensures { result ≡ same_news a.now b.now }
{
    match (a, b) {
        (News::Mark(x), News::Mark(y)) => x.is(y),
        (News::Gone(x), News::Gone(y)) => x.0 == y.0,
        (News::Channel(x), News::Channel(y)) => x.0 == y.0,
        (News::Device(x), News::Device(y)) => x.0 == y.0,
        (News::Go(x, ts), News::Go(y, us)) => same_request(*x, *y) && same_threads(*ts, *us),
        (News::Grow(x, m), News::Grow(y, n)) => x.0 == y.0 && m == n,
        (News::Sized(x, m), News::Sized(y, n)) => x.0 == y.0 && m == n,
        _ => false,
    }
}

/// Whether what a thread still has to do once is the same.
pub fn same_owed(a: Owed, b: Owed) -> bool
    ensures { result ≡ same_owed a b }
{
    match (a, b) {
        (Owed::Drop(x), Owed::Drop(y)) => x.0 == y.0,
        (Owed::Destruct(x), Owed::Destruct(y)) => x.0 == y.0,
        (Owed::Report(x), Owed::Report(y)) => x.0 == y.0,
        (Owed::Close(x), Owed::Close(y)) => x.0 == y.0,
        (Owed::Put(x), Owed::Put(y)) => x.0 == y.0,
        (Owed::Remove(x), Owed::Remove(y)) => x.0 == y.0,
        (Owed::Grow(x, m), Owed::Grow(y, n)) => x.0 == y.0 && m == n,
        (Owed::EndResize(x), Owed::EndResize(y)) => x.0 == y.0,
        _ => false,
    }
}

pub fn same_decision(a: Decision, b: Decision) -> bool
    ensures { result ≡ same_decision a b }
{
    match (a, b) {
        (Decision::Pass, Decision::Pass) => true,
        (Decision::Fail, Decision::Fail) => true,
        (Decision::Pend, Decision::Pend) => true,
        (Decision::Corrupt, Decision::Corrupt) => true,
        _ => false,
    }
}

pub fn same_walk_kind(a: WalkKind, b: WalkKind) -> bool
    ensures { result ≡ same_walk_kind a b }
{
    match (a, b) {
        (WalkKind::Freeze, WalkKind::Freeze) => true,
        (WalkKind::Drain, WalkKind::Drain) => true,
        (WalkKind::Thaw, WalkKind::Thaw) => true,
        (WalkKind::Removal, WalkKind::Removal) => true,
        _ => false,
    }
}

pub fn same_stage(a: Stage, b: Stage) -> bool
    ensures { result ≡ same_stage a b }
{
    match (a, b) {
        (Stage::Queued, Stage::Queued) => true,
        (Stage::Freezing, Stage::Freezing) => true,
        (Stage::Draining, Stage::Draining) => true,
        (Stage::Drained, Stage::Drained) => true,
        (Stage::Thawing, Stage::Thawing) => true,
        (Stage::Thawed, Stage::Thawed) => true,
        (Stage::Finished, Stage::Finished) => true,
        _ => false,
    }
}

/// Whether the two are one kind of claim, and of one key.
pub fn same_kind(a: ClaimKind, b: ClaimKind) -> bool
    ensures { result ≡ same_kind a b }
{
    match (a, b) {
        (ClaimKind::Exclusive, ClaimKind::Exclusive) => true,
        (ClaimKind::WriteOne, ClaimKind::WriteOne) => true,
        (ClaimKind::WriteNone, ClaimKind::WriteNone) => true,
        (ClaimKind::Shared(key), ClaimKind::Shared(other)) => key == other,
        _ => false,
    }
}

pub fn same_op(a: Op, b: Op) -> bool
    ensures { result ≡ same_op a b }
{
    match (a, b) {
        (Op::Read, Op::Read) => true,
        (Op::Write(x), Op::Write(y)) => x.seed == y.seed && x.flip == y.flip,
        (Op::Zeroes, Op::Zeroes) => true,
        (Op::Unmap, Op::Unmap) => true,
        (Op::Flush, Op::Flush) => true,
        (Op::Reset(x), Op::Reset(y)) => x == y,
        (Op::Abort(x), Op::Abort(y)) => x == y,
        _ => false,
    }
}

/// Whether a script's line ended in the same way.
pub fn same_outcome(a: Outcome, b: Outcome) -> bool
    ensures { result ≡ same_outcome a b }
{
    match (a, b) {
        (Outcome::Done, Outcome::Done) => true,
        (Outcome::Errno(x), Outcome::Errno(y)) => x.number() == y.number(),
        (Outcome::BusyOpen(x), Outcome::BusyOpen(y)) => x == y,
        (Outcome::Accepted(x), Outcome::Accepted(y)) => same_request(x, y),
        _ => false,
    }
}

/// Whether both handles are there and the same, or both missing.
pub fn same_handle_if_any(a: Option<HandleId>, b: Option<HandleId>) -> bool
    ensures { result ≡ same_if_any same_handle a b }
{
    match (a, b) {
        (Some(x), Some(y)) => x.0 == y.0,
        (None, None) => true,
        _ => false,
    }
}
