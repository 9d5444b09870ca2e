//! A message is put, or taken.
ghost use Rattle.std.specs.Prelude.{◌≡◌, ◌==◌, ◌+◌, ◌++◌, position, option_copied, IfOk, OnOk};
ghost use Rattle.bd_machine.specs.Homes.{is_base};
ghost use Rattle.bd_machine.specs.Limits.{arrived, is_limit, joined};
ghost use Rattle.bd_machine.specs.Messages.{bases_took, due_after, news_of, queued, request_took, taken_by};
ghost use Rattle.bd_machine.specs.Table.{change_first, write};
ghost use Rattle.bd_machine.specs.declared.state.Id.{Id};
ghost use Rattle.bd_rule_requests.specs.Due.{is_due_by};
ghost use Rattle.bd_rule_effects.specs.Begun.{begun, token_moved};

use crate::counts::count;
use crate::notices::take_notice;
use crate::walks::walk_on;
use bd_base::{DevId, OutOfMemory, ReqId, Rows, Setup, Token, WalkId};
use bd_blocks::base_place;
use bd_machine::{
    Base, Due, Kept, Limited, OpenPiece, OpenRequest, OpenWalk, Part, Progress, Trip,
};
use bd_rule_requests::{is_due_to, next_limited};
use bd_rule_view::PieceId;
use std::alloc::Global;

// ---- Put

fn due_place(due: &[Due], to: u32, what: &Token) -> Option<usize>
    ensures { result ≡ position (is_due_by to (news_of what.now)) due.now }
{
    due.iter().position(|d| is_due_to(d, to, what))
}

// What was put isn't due any more.
#[tactic(auto, using(crate::proofs::Firsts::found_below, crate::proofs::Dues::due_found, crate::proofs::Dues::due_missed))]
fn drop_due(due: &mut Rows<Due>, to: u32, what: &Token)
    ensures { due.new ≡ due_after to (news_of what.now) due.old }
{
    if let Some(i) = due_place(due.as_slice(), to, what) {
        let _ = due.remove(i);
    }
}

/// This message was put to a thread: it is counted, and what goes once isn't due there any more. Out of
/// memory leaves the part unspecified.
pub fn put(part: &mut Part, to: u32, number: u128, what: &Token) -> Result<(), OutOfMemory>
    ensures { OnOk result (part.new ≡ record part.old {
      put = write ◌==◌ part.old.put to (number + 1);
      due = due_after to (news_of what.now) part.old.due;
    }) }
{
    count(&mut part.put, to, number)?;
    drop_due(&mut part.due, to, what);
    Ok(())
}

// ---- Took

fn limited_place(limited: &[Limited], dev: DevId) -> Option<usize>
    ensures { result ≡ position (is_limit dev) limited.now }
{
    limited.iter().position(|l| l.dev.0 == dev.0)
}

// A request waits for the limited device.
#[tactic(auto, using(crate::proofs::Firsts::found_below, crate::proofs::Firsts::set_found, crate::proofs::Firsts::not_found))]
fn join_line(limited: &mut Rows<Limited>, dev: DevId, req: ReqId) -> Result<(), OutOfMemory>
    ensures { OnOk result (limited.new ≡ change_first (is_limit dev) (joined req) limited.old) }
{
    if let Some(i) = limited_place(limited.as_slice(), dev) {
        limited.at_mut(i).waiting.push(req)?;
    }
    Ok(())
}

fn join_if_limited(part: &mut Part, req: ReqId, dev: Option<DevId>) -> Result<(), OutOfMemory>
    ensures { OnOk result (part.new ≡ arrived part.old req dev) }
{
    match dev {
        Some(d) => join_line(&mut part.limited, d, req),
        None => Ok(()),
    }
}

// A request that is out waits for its next limited device.
fn take_request(
    part: &mut Part,
    setup: &Setup,
    req: ReqId,
    r: OpenRequest,
) -> Result<(), OutOfMemory>
    ensures { OnOk result (part.new ≡ request_took setup.now req r r.trip part.old) }
{
    match r.trip {
        Trip::Out => join_if_limited(part, req, next_limited(setup, r)),
        Trip::Own => Ok(()),
        Trip::Passed => Ok(()),
    }
}

// A piece joins the queue of its base.
#[tactic(auto, using(crate::proofs::Firsts::found_below, crate::proofs::Firsts::set_found, crate::proofs::Firsts::not_found))]
fn join_queue(bases: &mut Rows<Base>, base: DevId, piece: PieceId) -> Result<(), OutOfMemory>
    ensures { OnOk result (bases.new ≡ change_first (is_base base) (queued piece.req piece.k) bases.old) }
{
    if let Some(i) = base_place(bases.as_slice(), base) {
        bases.at_mut(i).queue.push((piece.req, piece.k))?;
    }
    Ok(())
}

// A piece that is out joins the queue of its base.
fn take_piece(bases: &mut Rows<Base>, p: &OpenPiece, piece: PieceId) -> Result<(), OutOfMemory>
    ensures { OnOk result (bases.new ≡ bases_took p.now p.now.progress piece.req piece.k bases.old) }
{
    match p.progress {
        Progress::Out => join_queue(bases, p.base, piece),
        Progress::Held => Ok(()),
        Progress::Served => Ok(()),
    }
}

/// The message of this number of a thread was taken: it is counted. Out of memory leaves the part
/// unspecified.
pub fn took(part: &mut Part, source: u32, number: u128) -> Result<(), OutOfMemory>
    ensures { OnOk result (part.new ≡ record part.old { taken = write ◌==◌ part.old.taken source (number + 1) }) }
{
    count(&mut part.taken, source, number)
}

/// What a message brought, with this kept of its token, is in the thread's part: a request that is out
/// waits for its next limited device, a piece that is out at its base, and notices are noted. A walk
/// that is back at its beginning ends, and a freeze walk may begin after a notice, a drain walk after a
/// freeze walk: that one, if one begins. Out of memory leaves the part unspecified.
pub fn arrived(
    alloc: Global,
    part: &mut Part,
    setup: &Setup,
    thread: u32,
    what: &Token,
    kept: Option<&Kept>,
) -> Result<Option<(WalkId, OpenWalk)>, OutOfMemory>
    ensures part { OnOk result ((id : Id) → part.new ≡ (taken_by setup.now thread what.now part.old (option_copied kept.entry) id).part) }
    ensures moves { IfOk result (λ walk. (id : Id) → (taken_by setup.now thread what.now part.old (option_copied kept.entry) id).moves
        ≡ token_moved thread what.now (option_copied kept.entry) id ++ begun walk) }
{
    match (what, kept) {
        (Token::Request(req), Some(Kept::Request(r))) => {
            take_request(part, setup, *req, *r)?;
            Ok(None)
        }
        (Token::Piece(req, k), Some(Kept::Piece(p))) => {
            take_piece(&mut part.bases, p, PieceId { req: *req, k: *k })?;
            Ok(None)
        }
        (Token::Walk(walk), Some(Kept::Walk(w))) => {
            let here = OpenWalk { taken: true, ..*w };
            walk_on(part, thread, *walk, here)
        }
        (_, Some(Kept::Notice(news))) => take_notice(alloc, part, setup, thread, news),
        _ => Ok(None),
    }
}
