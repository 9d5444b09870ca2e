//! Where a token may go, and what a message brings.
ghost use Rattle.std.specs.Prelude.{◌≡◌, option_copied, unwrap_or};
ghost use Rattle.std.specs.List.{list_any};
ghost use Rattle.bd_machine.specs.Kept.{request_here};
ghost use Rattle.bd_machine.specs.Messages.{brings, count_at, is_aborted, is_due, is_home_of, is_token_here, may_go, may_piece_here_go, may_request_here_go, may_walk_go, news_of};
ghost use Rattle.bd_machine.specs.Same.{is_the, same_news};
ghost use Rattle.bd_machine.specs.View.{id_of};
ghost use Rattle.bd_rule_requests.specs.Due.{is_due_by};

use crate::kept::{piece_here, request_here, walk_here};
use crate::limits::next_limited;
use bd_base::{DevId, ReqId, Setup, Token, WalkId};
use bd_blocks::{first_of, home};
use bd_machine::{Due, Id, Kept, News, OpenPiece, OpenRequest, OpenWalk, Part, Progress, Trip};
use bd_rule_view::{PieceId, Sees, same_request};

/// How many messages a table counts for a thread; 0 where it has none.
pub fn count_at(table: &[(u32, u128)], thread: u32) -> u128
    ensures { result ≡ count_at table.now thread }
{
    for row in table {
        if row.0 == thread {
            return row.1;
        }
    }
    0
}

/// The token that a message brings, by its name.
pub fn id_of(sender: u32, receiver: u32, number: u128, what: &Token) -> Id
    ensures { result ≡ id_of sender receiver number what.now }
{
    match what {
        Token::Request(req) => Id::Request(*req),
        Token::Piece(req, k) => Id::Piece(*req, *k),
        Token::Walk(walk) => Id::Walk(*walk),
        _ => Id::Notice {
            sender,
            receiver,
            number,
        },
    }
}

/// Whether a notice with this token tells these news.
pub fn tells(news: &News, what: &Token) -> bool
    ensures { result ≡ is_the same_news news.now (news_of what.now) }
{
    match (news, what) {
        (News::Mark(a), Token::Mark(b)) => a.is(b),
        (News::Gone(a), Token::Gone(b)) => a.0 == b.0,
        (News::Channel(a), Token::Channel(b)) => a.0 == b.0,
        (News::Device(a), Token::Device(b)) => a.0 == b.0,
        (News::Go(a, s), Token::Go(b, t)) => same_request(*a, *b) && s.0 == t.0,
        (News::Grow(a, m), Token::Grow(b, n)) => a.0 == b.0 && m == n,
        (News::Sized(a, m), Token::Sized(b, n)) => a.0 == b.0 && m == n,
        _ => false,
    }
}

/// Whether a message with this kept of its token brings the token that it names.
pub fn brings(what: &Token, kept: Option<&Kept>) -> bool
    ensures { result ≡ brings what.now (option_copied kept.entry) }
{
    match (what, kept) {
        (Token::Request(_), Some(Kept::Request(_))) => true,
        (Token::Piece(_, _), Some(Kept::Piece(_))) => true,
        (Token::Walk(_), Some(Kept::Walk(_))) => true,
        (_, Some(Kept::Notice(told))) => tells(told, what),
        _ => false,
    }
}

/// Whether the token is on the thread, where it has to be for a Put: a request, a piece and a walk have
/// to.
pub fn is_token_here<S: Sees>(seen: &S, what: &Token) -> bool
    ensures { result ≡ is_token_here (S.view_of seen.now) what.now }
{
    match what {
        Token::Request(req) => request_here(seen, *req).is_some(),
        Token::Piece(req, k) => piece_here(seen, PieceId { req: *req, k: *k }).is_some(),
        Token::Walk(walk) => walk_here(seen, *walk).is_some(),
        _ => true,
    }
}

fn is_home_of(setup: &Setup, to: u32, dev: Option<DevId>) -> bool
    ensures { result ≡ is_home_of setup.now to dev }
{
    match dev {
        Some(d) => to == home(setup, d),
        None => false,
    }
}

// Whether a request that is on the thread may go to another: from its own thread to the home of its next
// limited device, and back once it was let pass or aborted there.
fn may_request_go(
    setup: &Setup,
    thread: u32,
    req: ReqId,
    request: Option<OpenRequest>,
    to: u32,
) -> bool
    ensures { result ≡ may_request_here_go setup.now thread req request to }
{
    let Some(r) = request else {
        return false;
    };
    match r.trip {
        Trip::Own => {
            let is_fresh = r.aborted.is_none() && r.injected.count == 0;
            thread == req.thread && is_fresh && is_home_of(setup, to, next_limited(setup, r))
        }
        Trip::Out => r.aborted.is_some() && to == req.thread,
        Trip::Passed => to == req.thread,
    }
}

fn is_aborted<S: Sees>(seen: &S, req: ReqId) -> bool
    ensures { result ≡ is_aborted (request_here (S.view_of seen.now) req) }
{
    match request_here(seen, req) {
        Some(r) => r.aborted.is_some(),
        None => false,
    }
}

// Whether a piece that is on the thread may go to another: to its home while it has no end and its
// request isn't aborted, and back to its own thread once it was applied or refused.
fn may_piece_go<S: Sees>(
    seen: &S,
    setup: &Setup,
    thread: u32,
    req: ReqId,
    piece: Option<&OpenPiece>,
    to: u32,
) -> bool
    ensures { result ≡ may_piece_here_go setup.now thread (S.view_of seen.now) req (option_copied piece.entry) to }
{
    let Some(p) = piece else {
        return false;
    };
    match p.progress {
        Progress::Held => {
            let is_whole = p.end.is_none() && !is_aborted(seen, req);
            thread == req.thread && is_whole && to == home(setup, p.base)
        }
        Progress::Out => false,
        Progress::Served => to == req.thread,
    }
}

// Whether a walk that is on the thread may go to another: to the least thread that it has left, and then
// to the one that began it.
fn may_walk_go(id: WalkId, walk: Option<OpenWalk>, to: u32) -> bool
    ensures { result ≡ may_walk_go id walk to }
{
    match walk {
        Some(w) => to == first_of(w.left).unwrap_or(id.thread),
        None => false,
    }
}

/// Whether a message with this token to a thread is this one that is due.
pub fn is_due_to(due: &Due, to: u32, what: &Token) -> bool
    ensures { result ≡ is_due_by to (news_of what.now) due.now }
{
    due.receiver == to && tells(&due.news, what)
}

// Whether a message with this token to a thread is among those that are due.
fn is_among(due: &[Due], to: u32, what: &Token) -> bool
    ensures { result ≡ list_any (is_due_by to (news_of what.now)) due.now }
{
    due.iter().any(|d| is_due_to(d, to, what))
}

// Whether a message with this token is due to a thread.
fn is_due(part: &Part, to: u32, what: &Token) -> bool
    ensures { result ≡ is_due part.now to (news_of what.now) }
{
    is_among(part.due.as_slice(), to, what)
}

/// Whether a token may go from the thread to another: a request to the home of its next limited device
/// and back, a piece to its home and back, a walk to the next thread, and what is sent once where it is
/// due.
pub fn may_go<S: Sees>(seen: &S, setup: &Setup, thread: u32, to: u32, what: &Token) -> bool
    ensures { result ≡ may_go setup.now thread (S.view_of seen.now) to what.now }
{
    match what {
        Token::Request(req) => { may_request_go(setup, thread, *req, request_here(seen, *req), to) }
        Token::Piece(req, k) => {
            let piece = piece_here(seen, PieceId { req: *req, k: *k });
            may_piece_go(seen, setup, thread, *req, piece, to)
        }
        Token::Walk(walk) => may_walk_go(*walk, walk_here(seen, *walk), to),
        _ => is_due(seen.part(), to, what),
    }
}
