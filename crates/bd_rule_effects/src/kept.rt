//! What is kept of a token on its way, and once it was taken.
ghost use Rattle.std.specs.Prelude.{◌≡◌, IfOk};
ghost use Rattle.bd_machine.specs.Messages.{news_of, progress_put, progress_took, sent, trip_put};
ghost use Rattle.bd_rule_effects.specs.Begun.{stays, taken};

use bd_base::{OutOfMemory, Token};
use bd_blocks::is_nobody;
use bd_machine::{Kept, News, OpenWalk, Progress, Trip};

/// How far a piece is once it was put.
pub fn progress_put(progress: Progress) -> Progress
    ensures { result ≡ progress_put progress }
{
    match progress {
        Progress::Held => Progress::Out,
        Progress::Out => Progress::Out,
        Progress::Served => Progress::Served,
    }
}

/// How far a request is on its way once it was put: out to a limited device's home, or back.
pub fn trip_put(trip: Trip) -> Trip
    ensures { result ≡ trip_put trip }
{
    match trip {
        Trip::Own => Trip::Out,
        Trip::Out => Trip::Own,
        Trip::Passed => Trip::Own,
    }
}

/// How far a piece is once it was taken: one that was served is its own thread's again.
pub fn progress_took(progress: Progress) -> Progress
    ensures { result ≡ progress_took progress }
{
    match progress {
        Progress::Held => Progress::Held,
        Progress::Out => Progress::Out,
        Progress::Served => Progress::Held,
    }
}

/// What is kept of a token once it was put.
pub fn sent(kept: Kept) -> Kept
    ensures { result ≡ sent kept }
{
    match kept {
        Kept::Request(mut r) => {
            r.trip = trip_put(r.trip);
            Kept::Request(r)
        }
        Kept::Piece(mut p) => {
            p.progress = progress_put(p.progress);
            Kept::Piece(p)
        }
        Kept::Walk(w) => Kept::Walk(w),
        Kept::Notice(news) => Kept::Notice(news),
    }
}

/// What is kept of a token once it was taken.
pub fn taken(kept: Kept) -> Kept
    ensures { result ≡ taken kept }
{
    match kept {
        Kept::Request(r) => Kept::Request(r),
        Kept::Piece(mut p) => {
            p.progress = progress_took(p.progress);
            Kept::Piece(p)
        }
        Kept::Walk(mut w) => {
            w.taken = true;
            Kept::Walk(w)
        }
        Kept::Notice(news) => Kept::Notice(news),
    }
}

/// Whether a token that a message brought stays on the thread: a notice doesn't, and a walk that ends
/// doesn't.
pub fn stays(thread: u32, what: &Token, kept: &Kept) -> bool
    ensures { result ≡ stays thread what.now kept.now }
{
    match (what, kept) {
        (_, Kept::Notice(_)) => false,
        (Token::Walk(id), Kept::Walk(w)) => !is_nobody(w.left) || id.thread != thread,
        _ => true,
    }
}

/// What a token tells, if it is sent once.
pub fn news_of(what: &Token) -> Result<Option<News>, OutOfMemory>
    ensures { IfOk result (λ news. news ≡ news_of what.now) }
{
    match what {
        Token::Mark(mark) => Ok(Some(News::Mark(mark.copy()?))),
        Token::Gone(handle) => Ok(Some(News::Gone(*handle))),
        Token::Channel(dev) => Ok(Some(News::Channel(*dev))),
        Token::Device(dev) => Ok(Some(News::Device(*dev))),
        Token::Go(req, threads) => Ok(Some(News::Go(*req, *threads))),
        Token::Grow(dev, blocks) => Ok(Some(News::Grow(*dev, *blocks))),
        Token::Sized(handle, blocks) => Ok(Some(News::Sized(*handle, *blocks))),
        _ => Ok(None),
    }
}
