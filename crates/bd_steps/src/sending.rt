//! Where a walk goes next, what leaves a thread with a token, and whether a message may be taken.
ghost use Rattle.std.specs.Prelude.{◌≡◌, ◌<◌, ◌++◌, true, is_some, length, IfOk, OnOk, Some, None};
ghost use Rattle.bd_rule_effects.specs.Begun.{begun};
ghost use Rattle.bd_links.specs.Queues.{queues_of};
ghost use Rattle.bd_machine.specs.Alone.{held_after};
ghost use Rattle.bd_machine.specs.Messages.{sent};
ghost use Rattle.bd_tokens.specs.Tokens.{here_in, Sets};
ghost use Rattle.bd_steps.specs.Sending.{bound_for, first_brought, first_due, goes_on, kept_on_way, sent_off, token_of};

use bd_base::{OutOfMemory, Token, WalkId};
use bd_blocks::first_of;
use bd_links::{Queue, is_full};
use bd_machine::{Due, Id, Kept, News, OpenWalk};
use bd_parcel::Parcel;
use bd_rule_effects::{is_at_end, news_of, progress_put, trip_put};
use bd_rule_requests::brings;
use bd_tokens::Tokens;
use std::alloc::Global;
use std::collections::VecDeque;

/// A walk is to be put to the least thread left, or back to the one that began it.
pub fn send_off(
    outbox: &mut VecDeque<(u32, Token)>,
    id: WalkId,
    walk: OpenWalk,
) -> Result<(), OutOfMemory>
    ensures { OnOk result (outbox.new.items ≡ outbox.old.items ++ bound_for id walk) }
{
    let to = match first_of(walk.left) {
        Some(first) => first,
        None => id.thread,
    };
    outbox.push_back((to, Token::Walk(id)))?;
    Ok(())
}

/// A walk that goes on is to be put; one that ends isn't.
pub fn send_on(
    outbox: &mut VecDeque<(u32, Token)>,
    me: u32,
    id: WalkId,
    walk: OpenWalk,
) -> Result<(), OutOfMemory>
    ensures { OnOk result (outbox.new.items ≡ outbox.old.items ++ goes_on me id walk) }
{
    if is_at_end(me, id, walk) {
        Ok(())
    } else {
        send_off(outbox, id, walk)
    }
}

/// A walk that begins is here, and to be put, after all else, to the first thread that it visits.
pub fn begin_walk(
    tokens: &mut Tokens,
    outbox: &mut VecDeque<(u32, Token)>,
    walk: Option<(WalkId, OpenWalk)>,
) -> Result<(), OutOfMemory>
    ensures here { OnOk result (here_in tokens.new.items ≡ held_after (begun walk) (here_in tokens.old.items)) }
    ensures sent { OnOk result (outbox.new.items ≡ outbox.old.items ++ sent_off walk) }
{
    tokens.hold_begun(walk)?;
    match walk {
        Some((id, walk)) => send_off(outbox, id, walk),
        None => Ok(()),
    }
}

// What is kept of a token that is put.
fn send(parcel: &mut Parcel)
    ensures { parcel.new ≡ sent parcel.old }
{
    match parcel.get_mut() {
        Kept::Request(r) => r.trip = trip_put(r.trip),
        Kept::Piece(p) => p.progress = progress_put(p.progress),
        Kept::Walk(_) => (),
        Kept::Notice(_) => (),
    }
}

/// The token leaves this thread: what is kept of it on its way.
pub fn leave(
    alloc: Global,
    tokens: &mut Tokens,
    id: Id,
    what: &Token,
) -> Result<Parcel, OutOfMemory>
    requires { is_some (kept_on_way what.now (here_in tokens.old.items id)) ≡ true }
    ensures kept { IfOk result (λ kept. kept_on_way what.now (here_in tokens.old.items id) ≡ Some kept) }
    ensures gone { OnOk result (Sets tokens.old.items tokens.new.items id None) }
{
    if let Some(told) = news_of(what)? {
        tokens.let_go(id);
        return Parcel::new(alloc, Kept::Notice(told));
    }
    let Some(mut parcel) = tokens.take_out(id)? else {
        unreachable!()
    };
    send(&mut parcel);
    Ok(parcel)
}

/// The same token once more.
pub fn copy_of(what: &Token) -> Result<Token, OutOfMemory>
    ensures { IfOk result (λ token. token ≡ what.now) }
{
    match what {
        Token::Request(req) => Ok(Token::Request(*req)),
        Token::Piece(req, k) => Ok(Token::Piece(*req, *k)),
        Token::Walk(walk) => Ok(Token::Walk(*walk)),
        Token::Go(req, threads) => Ok(Token::Go(*req, *threads)),
        Token::Gone(handle) => Ok(Token::Gone(*handle)),
        Token::Channel(dev) => Ok(Token::Channel(*dev)),
        Token::Device(dev) => Ok(Token::Device(*dev)),
        Token::Mark(mark) => Ok(Token::Mark(mark.copy()?)),
        Token::Grow(dev, blocks) => Ok(Token::Grow(*dev, *blocks)),
        Token::Sized(handle, blocks) => Ok(Token::Sized(*handle, *blocks)),
    }
}

// The token that tells the news.
fn token_of(news: &News) -> Result<Token, OutOfMemory>
    ensures { IfOk result (λ what. what ≡ token_of news.now) }
{
    match news {
        News::Mark(mark) => Ok(Token::Mark(mark.copy()?)),
        News::Gone(handle) => Ok(Token::Gone(*handle)),
        News::Channel(dev) => Ok(Token::Channel(*dev)),
        News::Device(dev) => Ok(Token::Device(*dev)),
        News::Go(req, threads) => Ok(Token::Go(*req, *threads)),
        News::Grow(dev, blocks) => Ok(Token::Grow(*dev, *blocks)),
        News::Sized(handle, blocks) => Ok(Token::Sized(*handle, *blocks)),
    }
}

/// The first message that is due, and its receiver; none where none is due, or the receiver's queue is full.
/// It takes memory only for a message that it gives.
pub fn first_due(due: &[Due], queues: &[Queue]) -> Result<Option<(u32, Token)>, OutOfMemory>
    ensures { IfOk result (λ first. first ≡ first_due queues.now due.now) }
{
    match due.first() {
        Some(d) => {
            if is_full(queues, d.receiver) {
                return Ok(None);
            }
            let what = token_of(&d.news)?;
            Ok(Some((d.receiver, what)))
        }
        None => Ok(None),
    }
}

/// Whether the first message to the thread brings the token that it names.
pub fn may_take(queues: &[Queue], me: usize) -> bool
    requires { me < length queues.now }
    ensures { result ≡ is_some (first_brought (queues_of queues.now me)) }
{
    match queues[me].first() {
        Some(message) => brings(&message.what, Some(message.kept.get())),
        None => false,
    }
}
