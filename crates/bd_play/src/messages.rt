//! Put and Took.
ghost use Rattle.std.specs.Prelude.{◌≡◌, cond, option_copied, IfOk, OnOk};
ghost use Rattle.bd_base.specs.declared.act.Act.TheVariants as acts;
ghost use Rattle.bd_rule_effects.specs.Begun.{is_of_kind, stays};
ghost use Rattle.bd_machine.specs.Messages.{news_of, news_put, token_put};
ghost use Rattle.bd_machine.specs.Step.{moved, place_after};
ghost use Rattle.bd_machine.specs.View.{Closed, Here, To, message_of};
ghost use Rattle.bd_machine.specs.declared.state.Id.TheVariants as ids;
ghost use Rattle.bd_play.specs.Words.{brought, changed, made_by, moves_of, moves_taken, refused, seen};

use crate::side::Side;
use bd_base::{OutOfMemory, Rows, Token};
use bd_clones::Duplicate;
use bd_machine::guard::{MAY_GO, NEXT_MESSAGE, NEXT_PUT, TOKEN_HERE};
use bd_machine::{Id, Kept, Place, State, Tracked};
use bd_rule_effects::{arrived, news_of, sent, stays, taken, took};
use bd_rule_requests::{brings, count_at, id_of, is_token_here, may_go};
use bd_rule_view::{Sees, look_up};
use bd_state::{begin, put_in};
use std::alloc::Global;

/// A message, by the thread at its other end (who gets a put one, who sent a taken one) and its number
/// from 0.
#[derive(Clone, Copy, PartialEq, Eq)]
pub struct Message {
    pub peer: u32,
    pub number: u128,
}

// ---- Put

/// Why a Put isn't allowed.
pub fn refused_put(side: &Side, message: Message, what: &Token) -> Option<u32>
    ensures { result ≡ refused side.now (acts.Put message.peer message.number what.now) }
{
    if message.number != count_at(side.part().put.as_slice(), message.peer) {
        return Some(NEXT_PUT);
    }
    if !is_token_here(side, what) {
        return Some(TOKEN_HERE);
    }
    if may_go(side, side.setup, side.thread, message.peer, what) {
        None
    } else {
        Some(MAY_GO)
    }
}

// The ring's place for a message of the thread.
fn ring_to(thread: u32, message: Message) -> Place
    ensures { result ≡ place_after thread (To message.peer message.number) }
{
    Place::Ring {
        sender: thread,
        receiver: message.peer,
        number: message.number,
    }
}

// A token that is on the thread goes into a ring.
fn send_token(
    alloc: Global,
    tokens: &mut Rows<(Id, Tracked)>,
    side: &Side,
    message: Message,
    id: Id,
) -> Result<(), OutOfMemory>
    ensures { OnOk result (tokens.new ≡ moved side.now.thread (token_put message.peer message.number id ((seen side.now).here id)) tokens.old) }
{
    let Some(kept) = side.kept(id) else {
        return Ok(());
    };
    let kept = sent(kept.duplicate(alloc)?);
    let place = ring_to(side.thread, message);
    put_in(tokens, id, Tracked { place, kept })
}

// A notice is made in the ring.
fn send_news(
    tokens: &mut Rows<(Id, Tracked)>,
    side: &Side,
    message: Message,
    what: &Token,
) -> Result<(), OutOfMemory>
    ensures { OnOk result (tokens.new ≡ moved side.now.thread (news_put message.peer message.number (ids.Notice side.now.thread message.peer message.number) (news_of what.now)) tokens.old) }
{
    let Some(news) = news_of(what)? else {
        return Ok(());
    };
    let id = Id::Notice {
        sender: side.thread,
        receiver: message.peer,
        number: message.number,
    };
    let place = ring_to(side.thread, message);
    let kept = Kept::Notice(news);
    put_in(tokens, id, Tracked { place, kept })
}

// The token that a message has goes into a ring.
fn send(
    alloc: Global,
    tokens: &mut Rows<(Id, Tracked)>,
    side: &Side,
    message: Message,
    what: &Token,
) -> Result<(), OutOfMemory>
    ensures { OnOk result (tokens.new ≡ moved side.now.thread (moves_of side.now message what.now) tokens.old) }
{
    match what {
        Token::Request(req) => send_token(alloc, tokens, side, message, Id::Request(*req)),
        Token::Piece(req, k) => send_token(alloc, tokens, side, message, Id::Piece(*req, *k)),
        Token::Walk(walk) => send_token(alloc, tokens, side, message, Id::Walk(*walk)),
        _ => send_news(tokens, side, message, what),
    }
}

/// The state with what a Put changes.
pub fn put(alloc: Global, side: &Side, message: Message, what: &Token) -> Result<State, OutOfMemory>
    ensures { IfOk result (λ s. s ≡ changed side.now (made_by side.now (acts.Put message.peer message.number what.now))) }
{
    let mut next = side.state.duplicate(alloc)?;
    send(alloc, &mut next.tokens, side, message, what)?;
    let part = next.parts.at_mut(side.thread as usize);
    bd_rule_effects::put(part, message.peer, message.number, what)?;
    Ok(next)
}

// ---- Took

// What is kept of a token that is a message from a peer.
fn kept_in(token: Option<&Tracked>, thread: u32, message: Message) -> Option<&Kept>
    ensures { option_copied result ≡ message_of message.peer thread message.number (option_copied token.entry) }
{
    match token {
        Some(
            Tracked {
                place: Place::Ring {
                    sender,
                    receiver,
                    number,
                },
                kept,
            },
        ) => {
            if *sender == message.peer && *receiver == thread && *number == message.number {
                Some(kept)
            } else {
                None
            }
        }
        _ => None,
    }
}

// What is kept of the token that a message brings.
fn brought<'a>(side: &'a Side, message: Message, what: &Token) -> Option<&'a Kept>
    ensures { option_copied result ≡ brought side.now message what.now }
{
    let id = id_of(message.peer, side.thread, message.number, what);
    kept_in(
        look_up(side.state.tokens.as_slice(), id),
        side.thread,
        message,
    )
}

/// Why a Took isn't allowed.
pub fn refused_took(side: &Side, message: Message, what: &Token) -> Option<u32>
    ensures { result ≡ refused side.now (acts.Took message.peer message.number what.now) }
{
    let is_next = message.number == count_at(side.part().taken.as_slice(), message.peer);
    if is_next && brings(what, brought(side, message, what)) {
        None
    } else {
        Some(NEXT_MESSAGE)
    }
}

// Whether a message with this token may bring what is kept so: any message may bring a notice.
fn is_of_kind(what: &Token, kept: &Kept) -> bool
    ensures { result ≡ is_of_kind what.now kept.now }
{
    match (what, kept) {
        (Token::Request(_), Kept::Request(_)) => true,
        (Token::Piece(_, _), Kept::Piece(_)) => true,
        (Token::Walk(_), Kept::Walk(_)) => true,
        (_, Kept::Notice(_)) => true,
        _ => false,
    }
}

// Where the token that a message brought is: on the thread; a notice is closed, and a walk may end.
fn place_of_arrived(thread: u32, what: &Token, kept: &Kept) -> Place
    ensures { result ≡ place_after thread (cond (stays thread what.now kept.now) Here Closed) }
{
    if stays(thread, what, kept) {
        Place::At(thread)
    } else {
        Place::Nowhere
    }
}

// The token that a message brought, with this kept of it, is on the thread or ends.
#[tactic(auto, using(bd_rule_effects::proofs::Arriving::arrives))]
fn arrive(
    alloc: Global,
    tokens: &mut Rows<(Id, Tracked)>,
    side: &Side,
    message: Message,
    what: &Token,
    kept: Option<&Kept>,
) -> Result<(), OutOfMemory>
    ensures { OnOk result (tokens.new ≡ moved side.now.thread (moves_taken side.now message what.now (option_copied kept.entry)) tokens.old) }
{
    let Some(kept) = kept else {
        return Ok(());
    };
    if !is_of_kind(what, kept) {
        return Ok(());
    }
    let id = id_of(message.peer, side.thread, message.number, what);
    let place = place_of_arrived(side.thread, what, kept);
    let kept = taken(kept.duplicate(alloc)?);
    put_in(tokens, id, Tracked { place, kept })
}

/// The state with what a Took changes.
#[tactic(auto, using(crate::proofs::Moving::moved_append))]
pub fn take(
    alloc: Global,
    side: &Side,
    message: Message,
    what: &Token,
) -> Result<State, OutOfMemory>
    ensures { IfOk result (λ s. s ≡ changed side.now (made_by side.now (acts.Took message.peer message.number what.now))) }
{
    let mut next = side.state.duplicate(alloc)?;
    let kept = brought(side, message, what);
    let part = next.parts.at_mut(side.thread as usize);
    took(part, message.peer, message.number)?;
    let begun = arrived(alloc, part, side.setup, side.thread, what, kept)?;
    arrive(alloc, &mut next.tokens, side, message, what, kept)?;
    begin(&mut next.tokens, side.thread, begun)?;
    Ok(next)
}
