//! Which request may be aborted, and what an abort stops: the request waits at no limited device, and its pieces
//! that wait unsent are no longer to be put; nor are they where a request completes without success.
ghost use Rattle.std.specs.Prelude.{◌≡◌, ◌++◌, ◌∷◌, [], option_copied, filter, not, IfOk, OnOk, Some};
ghost use Rattle.bd_machine.specs.Aborts.{stopped};
ghost use Rattle.bd_machine.specs.Completion.{waits_unsent};
ghost use Rattle.bd_machine.specs.declared.state.Id.TheVariants as ids;
ghost use Rattle.bd_machine.specs.Kept.{as_piece, as_request};
ghost use Rattle.bd_tokens.specs.Tokens.{here_in};
ghost use Rattle.bd_steps.specs.Stopping.{abortable, base_under, channels_left, channels_without, in_lines, is_request, is_unsent, left_by, open_over, stoppable, turned_back, without_unsent};

use bd_base::{AbortCause, DevId, OutOfMemory, ReqId, Rows, Setup, Status, Token};
use bd_blocks::base_of;
use bd_machine::{Id, Kept, Limited, Open, OpenList, OpenRequest, Part, Progress, Trip};
use bd_retries::Retries;
use bd_rule_faults::{depart, refused_abort, waits_at};
use bd_rule_requests::request_here;
use bd_rule_view::{Sees, same_request};
use bd_rule_walks::{any_waits, is_kept_waiting};
use bd_tokens::Tokens;
use std::alloc::Global;
use std::collections::VecDeque;

/// The request, where it is here and the rules let it be aborted for this cause.
pub fn abortable<S: Sees>(
    seen: &S,
    setup: &Setup,
    me: u32,
    req: ReqId,
    cause: AbortCause,
) -> Option<OpenRequest>
    ensures { result ≡ abortable setup.now me (S.view_of seen.now) req cause }
{
    if refused_abort(seen, setup, me, req, cause).is_none() {
        request_here(seen, req)
    } else {
        None
    }
}

// Whether it is a piece without an end, and not out.
fn waits_unsent(kept: Option<&Kept>) -> bool
    ensures { result ≡ waits_unsent (as_piece (option_copied kept.entry)) }
{
    match kept {
        Some(Kept::Piece(p)) => p.end.is_none() && matches!(p.progress, Progress::Held),
        _ => false,
    }
}

// Whether it is a piece of this request that waits here unsent.
fn is_unsent(held: &Tokens, req: ReqId, what: &Token) -> bool
    ensures { result ≡ is_unsent req (here_in held.now.items) what.now }
{
    match what {
        Token::Piece(of, k) => {
            same_request(*of, req) && waits_unsent(held.get(Id::Piece(*of, *k)))
        }
        _ => false,
    }
}

// What is to be put, without the pieces of a request that wait here unsent.
fn keep_others(outbox: &mut VecDeque<(u32, Token)>, held: &Tokens, req: ReqId)
    ensures { outbox.new.items ≡ without_unsent req (here_in held.now.items) outbox.old.items }
{
    outbox.retain(|x| !is_unsent(held, req, &x.1));
}

// The base device under the request's device, where the request is here.
fn base_under(held: &Tokens, setup: &Setup, req: ReqId) -> Option<DevId>
    ensures { result ≡ base_under setup.now (as_request (here_in held.now.items (ids.Request req))) }
{
    match held.get(Id::Request(req)) {
        Some(Kept::Request(r)) => Some(base_of(setup, r.dev)),
        _ => None,
    }
}

/// The pieces of a request that wait here unsent are no longer to be put; all else is, in its order. Nor are
/// they in flight, and those that wait to be sent again do so no more.
pub fn drop_unsent(
    outbox: &mut VecDeque<(u32, Token)>,
    retries: &mut Retries,
    held: &Tokens,
    setup: &Setup,
    req: ReqId,
)
    ensures outbox { outbox.new.items ≡ without_unsent req (here_in held.now.items) outbox.old.items }
    ensures retries { retries.new ≡ channels_without setup.now req (here_in held.now.items) outbox.old.items retries.old }
{
    let before = outbox.len();
    keep_others(outbox, held, req);
    let after = outbox.len();
    if let Some(base) = base_under(held, setup, req) {
        retries.dropped(base, req, before.saturating_sub(after));
    }
}

/// Where a request completes with this status, but for success, its pieces that wait here unsent are no longer
/// to be put, in flight, or to be sent again: they end with it.
pub fn drop_left(
    outbox: &mut VecDeque<(u32, Token)>,
    retries: &mut Retries,
    held: &Tokens,
    setup: &Setup,
    req: ReqId,
    status: Status,
)
    ensures outbox { outbox.new.items ≡ left_by req status (here_in held.now.items) outbox.old.items }
    ensures retries { retries.new ≡ channels_left setup.now req status (here_in held.now.items) outbox.old.items retries.old }
{
    if !matches!(status, Status::Success) {
        drop_unsent(outbox, retries, held, setup, req);
    }
}

/// A request that is aborted waits no longer at the home of a limited device, if it went out to one.
pub fn stop_waiting(part: &mut Part, setup: &Setup, req: ReqId, r: OpenRequest)
    ensures { part.new ≡ stopped setup.now part.old req (Some r) }
{
    match waits_at(setup, r) {
        Some(dev) => depart(&mut part.limited, req, dev),
        None => {}
    }
}

// Whether it is this request itself.
fn is_request(req: ReqId, what: &Token) -> bool
    ensures { result ≡ is_request req what.now }
{
    match what {
        Token::Request(of) => same_request(*of, req),
        _ => false,
    }
}

// The request no longer goes out from its own thread.
fn keep_here(outbox: &mut VecDeque<(u32, Token)>, req: ReqId)
    ensures { outbox.new.items ≡ filter (λ x. not (is_request req x.1)) outbox.old.items }
{
    outbox.retain(|x| !is_request(req, &x.1));
}

/// A request that is aborted no longer goes from its own thread to the home of a limited device; from where it waits
/// there it is to be put back to its thread, after all else.
pub fn turn_back(
    outbox: &mut VecDeque<(u32, Token)>,
    req: ReqId,
    trip: Trip,
) -> Result<(), OutOfMemory>
    ensures { OnOk result (outbox.new.items ≡ turned_back req trip outbox.old.items) }
{
    match trip {
        Trip::Own => {
            keep_here(outbox, req);
            Ok(())
        }
        Trip::Out => {
            outbox.push_back((req.thread, Token::Request(req)))?;
            Ok(())
        }
        Trip::Passed => Ok(()),
    }
}

// Adds the id of an open request, where it has the device below and is no reset.
fn add_if_over(
    ids: &mut Rows<ReqId>,
    setup: &Setup,
    dev: DevId,
    request: &Open,
) -> Result<(), OutOfMemory>
    ensures { OnOk result (ids.new ≡ ids.old ++ open_over setup.now dev (request.now ∷ [])) }
{
    if is_kept_waiting(setup, dev, request) {
        ids.push(request.id)?;
    }
    Ok(())
}

// Adds the ids of the open requests that have the device below and are no resets.
fn add_open(
    ids: &mut Rows<ReqId>,
    setup: &Setup,
    dev: DevId,
    requests: &OpenList,
) -> Result<(), OutOfMemory>
    ensures { OnOk result (ids.new ≡ ids.old ++ open_over setup.now dev requests.now) }
{
    if !any_waits(setup, requests, dev) {
        return Ok(());
    }
    for place in 0..requests.len() {
        let Some(open) = requests.get(place) else {
            break;
        };
        add_if_over(ids, setup, dev, open)?;
    }
    Ok(())
}

// Adds the ids of requests.
fn add_all(ids: &mut Rows<ReqId>, more: &[ReqId]) -> Result<(), OutOfMemory>
    ensures { OnOk result (ids.new ≡ ids.old ++ more.now) }
{
    for req in more {
        ids.push(*req)?;
    }
    Ok(())
}

// Adds the requests that wait in this line.
fn add_line(ids: &mut Rows<ReqId>, line: &Limited) -> Result<(), OutOfMemory>
    ensures { OnOk result (ids.new ≡ ids.old ++ line.now.waiting) }
{
    add_all(ids, line.waiting.as_slice())?;
    Ok(())
}

// Adds the requests that wait in these lines.
fn add_lines(ids: &mut Rows<ReqId>, limited: &[Limited]) -> Result<(), OutOfMemory>
    ensures { OnOk result (ids.new ≡ ids.old ++ in_lines limited.now) }
{
    for line in limited {
        add_line(ids, line)?;
    }
    Ok(())
}

/// The requests that a mark of the device may stop here: the thread's own open ones that have it below and are no
/// resets, in order of acceptance, and then those that wait at its limited devices, in order of arrival at each.
pub fn stoppable(
    alloc: Global,
    setup: &Setup,
    dev: DevId,
    part: &Part,
) -> Result<Rows<ReqId>, OutOfMemory>
    ensures { IfOk result (λ ids. ids ≡ stoppable setup.now dev part.now) }
{
    let mut ids = Rows::new(alloc);
    add_open(&mut ids, setup, dev, &part.requests)?;
    add_lines(&mut ids, part.limited.as_slice())?;
    Ok(ids)
}
