//! Which entry is allowed, and the state after it.
ghost use Rattle.std.specs.Prelude.{◌≡◌, ◌<◌, length, IfOk, None, OnOk, true};
ghost use Rattle.bd_base.specs.declared.act.Act.TheVariants as acts;
ghost use Rattle.bd_machine.specs.Guards.{prior_by};
ghost use Rattle.bd_machine.specs.Changes.{registry_after};
ghost use Rattle.bd_machine.specs.Step.{after, is_in_order, is_shutdown, refusal};
ghost use Rattle.bd_machine.specs.Table.{change_at};
ghost use Rattle.bd_machine.specs.View.{asked};
ghost use Rattle.bd_play.specs.Words.{changed, is_of_course, is_of_request, made_by, refused, refused_with_shutdown, seen, submission_of};
ghost use Rattle.bd_play.specs.declared.side.Side.{Side};

use crate::messages::Message;
use crate::side::Side;
use crate::{course, events, homes, messages, requests, scripts, walks};
use bd_base::{Act, Answer, Entry, Op, OutOfMemory, RegEvent, Rows, Setup, Token};
use bd_clones::Duplicate;
use bd_machine::guard::IN_ORDER;
use bd_machine::{Part, Prior, Registry, State, TakenInjection};
use bd_rule_effects::{note, register};
use bd_rule_faults::{
    refused_abort, refused_due, refused_grace, refused_hold, refused_inject, refused_let,
    refused_pend, refused_release, refused_tick,
};
use bd_rule_view::{PieceId, Submission};
use bd_rule_walks::{refused_visit, softens};
use std::alloc::Global;

// Stamp and thread are above those of the entry before, and the thread exists.
fn is_in_order(state: &State, entry: &Entry) -> bool
    ensures { result ≡ is_in_order state.now entry.now }
{
    (entry.thread as usize) < state.parts.len()
        && 0 < entry.stamp
        && (state.stamp < entry.stamp
            || (state.stamp == entry.stamp && state.thread < entry.thread))
}

// ---- the fields of an act that travel together

fn message(peer: u32, number: u128) -> Message
    ensures { result ≡ record { peer = peer; number = number } }
{
    Message { peer, number }
}

fn submission(op: Op, lba: u64, count: u64) -> Submission
    ensures { result ≡ record { op = op; lba = lba; count = count } }
{
    Submission { op, lba, count }
}

// What a submission asks for; nothing for any other act.
fn submission_of(act: &Act) -> Submission
    ensures { result ≡ submission_of act.now }
{
    match act {
        Act::Accept { op, lba, count, .. } => submission(*op, *lba, *count),
        Act::Refuse { op, lba, count, .. } => submission(*op, *lba, *count),
        _ => submission(Op::Reset(0), 0, 0),
    }
}

// ---- why an act isn't allowed

// Why an act on a request isn't allowed.
fn refused_request(alloc: Global, side: &Side, act: &Act) -> Result<Option<u32>, OutOfMemory>
    requires { is_of_request act.now ≡ true }
    ensures { IfOk result (λ r. r ≡ refused side.now act.now) }
{
    match act {
        Act::Accept {
            req,
            dev,
            handle,
            ..
        } => {
            let what = submission_of(act);
            Ok(requests::refused_accept(side, *req, *dev, *handle, what))
        }
        Act::Refuse { handle, errno, .. } => {
            let what = submission_of(act);
            Ok(requests::refused_refuse(side, *handle, what, *errno))
        }
        Act::Cut { req, pieces } => requests::refused_cut(alloc, side, *req, *pieces),
        Act::Complete { req, status, shown } => {
            requests::refused_complete(alloc, side, *req, *status, shown)
        }
        _ => unreachable!(),
    }
}

// Why an act on a request beside its pieces isn't allowed.
fn refused_course(side: &Side, act: &Act) -> Result<Option<u32>, OutOfMemory>
    requires { is_of_course act.now ≡ true }
    ensures { IfOk result (λ r. r ≡ refused side.now act.now) }
{
    let (setup, thread) = (side.setup, side.thread);
    match act {
        Act::Inject { req, dev, decision } => Ok(refused_inject(side, *req, *dev, *decision)),
        Act::Pend { req } => Ok(refused_pend(side, thread, *req)),
        Act::Let { req, dev, now } => Ok(refused_let(side, setup, thread, *req, *dev, *now)),
        Act::Hold { req, until } => refused_hold(side, setup, thread, *req, *until),
        Act::Release { req, now } => refused_release(side, setup, thread, *req, *now),
        Act::Abort { req, cause } => Ok(refused_abort(side, setup, thread, *req, *cause)),
        Act::Tick { dev, now, slices } => refused_tick(side, setup, thread, *dev, *now, *slices),
        _ => unreachable!(),
    }
}

// Why an act isn't allowed: its first guard that fails, those of a Shutdown among them.
fn refused_act(alloc: Global, side: &Side, act: &Act) -> Result<Option<u32>, OutOfMemory>
    ensures { IfOk result (λ r. r ≡ refused_with_shutdown side.now act.now) }
{
    match act {
        Act::Put { to, number, what } => {
            Ok(messages::refused_put(side, message(*to, *number), what))
        }
        Act::Took {
            source,
            number,
            what,
        } => Ok(messages::refused_took(side, message(*source, *number), what)),
        Act::Reg { event, answer } => events::refused_reg(alloc, side, event, answer.get()),
        Act::Accept { .. } | Act::Refuse { .. } | Act::Cut { .. } | Act::Complete { .. } => {
            refused_request(alloc, side, act)
        }
        Act::Apply { req, k, dev, end } => {
            let piece = PieceId { req: *req, k: *k };
            Ok(homes::refused_apply(side, piece, *dev, *end))
        }
        Act::NoMem { req, k, dev } => {
            let piece = PieceId { req: *req, k: *k };
            Ok(homes::refused_no_mem(side, piece, *dev))
        }
        Act::Visit { walk, dev, kind } => {
            Ok(refused_visit(side, side.setup, side.thread, *walk, *dev, *kind))
        }
        Act::Destruct { dev, digest } => Ok(homes::refused_destruct(side, *dev, digest)),
        Act::Script { line, outcome } => scripts::refused_script(side, *line, *outcome),
        Act::Shutdown => scripts::refused_shutdown(side),
        Act::Grow { dev, blocks } => Ok(homes::refused_grow(side, *dev, *blocks)),
        Act::Grace { walk, until } => Ok(refused_grace(side, *walk, *until)),
        Act::Due { walk, now } => Ok(refused_due(side, *walk, *now)),
        _ => refused_course(side, act),
    }
}

/// Why an entry isn't allowed: the least guard that fails.
pub fn refusal(
    alloc: Global,
    setup: &Setup,
    state: &State,
    entry: &Entry,
) -> Result<Option<u32>, OutOfMemory>
    ensures { IfOk result (λ r. r ≡ refusal setup.now state.now entry.now) }
{
    if !is_in_order(state, entry) {
        return Ok(Some(IN_ORDER));
    }
    let thread = entry.thread;
    let side = Side {
        setup,
        state,
        thread,
    };
    refused_act(alloc, &side, &entry.act)
}

// ---- what an act changes

// The state with what an act on a request changes of its thread's part and of the tokens.
fn changed_by_request(alloc: Global, side: &Side, act: &Act) -> Result<State, OutOfMemory>
    requires { is_of_request act.now ≡ true }
    ensures { IfOk result (λ s. s ≡ changed side.now (made_by side.now act.now)) }
{
    match act {
        Act::Accept {
            req,
            dev,
            handle,
            ..
        } => {
            let what = submission_of(act);
            requests::accept(alloc, side, *req, *dev, *handle, what)
        }
        Act::Refuse { errno, .. } => requests::refuse(alloc, side, *errno),
        Act::Cut { req, pieces } => requests::cut(alloc, side, *req, *pieces),
        Act::Complete { req, .. } => requests::complete(alloc, side, *req),
        _ => unreachable!(),
    }
}

// The state with what an act on a request beside its pieces changes of its thread's part and of the
// tokens.
fn changed_by_course(alloc: Global, side: &Side, act: &Act) -> Result<State, OutOfMemory>
    requires { is_of_course act.now ≡ true }
    ensures { IfOk result (λ s. s ≡ changed side.now (made_by side.now act.now)) }
{
    match act {
        Act::Inject { req, decision, .. } => course::inject(alloc, side, *req, *decision),
        Act::Pend { req } => course::pend(alloc, side, *req),
        Act::Let { req, dev, now } => course::let_pass(alloc, side, *req, *dev, *now),
        Act::Hold { req, until } => course::hold(alloc, side, *req, *until),
        Act::Release { req, now } => course::release(alloc, side, *req, *now),
        Act::Abort { req, cause } => course::abort(alloc, side, *req, *cause),
        Act::Tick { dev, now, slices } => course::tick(alloc, side, *dev, *now, *slices),
        _ => unreachable!(),
    }
}

// The state with what an act changes of its thread's part and of the tokens: nothing for a Shutdown.
fn changed_by(alloc: Global, side: &Side, act: &Act) -> Result<State, OutOfMemory>
    ensures { IfOk result (λ s. s ≡ changed side.now (made_by side.now act.now)) }
{
    match act {
        Act::Put { to, number, what } => { messages::put(alloc, side, message(*to, *number), what) }
        Act::Took {
            source,
            number,
            what,
        } => messages::take(alloc, side, message(*source, *number), what),
        Act::Reg { event, answer } => events::reg(alloc, side, event, answer.get()),
        Act::Accept { .. } | Act::Refuse { .. } | Act::Cut { .. } | Act::Complete { .. } => {
            changed_by_request(alloc, side, act)
        }
        Act::Apply { req, k, dev, end } => {
            let piece = PieceId { req: *req, k: *k };
            homes::apply(alloc, side, piece, *dev, *end)
        }
        Act::NoMem { req, k, dev } => {
            let piece = PieceId { req: *req, k: *k };
            homes::refuse_piece(alloc, side, piece, *dev)
        }
        Act::Visit { walk, dev, kind } => walks::visit(alloc, side, *walk, *dev, *kind),
        Act::Destruct { dev, .. } => homes::destruct(alloc, side, *dev),
        Act::Script { .. } => scripts::script(alloc, side),
        Act::Shutdown => side.state.duplicate(alloc),
        Act::Grow { dev, blocks } => homes::grow(alloc, side, *dev, *blocks),
        Act::Grace { walk, until } => walks::grace(alloc, side, *walk, *until),
        Act::Due { walk, now } => walks::due(alloc, side, *walk, *now),
        _ => changed_by_course(alloc, side, act),
    }
}

// The registry after what an act asked of it.
fn register_asked(
    alloc: Global,
    setup: &Setup,
    registry: &mut Registry,
    thread: u32,
    act: &Act,
) -> Result<(), OutOfMemory>
    ensures { OnOk result (registry.new ≡ registry_after setup.now registry.old thread (asked act.now)) }
{
    match act {
        Act::Reg { event, answer } => {
            register(alloc, setup, registry, thread, event, answer.get())
        }
        _ => Ok(()),
    }
}

// What an event took of an error device, for the Inject that follows.
fn taken_injection(event: &RegEvent, answer: &Answer) -> Option<Prior>
    ensures { (side : Side) → result ≡ prior_by (seen side) (acts.Reg event.now answer.now) }
{
    match (event, answer) {
        (RegEvent::TakeInjection { dev, req, .. }, Answer::Injected { decision }) => {
            Some(Prior::Injection(TakenInjection {
                req: *req,
                dev: *dev,
                decision: *decision,
            }))
        }
        _ => None,
    }
}

// What an act is to the next one of its thread.
fn prior_by(side: &Side, act: &Act) -> Option<Prior>
    ensures { result ≡ prior_by (seen side.now) act.now }
{
    match act {
        Act::Reg { event, answer } => taken_injection(event, answer.get()),
        Act::Visit { walk, dev, kind } => {
            if softens(side, *walk, *dev, *kind) {
                Some(Prior::Softening {
                    walk: *walk,
                    dev: *dev,
                })
            } else {
                None
            }
        }
        Act::Grow { dev, .. } => Some(Prior::Growth(*dev)),
        _ => None,
    }
}

// The part of the thread with what its act was noted for the next one.
#[tactic(auto, using(bd_rule_effects::proofs::Places::set_at))]
fn note_at(parts: &mut Rows<Part>, thread: u32, prior: Option<Prior>)
    requires { thread < length parts.old }
    ensures { parts.new ≡ change_at thread (λ p. record p { prior = prior }) parts.old }
{
    note(parts.at_mut(thread as usize), prior);
}

fn is_shutdown(act: &Act) -> bool
    ensures { result ≡ is_shutdown act.now }
{
    matches!(act, Act::Shutdown)
}

/// The state after an allowed entry.
#[tactic(auto, unfolding(bd_machine::specs::Step::after), using(bd_machine::proofs::Steps::allowed_thread, crate::proofs::Noting::changed_after_set))]
pub fn after(
    alloc: Global,
    setup: &Setup,
    state: &State,
    entry: &Entry,
) -> Result<State, OutOfMemory>
    requires { refusal setup.now state.now entry.now ≡ None }
    ensures { IfOk result (λ s. s ≡ after setup.now state.now entry.now) }
{
    let thread = entry.thread;
    let side = Side {
        setup,
        state,
        thread,
    };
    let mut next = changed_by(alloc, &side, &entry.act)?;
    note_at(&mut next.parts, thread, prior_by(&side, &entry.act));
    register_asked(alloc, setup, &mut next.registry, thread, &entry.act)?;
    next.shut = state.shut || is_shutdown(&entry.act);
    next.stamp = entry.stamp;
    next.thread = thread;
    Ok(next)
}
