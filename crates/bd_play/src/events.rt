//! Reg: an event of the registry with its answer.
ghost use Rattle.std.specs.Prelude.{◌≡◌, true, IfOk, OnOk};
ghost use Rattle.bd_base.specs.declared.act.Act.TheVariants as acts;
ghost use Rattle.bd_rule_effects.specs.Begun.{with_walk};
ghost use Rattle.bd_machine.specs.Events.{alone, got_by, injection_taken};
ghost use Rattle.bd_play.specs.Words.{answered, changed, is_plain, made_by, may_begin, refused, seen};

use crate::course::stays;
use crate::side::Side;
use bd_base::{Answer, DevId, OutOfMemory, RegEvent, ReqId, WalkId};
use bd_blocks::number_named;
use bd_clones::Duplicate;
use bd_machine::guard::{EVENT_ASKED, REGISTRY_ANSWER};
use bd_machine::{OpenWalk, Part, State};
use bd_rule_effects::{closed, decide};
use bd_rule_events::{
    dropped, freed, got, put_down, removal_paid, removing, reset_begun, reset_finishes,
    reset_thaws, resized, resizing,
};
use bd_rule_faults::asked_once_more;
use bd_rule_registry::{answer_to, made};
use bd_rule_requests::request_here;
use bd_rule_script::asks_event;
use bd_rule_view::same_answer;
use bd_state::begin;
use std::alloc::Global;

/// Why a Reg isn't allowed.
pub fn refused_reg(
    alloc: Global,
    side: &Side,
    event: &RegEvent,
    answer: &Answer,
) -> Result<Option<u32>, OutOfMemory>
    ensures { IfOk result (λ r. r ≡ refused side.now (acts.Reg event.now answer.now)) }
{
    let registry = &side.state.registry;
    let due = answer_to(alloc, side.setup, registry, side.thread, event)?;
    if !same_answer(answer, &due) {
        return Ok(Some(REGISTRY_ANSWER));
    }
    let between = registry.between;
    if asks_event(
        side,
        side.setup,
        side.thread,
        side.state.shut,
        between,
        event,
    ) {
        Ok(None)
    } else {
        Ok(Some(EVENT_ASKED))
    }
}

// ---- what the answer changes

// The channels of these devices are made by a get that was granted.
fn got_channel(
    alloc: Global,
    side: &Side,
    part: &mut Part,
    dev: DevId,
    answer: &Answer,
) -> Result<(), OutOfMemory>
    ensures { OnOk result (part.new ≡ got_by side.now.setup.now (record (seen side.now) { part = part.old }) dev answer.now) }
{
    let Answer::Got { frozen, .. } = answer else {
        return Ok(());
    };
    let made = made(alloc, side.setup, &side.state.registry, side.thread, dev)?;
    got(part, frozen.as_slice(), made.as_slice())
}

// What an answer changes of a part, where no walk begins by it.
fn answered_plainly(
    alloc: Global,
    side: &Side,
    part: &mut Part,
    event: &RegEvent,
    answer: &Answer,
) -> Result<(), OutOfMemory>
    requires { is_plain event.now ≡ true }
    ensures { OnOk result (alone part.new ≡ answered side.now part.old event.now answer.now) }
{
    match event {
        RegEvent::Close { handle } => { closed(part, side.setup, side.state.shut, *handle, answer) }
        RegEvent::GetChannel { dev } => got_channel(alloc, side, part, *dev, answer),
        RegEvent::PutChannel { dev, closing } => {
            put_down(part, side.thread, *dev, *closing, answer)
        }
        RegEvent::DropChannel { dev } => dropped(part, side.setup, side.thread, *dev, answer),
        RegEvent::FinishReset { dev } => reset_finishes(part, *dev, answer),
        RegEvent::Destructed { dev } => freed(part, *dev, answer),
        RegEvent::BeginResize { blocks, .. } => { resizing(part, side.state.shut, *blocks, answer) }
        RegEvent::EndResize { dev } => resized(part, side.setup, *dev, answer),
        _ => {
            decide(part, side.state.shut, answer);
            Ok(())
        }
    }
}

// What an answer changes of a part, and the walk that begins by it, if one does.
fn answered_with_walk(
    side: &Side,
    part: &mut Part,
    event: &RegEvent,
    answer: &Answer,
) -> Result<Option<(WalkId, OpenWalk)>, OutOfMemory>
    requires { may_begin event.now ≡ true }
    ensures { IfOk result (λ walk. with_walk part.new walk ≡ answered side.now part.old event.now answer.now) }
{
    let thread = side.thread;
    match event {
        RegEvent::BeginRemove { name } => {
            let named = number_named(side.setup, name)?;
            removal_paid(part, side.state.shut, answer, named);
            removing(part, side.setup, thread, answer)
        }
        RegEvent::BeginReset { dev, req } => reset_begun(part, thread, *dev, *req, answer),
        RegEvent::EndReset { dev } => reset_thaws(part, thread, *dev, answer),
        _ => unreachable!(),
    }
}

// A request takes an injection.
fn take_injection(
    alloc: Global,
    side: &Side,
    req: ReqId,
    answer: &Answer,
) -> Result<State, OutOfMemory>
    ensures { IfOk result (λ s. s ≡ changed side.now (injection_taken (seen side.now) req answer.now)) }
{
    let mut next = side.state.duplicate(alloc)?;
    if !matches!(answer, Answer::Injected { .. }) {
        return Ok(next);
    }
    if let Some(r) = request_here(side, req) {
        stays(&mut next.tokens, side, req, asked_once_more(r)?)?;
    }
    Ok(next)
}

fn may_begin(event: &RegEvent) -> bool
    ensures { result ≡ may_begin event.now }
{
    matches!(
        event,
        RegEvent::BeginRemove { .. } | RegEvent::BeginReset { .. } | RegEvent::EndReset { .. }
    )
}

/// The state with what a Reg changes of its thread's part and of the tokens.
pub fn reg(
    alloc: Global,
    side: &Side,
    event: &RegEvent,
    answer: &Answer,
) -> Result<State, OutOfMemory>
    ensures { IfOk result (λ s. s ≡ changed side.now (made_by side.now (acts.Reg event.now answer.now))) }
{
    if let RegEvent::TakeInjection { req, .. } = event {
        return take_injection(alloc, side, *req, answer);
    }
    let mut next = side.state.duplicate(alloc)?;
    let part = next.parts.at_mut(side.thread as usize);
    if may_begin(event) {
        let walk = answered_with_walk(side, part, event, answer)?;
        begin(&mut next.tokens, side.thread, walk)?;
    } else {
        answered_plainly(alloc, side, part, event, answer)?;
    }
    Ok(next)
}
