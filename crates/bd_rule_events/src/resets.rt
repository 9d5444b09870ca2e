//! BeginReset, EndReset and FinishReset.
ghost use Rattle.std.specs.Prelude.{◌≡◌, find, IfOk, OnOk};
ghost use Rattle.bd_machine.specs.Asked.{is_reset_at};
ghost use Rattle.bd_machine.specs.Events.{drain_time, first_req, go_due, reset_begun, reset_finishes, reset_thaws, time_of_op, with_due, with_reset};
ghost use Rattle.bd_machine.specs.Same.{same_request};
ghost use Rattle.bd_rule_effects.specs.Begun.{with_walk};

use bd_base::{Answer, DevId, Op, OutOfMemory, ReqId, ThreadSet, WalkId, WalkKind};
use bd_machine::{News, Open, OpenList, OpenWalk, Part, Resetting, Stage};
use bd_rule_effects::{Plan, advance, begin_walk, make_due};
use bd_rule_view::{same_request, same_stage};

fn is_reset_at(dev: DevId, stage: Stage, reset: &Resetting) -> bool
    ensures { result ≡ is_reset_at dev stage reset.now }
{
    reset.dev.0 == dev.0 && same_stage(reset.stage, stage)
}

// The drain time that an open reset asks for; 0 for every other type.
fn time_of_op(op: Op) -> u64
    ensures { result ≡ time_of_op op }
{
    match op {
        Op::Reset(time) => time,
        _ => 0,
    }
}

// The open request of this id.
fn open_of(requests: &OpenList, req: ReqId) -> Option<Open>
    ensures { result ≡ find (λ o. same_request o.id req) requests.now }
{
    requests.iter().copied().find(|o| same_request(o.id, req))
}

// The drain time of an open reset of the thread.
fn drain_time(part: &Part, req: ReqId) -> u64
    ensures { result ≡ drain_time part.now req }
{
    match open_of(&part.requests, req) {
        Some(o) => time_of_op(o.op),
        None => 0,
    }
}

// A reset of the thread is kept.
fn keep(
    part: &mut Part,
    req: ReqId,
    dev: DevId,
    stage: Stage,
    threads: ThreadSet,
) -> Result<(), OutOfMemory>
    ensures { OnOk result (part.new ≡ with_reset req dev stage threads part.old) }
{
    let time = drain_time(part, req);
    part.resets.push(Resetting {
        req,
        dev,
        stage,
        threads,
        time,
    })
}

/// What the answer to a BeginReset makes: its freeze walk begins, or it waits for the resets before it.
/// The walk, but over nobody. Out of memory leaves the part unspecified.
pub fn reset_begun(
    part: &mut Part,
    thread: u32,
    dev: DevId,
    req: ReqId,
    answer: &Answer,
) -> Result<Option<(WalkId, OpenWalk)>, OutOfMemory>
    ensures { IfOk result (λ walk. with_walk part.new walk ≡ reset_begun thread dev req answer.now part.old) }
{
    match answer {
        Answer::ResetStarted { threads } => {
            keep(part, req, dev, Stage::Freezing, *threads)?;
            let plan = Plan {
                dev,
                kind: WalkKind::Freeze,
                threads: *threads,
                request: Some(req),
                time: drain_time(part, req),
            };
            begin_walk(part, thread, plan)
        }
        _ => {
            keep(part, req, dev, Stage::Queued, ThreadSet::empty())?;
            Ok(None)
        }
    }
}

// The first reset of the device at this stage.
fn first_req(resets: &[Resetting], dev: DevId, stage: Stage) -> Option<ReqId>
    ensures { result ≡ first_req resets.now dev stage }
{
    for reset in resets {
        if is_reset_at(dev, stage, reset) {
            return Some(reset.req);
        }
    }
    None
}

/// What the answer to an EndReset makes: the thaw walk of the reset begins. The walk, but over nobody.
/// Out of memory leaves the part unspecified.
pub fn reset_thaws(
    part: &mut Part,
    thread: u32,
    dev: DevId,
    answer: &Answer,
) -> Result<Option<(WalkId, OpenWalk)>, OutOfMemory>
    ensures { IfOk result (λ walk. with_walk part.new walk ≡ reset_thaws thread dev answer.now part.old) }
{
    let Answer::ResetEnded { threads } = answer else {
        return Ok(None);
    };
    let request = first_req(part.resets.as_slice(), dev, Stage::Drained);
    advance(part, dev, Stage::Drained, Stage::Thawing);
    let plan = Plan {
        dev,
        kind: WalkKind::Thaw,
        threads: *threads,
        request,
        time: 0,
    };
    begin_walk(part, thread, plan)
}

// The next reset may begin: its thread is to be told.
fn go_due(part: &mut Part, next: Option<(ReqId, ThreadSet)>) -> Result<(), OutOfMemory>
    ensures { OnOk result (part.new ≡ with_due (go_due next) part.old) }
{
    match next {
        Some((req, threads)) => make_due(part, req.thread, News::Go(req, threads)),
        None => Ok(()),
    }
}

/// What the answer to a FinishReset makes: the reset may complete, and the next that waited may begin.
/// Out of memory leaves the part unspecified.
pub fn reset_finishes(part: &mut Part, dev: DevId, answer: &Answer) -> Result<(), OutOfMemory>
    ensures { OnOk result (part.new ≡ reset_finishes dev answer.now part.old) }
{
    let Answer::ResetFinished { next } = answer else {
        return Ok(());
    };
    advance(part, dev, Stage::Thawed, Stage::Finished);
    go_due(part, *next)
}
