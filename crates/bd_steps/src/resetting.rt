//! What a reset asks of the registry next.
ghost use Rattle.std.specs.Prelude.{◌≡◌, ◌++◌, OnOk};
ghost use Rattle.bd_steps.specs.Resetting.{asking, asking_one, event_at, event_of, reset_event};

use bd_base::{DevId, OutOfMemory, RegEvent, ReqId};
use bd_machine::{OpenRequest, Part, Resetting, Stage};
use bd_rule_requests::{is_reset, reset_of};
use std::collections::VecDeque;

// What a reset of the device asks at this stage.
fn event_at(dev: DevId, stage: Stage) -> Option<RegEvent>
    ensures { result ≡ event_at dev stage }
{
    match stage {
        Stage::Drained => Some(RegEvent::EndReset { dev }),
        Stage::Thawed => Some(RegEvent::FinishReset { dev }),
        _ => None,
    }
}

// What a reset of the device asks, which began or didn't yet.
fn event_of(dev: DevId, req: ReqId, reset: Option<Resetting>) -> Option<RegEvent>
    ensures { result ≡ event_of dev req reset }
{
    match reset {
        Some(reset) => event_at(reset.dev, reset.stage),
        None => Some(RegEvent::BeginReset { dev, req }),
    }
}

/// What a request asks of the registry next, where it is a reset and is here: that it begins; once its drain walk
/// ended, that new channels aren't frozen any more; and once its thaw walk ended, that it ends. None while a walk of it
/// is under way, while it waits for the resets before it, and once it ended.
pub fn reset_event(part: &Part, req: ReqId, here: Option<OpenRequest>) -> Option<RegEvent>
    ensures { result ≡ reset_event part.now req here }
{
    match here {
        Some(r) if is_reset(r.op) => event_of(r.dev, req, reset_of(part, req)),
        _ => None,
    }
}

// Notes the reset, where it asks the registry for something next.
fn note_one(calls: &mut VecDeque<ReqId>, reset: &Resetting) -> Result<(), OutOfMemory>
    ensures { OnOk result (calls.new.items ≡ calls.old.items ++ asking_one reset.now) }
{
    if event_at(reset.dev, reset.stage).is_some() {
        calls.push_back(reset.req)?;
    }
    Ok(())
}

/// Notes those of the thread's resets that began and ask the registry for something next.
pub fn note_resets(calls: &mut VecDeque<ReqId>, resets: &[Resetting]) -> Result<(), OutOfMemory>
    ensures { OnOk result (calls.new.items ≡ calls.old.items ++ asking resets.now) }
{
    for reset in resets {
        note_one(calls, reset)?;
    }
    Ok(())
}
