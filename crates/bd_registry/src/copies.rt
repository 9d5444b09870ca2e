//! Copies of events and answers, for the journal.
ghost use Rattle.std.specs.Prelude.{◌≡◌, IfOk};
ghost use Rattle.bd_registry.specs.State.{event_row};

use bd_base::{Act, Answer, Boxed, Entry, OutOfMemory, RegEvent};
use std::alloc::Global;

fn copy_event(event: &RegEvent) -> Result<RegEvent, OutOfMemory>
    ensures { IfOk result (λ e. e ≡ event.now) }
{
    Ok(match event {
        RegEvent::Open { name, write } => RegEvent::Open {
            name: name.copy()?,
            write: *write,
        },
        RegEvent::Close { handle } => RegEvent::Close { handle: *handle },
        RegEvent::Claim { handle, kind } => RegEvent::Claim {
            handle: *handle,
            kind: *kind,
        },
        RegEvent::GetChannel { dev } => RegEvent::GetChannel { dev: *dev },
        RegEvent::PutChannel { dev, closing } => RegEvent::PutChannel {
            dev: *dev,
            closing: *closing,
        },
        RegEvent::DropChannel { dev } => RegEvent::DropChannel { dev: *dev },
        RegEvent::BeginRemove { name } => RegEvent::BeginRemove { name: name.copy()? },
        RegEvent::BeginReset { dev, req } => RegEvent::BeginReset {
            dev: *dev,
            req: *req,
        },
        RegEvent::EndReset { dev } => RegEvent::EndReset { dev: *dev },
        RegEvent::FinishReset { dev } => RegEvent::FinishReset { dev: *dev },
        RegEvent::TakeInjection { dev, req, op } => RegEvent::TakeInjection {
            dev: *dev,
            req: *req,
            op: *op,
        },
        RegEvent::Destructed { dev } => RegEvent::Destructed { dev: *dev },
        RegEvent::BeginResize { name, blocks } => RegEvent::BeginResize {
            name: name.copy()?,
            blocks: *blocks,
        },
        RegEvent::EndResize { dev } => RegEvent::EndResize { dev: *dev },
    })
}

fn copy_answer(answer: &Answer) -> Result<Answer, OutOfMemory>
    ensures { IfOk result (λ a. a ≡ answer.now) }
{
    Ok(match answer {
        Answer::Opened {
            handle,
            dev,
            blocks,
        } => Answer::Opened {
            handle: *handle,
            dev: *dev,
            blocks: *blocks,
        },
        Answer::Closed { destruct } => Answer::Closed {
            destruct: *destruct,
        },
        Answer::Claimed => Answer::Claimed,
        Answer::Got { fresh, frozen } => Answer::Got {
            fresh: *fresh,
            frozen: frozen.copy()?,
        },
        Answer::PutDown { left } => Answer::PutDown { left: *left },
        Answer::Dropped {
            what,
            zero,
            destruct,
        } => Answer::Dropped {
            what: *what,
            zero: *zero,
            destruct: *destruct,
        },
        Answer::Removing {
            dev,
            threads,
            handles,
            destruct,
        } => Answer::Removing {
            dev: *dev,
            threads: *threads,
            handles: handles.copy()?,
            destruct: *destruct,
        },
        Answer::ResetStarted { threads } => Answer::ResetStarted { threads: *threads },
        Answer::ResetQueued => Answer::ResetQueued,
        Answer::ResetEnded { threads } => Answer::ResetEnded { threads: *threads },
        Answer::ResetFinished { next } => Answer::ResetFinished { next: *next },
        Answer::Injected { decision } => Answer::Injected {
            decision: *decision,
        },
        Answer::Freed { close } => Answer::Freed { close: *close },
        Answer::Resizing { dev, home } => Answer::Resizing {
            dev: *dev,
            home: *home,
        },
        Answer::Resized {
            handles,
            blocks,
            destruct,
        } => Answer::Resized {
            handles: handles.copy()?,
            blocks: *blocks,
            destruct: *destruct,
        },
        Answer::Refused(errno) => Answer::Refused(*errno),
    })
}

/// The row of an event with its answer.
pub(crate) fn event_row(
    alloc: Global,
    thread: u32,
    stamp: u128,
    event: &RegEvent,
    answer: &Answer,
) -> Result<Entry, OutOfMemory>
    ensures { IfOk result (λ e. e ≡ event_row thread stamp event.now answer.now) }
{
    let act = Act::Reg {
        event: copy_event(event)?,
        answer: Boxed::new(alloc, copy_answer(answer)?)?,
    };
    Ok(Entry { stamp, thread, act })
}
