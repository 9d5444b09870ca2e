//! What is asked of the registry, in words, and its answers one after another.
use crate::words::{great, number, said, small, words};
use bd_base::{
    Answer, ClaimKind, DevId, Dropped, HandleId, Name, OutOfMemory, RegEvent, ReqId, Setup,
};
use bd_blocks::registry_at_start;
use bd_machine::Registry;
use bd_rule_effects::register;
use bd_rule_registry::answer_to;
use bd_rule_view::handle_of;
use std::alloc::Global;

const REQ: ReqId = ReqId { thread: 0, seq: 5 };

fn claim(words: &[&str]) -> ClaimKind {
    match words {
        ["exclusive"] => ClaimKind::Exclusive,
        ["writeone"] => ClaimKind::WriteOne,
        ["writenone"] => ClaimKind::WriteNone,
        ["shared", key] => ClaimKind::Shared(number(key)),
        _ => ClaimKind::Shared(0),
    }
}

fn name(alloc: Global) -> Result<Name, OutOfMemory> {
    Name::from_slice(alloc, b"Malloc0")
}

/// The event of these words, of the device of this number or of a handle.
pub(crate) fn event(alloc: Global, dev: DevId, words: &[&str]) -> Result<RegEvent, OutOfMemory> {
    Ok(match words {
        ["open", mode] => RegEvent::Open {
            name: name(alloc)?,
            write: *mode == "w",
        },
        ["close", handle] => RegEvent::Close {
            handle: HandleId(great(handle)),
        },
        ["claim", handle, kind @ ..] => RegEvent::Claim {
            handle: HandleId(great(handle)),
            kind: claim(kind),
        },
        ["get"] => RegEvent::GetChannel { dev },
        ["put"] => RegEvent::PutChannel {
            dev,
            closing: false,
        },
        ["drop"] => RegEvent::DropChannel { dev },
        ["begin", "reset"] => RegEvent::BeginReset { dev, req: REQ },
        ["end", "reset"] => RegEvent::EndReset { dev },
        ["finish", "reset"] => RegEvent::FinishReset { dev },
        ["resize", blocks] => RegEvent::BeginResize {
            name: name(alloc)?,
            blocks: number(blocks),
        },
        ["end", "resize"] => RegEvent::EndResize { dev },
        ["remove"] => RegEvent::BeginRemove { name: name(alloc)? },
        _ => RegEvent::Destructed { dev },
    })
}

fn dropped(what: Dropped) -> &'static str {
    match what {
        Dropped::Kept => "kept",
        Dropped::Gone => "gone",
        Dropped::Last => "the last gone",
    }
}

/// What an answer says, in short: of a get whether the channel is new, of a put how many references are left, of a
/// reset's end whether another begins, of a refusal its number.
pub(crate) fn in_short(alloc: Global, answer: &Answer) -> Result<String, OutOfMemory> {
    match answer {
        Answer::Opened { .. } => said(alloc, "opened"),
        Answer::Closed { .. } => said(alloc, "closed"),
        Answer::Claimed => said(alloc, "claimed"),
        Answer::Got { fresh, .. } => said(alloc, if *fresh { "new" } else { "one more" }),
        Answer::PutDown { left } => Ok(format!(in alloc; "{left} left")?),
        Answer::Dropped { what, .. } => said(alloc, dropped(*what)),
        Answer::Removing { .. } => said(alloc, "removing"),
        Answer::ResetStarted { .. } => said(alloc, "started"),
        Answer::ResetQueued => said(alloc, "queued"),
        Answer::ResetEnded { .. } => said(alloc, "ended"),
        Answer::ResetFinished { next } => said(
            alloc,
            if next.is_some() {
                "the next"
            } else {
                "the last"
            },
        ),
        Answer::Injected { .. } => said(alloc, "injected"),
        Answer::Freed { .. } => said(alloc, "freed"),
        Answer::Resizing { .. } => said(alloc, "resizing"),
        Answer::Resized { .. } => said(alloc, "resized"),
        Answer::Refused(errno) => {
            let number = errno.number();
            Ok(format!(in alloc; "refused {number}")?)
        }
    }
}

// The answer to an event of a thread, which the registry then has taken.
fn answered(
    alloc: Global,
    setup: &Setup,
    registry: &mut Registry,
    thread: u32,
    event: &RegEvent,
) -> Result<String, OutOfMemory> {
    let answer = answer_to(alloc, setup, registry, thread, event)?;
    register(alloc, setup, registry, thread, event, &answer)?;
    in_short(alloc, &answer)
}

// Whether the handle is a writing one.
fn mode(alloc: Global, registry: &Registry, handle: &str) -> Result<String, OutOfMemory> {
    match handle_of(registry.handles.as_slice(), HandleId(great(handle))) {
        Some(h) => said(alloc, if h.write { "writing" } else { "reading" }),
        None => said(alloc, "no handle"),
    }
}

fn step(
    alloc: Global,
    setup: &Setup,
    registry: &mut Registry,
    words: &[&str],
) -> Result<String, OutOfMemory> {
    match words {
        ["mode", handle] => mode(alloc, registry, handle),
        [thread, ask @ ..] => {
            let event = event(alloc, DevId(0), ask)?;
            answered(alloc, setup, registry, small(thread), &event)
        }
        [] => said(alloc, "no such step"),
    }
}

fn tell(
    alloc: Global,
    setup: &Setup,
    registry: &mut Registry,
    steps: &str,
) -> Result<String, OutOfMemory> {
    let mut told = String::new(alloc);
    for text in steps.split("; ") {
        if !told.is_empty() {
            told.push_str("; ")?;
        }
        let words = words(alloc, text)?;
        let answer = step(alloc, setup, registry, words.as_slice())?;
        told.push_str(answer.as_str())?;
    }
    Ok(told)
}

/// What is answered to these steps from the start of a registry on, each of a thread over device 0.
pub(crate) fn told(alloc: Global, setup: &Setup, steps: &str) -> Result<String, OutOfMemory> {
    let mut registry = registry_at_start(alloc, setup)?;
    tell(alloc, setup, &mut registry, steps)
}
