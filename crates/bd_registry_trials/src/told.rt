//! Answers in words.
use bd_base::{Answer, DevId, Dropped, HandleId, OutOfMemory, ReqId, ThreadId, ThreadSet};
use std::alloc::Global;

// The device that an answer names as one to be destructed.
fn destructs(text: &mut String, dev: &Option<DevId>) -> Result<(), OutOfMemory> {
    if let Some(DevId(n)) = dev {
        write!(text, ", destructs {n}")?;
    }
    Ok(())
}

// Handles with their threads.
fn told_handles(text: &mut String, handles: &[(HandleId, ThreadId)]) -> Result<(), OutOfMemory> {
    text.push_str(", handles")?;
    for (handle, thread) in handles {
        write!(text, " {} of {}", handle.0, thread.0)?;
    }
    Ok(())
}

fn opened(text: &mut String, handle: HandleId, dev: DevId, blocks: u64) -> Result<(), OutOfMemory> {
    write!(text, "handle {} on {}, {blocks} blocks", handle.0, dev.0)?;
    Ok(())
}

fn resized(
    text: &mut String,
    handles: &[(HandleId, ThreadId)],
    blocks: u64,
) -> Result<(), OutOfMemory> {
    write!(text, "resized, {blocks} blocks")?;
    told_handles(text, handles)
}

fn got(text: &mut String, fresh: bool, frozen: &[DevId]) -> Result<(), OutOfMemory> {
    text.push_str(if fresh { "new" } else { "had" })?;
    for DevId(n) in frozen {
        write!(text, ", frozen {n}")?;
    }
    Ok(())
}

fn dropped(text: &mut String, what: Dropped, zero: &Option<DevId>) -> Result<(), OutOfMemory> {
    text.push_str(match what {
        Dropped::Kept => "kept",
        Dropped::Gone => "gone",
        Dropped::Last => "last",
    })?;
    if let Some(DevId(n)) = zero {
        write!(text, ", base {n}")?;
    }
    Ok(())
}

fn removing(
    text: &mut String,
    threads: ThreadSet,
    handles: &[(HandleId, ThreadId)],
) -> Result<(), OutOfMemory> {
    text.push_str("removing, threads")?;
    for thread in 0..4 {
        if threads.has(ThreadId(thread)) {
            write!(text, " {thread}")?;
        }
    }
    told_handles(text, handles)
}

fn finished(text: &mut String, next: &Option<(ReqId, ThreadSet)>) -> Result<(), OutOfMemory> {
    text.push_str("finished")?;
    if let Some((req, _)) = next {
        write!(text, ", next {} of {}", req.seq, req.thread)?;
    }
    Ok(())
}

fn freed(text: &mut String, close: &Option<HandleId>) -> Result<(), OutOfMemory> {
    text.push_str("freed")?;
    if let Some(handle) = close {
        write!(text, ", closes {}", handle.0)?;
    }
    Ok(())
}

/// What the registry answered.
pub(crate) fn told(alloc: Global, answer: &Answer) -> Result<String, OutOfMemory> {
    let mut text = String::new(alloc);
    match answer {
        Answer::Opened {
            handle,
            dev,
            blocks,
        } => opened(&mut text, *handle, *dev, *blocks)?,
        Answer::Closed { destruct } => {
            text.push_str("closed")?;
            destructs(&mut text, destruct)?;
        }
        Answer::Claimed => text.push_str("claimed")?,
        Answer::Got { fresh, frozen } => got(&mut text, *fresh, frozen.as_slice())?,
        Answer::PutDown { left } => write!(text, "left {left}")?,
        Answer::Dropped {
            what,
            zero,
            destruct,
        } => {
            dropped(&mut text, *what, zero)?;
            destructs(&mut text, destruct)?;
        }
        Answer::Removing {
            threads,
            handles,
            destruct,
            ..
        } => {
            removing(&mut text, *threads, handles.as_slice())?;
            destructs(&mut text, destruct)?;
        }
        Answer::ResetStarted { .. } => text.push_str("started")?,
        Answer::ResetQueued => text.push_str("queued")?,
        Answer::ResetEnded { .. } => text.push_str("ended")?,
        Answer::ResetFinished { next } => finished(&mut text, next)?,
        Answer::Injected { decision } => write!(text, "{decision:?}")?,
        Answer::Freed { close } => freed(&mut text, close)?,
        Answer::Resizing { dev, home } => {
            write!(text, "resizing {}, home {}", dev.0, home.0)?;
        }
        Answer::Resized {
            handles,
            blocks,
            destruct,
        } => {
            resized(&mut text, handles.as_slice(), *blocks)?;
            destructs(&mut text, destruct)?;
        }
        Answer::Refused(errno) => write!(text, "errno {}", errno.number())?,
    }
    Ok(text)
}
