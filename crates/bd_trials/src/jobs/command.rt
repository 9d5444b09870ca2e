//! A command in the words of its line.
use bd_base::{ClaimKind, Job, Name, Op, OutOfMemory};
use std::alloc::Global;

pub(crate) fn told(alloc: Global, job: &Job) -> Result<String, OutOfMemory> {
    let word = job.word();
    Ok(match job {
        Job::Open { handle, dev, write } => {
            let mode = if *write { 'w' } else { 'r' };
            format!(in alloc; "{word} {handle} {dev} {mode}")?
        }
        Job::Claim { handle, kind } => claim(alloc, handle, kind)?,
        Job::Submit {
            handle,
            op,
            lba,
            count,
        } => submission(alloc, handle, op, *lba, *count)?,
        Job::Remove { dev } => format!(in alloc; "{word} {dev}")?,
        Job::Resize { dev, blocks } => format!(in alloc; "{word} {dev} {blocks}")?,
        Job::Sized { handle, blocks } => format!(in alloc; "{word} {handle} {blocks}")?,
        Job::Wait => String::from_str(alloc, word)?,
        Job::Sleep(micros) => format!(in alloc; "{word} {micros}")?,
        Job::Post(mark) | Job::Await(mark) => format!(in alloc; "{word} {mark}")?,
        Job::Close { handle } | Job::Gone { handle } => format!(in alloc; "{word} {handle}")?,
    })
}

fn claim(alloc: Global, handle: &Name, kind: &ClaimKind) -> Result<String, OutOfMemory> {
    let kind = match kind {
        ClaimKind::Exclusive => "exclusive",
        ClaimKind::WriteOne => "one",
        ClaimKind::WriteNone => "none",
        ClaimKind::Shared(key) => return Ok(format!(in alloc; "claim {handle} shared {key}")?),
    };
    Ok(format!(in alloc; "claim {handle} {kind}")?)
}

fn submission(
    alloc: Global,
    handle: &Name,
    op: &Op,
    lba: u64,
    count: u64,
) -> Result<String, OutOfMemory> {
    let word = match op {
        Op::Read => "read",
        Op::Write(fill) => {
            let seed = fill.seed;
            return Ok(format!(in alloc; "write {handle} {lba} {count} {seed}")?);
        }
        Op::Zeroes => "zeroes",
        Op::Unmap => "unmap",
        Op::Flush => "flush",
        Op::Reset(0) => return Ok(format!(in alloc; "reset {handle}")?),
        Op::Reset(time) => return Ok(format!(in alloc; "reset {handle} {time}")?),
        Op::Abort(line) => return Ok(format!(in alloc; "abort {handle} {line}")?),
    };
    Ok(format!(in alloc; "{word} {handle} {lba} {count}")?)
}
