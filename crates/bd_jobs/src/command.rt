//! The commands of a script, by their first word and the words after it.
ghost use Rattle.std.specs.Prelude.{◌≡◌, map, Some, None, IfOk};
ghost use Rattle.std.specs.List.{list_any};
ghost use Rattle.bd_jobs.specs.Commands.{open_as, open_job, close_job, gone_job, sized_as, sized_job, plain_kind, claim_kind, claim_as, claim_job, submit_at, range_job, write_job, reset_for, reset_job, submits, submits_at, abort_job, remove_job, resize_as, resize_job, wait_job, sleep_job, post_job, await_job, submission_job, other_job, command_job};

use crate::word::{is_device, is_handle, number};
use bd_base::{ClaimKind, Fill, Job, Line, Name, Op, OutOfMemory};
use std::alloc::Global;

/// A line's command and its thread.
#[derive(Drop)]
pub struct Command {
    pub thread: u32,
    pub line: Line,
}

fn open_as(
    alloc: Global,
    write: bool,
    handle: &[u8],
    dev: &[u8],
) -> Result<Option<Job>, OutOfMemory>
    ensures { IfOk result (λ job. job ≡ open_as write handle.now dev.now) }
{
    if !is_handle(handle) || !is_device(dev) {
        return Ok(None);
    }
    Ok(Some(Job::Open {
        handle: Name::from_slice(alloc, handle)?,
        dev: Name::from_slice(alloc, dev)?,
        write,
    }))
}

// open HANDLE DEVICE r, or w
fn open_job(alloc: Global, args: &[&[u8]]) -> Result<Option<Job>, OutOfMemory>
    ensures { IfOk result (λ job. job ≡ open_job (map (λ w. w.now) args.now)) }
{
    match args {
        [handle, dev, b"r"] => open_as(alloc, false, handle, dev),
        [handle, dev, b"w"] => open_as(alloc, true, handle, dev),
        _ => Ok(None),
    }
}

// close HANDLE
fn close_job(alloc: Global, args: &[&[u8]]) -> Result<Option<Job>, OutOfMemory>
    ensures { IfOk result (λ job. job ≡ close_job (map (λ w. w.now) args.now)) }
{
    match args {
        [handle] if is_handle(handle) => Ok(Some(Job::Close {
            handle: Name::from_slice(alloc, handle)?,
        })),
        _ => Ok(None),
    }
}

// gone HANDLE
fn gone_job(alloc: Global, args: &[&[u8]]) -> Result<Option<Job>, OutOfMemory>
    ensures { IfOk result (λ job. job ≡ gone_job (map (λ w. w.now) args.now)) }
{
    match args {
        [handle] if is_handle(handle) => Ok(Some(Job::Gone {
            handle: Name::from_slice(alloc, handle)?,
        })),
        _ => Ok(None),
    }
}

fn sized_as(alloc: Global, handle: &[u8], blocks: Option<u64>) -> Result<Option<Job>, OutOfMemory>
    ensures { IfOk result (λ job. job ≡ sized_as handle.now blocks) }
{
    match blocks {
        Some(blocks) if is_handle(handle) => Ok(Some(Job::Sized {
            handle: Name::from_slice(alloc, handle)?,
            blocks,
        })),
        _ => Ok(None),
    }
}

// sized HANDLE BLOCKS
fn sized_job(alloc: Global, args: &[&[u8]]) -> Result<Option<Job>, OutOfMemory>
    ensures { IfOk result (λ job. job ≡ sized_job (map (λ w. w.now) args.now)) }
{
    match args {
        [handle, blocks] => sized_as(alloc, handle, number(blocks)),
        _ => Ok(None),
    }
}

// exclusive, one or none
fn plain_kind(word: &[u8]) -> Option<ClaimKind>
    ensures { result ≡ plain_kind word.now }
{
    if word == b"exclusive".as_slice() {
        Some(ClaimKind::Exclusive)
    } else if word == b"one".as_slice() {
        Some(ClaimKind::WriteOne)
    } else if word == b"none".as_slice() {
        Some(ClaimKind::WriteNone)
    } else {
        None
    }
}

// exclusive, one, none, or shared KEY
fn claim_kind(words: &[&[u8]]) -> Option<ClaimKind>
    ensures { result ≡ claim_kind (map (λ w. w.now) words.now) }
{
    match words {
        [word] => plain_kind(word),
        [word, key] if *word == b"shared".as_slice() => Some(ClaimKind::Shared(number(key)?)),
        _ => None,
    }
}

fn claim_as(
    alloc: Global,
    handle: &[u8],
    kind: Option<ClaimKind>,
) -> Result<Option<Job>, OutOfMemory>
    ensures { IfOk result (λ job. job ≡ claim_as handle.now kind) }
{
    match kind {
        Some(kind) if is_handle(handle) => Ok(Some(Job::Claim {
            handle: Name::from_slice(alloc, handle)?,
            kind,
        })),
        _ => Ok(None),
    }
}

// claim HANDLE KIND
fn claim_job(alloc: Global, args: &[&[u8]]) -> Result<Option<Job>, OutOfMemory>
    ensures { IfOk result (λ job. job ≡ claim_job (map (λ w. w.now) args.now)) }
{
    match args {
        [handle, kind @ ..] => claim_as(alloc, handle, claim_kind(kind)),
        [] => Ok(None),
    }
}

fn submit_at(
    alloc: Global,
    handle: &[u8],
    op: Op,
    lba: Option<u64>,
    count: Option<u64>,
) -> Result<Option<Job>, OutOfMemory>
    ensures { IfOk result (λ job. job ≡ submit_at handle.now op lba count) }
{
    let (Some(lba), Some(count)) = (lba, count) else {
        return Ok(None);
    };
    if !is_handle(handle) {
        return Ok(None);
    }
    Ok(Some(Job::Submit {
        handle: Name::from_slice(alloc, handle)?,
        op,
        lba,
        count,
    }))
}

// HANDLE LBA COUNT
fn range_job(alloc: Global, op: Op, args: &[&[u8]]) -> Result<Option<Job>, OutOfMemory>
    ensures { IfOk result (λ job. job ≡ range_job op (map (λ w. w.now) args.now)) }
{
    match args {
        [handle, lba, count] => submit_at(alloc, handle, op, number(lba), number(count)),
        _ => Ok(None),
    }
}

// write HANDLE LBA COUNT SEED
fn write_job(alloc: Global, args: &[&[u8]]) -> Result<Option<Job>, OutOfMemory>
    ensures { IfOk result (λ job. job ≡ write_job (map (λ w. w.now) args.now)) }
{
    let [handle, lba, count, seed] = args else {
        return Ok(None);
    };
    let Some(seed) = number(seed) else {
        return Ok(None);
    };
    let op = Op::Write(Fill { seed, flip: false });
    submit_at(alloc, handle, op, number(lba), number(count))
}

fn reset_for(alloc: Global, handle: &[u8], time: Option<u64>) -> Result<Option<Job>, OutOfMemory>
    ensures { IfOk result (λ job. job ≡ reset_for handle.now time) }
{
    match time {
        Some(time) => submit_at(alloc, handle, Op::Reset(time), Some(0), Some(0)),
        None => Ok(None),
    }
}

// reset HANDLE, or reset HANDLE MICROS
fn reset_job(alloc: Global, args: &[&[u8]]) -> Result<Option<Job>, OutOfMemory>
    ensures { IfOk result (λ job. job ≡ reset_job (map (λ w. w.now) args.now)) }
{
    match args {
        [handle] => reset_for(alloc, handle, Some(0)),
        [handle, micros] => reset_for(alloc, handle, number(micros)),
        _ => Ok(None),
    }
}

// Whether the command submits a request.
fn submits(job: &Job) -> bool
    ensures { result ≡ submits job.now }
{
    matches!(job, Job::Submit { .. })
}

// Whether the line of this number is among these and submits.
fn has_submission(lines: &[Line], number: u64) -> bool
    ensures { result ≡ list_any (submits_at number) lines.now }
{
    lines.iter().any(|line| u64::from(line.number) == number && submits(&line.job))
}

// abort HANDLE LINE
fn abort_job(alloc: Global, earlier: &[Line], args: &[&[u8]]) -> Result<Option<Job>, OutOfMemory>
    ensures { IfOk result (λ job. job ≡ abort_job earlier.now (map (λ w. w.now) args.now)) }
{
    let [handle, line] = args else {
        return Ok(None);
    };
    match number(line) {
        Some(line) if has_submission(earlier, line) => {
            submit_at(alloc, handle, Op::Abort(line), Some(0), Some(0))
        }
        _ => Ok(None),
    }
}

// remove DEVICE
fn remove_job(alloc: Global, args: &[&[u8]]) -> Result<Option<Job>, OutOfMemory>
    ensures { IfOk result (λ job. job ≡ remove_job (map (λ w. w.now) args.now)) }
{
    match args {
        [dev] if is_device(dev) => Ok(Some(Job::Remove {
            dev: Name::from_slice(alloc, dev)?,
        })),
        _ => Ok(None),
    }
}

fn resize_as(alloc: Global, dev: &[u8], blocks: Option<u64>) -> Result<Option<Job>, OutOfMemory>
    ensures { IfOk result (λ job. job ≡ resize_as dev.now blocks) }
{
    match blocks {
        Some(blocks) if is_device(dev) => Ok(Some(Job::Resize {
            dev: Name::from_slice(alloc, dev)?,
            blocks,
        })),
        _ => Ok(None),
    }
}

// resize DEVICE BLOCKS
fn resize_job(alloc: Global, args: &[&[u8]]) -> Result<Option<Job>, OutOfMemory>
    ensures { IfOk result (λ job. job ≡ resize_job (map (λ w. w.now) args.now)) }
{
    match args {
        [dev, blocks] => resize_as(alloc, dev, number(blocks)),
        _ => Ok(None),
    }
}

// wait
fn wait_job(args: &[&[u8]]) -> Option<Job>
    ensures { result ≡ wait_job (map (λ w. w.now) args.now) }
{
    if args.is_empty() {
        Some(Job::Wait)
    } else {
        None
    }
}

// sleep MICROS
fn sleep_job(args: &[&[u8]]) -> Option<Job>
    ensures { result ≡ sleep_job (map (λ w. w.now) args.now) }
{
    match args {
        [micros] => Some(Job::Sleep(number(micros)?)),
        _ => None,
    }
}

// post MARK
fn post_job(alloc: Global, args: &[&[u8]]) -> Result<Option<Job>, OutOfMemory>
    ensures { IfOk result (λ job. job ≡ post_job (map (λ w. w.now) args.now)) }
{
    match args {
        [mark] if is_handle(mark) => Ok(Some(Job::Post(Name::from_slice(alloc, mark)?))),
        _ => Ok(None),
    }
}

// await MARK
fn await_job(alloc: Global, args: &[&[u8]]) -> Result<Option<Job>, OutOfMemory>
    ensures { IfOk result (λ job. job ≡ await_job (map (λ w. w.now) args.now)) }
{
    match args {
        [mark] if is_handle(mark) => Ok(Some(Job::Await(Name::from_slice(alloc, mark)?))),
        _ => Ok(None),
    }
}

// A command that submits.
fn submission_job(
    alloc: Global,
    earlier: &[Line],
    word: &[u8],
    args: &[&[u8]],
) -> Result<Option<Job>, OutOfMemory>
    ensures { IfOk result (λ job. job ≡ submission_job earlier.now word.now (map (λ w. w.now) args.now)) }
{
    if word == b"read".as_slice() {
        range_job(alloc, Op::Read, args)
    } else if word == b"write".as_slice() {
        write_job(alloc, args)
    } else if word == b"zeroes".as_slice() {
        range_job(alloc, Op::Zeroes, args)
    } else if word == b"unmap".as_slice() {
        range_job(alloc, Op::Unmap, args)
    } else if word == b"flush".as_slice() {
        range_job(alloc, Op::Flush, args)
    } else if word == b"reset".as_slice() {
        reset_job(alloc, args)
    } else if word == b"abort".as_slice() {
        abort_job(alloc, earlier, args)
    } else {
        Ok(None)
    }
}

// A command that neither submits nor speaks of a handle.
fn other_job(alloc: Global, word: &[u8], args: &[&[u8]]) -> Result<Option<Job>, OutOfMemory>
    ensures { IfOk result (λ job. job ≡ other_job word.now (map (λ w. w.now) args.now)) }
{
    if word == b"remove".as_slice() {
        remove_job(alloc, args)
    } else if word == b"resize".as_slice() {
        resize_job(alloc, args)
    } else if word == b"wait".as_slice() {
        Ok(wait_job(args))
    } else if word == b"sleep".as_slice() {
        Ok(sleep_job(args))
    } else if word == b"post".as_slice() {
        post_job(alloc, args)
    } else if word == b"await".as_slice() {
        await_job(alloc, args)
    } else {
        Ok(None)
    }
}

/// The command of a word, with the words after it and the earlier lines of its thread; none where
/// they are no command.
pub(crate) fn command_job(
    alloc: Global,
    earlier: &[Line],
    word: &[u8],
    args: &[&[u8]],
) -> Result<Option<Job>, OutOfMemory>
    ensures { IfOk result (λ job. job ≡ command_job earlier.now word.now (map (λ w. w.now) args.now)) }
{
    if word == b"open".as_slice() {
        return open_job(alloc, args);
    }
    if word == b"close".as_slice() {
        return close_job(alloc, args);
    }
    if word == b"claim".as_slice() {
        return claim_job(alloc, args);
    }
    if word == b"gone".as_slice() {
        return gone_job(alloc, args);
    }
    if word == b"sized".as_slice() {
        return sized_job(alloc, args);
    }
    match submission_job(alloc, earlier, word, args)? {
        Some(job) => Ok(Some(job)),
        None => other_job(alloc, word, args),
    }
}
