//! The report of a run: a line for each command, for each handle of a script whose device was removed
//! while it was open, for each command that waits for its base, for each thread that has a command and
//! for each device, and one for the whole run. One that isn't full leaves out the first two.
ghost use Rattle.std.specs.Prelude.{◌≡◌, ◌++◌, ◌&&◌, ◌==◌, length, flat_map, IfOk, OnOk, codes};
ghost use Rattle.std.specs.List.{list_any};
ghost use Rattle.hex.specs.Hex.{encode_lower};
ghost use Rattle.bd_report.specs.Handles.{line_of_opened};
ghost use Rattle.bd_report.specs.Order.{command_line};
ghost use Rattle.bd_report.specs.Report.{report_of, report_with, detail_lines, job_lines, job_line, gone_lines, outcome_words, completion_words, shown_words, waiting_line, ends_words, thread_line, thread_line_if, thread_lines, is_busy_script, is_malloc, contents_words, digest_words, device_size_words, moved_words, device_line, device_lines, end_line};

use crate::counter::stats;
use crate::counts::Counts;
use crate::digests::Digests;
use crate::handles::{OpenedHandle, removed_in_order};
use crate::index::TraceIndex;
use crate::order::{Command, in_order};
use crate::stats::Stats;
use crate::traffic::Traffic;
use bd_base::{
    DevRow, Entry, Kind, Line, OutOfMemory, Outcome, Script, Setup, Shown, Status, Waiting,
};
use std::alloc::Global;

/// The report of a run from its setup and its trace: the entries of all threads in the order of their
/// stamps. A full one has a line for each command and each removed handle, another begins with the
/// commands that wait. Numbers are decimal, digests lower-case hexadecimal, and each line ends with a
/// line feed. Bytes are capped at `u64::MAX`. Out of memory is the only error.
pub fn report(
    alloc: Global,
    setup: &Setup,
    trace: &[Entry],
    full: bool,
) -> Result<Vec<u8>, OutOfMemory>
    ensures { IfOk result (λ v. v.items ≡ report_of full setup.now trace.now) }
{
    let stats = stats(alloc, setup, trace)?;
    report_with(alloc, setup, trace, &stats, full)
}

/// The report of a run by its statistics, as a counter gives them that counted the trace part by part.
/// Out of memory is the only error.
pub fn report_with(
    alloc: Global,
    setup: &Setup,
    trace: &[Entry],
    stats: &Stats,
    full: bool,
) -> Result<Vec<u8>, OutOfMemory>
    ensures { IfOk result (λ v. v.items ≡ report_with full setup.now trace.now stats.now) }
{
    let mut out = Vec::new(alloc);
    let devices = setup.devices.as_slice();
    let digests = &Digests::new(alloc, trace)?;
    write_details(alloc, &mut out, setup, trace, full)?;
    write_waiting(alloc, &mut out, setup.waiting.as_slice())?;
    write_threads(
        alloc,
        &mut out,
        setup.scripts.as_slice(),
        stats.threads.as_slice(),
    )?;
    write_devices(alloc, &mut out, digests, devices, stats.devices.as_slice())?;
    write_end(alloc, &mut out, &stats.all)?;
    Ok(out)
}

// Writes the commands and the removed handles, where the report is full. No other needs the index.
fn write_details(
    alloc: Global,
    out: &mut Vec<u8>,
    setup: &Setup,
    trace: &[Entry],
    full: bool,
) -> Result<(), OutOfMemory>
    ensures { OnOk result (out.new.items ≡ out.old.items ++ detail_lines full setup.now trace.now) }
{
    if full {
        let index = &TraceIndex::new(alloc, trace)?;
        write_jobs(alloc, out, setup.scripts.as_slice(), index)?;
        write_removed(alloc, out, setup.scripts.as_slice(), index)?;
    }
    Ok(())
}

// ---- commands

// Writes the commands in rising order of line number.
fn write_jobs(
    alloc: Global,
    out: &mut Vec<u8>,
    scripts: &[Script],
    index: &TraceIndex,
) -> Result<(), OutOfMemory>
    ensures { OnOk result (out.new.items ≡ out.old.items ++ job_lines scripts.now index.now) }
{
    let commands = in_order(alloc, scripts)?;
    write_commands(alloc, out, commands.as_slice(), index)?;
    Ok(())
}

// Writes commands in their order.
fn write_commands(
    alloc: Global,
    out: &mut Vec<u8>,
    commands: &[Command],
    index: &TraceIndex,
) -> Result<(), OutOfMemory>
    ensures { OnOk result (out.new.items ≡ out.old.items ++ flat_map (command_line index.now) commands.now) }
{
    for command in commands {
        write_job(alloc, out, index, command.thread, command.line)?;
    }
    Ok(())
}

// Writes the line of a thread's command.
fn write_job(
    alloc: Global,
    out: &mut Vec<u8>,
    index: &TraceIndex,
    thread: u32,
    line: &Line,
) -> Result<(), OutOfMemory>
    ensures { OnOk result (out.new.items ≡ out.old.items ++ job_line index.now thread line.now) }
{
    let number = line.number;
    let word = line.job.word();
    let start = format!(in alloc; "job {number} {thread} {word} ")?;
    out.extend_from_slice(start.as_bytes())?;
    write_outcome(alloc, out, index, index.outcome(thread, number))?;
    out.extend_from_slice(b"\n")?;
    Ok(())
}

// Writes the outcome of a command.
fn write_outcome(
    alloc: Global,
    out: &mut Vec<u8>,
    index: &TraceIndex,
    outcome: Option<Outcome>,
) -> Result<(), OutOfMemory>
    ensures { OnOk result (out.new.items ≡ out.old.items ++ outcome_words index.now outcome) }
{
    match outcome {
        None => out.extend_from_slice(b"skipped")?,
        Some(Outcome::Done) => out.extend_from_slice(b"ok")?,
        Some(Outcome::Errno(errno)) => {
            let number = errno.number();
            let text = format!(in alloc; "errno {number}")?;
            out.extend_from_slice(text.as_bytes())?;
        }
        Some(Outcome::BusyOpen(open)) => {
            let text = format!(in alloc; "errno 16 open {open}")?;
            out.extend_from_slice(text.as_bytes())?;
        }
        Some(Outcome::Accepted(req)) => write_completion(alloc, out, index.completion(req))?,
    }
    Ok(())
}

// Writes how a request ended.
fn write_completion(
    alloc: Global,
    out: &mut Vec<u8>,
    completion: Option<(Status, Option<Shown>)>,
) -> Result<(), OutOfMemory>
    ensures { OnOk result (out.new.items ≡ out.old.items ++ completion_words completion) }
{
    match completion {
        None => out.extend_from_slice(b"skipped")?,
        Some((status, shown)) => {
            out.extend_from_slice(status.word().as_bytes())?;
            write_shown(alloc, out, shown)?;
        }
    }
    Ok(())
}

// Writes what a read showed.
fn write_shown(alloc: Global, out: &mut Vec<u8>, shown: Option<Shown>) -> Result<(), OutOfMemory>
    ensures { OnOk result (out.new.items ≡ out.old.items ++ shown_words shown) }
{
    if let Some(shown) = shown {
        out.extend_from_slice(b" first ")?;
        write_hex(alloc, out, &shown.first)?;
        write_digest(alloc, out, &shown.digest)?;
    }
    Ok(())
}

// Writes a digest after its word.
fn write_digest(alloc: Global, out: &mut Vec<u8>, digest: &[u8]) -> Result<(), OutOfMemory>
    ensures { OnOk result (out.new.items ≡ out.old.items ++ codes " sha256 " ++ encode_lower digest.now) }
{
    out.extend_from_slice(b" sha256 ")?;
    write_hex(alloc, out, digest)?;
    Ok(())
}

// Writes bytes in lower-case hexadecimal.
fn write_hex(alloc: Global, out: &mut Vec<u8>, bytes: &[u8]) -> Result<(), OutOfMemory>
    ensures { OnOk result (out.new.items ≡ out.old.items ++ encode_lower bytes.now) }
{
    let text = hex::encode(alloc, bytes)?;
    out.extend_from_slice(text.as_bytes())?;
    Ok(())
}

// ---- removed handles

// Writes the handles of scripts whose remove event was taken while they were open.
fn write_removed(
    alloc: Global,
    out: &mut Vec<u8>,
    scripts: &[Script],
    index: &TraceIndex,
) -> Result<(), OutOfMemory>
    ensures { OnOk result (out.new.items ≡ out.old.items ++ gone_lines scripts.now index.now) }
{
    let handles = removed_in_order(alloc, scripts, index)?;
    write_handles(alloc, out, handles.as_slice())?;
    Ok(())
}

// Writes handles in their order.
fn write_handles(
    alloc: Global,
    out: &mut Vec<u8>,
    handles: &[OpenedHandle],
) -> Result<(), OutOfMemory>
    ensures { OnOk result (out.new.items ≡ out.old.items ++ flat_map line_of_opened handles.now) }
{
    for handle in handles {
        write_handle(alloc, out, *handle)?;
    }
    Ok(())
}

// Writes a handle's thread, name and device.
fn write_handle(alloc: Global, out: &mut Vec<u8>, handle: OpenedHandle) -> Result<(), OutOfMemory>
    ensures { OnOk result (out.new.items ≡ out.old.items ++ line_of_opened handle.entry) }
{
    let thread = handle.thread;
    let start = format!(in alloc; "gone {thread} ")?;
    out.extend_from_slice(start.as_bytes())?;
    out.extend_from_slice(handle.name.as_slice())?;
    out.extend_from_slice(b" ")?;
    out.extend_from_slice(handle.device.as_slice())?;
    out.extend_from_slice(b"\n")?;
    Ok(())
}

// ---- waiting commands

// Writes the commands whose base never came.
fn write_waiting(alloc: Global, out: &mut Vec<u8>, waiting: &[Waiting]) -> Result<(), OutOfMemory>
    ensures { OnOk result (out.new.items ≡ out.old.items ++ flat_map waiting_line waiting.now) }
{
    for command in waiting {
        write_waiting_line(alloc, out, command)?;
    }
    Ok(())
}

// Writes a command whose base never came.
fn write_waiting_line(
    alloc: Global,
    out: &mut Vec<u8>,
    waiting: &Waiting,
) -> Result<(), OutOfMemory>
    ensures { OnOk result (out.new.items ≡ out.old.items ++ waiting_line waiting.now) }
{
    let index = waiting.index;
    let start = format!(in alloc; "waiting {index} ")?;
    out.extend_from_slice(start.as_bytes())?;
    out.extend_from_slice(waiting.method.as_slice())?;
    out.extend_from_slice(b" ")?;
    out.extend_from_slice(waiting.base.as_slice())?;
    out.extend_from_slice(b"\n")?;
    Ok(())
}

// ---- threads

// Writes the counts of each thread that has a command.
fn write_threads(
    alloc: Global,
    out: &mut Vec<u8>,
    scripts: &[Script],
    threads: &[Counts],
) -> Result<(), OutOfMemory>
    ensures { OnOk result (out.new.items ≡ out.old.items ++ thread_lines scripts.now 0 threads.now) }
{
    for (thread, counts) in threads.iter().enumerate() {
        write_thread_if(alloc, out, scripts, thread, counts)?;
    }
    Ok(())
}

// Writes a thread's counts, if it has a command.
fn write_thread_if(
    alloc: Global,
    out: &mut Vec<u8>,
    scripts: &[Script],
    thread: usize,
    counts: &Counts,
) -> Result<(), OutOfMemory>
    ensures { OnOk result (out.new.items ≡ out.old.items ++ thread_line_if scripts.now thread counts.now) }
{
    if has_command(scripts, thread) {
        write_thread(alloc, out, thread, counts)?;
    }
    Ok(())
}

// Whether some script of a thread has a command.
fn has_command(scripts: &[Script], thread: usize) -> bool
    ensures { result ≡ list_any (is_busy_script thread) scripts.now }
{
    scripts.iter().any(|script| script.thread as usize == thread && script.lines.len() != 0)
}

// Writes a thread's counts.
fn write_thread(
    alloc: Global,
    out: &mut Vec<u8>,
    thread: usize,
    counts: &Counts,
) -> Result<(), OutOfMemory>
    ensures { OnOk result (out.new.items ≡ out.old.items ++ thread_line thread counts.now) }
{
    let start = format!(in alloc; "thread {thread}")?;
    out.extend_from_slice(start.as_bytes())?;
    write_ends(alloc, out, counts)?;
    let refused = counts.refused;
    let end = format!(in alloc; " refused {refused}\n")?;
    out.extend_from_slice(end.as_bytes())?;
    Ok(())
}

// Writes how many requests were accepted, and how they ended.
fn write_ends(alloc: Global, out: &mut Vec<u8>, counts: &Counts) -> Result<(), OutOfMemory>
    ensures { OnOk result (out.new.items ≡ out.old.items ++ ends_words counts.now) }
{
    let accepted = counts.accepted;
    let success = counts.success;
    let failed = counts.failed;
    let aborted = counts.aborted;
    let text = format!(in alloc;
        " accepted {accepted} success {success} failed {failed} aborted {aborted}"
    )?;
    out.extend_from_slice(text.as_bytes())?;
    Ok(())
}

// ---- devices

// Writes the devices by number, those for which it is told what they moved.
fn write_devices(
    alloc: Global,
    out: &mut Vec<u8>,
    digests: &Digests,
    devices: &[DevRow],
    traffic: &[Traffic],
) -> Result<(), OutOfMemory>
    ensures { OnOk result (out.new.items ≡ out.old.items ++ device_lines digests.now 0 devices.now traffic.now) }
{
    for device in 0..devices.len().min(traffic.len()) {
        write_device(
            alloc,
            out,
            digests,
            device,
            &devices[device],
            traffic[device],
        )?;
    }
    Ok(())
}

// Writes a device's size, and how much was read and written with success.
fn write_device(
    alloc: Global,
    out: &mut Vec<u8>,
    digests: &Digests,
    device: usize,
    row: &DevRow,
    traffic: Traffic,
) -> Result<(), OutOfMemory>
    ensures { OnOk result (out.new.items ≡ out.old.items ++ device_line digests.now device row.now traffic) }
{
    write_device_size(alloc, out, row)?;
    write_moved(alloc, out, traffic)?;
    write_contents(alloc, out, digests, device, row.kind)?;
    out.extend_from_slice(b"\n")?;
    Ok(())
}

// Writes how much was read and written with success.
fn write_moved(alloc: Global, out: &mut Vec<u8>, traffic: Traffic) -> Result<(), OutOfMemory>
    ensures { OnOk result (out.new.items ≡ out.old.items ++ moved_words traffic) }
{
    let reads = traffic.reads;
    let writes = traffic.writes;
    let read_bytes = traffic.read_bytes;
    let write_bytes = traffic.write_bytes;
    let text = format!(in alloc;
        " reads {reads} writes {writes} read_bytes {read_bytes} write_bytes {write_bytes}"
    )?;
    out.extend_from_slice(text.as_bytes())?;
    Ok(())
}

// Writes a device's name, kind and size.
fn write_device_size(alloc: Global, out: &mut Vec<u8>, row: &DevRow) -> Result<(), OutOfMemory>
    ensures { OnOk result (out.new.items ≡ out.old.items ++ device_size_words row.now) }
{
    let (word, blocks, size) = (row.kind.word(), row.blocks, row.size);
    out.extend_from_slice(b"device ")?;
    out.extend_from_slice(row.name.as_slice())?;
    let text = format!(in alloc; " {word} blocks {blocks} size {size}")?;
    out.extend_from_slice(text.as_bytes())?;
    Ok(())
}

// Writes the digest of a malloc device's contents at its end.
fn write_contents(
    alloc: Global,
    out: &mut Vec<u8>,
    digests: &Digests,
    device: usize,
    kind: Kind,
) -> Result<(), OutOfMemory>
    ensures { OnOk result (out.new.items ≡ out.old.items ++ contents_words digests.now device kind) }
{
    if is_malloc(kind) {
        write_digest_if(alloc, out, digests.get(device))?;
    }
    Ok(())
}

// Whether the device is a malloc device.
fn is_malloc(kind: Kind) -> bool
    ensures { result ≡ is_malloc kind }
{
    matches!(kind, Kind::Malloc)
}

// Writes the digest of a device's contents, if there is one.
fn write_digest_if(
    alloc: Global,
    out: &mut Vec<u8>,
    digest: Option<[u8; 32]>,
) -> Result<(), OutOfMemory>
    ensures { OnOk result (out.new.items ≡ out.old.items ++ digest_words digest) }
{
    if let Some(digest) = digest {
        write_digest(alloc, out, &digest)?;
    }
    Ok(())
}

// ---- the end

// Writes the counts of all threads together.
fn write_end(alloc: Global, out: &mut Vec<u8>, counts: &Counts) -> Result<(), OutOfMemory>
    ensures { OnOk result (out.new.items ≡ out.old.items ++ end_line counts.now) }
{
    out.extend_from_slice(b"end")?;
    write_ends(alloc, out, counts)?;
    out.extend_from_slice(b"\n")?;
    Ok(())
}
