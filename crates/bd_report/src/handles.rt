//! The handles that scripts opened and whose remove event was taken while they were open.
ghost use Rattle.std.specs.Prelude.{◌≡◌, ℕ, ◌+◌, ◌++◌, ◌∷◌, ◌-◌, ◌^◌, ◌<◌, ◌==◌, ◌&&◌, [], map, filter, flat_map, if◌then◌else◌, IfOk, OnOk};
ghost use Rattle.std.specs.List.{cons_option};
ghost use Rattle.std.specs.Option.{option_copied, option_map};
ghost use Rattle.bd_report.specs.Handles.{as_handle, line_of_opened, done_at};
ghost use Rattle.bd_report.specs.Report.{gone_lines, is_script, lines_of, name_in, next_name, opened_in, opened_in_act, removed_handles, was_removed};

use crate::index::TraceIndex;
use bd_base::{Act, Answer, Entry, Job, Line, Name, OutOfMemory, RegEvent, Script};
use std::alloc::Global;
use std::collections::HashMap;

/// A handle that a thread opened for a line of its script: its number, the name that the line gives
/// it, and its device's name.
#[derive(Clone, Copy)]
pub(crate) struct OpenedHandle<'a> {
    pub(crate) thread: u32,
    pub(crate) number: u128,
    pub(crate) name: &'a Name,
    pub(crate) device: &'a Name,
}

// How many lines each thread has done, by thread; a thread that is missing has done none.
type LinesDone = HashMap<u32, usize>;

/// The handles of scripts whose remove event was taken while they were open, by thread, then by
/// number. Out of memory is the only error.
pub(crate) fn removed_in_order<'a>(
    alloc: Global,
    scripts: &'a [Script],
    index: &TraceIndex<'a>,
) -> Result<Vec<OpenedHandle<'a>>, OutOfMemory>
    ensures { IfOk result (λ v. flat_map line_of_opened v.items ≡ gone_lines scripts.now index.now) }
{
    let mut handles = removed_handles(alloc, scripts, index)?;
    handles.sort_by_key(|handle| handle.number)?;
    handles.sort_by_key(|handle| handle.thread)?;
    Ok(handles)
}

// The handles of scripts whose remove event was taken while they were open.
fn removed_handles<'a>(
    alloc: Global,
    scripts: &'a [Script],
    index: &TraceIndex<'a>,
) -> Result<Vec<OpenedHandle<'a>>, OutOfMemory>
    ensures { IfOk result (λ v. map as_handle v.items ≡ removed_handles scripts.now index.now) }
{
    let mut handles = Vec::new(alloc);
    let mut done = HashMap::new(alloc);
    for entry in index.trace() {
        note_handle(&mut handles, index, opened_in(scripts, &done, entry))?;
        note_line(&mut done, entry)?;
    }
    Ok(handles)
}

// Adds a handle, if there is one and its remove event was taken while it was open.
fn note_handle<'a>(
    handles: &mut Vec<OpenedHandle<'a>>,
    index: &TraceIndex,
    opened: Option<OpenedHandle<'a>>,
) -> Result<(), OutOfMemory>
    ensures { OnOk result
        (map as_handle handles.new.items ≡ map as_handle handles.old.items ++ filter (was_removed index.now) (cons_option (option_map as_handle opened.entry) [])) }
{
    if let Some(handle) = opened {
        push_removed(handles, index, handle)?;
    }
    Ok(())
}

// Adds a handle, if its remove event was taken while it was open.
fn push_removed<'a>(
    handles: &mut Vec<OpenedHandle<'a>>,
    index: &TraceIndex,
    handle: OpenedHandle<'a>,
) -> Result<(), OutOfMemory>
    ensures { let row = as_handle handle.entry in
        OnOk result (map as_handle handles.new.items ≡ map as_handle handles.old.items ++ (if was_removed index.now row then row ∷ [] else [])) }
{
    if index.was_told(handle.thread, handle.number) {
        handles.push(handle)?;
    }
    Ok(())
}

// ---- what an entry opens

// The handle that an entry opens for the next line of its thread, by how many lines each has done.
fn opened_in<'a>(
    scripts: &'a [Script],
    done: &LinesDone,
    entry: &'a Entry,
) -> Option<OpenedHandle<'a>>
    ensures { option_map as_handle result ≡ opened_in scripts.now (done_at done.now entry.now.thread) entry.now }
{
    match opened_in_act(&entry.act) {
        None => None,
        Some((number, device)) => {
            match next_name(scripts, entry.thread, done_at(done, entry.thread)) {
                None => None,
                Some(name) => Some(OpenedHandle {
                    thread: entry.thread,
                    number,
                    name,
                    device,
                }),
            }
        }
    }
}

// The number and the device's name of the handle that the act opens.
fn opened_in_act(act: &Act) -> Option<(u128, &Name)>
    ensures { option_map (λ opened. (opened.0, opened.1.now)) result ≡ opened_in_act act.now }
{
    match act {
        Act::Reg {
            event: RegEvent::Open { name, .. },
            answer,
        } => match answer.get() {
            Answer::Opened { handle, .. } => Some((handle.0, name)),
            _ => None,
        },
        _ => None,
    }
}

// The name that a thread's next line gives to the handle that it opens, by how many lines the thread
// has done.
fn next_name(scripts: &[Script], thread: u32, done: usize) -> Option<&Name>
    ensures { option_copied result ≡ next_name scripts.now thread done }
{
    match lines_of(scripts, thread).get(done) {
        None => None,
        Some(line) => name_in(&line.job),
    }
}

// A thread's lines.
fn lines_of(scripts: &[Script], thread: u32) -> &[Line]
    ensures { result.now ≡ lines_of scripts.now thread }
{
    for script in scripts {
        if script.thread == thread {
            return script.lines.as_slice();
        }
    }
    &[]
}

// The name that a command gives to the handle that it opens.
fn name_in(job: &Job) -> Option<&Name>
    ensures { option_copied result ≡ name_in job.now }
{
    match job {
        Job::Open { handle, .. } => Some(handle),
        _ => None,
    }
}

// ---- how far the scripts are

// Counts the line that an entry says done.
fn note_line(done: &mut LinesDone, entry: &Entry) -> Result<(), OutOfMemory>
    requires { done_at done.old entry.now.thread < 2 ^ 64 - 1 }
    ensures { let counts = λ (thread : ℕ). (entry.now.thread == thread) && is_script entry.now.act in
        OnOk result ((thread : ℕ) → done_at done.new thread ≡ (if counts thread then done_at done.old thread + 1 else done_at done.old thread)) }
{
    if is_script(&entry.act) {
        let count = done_at(done, entry.thread);
        done.insert(entry.thread, count + 1)?;
    }
    Ok(())
}

// How many lines a thread has done.
fn done_at(done: &LinesDone, thread: u32) -> usize
    ensures { result ≡ done_at done.now thread }
{
    done.get(&thread).copied().unwrap_or(0)
}

// Whether the act says that a script's line was done.
fn is_script(act: &Act) -> bool
    ensures { result ≡ is_script act.now }
{
    matches!(act, Act::Script { .. })
}
