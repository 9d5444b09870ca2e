//! Sets of threads.
use crate::words::{said, small, words};
use bd_base::{OutOfMemory, ThreadSet};
use bd_blocks::{first_of, has, is_nobody, with_thread, without};
use std::alloc::Global;

// The threads of a set, whether it has one, and the first.
fn members(alloc: Global, set: ThreadSet) -> Result<String, OutOfMemory> {
    let mut text = String::from_str(alloc, "threads")?;
    for thread in 0..20u32 {
        if has(set, thread) {
            write!(text, " {thread}")?;
        }
    }
    if is_nobody(set) {
        text.push_str(" none")?;
    }
    if let Some(first) = first_of(set) {
        write!(text, ", first {first}")?;
    }
    Ok(text)
}

fn step(alloc: Global, set: &mut ThreadSet, words: &[&str]) -> Result<String, OutOfMemory> {
    match words {
        ["with", thread] => *set = with_thread(*set, small(thread), true)?,
        ["with", thread, "not"] => *set = with_thread(*set, small(thread), false)?,
        ["without", thread] => *set = without(*set, small(thread)),
        _ => return said(alloc, "no such step"),
    }
    members(alloc, *set)
}

/// The set after each step, from nobody on.
pub(crate) fn told(alloc: Global, steps: &str) -> Result<String, OutOfMemory> {
    let mut set = ThreadSet::empty();
    let mut told = members(alloc, set)?;
    for text in steps.split("; ") {
        let words = words(alloc, text)?;
        let answer = step(alloc, &mut set, words.as_slice())?;
        write!(told, "; {answer}")?;
    }
    Ok(told)
}
