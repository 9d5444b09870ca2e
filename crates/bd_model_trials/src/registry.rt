//! The registry of a run: each step has a device, and what thread 1 asks of it.
use crate::asked::{event, in_short};
use crate::words::{device, said, words};
use bd_base::{OutOfMemory, RegEvent, Setup};
use bd_registry::Registry;
use std::alloc::Global;

fn answered(
    alloc: Global,
    registry: &mut Registry,
    event: &RegEvent,
) -> Result<String, OutOfMemory> {
    let stamp = registry.last_stamp().checked_add(1).ok_or(OutOfMemory)?;
    let answer = registry.event(alloc, 1, stamp, event)?;
    in_short(alloc, &answer)
}

fn step(alloc: Global, registry: &mut Registry, words: &[&str]) -> Result<String, OutOfMemory> {
    match words {
        [dev, ask @ ..] => {
            let event = event(alloc, device(dev), ask)?;
            answered(alloc, registry, &event)
        }
        [] => said(alloc, "no such step"),
    }
}

fn tell(alloc: Global, registry: &mut Registry, steps: &str) -> Result<String, OutOfMemory> {
    let mut told = String::new(alloc);
    for text in steps.split("; ") {
        if !told.is_empty() {
            told.push_str("; ")?;
        }
        let words = words(alloc, text)?;
        let answer = step(alloc, registry, words.as_slice())?;
        told.push_str(answer.as_str())?;
    }
    Ok(told)
}

/// What is answered to these steps.
pub(crate) fn told(alloc: Global, setup: &Setup, steps: &str) -> Result<String, OutOfMemory> {
    let mut registry = Registry::of(alloc, setup)?;
    tell(alloc, &mut registry, steps)
}
