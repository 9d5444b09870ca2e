//! Cases in words for the registry: each line of the input is a list of events, which semicolons part, of a
//! new registry over three devices (`setup`); it is printed with the answers. What must be printed stands
//! in `stdout`.
#![tactic(auto)]

mod events;
mod setup;
mod told;

use bd_base::OutOfMemory;
use bd_registry::Registry;
use std::alloc::Global;

// The answer to an event, which has the thread first.
fn answer(alloc: Global, registry: &mut Registry, words: &[&str]) -> Result<String, OutOfMemory> {
    let Some((thread, words)) = words.split_first() else {
        return Ok(String::from_str(alloc, "no thread")?);
    };
    let thread = events::small(thread);
    let Some(event) = events::event(alloc, thread, words)? else {
        return Ok(String::from_str(alloc, "no such event")?);
    };
    let Some(stamp) = registry.last_stamp().checked_add(1) else {
        return Err(OutOfMemory);
    };
    let answer = registry.event(alloc, thread, stamp, &event)?;
    told::told(alloc, &answer)
}

// Adds the Shutdown, and tells how many rows the journal has then.
fn shut(alloc: Global, registry: &mut Registry) -> Result<String, OutOfMemory> {
    let Some(stamp) = registry.last_stamp().checked_add(1) else {
        return Err(OutOfMemory);
    };
    let before = registry.is_shut();
    registry.shut(stamp)?;
    let rows = registry.journal().len();
    let mut told = String::new(alloc);
    match (before, registry.is_shut()) {
        (false, true) => write!(told, "shut, {rows} rows")?,
        (true, true) => write!(told, "shut again, {rows} rows")?,
        _ => write!(told, "not shut, {rows} rows")?,
    }
    Ok(told)
}

// What a step of a case comes to, after what the steps before it came to.
fn tell(
    alloc: Global,
    registry: &mut Registry,
    told: &mut String,
    step: &str,
) -> Result<(), OutOfMemory> {
    if !told.is_empty() {
        told.push_str("; ")?;
    }
    let words: Vec<&str> = step.split_whitespace().collect(alloc)?;
    let answer = match words.as_slice() {
        ["shut"] => shut(alloc, registry)?,
        words => answer(alloc, registry, words)?,
    };
    told.push_str(answer.as_str())?;
    Ok(())
}

fn answers(alloc: Global, registry: &mut Registry, case: &str) -> Result<String, OutOfMemory> {
    let mut told = String::new(alloc);
    for step in case.split(';') {
        tell(alloc, registry, &mut told, step)?;
    }
    Ok(told)
}

fn case_told(alloc: Global, case: &str) -> Result<String, OutOfMemory> {
    let setup = setup::stack(alloc)?;
    let mut registry = Registry::of(alloc, &setup)?;
    answers(alloc, &mut registry, case)
}

fn main(rt: HostRuntime) -> anyhow::Result<()> {
    for line in rt.lines(rt.alloc()) {
        let case = line?;
        let answers = case_told(rt.alloc(), case.as_str())?;
        println!(rt; "{case} => {answers}")?;
    }
    Ok(())
}
