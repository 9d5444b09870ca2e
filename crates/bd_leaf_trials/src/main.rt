//! Cases of the leaf crates in words, answered by those crates. Each line of the input is a case: its crate, its name,
//! a colon, and its steps. It is printed with its answers. What must be printed stands in `stdout`.
#![tactic(auto)]

mod grow;
mod raid;
mod range;
mod steps;
mod thin;
mod volume;
mod words;

use bd_base::OutOfMemory;
use std::alloc::Global;

fn answer(alloc: Global, subject: &str, case: &str) -> Result<String, OutOfMemory> {
    match subject {
        "grow" => grow::answer(alloc, case),
        "raid" => raid::answer(alloc, case),
        "range" => range::answer(alloc, case),
        "thin" => thin::answer(alloc, case),
        "volume" => volume::answer(alloc, case),
        _ => steps::said(alloc, "no such subject"),
    }
}

fn main(rt: HostRuntime) -> anyhow::Result<()> {
    for line in rt.lines(rt.alloc()) {
        let case = line?;
        let (named, steps) = case.split_once(": ").unwrap_or((case.as_str(), ""));
        let (subject, _) = words::first_word(named);
        let answer = answer(rt.alloc(), subject, steps)?;
        println!(rt; "{case} => {answer}")?;
    }
    Ok(())
}
