//! The machine's rules as programs, asked one by one. Each line of the input is a case: its name, a colon, and what is
//! asked; it is answered by its name and what the crate that has the rule says. What must be printed stands in `stdout`.
//!
//! `threads`, `devices` and `rates` give the setup of the cases after them: devices by their name, kind, base (or `-`),
//! blocks, block size, boundary and group, and the four limits of each, with semicolons between devices.
#![tactic(auto)]

mod asked;
mod given;
mod homes;
mod registry;
mod sets;
mod stacks;
mod tokens;
mod words;

use crate::given::Given;
use bd_base::OutOfMemory;
use std::alloc::Global;

fn answer(alloc: Global, given: &Given, asked: &str) -> Result<String, OutOfMemory> {
    let (subject, rest) = words::split(asked, " ");
    let setup = given.setup(alloc)?;
    match subject {
        "asked" => asked::told(alloc, &setup, rest),
        "home" => homes::answer(alloc, &setup, rest),
        "registry" => registry::told(alloc, &setup, rest),
        "set" => sets::told(alloc, rest),
        "stack" => stacks::answer(alloc, &setup, rest),
        "tokens" => tokens::counted(alloc),
        "walks" => tokens::walks(alloc),
        _ => words::said(alloc, "no such question"),
    }
}

fn main(rt: HostRuntime) -> anyhow::Result<()> {
    let mut given = Given::none(rt.alloc());
    for line in rt.lines(rt.alloc()) {
        let line = line?;
        let (name, asked) = words::split(line.as_str(), ": ");
        let answer = if given.take(rt.alloc(), name, asked)? {
            words::said(rt.alloc(), "given")?
        } else {
            answer(rt.alloc(), &given, asked)?
        };
        println!(rt; "{name}: {answer}")?;
    }
    Ok(())
}
