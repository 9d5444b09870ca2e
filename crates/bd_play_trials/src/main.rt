//! The machine played by hand. Each line of the input is a case: its name, a colon, and what is asked; it is answered
//! by its name and what the machine says. What must be printed stands in `stdout`.
//!
//! `device` gives the number of blocks and the boundary of the one device, Malloc0; `script` the lines of thread 0,
//! which semicolons part; `trace` the acts of thread 0, with the stamps 1, 2, 3 and so on. A case then says how many
//! acts of the trace come first, and the act that is tried after them (`after 3 cut 0 1`), with the stamp 100 or with a
//! stamp and a thread of its own (`at 2 0 after 3 shutdown`), or asks whether the run is complete then (`whole 38`).
#![tactic(auto)]

mod acts;
mod playing;
mod setups;
mod words;

use crate::playing::Given;

fn main(rt: HostRuntime) -> anyhow::Result<()> {
    let mut given = Given::none(rt.alloc());
    for line in rt.lines(rt.alloc()) {
        let line = line?;
        let (name, asked) = words::split(line.as_str(), ": ");
        let answer = given.answer(rt.alloc(), name, asked)?;
        println!(rt; "{name}: {answer}")?;
    }
    Ok(())
}
