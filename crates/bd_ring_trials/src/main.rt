//! Rings and a slot at work, on threads of the system. Each line of the input names a case; it is printed with the
//! outcome. What must be printed stands in `stdout`.
#![tactic(auto)]

mod rings;
mod slots;

use bd_base::OutOfMemory;
use std::sync::Wait;
use std::thread::Threads;

fn answer<R: AllocGlobal + Threads + Wait + Sync>(
    rt: &R,
    case: &str,
) -> Result<String, OutOfMemory> {
    match case {
        "sixteen senders" => rings::sixteen_senders(rt),
        "a capacity of one" => rings::capacity_of_one(rt),
        "two threads write in turn" => slots::two_threads_write_in_turn(rt),
        "one pass at a time has the value" => slots::one_pass_at_a_time(rt),
        _ => Ok(String::from_str(rt.alloc(), "no such case")?),
    }
}

fn main(rt: HostRuntime) -> anyhow::Result<()> {
    for line in rt.lines(rt.alloc()) {
        let case = line?;
        let answer = answer(&rt, case.as_str())?;
        println!(rt; "{case}: {answer}")?;
    }
    Ok(())
}
