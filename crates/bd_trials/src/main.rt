//! Cases in words, answered by the crates below. Each line of the input is a case, whose first word
//! names the subject; it is printed with its answer. What must be printed stands in `stdout`.
#![tactic(auto)]

mod base;
mod config;
mod delay;
mod devices;
mod error;
mod jobs;
mod log;
mod msg;
mod outside;
mod pages;
mod qos;
mod report;
mod steps;
mod tables;
mod user;
mod words;

use bd_base::OutOfMemory;
use bd_devices::Devices;
use bd_retries::Retries;
use bd_tables::Tables;
use std::alloc::Global;

fn answer(alloc: Global, subject: &str, case: &str) -> Result<String, OutOfMemory> {
    match subject {
        "base" => base::answer(alloc, case),
        "config" => config::answer(alloc, case),
        "delay" => delay::answer(alloc, case),
        "devices" => steps::told(alloc, &mut Devices::new(alloc, 2), case),
        "error" => steps::told(alloc, &mut error::none_left(), case),
        "jobs" => jobs::answer(alloc, case),
        "log" => log::answer(alloc, case),
        "msg" => msg::answer(alloc, case),
        "outside" => outside::answer(alloc, case),
        "pages" => pages::answer(alloc, case),
        "qos" => qos::answer(alloc, case),
        "report" => report::answer(alloc, case, true),
        "retry" => steps::told(alloc, &mut Retries::new(alloc), case),
        "stats" => report::statistics(alloc, case),
        "sums" => report::answer(alloc, case, false),
        "tables" => steps::told(alloc, &mut Tables::new(alloc), case),
        "user" => user::answer(alloc, case),
        "written" => report::written(alloc, case),
        _ => steps::said(alloc, "no such subject"),
    }
}

fn main(rt: HostRuntime) -> anyhow::Result<()> {
    for line in rt.lines(rt.alloc()) {
        let case = line?;
        let (subject, rest) = words::first_word(case.as_str());
        let answer = answer(rt.alloc(), subject, rest)?;
        println!(rt; "{case} => {answer}")?;
    }
    Ok(())
}
