//! The scripts of the generated text, without the text.
ghost use Rattle.std.specs.Prelude.{◌≡◌, ◌+◌, ◌<◌, ◌≤◌, ◌^◌, length, map, codes, Some, IfOk};
ghost use Rattle.bd_jobs.specs.ScriptGrammar.{scripts_of};
ghost use Rattle.bd_jobs.specs.Generated.{step_job, step_commands, generated, generated_scripts};

use crate::steps::{Step, block_of, seed_of, steps};
use bd_base::{Fill, Job, Line, Name, Op, OutOfMemory, Rows, Script};
use std::alloc::Global;

// The name of the handle.
fn handle(alloc: Global) -> Result<Name, OutOfMemory>
    ensures { IfOk result (λ name. name ≡ codes "h") }
{
    Name::from_slice(alloc, b"h")
}

// What a step asks.
fn step_job(alloc: Global, thread: u32, step: Step) -> Result<Job, OutOfMemory>
    ensures { IfOk result (λ job. job ≡ step_job thread step) }
{
    Ok(match step {
        Step::Opens => Job::Open {
            handle: handle(alloc)?,
            dev: Name::from_slice(alloc, b"P")?,
            write: true,
        },
        Step::Writes(i) => Job::Submit {
            handle: handle(alloc)?,
            op: Op::Write(Fill {
                seed: seed_of(thread, i),
                flip: false,
            }),
            lba: block_of(thread, i),
            count: 1,
        },
        Step::Reads(i) => Job::Submit {
            handle: handle(alloc)?,
            op: Op::Read,
            lba: block_of(thread, i),
            count: 1,
        },
        Step::Waits => Job::Wait,
        Step::Closes => Job::Close {
            handle: handle(alloc)?,
        },
    })
}

// The lines of a thread's steps, the first of which has this number.
fn lines(alloc: Global, thread: u32, first: u32, steps: &[Step]) -> Result<Rows<Line>, OutOfMemory>
    requires { first + length steps.now < 2 ^ 32 }
    ensures { IfOk result (λ lines. lines ≡ map (λ command. command.line) (step_commands thread first steps.now)) }
{
    let mut lines = Vec::with_capacity(alloc, steps.len())?;
    let mut number = first;
    for step in steps {
        let job = step_job(alloc, thread, *step)?;
        lines.push(Line { number, job })?;
        number += 1;
    }
    Ok(Rows::from_vec(lines))
}

/// The scripts that `read_jobs` reads in the text of `generate`. Lines are numbered over all threads.
pub fn generated_scripts(alloc: Global, n: u32, threads: u32) -> Result<Rows<Script>, OutOfMemory>
    requires numbers { n ≤ 500 }
    requires threads { threads ≤ 16 }
    ensures scripts { IfOk result (λ scripts. scripts ≡ generated_scripts n threads) }
    ensures read { IfOk result (λ scripts. scripts_of threads (generated n threads) ≡ Some scripts) }
{
    let steps = steps(alloc, n)?;
    let mut scripts = Vec::with_capacity(alloc, threads as usize)?;
    let mut first = 1;
    for thread in 0..threads {
        let lines = lines(alloc, thread, first, steps.as_slice())?;
        scripts.push(Script { thread, lines })?;
        first += steps.len() as u32;
    }
    Ok(Rows::from_vec(scripts))
}
