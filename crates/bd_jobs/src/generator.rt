//! The text of the generated script.
ghost use Rattle.std.specs.Prelude.{◌≡◌, ◌≤◌, ◌++◌, Some, IfOk, OnOk};
ghost use Rattle.bd_jobs.specs.ScriptGrammar.{scripts_of};
ghost use Rattle.bd_jobs.specs.Generated.{step_line, steps_text, generated, generated_scripts};

use crate::steps::{Step, block_of, seed_of, steps};
use bd_base::OutOfMemory;
use std::alloc::Global;

// The line of a step, with its line feed.
fn step_line(alloc: Global, thread: u32, step: Step) -> Result<Vec<u8>, OutOfMemory>
    ensures { IfOk result (λ line. line.items ≡ step_line thread step) }
{
    let text = match step {
        Step::Opens => format!(in alloc; "{thread} open h P w\n")?,
        Step::Writes(i) => {
            let block = block_of(thread, i);
            let seed = seed_of(thread, i);
            format!(in alloc; "{thread} write h {block} 1 {seed}\n")?
        }
        Step::Reads(i) => {
            let block = block_of(thread, i);
            format!(in alloc; "{thread} read h {block} 1\n")?
        }
        Step::Waits => format!(in alloc; "{thread} wait\n")?,
        Step::Closes => format!(in alloc; "{thread} close h\n")?,
    };
    Ok(text.into_bytes())
}

// Writes the lines of a thread's steps.
fn write_steps(
    alloc: Global,
    out: &mut Vec<u8>,
    thread: u32,
    steps: &[Step],
) -> Result<(), OutOfMemory>
    ensures { OnOk result (out.new.items ≡ out.old.items ++ steps_text thread steps.now) }
{
    for step in steps {
        let line = step_line(alloc, thread, *step)?;
        out.extend_from_slice(line.as_slice())?;
    }
    Ok(())
}

/// The script of `threads` threads, each of which writes and reads `n` blocks of its own on the
/// device `P`, in groups of eight. `read_jobs` reads it.
pub fn generate(alloc: Global, n: u32, threads: u32) -> Result<Vec<u8>, OutOfMemory>
    requires numbers { n ≤ 500 }
    requires threads { threads ≤ 16 }
    ensures text { IfOk result (λ text. text.items ≡ generated n threads) }
    ensures read { IfOk result (λ text. scripts_of threads text.items ≡ Some (generated_scripts n threads)) }
{
    let steps = steps(alloc, n)?;
    let mut text = Vec::new(alloc);
    for thread in 0..threads {
        write_steps(alloc, &mut text, thread, steps.as_slice())?;
    }
    Ok(text)
}
