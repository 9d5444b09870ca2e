//! What each thread of the generated script does.
ghost use Rattle.std.specs.Prelude.{◌≡◌, ◌+◌, ◌<◌, ◌^◌, ◌++◌, IfOk, OnOk};
ghost use Rattle.bd_jobs.specs.Generated.{block_of, seed_of, group, last_group, steps};

use bd_base::OutOfMemory;
use std::alloc::Global;

/// A line of the generated script; writes and reads are numbered.
#[derive(Clone, Copy, PartialEq, Eq)]
pub(crate) enum Step {
    Opens,
    Writes(u32),
    Reads(u32),
    Waits,
    Closes,
}

/// The block of a number.
pub(crate) fn block_of(thread: u32, i: u32) -> u64
    ensures { result ≡ block_of thread i }
{
    64 * u64::from(thread) + 7 * u64::from(i) % 64
}

/// The seed of a number's write.
pub(crate) fn seed_of(thread: u32, i: u32) -> u64
    ensures { result ≡ seed_of thread i }
{
    1000 * u64::from(thread) + u64::from(i)
}

// Adds the steps of a group of numbers.
fn add_group(steps: &mut Vec<Step>, first: u32, count: u32) -> Result<(), OutOfMemory>
    requires { first + count < 2 ^ 32 }
    ensures { OnOk result (steps.new.items ≡ steps.old.items ++ group first count) }
{
    for i in 0..count {
        steps.push(Step::Writes(first + i))?;
    }
    steps.push(Step::Waits)?;
    for i in 0..count {
        steps.push(Step::Reads(first + i))?;
    }
    steps.push(Step::Waits)?;
    Ok(())
}

// Adds the steps of the group of the numbers that are left, where there are any.
fn add_last(steps: &mut Vec<Step>, first: u32, count: u32) -> Result<(), OutOfMemory>
    requires { first + count < 2 ^ 32 }
    ensures { OnOk result (steps.new.items ≡ steps.old.items ++ last_group first count) }
{
    if count == 0 {
        return Ok(());
    }
    add_group(steps, first, count)
}

/// What each thread does with `n` numbers.
pub(crate) fn steps(alloc: Global, n: u32) -> Result<Vec<Step>, OutOfMemory>
    ensures { IfOk result (λ all. all.items ≡ steps n) }
{
    let mut steps = Vec::new(alloc);
    steps.push(Step::Opens)?;
    for eighth in 0..n / 8 {
        add_group(&mut steps, 8 * eighth, 8)?;
    }
    add_last(&mut steps, 8 * (n / 8), n % 8)?;
    steps.push(Step::Closes)?;
    Ok(steps)
}
