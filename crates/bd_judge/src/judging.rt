//! Taking the entries of a history one by one.
ghost use Rattle.std.specs.Prelude.{IfOk};
ghost use Rattle.bd_judge.specs.Judge.{IsVerdict};

use bd_base::{Entry, OutOfMemory, Setup};
use bd_play::{Machine, StepError};
use std::alloc::Global;

/// What the machine says of a history.
#[derive(Clone, Copy, Debug, PartialEq, Eq)]
pub enum Verdict {
    /// Every entry is allowed, and the run is complete.
    Complete,
    /// Every entry is allowed, and something is still to be done.
    Unfinished,
    /// The first entry that isn't allowed: the least guard that it fails, by its number in
    /// `bd_machine::guard`, and its stamp.
    Illegal { guard: u32, stamp: u128 },
}

/// Takes the entries of a history one by one, from the start of a setup with every disk's content
/// untold, up to the first that isn't allowed. The one error is out of memory.
pub fn judge(alloc: Global, setup: &Setup, trace: &[Entry]) -> Result<Verdict, OutOfMemory>
    ensures { IfOk result (IsVerdict setup.now trace.now) }
{
    let mut machine = Machine::start(alloc, setup)?;
    for entry in trace {
        match machine.step(entry) {
            Ok(()) => {}
            Err(StepError::OutOfMemory) => return Err(OutOfMemory),
            Err(StepError::Illegal { guard, stamp }) => return Ok(Verdict::Illegal {
                guard,
                stamp,
            }),
        }
    }
    if machine.is_complete()? {
        Ok(Verdict::Complete)
    } else {
        Ok(Verdict::Unfinished)
    }
}
