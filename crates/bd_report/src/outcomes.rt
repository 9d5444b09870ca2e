//! The outcomes that a trace tells of the lines, by line.
ghost use Rattle.std.specs.Prelude.{◌≡◌, ℕ, IfOk, OnOk};
ghost use Rattle.std.specs.HashMap.{get};
ghost use Rattle.bd_report.specs.First.{first_of};
ghost use Rattle.bd_report.specs.Index.{same_pair, TellsOutcomes};
ghost use Rattle.bd_report.specs.Report.{outcome_in};

use crate::first::put_first;
use bd_base::{Act, Entry, OutOfMemory, Outcome};
use std::alloc::Global;
use std::collections::HashMap;

/// An outcome by thread and line number.
pub(crate) type Outcomes = HashMap<(u32, u32), Outcome>;

/// The first outcome of each line. Out of memory is the only error.
pub(crate) fn first_outcomes(alloc: Global, trace: &[Entry]) -> Result<Outcomes, OutOfMemory>
    ensures { IfOk result (λ m. TellsOutcomes m trace.now) }
{
    let mut outcomes = HashMap::new(alloc);
    for entry in trace {
        note_outcome(&mut outcomes, entry)?;
    }
    Ok(outcomes)
}

// Notes the outcome that an entry tells of its line, if it is the first.
fn note_outcome(outcomes: &mut Outcomes, entry: &Entry) -> Result<(), OutOfMemory>
    ensures { OnOk result ((thread number : ℕ) → get same_pair outcomes.new (thread, number) ≡ first_of (get same_pair outcomes.old (thread, number)) (outcome_in thread number entry.now)) }
{
    if let Act::Script { line, outcome } = &entry.act {
        put_first(outcomes, (entry.thread, *line), *outcome)?;
    }
    Ok(())
}
