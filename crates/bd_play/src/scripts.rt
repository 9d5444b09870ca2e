//! Script and Shutdown.
ghost use Rattle.std.specs.Prelude.{◌≡◌, ◌<◌, ◌^◌, length, option_copied, option_map, IfOk};
ghost use Rattle.bd_base.specs.declared.act.Act.TheVariants as acts;
ghost use Rattle.bd_machine.specs.Asked.{job_of, next_line};
ghost use Rattle.bd_machine.specs.Rest.{are_scripts_blocked};
ghost use Rattle.bd_machine.specs.Same.{is_the, same_outcome};
ghost use Rattle.bd_machine.specs.Scripts.{change_script, is_line};
ghost use Rattle.bd_play.specs.Words.{changed, refused, refused_with_shutdown, seen};

use crate::side::Side;
use bd_base::{Job, Line, OutOfMemory, Outcome, Setup};
use bd_clones::Duplicate;
use bd_machine::guard::{AT_REST, NEXT_LINE, OUTCOME_DUE, SCRIPTS_BLOCKED};
use bd_machine::{Part, State};
use bd_rule_effects::line_done;
use bd_rule_script::{is_script_blocked, next_line, outcome_due};
use bd_rule_view::{Sees, same_outcome};
use bd_state::is_at_rest;
use std::alloc::Global;

// ---- Script

fn is_line(number: u32, line: Option<&Line>) -> bool
    ensures { result ≡ is_line number (option_copied line.entry) }
{
    match line {
        Some(l) => l.number == number,
        None => false,
    }
}

fn is_outcome(due: Option<Outcome>, outcome: Outcome) -> bool
    ensures { result ≡ is_the same_outcome outcome due }
{
    match due {
        Some(d) => same_outcome(outcome, d),
        None => false,
    }
}

/// Why a line isn't done so.
pub fn refused_script(side: &Side, line: u32, outcome: Outcome) -> Result<Option<u32>, OutOfMemory>
    ensures { IfOk result (λ r. r ≡ refused side.now (acts.Script line outcome)) }
{
    let part = side.part();
    if !is_line(line, next_line(side.setup, side.thread, part)) || side.state.shut {
        return Ok(Some(NEXT_LINE));
    }
    let due = outcome_due(side, side.setup, side.thread)?;
    if is_outcome(due, outcome) {
        Ok(None)
    } else {
        Ok(Some(OUTCOME_DUE))
    }
}

// The job of the next line.
fn next_job<'a>(setup: &'a Setup, thread: u32, part: &Part) -> Option<&'a Job>
    ensures { option_copied result ≡ option_map job_of (next_line setup.now thread part.now) }
{
    match next_line(setup, thread, part) {
        Some(line) => Some(&line.job),
        None => None,
    }
}

/// The state with what a Script changes.
pub fn script(alloc: Global, side: &Side) -> Result<State, OutOfMemory>
    ensures { IfOk result (λ s. s ≡ changed side.now (change_script side.now.setup.now side.now.thread (seen side.now))) }
{
    let mut next = side.state.duplicate(alloc)?;
    let job = next_job(side.setup, side.thread, side.part());
    line_done(
        alloc,
        next.parts.at_mut(side.thread as usize),
        side.setup,
        job,
    )?;
    Ok(next)
}

// ---- Shutdown

// Every script is at its end, or its next line waits.
#[tactic(auto, using(bd_rule_effects::proofs::Left::left_from))]
fn are_scripts_blocked(setup: &Setup, state: &State) -> bool
    requires { length state.now.parts < 2 ^ 32 }
    ensures { result ≡ are_scripts_blocked setup.now state.now }
{
    let threads = state.parts.len() as u32;
    for t in 0..threads {
        let side = Side {
            setup,
            state,
            thread: t,
        };
        if !is_script_blocked(&side, setup, t) {
            return false;
        }
    }
    true
}

/// Why a Shutdown isn't allowed. More threads than 32 bits count answer out of memory.
pub fn refused_shutdown(side: &Side) -> Result<Option<u32>, OutOfMemory>
    ensures { IfOk result (λ r. r ≡ refused_with_shutdown side.now acts.Shutdown) }
{
    if !is_at_rest(side.setup, side.state, side.thread) {
        return Ok(Some(AT_REST));
    }
    if side.state.parts.len() > u32::MAX as usize {
        return Err(OutOfMemory);
    }
    if are_scripts_blocked(side.setup, side.state) {
        Ok(None)
    } else {
        Ok(Some(SCRIPTS_BLOCKED))
    }
}
