//! The handles whose remove event was taken while they were open, by thread and number.
ghost use Rattle.std.specs.Prelude.{◌≡◌, ℕ, ◌&&◌, ◌||◌, not, nat_eq, IfOk, OnOk};
ghost use Rattle.std.specs.HashSet.{contains};
ghost use Rattle.bd_report.specs.Index.{same_pair, TellsTold};
ghost use Rattle.bd_report.specs.Report.{gone_in, closed_in, is_number, is_told, is_closed};

use bd_base::{Act, Answer, Entry, OutOfMemory, RegEvent, Token};
use std::alloc::Global;
use std::collections::HashSet;

/// Handles by thread and number.
pub(crate) type ToldHandles = HashSet<(u32, u128)>;

// Handles by number.
type ClosedHandles = HashSet<u128>;

/// The handles whose remove event their thread took before they were closed. Out of memory is the
/// only error.
pub(crate) fn told_handles(alloc: Global, trace: &[Entry]) -> Result<ToldHandles, OutOfMemory>
    ensures { IfOk result (λ s. TellsTold s trace.now) }
{
    let mut told = HashSet::new(alloc);
    let mut closed = HashSet::new(alloc);
    for entry in trace {
        note_told(&mut told, &closed, entry)?;
        note_closed(&mut closed, entry)?;
    }
    Ok(told)
}

// Notes the handle whose remove event an entry takes, if it wasn't closed before.
fn note_told(
    told: &mut ToldHandles,
    closed: &ClosedHandles,
    entry: &Entry,
) -> Result<(), OutOfMemory>
    ensures { OnOk result ((thread number : ℕ) → contains same_pair told.new (thread, number) ≡
        (contains same_pair told.old (thread, number) || (not (contains nat_eq closed.now number) && is_told thread number entry.now))) }
{
    if let Some(number) = gone_in(&entry.act) {
        put_told(told, closed, entry.thread, number)?;
    }
    Ok(())
}

// Notes a thread's handle, if it wasn't closed before.
fn put_told(
    told: &mut ToldHandles,
    closed: &ClosedHandles,
    at: u32,
    gone: u128,
) -> Result<(), OutOfMemory>
    ensures { OnOk result ((thread number : ℕ) → contains same_pair told.new (thread, number) ≡
        (contains same_pair told.old (thread, number) || (not (contains nat_eq closed.now gone) && same_pair (at, gone) (thread, number)))) }
{
    if !closed.contains(&gone) {
        told.insert((at, gone))?;
    }
    Ok(())
}

// Notes the handle that an entry closes.
fn note_closed(closed: &mut ClosedHandles, entry: &Entry) -> Result<(), OutOfMemory>
    ensures { OnOk result ((number : ℕ) → contains nat_eq closed.new number ≡ (contains nat_eq closed.old number || is_closed number entry.now)) }
{
    if let Some(number) = closed_in(&entry.act) {
        closed.insert(number)?;
    }
    Ok(())
}

// The number of the handle whose remove event the act takes.
fn gone_in(act: &Act) -> Option<u128>
    ensures { result ≡ gone_in act.now }
{
    match act {
        Act::Took {
            what: Token::Gone(handle),
            ..
        } => Some(handle.0),
        _ => None,
    }
}

// The number of the handle that the act closes.
fn closed_in(act: &Act) -> Option<u128>
    ensures { result ≡ closed_in act.now }
{
    match act {
        Act::Reg {
            event: RegEvent::Close { handle },
            answer,
        } => match answer.get() {
            Answer::Closed { .. } => Some(handle.0),
            _ => None,
        },
        _ => None,
    }
}
