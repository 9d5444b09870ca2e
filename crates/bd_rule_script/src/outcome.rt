//! How a script's line ends, and when it waits.
ghost use Rattle.std.specs.Prelude.{◌≡◌, ℕ, false, IfOk, None, Some};
ghost use Rattle.bd_rule_script.specs.Waits.{awaits_removal, awaits_size, known_by};
ghost use Rattle.bd_machine.specs.Asked.{busy_outcome, claim_outcome, close_outcome, decided_outcome, gone_outcome, is_script_blocked, outcome_by, outcome_due, sized_outcome, undecided_outcome};
ghost use Rattle.bd_machine.specs.declared.state.Part.{Part};
ghost use Rattle.bd_rule_lines.specs.Moves.{waits_for};

use crate::lines::{bound_to, is_open_handle, next_line, open_on};
use crate::waits::{next_move, waits_for};
use bd_base::{Errno, HandleId, Job, OutOfMemory, Outcome, Setup};
use bd_machine::Decided;
use bd_rule_lines::Move;
use bd_rule_view::Sees;

fn decided_outcome(decided: Decided) -> Outcome
    ensures { result ≡ decided_outcome decided }
{
    match decided {
        Decided::Opened(_) => Outcome::Done,
        Decided::Closed => Outcome::Done,
        Decided::Done => Outcome::Done,
        Decided::Refused(errno) => Outcome::Errno(errno),
        Decided::Accepted(req) => Outcome::Accepted(req),
    }
}

// How a claim ends that no entry decided.
fn claim_outcome<S: Sees>(seen: &S, handle: Option<HandleId>) -> Option<Outcome>
    ensures { result ≡ claim_outcome (S.view_of seen.now) handle }
{
    let Some(id) = handle else {
        return Some(Outcome::Errno(Errno::BadDesc));
    };
    if seen.handle(id).is_some() {
        None
    } else {
        Some(Outcome::Errno(Errno::NoDev))
    }
}

// How a close ends while this number of requests of its handle are open.
fn busy_outcome(count: usize) -> Result<Option<Outcome>, OutOfMemory>
    ensures { IfOk result (λ o. o ≡ busy_outcome count) }
{
    if count == 0 {
        return Ok(None);
    }
    match u32::try_from(count) {
        Ok(n) => Ok(Some(Outcome::BusyOpen(n))),
        Err(_) => Err(OutOfMemory),
    }
}

// How a close ends that no entry decided.
fn close_outcome<S: Sees>(
    seen: &S,
    handle: Option<HandleId>,
) -> Result<Option<Outcome>, OutOfMemory>
    ensures { IfOk result (λ o. o ≡ close_outcome (S.view_of seen.now) handle) }
{
    let Some(id) = handle else {
        return Ok(Some(Outcome::Errno(Errno::BadDesc)));
    };
    if seen.handle(id).is_some() {
        busy_outcome(open_on(seen.part(), id))
    } else {
        Ok(Some(Outcome::Errno(Errno::NoDev)))
    }
}

// How a line ends that waited for the remove event of a handle.
fn gone_outcome(handle: Option<HandleId>) -> Outcome
    ensures { (part : Part) → awaits_removal part handle ≡ false → gone_outcome part handle ≡ Some result }
{
    match handle {
        Some(_) => Outcome::Done,
        None => Outcome::Errno(Errno::BadDesc),
    }
}

// How a line ends that waited for a size of a handle's device.
fn sized_outcome<S: Sees>(seen: &S, handle: Option<HandleId>) -> Outcome
    ensures { (blocks : ℕ) → awaits_size (S.view_of seen.now) handle blocks ≡ false → sized_outcome (S.view_of seen.now) blocks handle ≡ Some result }
{
    let Some(id) = handle else {
        return Outcome::Errno(Errno::BadDesc);
    };
    if seen.handle(id).is_some() {
        Outcome::Done
    } else {
        Outcome::Errno(Errno::NoDev)
    }
}

// How a line ends that waits for nothing and that no entry decided.
fn outcome_now<S: Sees>(seen: &S, job: &Job) -> Result<Option<Outcome>, OutOfMemory>
    requires { waits_for (known_by (S.view_of seen.now)) job.now ≡ None }
    ensures { IfOk result (λ o. o ≡ undecided_outcome (S.view_of seen.now) job.now) }
{
    let part = seen.part();
    match job {
        Job::Open { handle, .. } => {
            if is_open_handle(seen, bound_to(part, handle)) {
                Ok(Some(Outcome::Errno(Errno::Exists)))
            } else {
                Ok(None)
            }
        }
        Job::Close { handle } => close_outcome(seen, bound_to(part, handle)),
        Job::Claim { handle, .. } => Ok(claim_outcome(seen, bound_to(part, handle))),
        Job::Submit { .. } | Job::Remove { .. } | Job::Resize { .. } => Ok(None),
        Job::Wait | Job::Sleep(_) | Job::Post(_) | Job::Await(_) => Ok(Some(Outcome::Done)),
        Job::Gone { handle } => Ok(Some(gone_outcome(bound_to(part, handle)))),
        Job::Sized { handle, .. } => Ok(Some(sized_outcome(seen, bound_to(part, handle)))),
    }
}

// How a line ends that no entry decided: it goes on by itself only once it waits for nothing.
#[tactic(auto, using(crate::proofs::Waiting::waiting))]
fn undecided_outcome<S: Sees>(seen: &S, job: &Job) -> Result<Option<Outcome>, OutOfMemory>
    ensures { IfOk result (λ o. o ≡ undecided_outcome (S.view_of seen.now) job.now) }
{
    match waits_for(seen, job) {
        Some(_) => Ok(None),
        None => outcome_now(seen, job),
    }
}

/// How a line with this job ends, where it goes on. More open requests of a handle than 32 bits count
/// are out of memory.
pub fn outcome_of<S: Sees>(seen: &S, job: &Job) -> Result<Option<Outcome>, OutOfMemory>
    ensures { IfOk result (λ o. o ≡ outcome_by (S.view_of seen.now) (S.view_of seen.now).part.decided job.now) }
{
    match seen.part().decided {
        Some(decided) => Ok(Some(decided_outcome(decided))),
        None => undecided_outcome(seen, job),
    }
}

/// How the next line of a thread's script ends, where it goes on. More open requests of a handle than
/// 32 bits count are out of memory.
pub fn outcome_due<S: Sees>(
    seen: &S,
    setup: &Setup,
    thread: u32,
) -> Result<Option<Outcome>, OutOfMemory>
    ensures { IfOk result (λ o. o ≡ outcome_due setup.now thread (S.view_of seen.now)) }
{
    match next_line(setup, thread, seen.part()) {
        Some(line) => outcome_of(seen, &line.job),
        None => Ok(None),
    }
}

/// Whether a thread's script is at its end, or its next line waits.
#[tactic(auto, using(crate::proofs::Waiting::blocked_line, crate::proofs::Waiting::going_line))]
pub fn is_script_blocked<S: Sees>(seen: &S, setup: &Setup, thread: u32) -> bool
    ensures { result ≡ is_script_blocked setup.now thread (S.view_of seen.now) }
{
    let part = seen.part();
    match next_move(seen, next_line(setup, thread, part)) {
        Move::End => true,
        Move::Blocked(_) => part.decided.is_none(),
        Move::Do(_) => false,
    }
}
