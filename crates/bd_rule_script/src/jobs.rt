//! What the next line asks: an open, a close, a claim, a removal or a submission.
ghost use Rattle.std.specs.Prelude.{◌≡◌, find, option_copied};
ghost use Rattle.bd_machine.specs.Asked.{asks_submission, bound_to, is_job_claim, is_job_close, is_job_open, is_job_remove, is_job_resize, is_job_submit, is_submitted_at, op_asked, seq_if_any};
ghost use Rattle.bd_machine.specs.Requests.{is_new};
ghost use Rattle.bd_machine.specs.Same.{is_the, same_handle};
ghost use Rattle.bd_rule_view.specs.Came.{came_shut};

use crate::lines::{bound_to, is_open_handle, undecided_job};
use bd_base::{ClaimKind, HandleId, Job, Name, Op, ReqId, Setup};
use bd_machine::{Part, Submitted};
use bd_rule_lines::has_room;
use bd_rule_view::{Sees, Submission, same_handle_if_any, same_kind, same_op};

/// The number that names no request.
const NO_REQUEST: u64 = u64::MAX;

// Whether the name is bound to this handle.
fn is_bound_to(part: &Part, id: HandleId, name: &Name) -> bool
    ensures { result ≡ is_the same_handle id (bound_to part.now name.now) }
{
    match bound_to(part, name) {
        Some(h) => id.0 == h.0,
        None => false,
    }
}

// Whether the job opens this device, and its name is free.
pub(crate) fn opens<S: Sees>(seen: &S, name: &Name, write: bool, job: Option<&Job>) -> bool
    ensures { result ≡ is_job_open (S.view_of seen.now) name.now write (option_copied job.entry) }
{
    match job {
        Some(
            Job::Open {
                handle,
                dev,
                write: w,
            },
        ) => dev.is(name) && *w == write && !is_open_handle(seen, bound_to(seen.part(), handle)),
        _ => false,
    }
}

// Whether the job closes this handle.
pub(crate) fn closes(part: &Part, id: HandleId, job: Option<&Job>) -> bool
    ensures { result ≡ is_job_close part.now id (option_copied job.entry) }
{
    match job {
        Some(Job::Close { handle }) => is_bound_to(part, id, handle),
        _ => false,
    }
}

// Whether the job makes this claim for this handle.
pub(crate) fn claims(part: &Part, id: HandleId, kind: ClaimKind, job: Option<&Job>) -> bool
    ensures { result ≡ is_job_claim part.now id kind (option_copied job.entry) }
{
    match job {
        Some(Job::Claim { handle, kind: k }) => {
            is_bound_to(part, id, handle) && same_kind(*k, kind)
        }
        _ => false,
    }
}

// Whether the job removes the device of this name.
pub(crate) fn removes(name: &Name, job: Option<&Job>) -> bool
    ensures { result ≡ is_job_remove name.now (option_copied job.entry) }
{
    match job {
        Some(Job::Remove { dev }) => dev.is(name),
        _ => false,
    }
}

// Whether the job resizes the device of this name to this number of blocks.
pub(crate) fn resizes(name: &Name, blocks: u64, job: Option<&Job>) -> bool
    ensures { result ≡ is_job_resize name.now blocks (option_copied job.entry) }
{
    match job {
        Some(Job::Resize { dev, blocks: n }) => dev.is(name) && *n == blocks,
        _ => false,
    }
}

fn is_submitted_at(submitted: &Submitted, line: u64, id: Option<HandleId>) -> bool
    ensures { result ≡ is_submitted_at line id submitted.now }
{
    submitted.line as u64 == line && is_this_handle(submitted.handle, id)
}

fn is_this_handle(handle: HandleId, id: Option<HandleId>) -> bool
    ensures { result ≡ is_the same_handle handle id }
{
    match id {
        Some(other) => handle.0 == other.0,
        None => false,
    }
}

// The number of the request that this line submitted through the handle; the greatest for none.
fn seq_at(submitted: &[Submitted], line: u64, id: Option<HandleId>) -> u64
    ensures { result ≡ seq_if_any (find (is_submitted_at line id) submitted.now) }
{
    for s in submitted {
        if is_submitted_at(s, line, id) {
            return s.seq;
        }
    }
    NO_REQUEST
}

/// The type that a line asks for through a handle: an abort names the request of its line, where that
/// was accepted on the same handle, and else no request.
pub fn op_asked(part: &Part, id: Option<HandleId>, op: Op) -> Op
    ensures { result ≡ op_asked part.now id op }
{
    match op {
        Op::Abort(line) => Op::Abort(seq_at(part.submitted.as_slice(), line, id)),
        _ => op,
    }
}

// Whether the job makes this submission.
fn submits(part: &Part, id: Option<HandleId>, what: Submission, job: Option<&Job>) -> bool
    ensures { result ≡ is_job_submit part.now id what.op what.lba what.count (option_copied job.entry) }
{
    match job {
        Some(
            Job::Submit {
                handle,
                op,
                lba,
                count,
            },
        ) => {
            same_handle_if_any(id, bound_to(part, handle))
                && same_op(op_asked(part, id, *op), what.op)
                && *lba == what.lba
                && *count == what.count
        }
        _ => false,
    }
}

/// Whether the next line of a thread's script asks for this submission, through a handle or through a
/// name that isn't bound. After the Shutdown (`shut`) no line asks.
pub fn asks_submission<S: Sees>(
    seen: &S,
    setup: &Setup,
    thread: u32,
    shut: bool,
    handle: Option<HandleId>,
    what: Submission,
) -> bool
    ensures { result ≡ asks_submission setup.now thread (S.view_of seen.now) (came_shut shut) handle what.op what.lba what.count }
{
    let part = seen.part();
    !shut && submits(part, handle, what, undecided_job(setup, thread, part))
}

/// Whether the id is one that the thread may give next: it names this thread, is above each that it
/// accepted, and there is room for one more open request.
pub fn is_new<S: Sees>(seen: &S, thread: u32, req: ReqId) -> bool
    ensures { result ≡ is_new thread (S.view_of seen.now) req }
{
    let part = seen.part();
    req.thread == thread
        && part.next_request <= req.seq
        && has_room(part.requests.len())
        && req.seq < u64::MAX
}
