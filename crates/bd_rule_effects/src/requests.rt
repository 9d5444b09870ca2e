//! A request is accepted, or completes.
ghost use Rattle.std.specs.Prelude.{◌≡◌, ◌++◌, filter, not, option_copied, OnOk};
ghost use Rattle.bd_machine.specs.Requests.{change_complete, submitted_at};
ghost use Rattle.bd_machine.specs.Walks.{is_reset_of};
ghost use Rattle.bd_rule_effects.specs.Accepted.{accepted};
ghost use Rattle.bd_rule_effects.specs.Lone.{lone};

use bd_base::{HandleId, Line, OutOfMemory, ReqId, Rows};
use bd_machine::{Decided, Open, Part, Resetting, Submitted};
use bd_rule_requests::is_reset_of;
use std::alloc::Global;
use std::mem::replace;

// The line that an accepted request came from is kept with it.
fn note_line(
    submitted: &mut Rows<Submitted>,
    req: ReqId,
    handle: HandleId,
    line: Option<&Line>,
) -> Result<(), OutOfMemory>
    ensures { OnOk result (submitted.new ≡ submitted.old ++ submitted_at req handle (option_copied line.entry)) }
{
    match line {
        Some(l) => submitted.push(Submitted {
            line: l.number,
            seq: req.seq,
            handle,
        }),
        None => Ok(()),
    }
}

/// A request was accepted, as this line of the script asked: it is open, it decided the line, the line
/// is kept with it, and the next request gets a greater number. A number past 64 bits counts as out of
/// memory: no request has the greatest. Out of memory leaves the part unspecified.
pub fn accepted(part: &mut Part, line: Option<&Line>, request: Open) -> Result<(), OutOfMemory>
    ensures { OnOk result (part.new ≡ accepted (option_copied line.entry) request part.old) }
{
    let Some(next_request) = request.id.seq.checked_add(1) else {
        return Err(OutOfMemory);
    };
    note_line(&mut part.submitted, request.id, request.handle, line)?;
    part.requests.push(request)?;
    part.decided = Some(Decided::Accepted(request.id));
    part.next_request = next_request;
    Ok(())
}

// Takes the reset of a request out of the thread's.
fn remove_reset(alloc: Global, resets: &mut Rows<Resetting>, req: ReqId)
    ensures { resets.new ≡ filter (λ r. not (is_reset_of req r)) resets.old }
{
    let mut left = replace(resets, Rows::new(alloc)).into_vec();
    left.retain(|r| !is_reset_of(req, r));
    *resets = Rows::from_vec(left);
}

/// A request completed: it is open no more, and neither is its reset.
pub fn completed(alloc: Global, part: &mut Part, req: ReqId)
    ensures { part.new ≡ (change_complete (lone part.old) req).part }
{
    part.requests.remove(req);
    remove_reset(alloc, &mut part.resets, req);
}
