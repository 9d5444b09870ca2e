//! How the requests of a trace ended, by request.
ghost use Rattle.std.specs.Prelude.{◌≡◌, IfOk, OnOk};
ghost use Rattle.std.specs.HashMap.{get};
ghost use Rattle.bd_base.specs.declared.id.ReqId.{ReqId};
ghost use Rattle.bd_report.specs.First.{first_of};
ghost use Rattle.bd_report.specs.Index.{same_pair, key_of, TellsCompletions};
ghost use Rattle.bd_report.specs.Report.{completion_in};

use crate::first::put_first;
use bd_base::{Act, Entry, OutOfMemory, Shown, Status};
use std::alloc::Global;
use std::collections::HashMap;

/// A status and what was shown, by thread and number there.
pub(crate) type Completions = HashMap<(u32, u64), (Status, Option<Shown>)>;

/// The first completion of each request. Out of memory is the only error.
pub(crate) fn first_completions(alloc: Global, trace: &[Entry]) -> Result<Completions, OutOfMemory>
    ensures { IfOk result (λ m. TellsCompletions m trace.now) }
{
    let mut completions = HashMap::new(alloc);
    for entry in trace {
        note_completion(&mut completions, entry)?;
    }
    Ok(completions)
}

// Notes the completion that an entry tells of its request, if it is the first.
fn note_completion(completions: &mut Completions, entry: &Entry) -> Result<(), OutOfMemory>
    ensures { OnOk result ((request : ReqId) → get same_pair completions.new (key_of request) ≡
        first_of (get same_pair completions.old (key_of request)) (completion_in request entry.now)) }
{
    if let Act::Complete { req, status, shown } = &entry.act {
        put_first(completions, (req.thread, req.seq), (*status, *shown))?;
    }
    Ok(())
}
