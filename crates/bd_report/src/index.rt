//! What a trace says, found by key: of a line, a request or a handle.
ghost use Rattle.std.specs.Prelude.{◌≡◌, IfOk};
ghost use Rattle.bd_report.specs.Report.{first_found, outcome_in, completion_in, was_told};

use crate::completions::{Completions, first_completions};
use crate::outcomes::{Outcomes, first_outcomes};
use crate::told::{ToldHandles, told_handles};
use bd_base::{Entry, OutOfMemory, Outcome, ReqId, Shown, Status};
use std::alloc::Global;
use std::marker::Model;

/// A trace with an index, in which what it says is found without a search. It is seen as the trace.
#[derive(Drop)]
pub(crate) struct TraceIndex<'a> {
    trace: &'a [Entry],
    completions: Completions,
    outcomes: Outcomes,
    told: ToldHandles,
}

impl<'a> Model for TraceIndex<'a> {
    ghost use Rattle.std.specs.Prelude.{List};
    ghost use Rattle.bd_base.specs.declared.act.Entry.{Entry};

    ghost Value = { List Entry };

    ghost use Rattle.bd_report.specs.TraceIndex.{trace_of, Tells};

    ghost view = { trace_of };

    ghost invariant = { Tells };
}

impl<'a> TraceIndex<'a> {
    /// The index of a trace. Out of memory is the only error.
    pub(crate) fn new(alloc: Global, trace: &'a [Entry]) -> Result<TraceIndex<'a>, OutOfMemory>
        ensures { IfOk result (λ t. t ≡ trace.now) }
    {
        Ok(TraceIndex {
            trace,
            completions: first_completions(alloc, trace)?,
            outcomes: first_outcomes(alloc, trace)?,
            told: told_handles(alloc, trace)?,
        })
    }

    /// The whole trace.
    pub(crate) fn trace(&self) -> &'a [Entry]
        ensures { result.now ≡ self.now }
    {
        self.trace
    }

    /// The first outcome of a thread's line.
    pub(crate) fn outcome(&self, thread: u32, number: u32) -> Option<Outcome>
        ensures { result ≡ first_found (outcome_in thread number) self.now }
    {
        self.outcomes.get(&(thread, number)).copied()
    }

    /// A request's first completion: its status and what it showed.
    pub(crate) fn completion(&self, request: ReqId) -> Option<(Status, Option<Shown>)>
        ensures { result ≡ first_found (completion_in request) self.now }
    {
        self.completions
            .get(&(request.thread, request.seq))
            .copied()
    }

    /// Whether a thread took a handle's remove event before the handle was closed.
    pub(crate) fn was_told(&self, thread: u32, number: u128) -> bool
        ensures { result ≡ was_told self.now thread number }
    {
        self.told.contains(&(thread, number))
    }
}
