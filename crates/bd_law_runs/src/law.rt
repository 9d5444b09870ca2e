//! Laws of runs. Each function says one of them: its body is empty, and its clause is the law, which
//! the machine's definitions alone prove.
ghost use Rattle.bd_law_runs.specs.Ledger.{BudgetIsKept};
ghost use Rattle.bd_law_runs.specs.Quiescence.{Quiescence, WalksDrain};
ghost use Rattle.bd_law_runs.specs.Standing.{RequestsHaveChannels, RequestsHaveHandles};

/// In every run, what is done to a device's limits keeps its budget: some start of its first timeslice
/// fits each of its Ticks, and at each Let more than 0 is left of each limit that counts the request,
/// after the charges and renewals of the entries before.
pub fn budget_is_kept()
    ensures { BudgetIsKept }
{}

/// In every run, before a reset completes, each request but resets that was accepted before it and
/// has its device below is completed, on every thread over which the reset's walks go.
pub fn walks_drain()
    ensures { WalksDrain }
{}

/// In every run, each open request's handle is open on its thread, on the request's device.
pub fn requests_have_handles()
    ensures { RequestsHaveHandles }
{}

/// In every run of a setup in which each device stands on one with a smaller number: a thread has a
/// channel of each device below an open request of it, but between an open and its get and between a
/// put and its close.
pub fn requests_have_channels()
    ensures { RequestsHaveChannels }
{}

/// In every run of a setup in which each device stands on one with a smaller number: when a reset
/// completes, no request but resets is open, on any thread, that was accepted before it and has its
/// device below. Each is completed, and nowhere.
pub fn quiescence()
    ensures { Quiescence }
{}
