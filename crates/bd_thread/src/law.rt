//! Laws of threads. Each function says one of them: its body is empty, and its clause is the law,
//! which the definitions alone prove.
ghost use Rattle.bd_thread.specs.Resting.{EachRests};
ghost use Rattle.bd_thread.specs.Starts.{NewIsAtStart};
ghost use Rattle.bd_thread.specs.Work.{NothingElseWaits};

/// A new thread with new links sees what the machine's thread sees before any entry.
pub fn new_is_at_start()
    ensures { NewIsAtStart }
{}

/// Where a thread waits but for what it would ask the registry, and doesn't want the registry, it waits for
/// all that a quiet turn waits for.
pub fn nothing_else_waits()
    ensures { NothingElseWaits }
{}

/// Where a thread has nothing under way but for time, each of its open requests rests, is held, is kept without an
/// answer, is away at the home of a limited device, or is a reset under way: also those that it doesn't look at.
pub fn each_rests()
    ensures { EachRests }
{}
