//! Laws of the machine. Each function says one of them: its body is empty, and its clause is the
//! law, which the definitions alone prove.
ghost use Rattle.bd_machine.specs.Destruction.{AcceptedWhereUnmarked, DestructedAfterLastClose, DestructedAtMostOnce, DestructedWhereFree, FreeStays, NamedIsFree, RemovedIsOutOfReach};
ghost use Rattle.bd_machine.specs.Lines.{LinesArePrefix, ScriptsGoAsFar};
ghost use Rattle.bd_machine.specs.Timeslices.{LeftStartsFit, SomeStartFits};
ghost use Rattle.bd_machine.specs.Laws.{CompletedStaysClosed, ContentChangesAtHome, EachIsCompletedOnce, EachIsDestructedOnce, PrefixIsRun, OtherViewsStay, OwnViewFollows, SomeRunIsComplete, StepIsDetermined};

/// A prefix of a run is a run.
pub fn prefix_is_run()
    ensures { PrefixIsRun }
{}

/// An entry leads from a state to one state at most.
pub fn step_is_determined()
    ensures { StepIsDetermined }
{}

/// An entry that is neither an Apply nor a Grow changes the content of no device.
pub fn content_changes_at_home()
    ensures { ContentChangesAtHome }
{}

/// A request that was completed is nowhere from then on: it is never open again.
pub fn completed_stays_closed()
    ensures { CompletedStaysClosed }
{}

/// In a complete run each request is accepted at most once, completed exactly as often, and both on
/// its own thread.
pub fn each_is_completed_once()
    ensures { EachIsCompletedOnce }
{}

/// In a complete run each device is destructed exactly once.
pub fn each_is_destructed_once()
    ensures { EachIsDestructedOnce }
{}

/// What a thread sees after an allowed entry of its own follows from what it saw before and what
/// came to it.
pub fn own_view_follows()
    ensures { OwnViewFollows }
{}

/// An entry of a run leaves what every other thread sees.
pub fn other_views_stay()
    ensures { OtherViewsStay }
{}

/// Some run is complete, and a request is completed in it: the definitions aren't vacuous.
pub fn some_run_is_complete()
    ensures { SomeRunIsComplete }
{}

/// In every run each device is destructed at most once.
pub fn destructed_at_most_once()
    ensures { DestructedAtMostOnce }
{}

/// What is destructed is being removed, with neither handle nor channel; or, as yet, Shutdown came,
/// it has neither a channel nor a handle but base handles, and no thread is about to get one.
pub fn destructed_where_free()
    ensures { DestructedWhereFree }
{}

/// Once a device's removal began, no open and no get over it is answered but by a refusal.
pub fn removed_is_out_of_reach()
    ensures { RemovedIsOutOfReach }
{}

/// A device that an answer names as one to be destructed is being removed, with neither handle nor
/// channel.
pub fn named_is_free()
    ensures { NamedIsFree }
{}

/// Such a device stays so until the registry is told that it is destructed.
pub fn free_stays()
    ensures { FreeStays }
{}

/// A request is accepted only where no device below carries a removal mark.
pub fn accepted_where_unmarked()
    ensures { AcceptedWhereUnmarked }
{}

/// In a run the lines that a thread did are a prefix of its script.
pub fn lines_are_prefix()
    ensures { LinesArePrefix }
{}

/// In a complete run each script goes as far as it can.
pub fn scripts_go_as_far()
    ensures { ScriptsGoAsFar }
{}

/// In a run a device is destructed after its last close and put: it has neither a channel nor a handle
/// then but base handles, and no open and no get over it is answered afterwards but by a refusal.
pub fn destructed_after_last_close()
    ensures { DestructedAfterLastClose }
{}

/// In every run there is one moment at which a device's first timeslice may have begun: from it
/// each Tick of the device tells exactly the timeslices that passed.
pub fn some_start_fits()
    ensures { SomeStartFits }
{}

/// Each start that a run leaves for a limited device in the end fits all the device's Ticks.
pub fn left_starts_fit()
    ensures { LeftStartsFit }
{}
