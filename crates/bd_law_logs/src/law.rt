//! The laws of logs. Each function says one of them: its body is empty, and its clause is the law,
//! which the definitions alone prove.
ghost use Rattle.bd_law_logs.specs.Laws.{FollowedIsFound, LogsAreCompleteRun, LogsAreRun, LogsEndAsSeen, LogsGiveOwn, MergeOfParts, OthersLeaveOwn, OwnIsFound};
ghost use Rattle.bd_law_logs.specs.Loose.{LooseLogsAreCompleteRun, LooseLogsEndAsSeen};
ghost use Rattle.bd_law_logs.specs.Turning.{TurnIsAccepted};

/// Logs that the rules accept and that fit together are merged into a run.
pub fn logs_are_run()
    ensures { LogsAreRun }
{}

/// Logs that the rules accept before and after a Shutdown at rest, whose threads are done at the
/// end, and that fit together, are merged into a complete run.
pub fn logs_are_complete_run()
    ensures { LogsAreCompleteRun }
{}

/// The state that the merge of such logs leaves has for each thread what the thread saw at its end.
pub fn logs_end_as_seen()
    ensures { LogsEndAsSeen }
{}

/// Where each row of the registry's journal names what had to follow in the registry when it was
/// asked, and the rows of the logs name the same, each log's rows name what had to follow.
pub fn followed_is_found()
    ensures { FollowedIsFound }
{}

/// Where stamps rise strictly in the journal, each thread names what its own entries left to follow
/// in the registry, and asks for that next, with the stamp one above: each log's rows name what had
/// to follow. So a thread needs to know no other's rows, and a journal needs no more than entries.
pub fn own_is_found()
    ensures { OwnIsFound }
{}

/// In the registry that a journal leaves, the handles and references of a thread are those that the
/// thread's own entries give.
pub fn others_leave_own()
    ensures { OthersLeaveOwn }
{}

/// The handles and channels that a thread sees are those that the events of its log give, where the
/// rules accept the log.
pub fn logs_give_own()
    ensures { LogsGiveOwn }
{}

/// The merge of parts, one for each thread with the entries of its log, is the merge of the logs.
pub fn merge_of_parts()
    ensures { MergeOfParts }
{}

/// What a thread does by the local rules, over queues and a registry that it has for itself, are
/// rows that the rules accept, whatever stamps from 1 on its log gives them.
pub fn turn_is_accepted()
    ensures { TurnIsAccepted }
{}

/// The same of logs that fit by their messages and by the stamps of their own entries, where no row
/// knows the stamp of the Put whose message it took.
pub fn loose_logs_are_complete_run()
    ensures { LooseLogsAreCompleteRun }
{}

/// The state that their merge leaves has for each thread what the thread saw at its end.
pub fn loose_logs_end_as_seen()
    ensures { LooseLogsEndAsSeen }
{}
