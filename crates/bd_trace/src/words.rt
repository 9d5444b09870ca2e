//! The words of values that have a few cases.
ghost use Rattle.std.specs.Prelude.{◌≡◌};
ghost use Rattle.bd_base.specs.Word.{submit_word};
ghost use Rattle.bd_trace.specs.Words.{flag_word, mode_word, end_word, drop_word, decision_word, walk_word};

use bd_base::{ApplyEnd, Decision, Dropped, Op, WalkKind};

/// Yes or no.
pub(crate) fn flag_word(is: bool) -> &'static str
    ensures { result.now ≡ flag_word is }
{
    if is { "yes" } else { "no" }
}

/// Whether an open is for writing too.
pub(crate) fn mode_word(write: bool) -> &'static str
    ensures { result.now ≡ mode_word write }
{
    if write { "w" } else { "r" }
}

/// How the home ended a piece.
pub(crate) fn end_word(end: ApplyEnd) -> &'static str
    ensures { result.now ≡ end_word end }
{
    match end {
        ApplyEnd::Done => "done",
        ApplyEnd::Fault => "fault",
    }
}

/// The outcome of a call that drops a channel.
pub(crate) fn drop_word(what: Dropped) -> &'static str
    ensures { result.now ≡ drop_word what }
{
    match what {
        Dropped::Kept => "kept",
        Dropped::Gone => "gone",
        Dropped::Last => "last",
    }
}

/// What an error device decided.
pub(crate) fn decision_word(decision: Decision) -> &'static str
    ensures { result.now ≡ decision_word decision }
{
    match decision {
        Decision::Pass => "pass",
        Decision::Fail => "fail",
        Decision::Pend => "pend",
        Decision::Corrupt => "corrupt",
    }
}

/// What a walk is for.
pub(crate) fn walk_word(kind: WalkKind) -> &'static str
    ensures { result.now ≡ walk_word kind }
{
    match kind {
        WalkKind::Freeze => "freeze",
        WalkKind::Drain => "drain",
        WalkKind::Thaw => "thaw",
        WalkKind::Removal => "removal",
    }
}

/// A type of request, as a script has it.
pub(crate) fn type_word(op: Op) -> &'static str
    ensures { result.now ≡ submit_word op }
{
    match op {
        Op::Read => "read",
        Op::Write(_) => "write",
        Op::Zeroes => "zeroes",
        Op::Unmap => "unmap",
        Op::Flush => "flush",
        Op::Reset(_) => "reset",
        Op::Abort(_) => "abort",
    }
}
