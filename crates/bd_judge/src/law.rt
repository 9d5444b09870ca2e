//! The law of verdicts: its body is empty, and its clause is the law, which the definitions alone
//! prove.
ghost use Rattle.bd_judge.specs.Laws.{VerdictIsDetermined};

/// One verdict at most is right of a history. So `judge` answers each verdict exactly where it is
/// right, out of memory aside.
pub fn verdict_is_determined()
    ensures { VerdictIsDetermined }
{}
