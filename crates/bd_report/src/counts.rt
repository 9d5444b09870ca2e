//! How many requests were accepted, how they ended, and how many submissions were refused.
ghost use Rattle.std.specs.Prelude.{◌≡◌, None};
ghost use Rattle.bd_report.specs.Counts.{counts_of, no_acts, with_act, with_act_at, is_counted};

use bd_base::{Act, Entry, Rows, Status};

/// Counts of acts, each at most `u64::MAX`, where it stays.
#[derive(Clone, Copy, PartialEq, Eq)]
pub struct Counts {
    /// Requests that were accepted, resets and aborts too.
    pub accepted: u64,
    /// Requests that completed with success.
    pub success: u64,
    /// Requests that completed as failed.
    pub failed: u64,
    /// Requests that completed as aborted.
    pub aborted: u64,
    /// Submissions that were refused.
    pub refused: u64,
}

/// Counts by thread number, seen as their list.
pub type CountsList = Rows<Counts>;

impl Counts {
    /// No acts.
    pub fn new() -> Counts
        ensures { result ≡ no_acts }
    {
        Counts {
            accepted: 0,
            success: 0,
            failed: 0,
            aborted: 0,
            refused: 0,
        }
    }

    /// Counts one more act.
    pub(crate) fn note(&mut self, act: &Act)
        ensures { self.new ≡ with_act act.now self.old }
    {
        match act {
            Act::Accept { .. } => self.accepted = self.accepted.saturating_add(1),
            Act::Refuse { .. } => self.refused = self.refused.saturating_add(1),
            Act::Complete { status, .. } => match status {
                Status::Success => self.success = self.success.saturating_add(1),
                Status::Failed => self.failed = self.failed.saturating_add(1),
                Status::Aborted => self.aborted = self.aborted.saturating_add(1),
            },
            _ => {}
        }
    }
}

/// The counts of all of these entries.
pub(crate) fn counts_in(entries: &[Entry]) -> Counts
    ensures { result ≡ counts_of None entries.now }
{
    let mut counts = Counts::new();
    for entry in entries {
        counts.note(&entry.act);
    }
    counts
}

/// Counts an act for its thread. A thread that isn't among these has no counts here.
pub(crate) fn note_act(threads: &mut CountsList, thread: u32, act: &Act)
    ensures { threads.new ≡ with_act_at thread act.now threads.old }
{
    let at = thread as usize;
    if at < threads.len() {
        threads.at_mut(at).note(act);
    }
}

/// Whether the act counts: it accepts a request, completes one, or refuses a submission.
pub(crate) fn is_counted(act: &Act) -> bool
    ensures { result ≡ is_counted act.now }
{
    matches!(
        act,
        Act::Accept { .. } | Act::Complete { .. } | Act::Refuse { .. }
    )
}
