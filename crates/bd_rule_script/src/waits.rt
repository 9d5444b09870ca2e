//! What a script's next line waits for: by the rule of bd_rule_lines, from what the thread sees.
ghost use Rattle.std.specs.Prelude.{◌≡◌, option_copied};
ghost use Rattle.bd_rule_script.specs.Waits.{awaits_removal, awaits_size, known_by};
ghost use Rattle.bd_rule_lines.specs.Moves.{IsNextMove, waits_for};

use crate::lines::{bound_to, has_mark};
use bd_base::{HandleId, Job, Line, Name};
use bd_machine::Part;
use bd_rule_lines::{Knows, Move, Why};
use bd_rule_requests::{is_gone, size_of_handle};
use bd_rule_view::Sees;

// What is known of a thread by what it sees.
#[derive(Clone, Copy)]
struct Known<'a, S> {
    seen: &'a S,
}

// Whether the remove event of the handle, where it is one, wasn't taken.
fn awaits_removal(part: &Part, handle: Option<HandleId>) -> bool
    ensures { result ≡ awaits_removal part.now handle }
{
    match handle {
        Some(id) => !is_gone(part, id),
        None => false,
    }
}

// Whether the handle is open, and its device has fewer blocks, as far as the thread was told.
fn awaits_size<S: Sees>(seen: &S, handle: Option<HandleId>, blocks: u64) -> bool
    ensures { result ≡ awaits_size (S.view_of seen.now) handle blocks }
{
    let Some(id) = handle else {
        return false;
    };
    match seen.handle(id) {
        Some(h) => size_of_handle(seen.part(), &h) < blocks,
        None => false,
    }
}

impl<'a, S: Sees> Knows for Known<'a, S> {
    ghost known_of = { λ k. known_by (S.view_of k.seen.now) };

    fn requests(&self) -> usize {
        self.seen.part().requests.len()
    }

    fn has_mark(&self, mark: &Name) -> bool {
        has_mark(self.seen.part(), mark)
    }

    fn awaits_removal(&self, handle: &Name) -> bool {
        let part = self.seen.part();
        awaits_removal(part, bound_to(part, handle))
    }

    fn awaits_size(&self, handle: &Name, blocks: u64) -> bool {
        awaits_size(self.seen, bound_to(self.seen.part(), handle), blocks)
    }

    // By its moments alone a thread knows whether a sleep is over.
    fn has_slept(&self, _micros: u64) -> bool {
        true
    }
}

/// What a line with this job waits for, where it waits.
pub(crate) fn waits_for<S: Sees>(seen: &S, job: &Job) -> Option<Why>
    ensures { result ≡ waits_for (known_by (S.view_of seen.now)) job.now }
{
    bd_rule_lines::waits_for(&Known { seen }, job)
}

/// The move that a script has whose next line this is.
pub(crate) fn next_move<'a, S: Sees>(seen: &S, line: Option<&'a Line>) -> Move<'a>
    ensures { IsNextMove (option_copied line.entry) (known_by (S.view_of seen.entry.now)) result }
{
    bd_rule_lines::next_move(&Known { seen }, line)
}
