//! Scripts: the next line, and what its names are bound to.
ghost use Rattle.std.specs.Prelude.{◌≡◌, ◌==◌, find, option_copied};
ghost use Rattle.bd_machine.specs.Asked.{bound_to, has_mark, is_open_handle, job_now, lines_if_any, next_line, open_on, undecided_job};
ghost use Rattle.bd_rule_view.specs.Came.{came_shut};

use bd_base::{HandleId, Job, Line, Name, Script, Setup};
use bd_machine::Part;
use bd_rule_view::Sees;

fn lines_of(scripts: &[Script], thread: u32) -> &[Line]
    ensures { result.now ≡ lines_if_any (find (λ s. s.thread == thread) scripts.now) }
{
    for script in scripts {
        if script.thread == thread {
            return script.lines.as_slice();
        }
    }
    &[]
}

/// The next line of a thread's script; none at its end.
pub fn next_line<'a>(setup: &'a Setup, thread: u32, part: &Part) -> Option<&'a Line>
    ensures { option_copied result ≡ next_line setup.now thread part.now }
{
    lines_of(setup.scripts.as_slice(), thread).get(part.next as usize)
}

/// What the next line asks, while nothing decided it.
pub fn undecided_job<'a>(setup: &'a Setup, thread: u32, part: &Part) -> Option<&'a Job>
    ensures { option_copied result ≡ undecided_job setup.now thread part.now }
{
    if part.decided.is_some() {
        return None;
    }
    match next_line(setup, thread, part) {
        Some(line) => Some(&line.job),
        None => None,
    }
}

/// The handle that a name is bound to.
pub fn bound_to(part: &Part, name: &Name) -> Option<HandleId>
    ensures { result ≡ bound_to part.now name.now }
{
    match part.bound.as_slice().iter().find(|b| b.name.is(name)) {
        Some(b) => Some(b.handle),
        None => None,
    }
}

/// How many requests of a handle are open.
pub fn open_on(part: &Part, handle: HandleId) -> usize
    ensures { result ≡ open_on part.now handle }
{
    part.requests.count_of(handle)
}

/// Whether the mark was taken.
pub fn has_mark(part: &Part, mark: &Name) -> bool
    ensures { result ≡ has_mark part.now mark.now }
{
    part.marks.as_slice().iter().any(|m| mark.is(m))
}

/// Whether a name is bound to a handle that the thread has open: one that it closed after the remove
/// event leaves its name free.
pub fn is_open_handle<S: Sees>(seen: &S, handle: Option<HandleId>) -> bool
    ensures { result ≡ is_open_handle (S.view_of seen.now) handle }
{
    match handle {
        Some(id) => seen.handle(id).is_some(),
        None => false,
    }
}

/// What the next line asks, while nothing decided it and before the Shutdown (`shut` is false).
pub fn job_now<'a, S: Sees>(seen: &S, setup: &'a Setup, thread: u32, shut: bool) -> Option<&'a Job>
    ensures { option_copied result ≡ job_now setup.now thread (S.view_of seen.now) (came_shut shut) }
{
    if shut {
        None
    } else {
        undecided_job(setup, thread, seen.part())
    }
}
