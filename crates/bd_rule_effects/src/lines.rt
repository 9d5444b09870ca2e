//! A line of a script is decided, or done.
ghost use Rattle.std.specs.Prelude.{◌≡◌, ◌++◌, map, option_copied, IfOk, OnOk};
ghost use Rattle.std.specs.List.{range_with_len};
ghost use Rattle.bd_machine.specs.Events.{decision_of};
ghost use Rattle.bd_machine.specs.Scripts.{bound_after, change_job, mark_to, posted, unbound};
ghost use Rattle.bd_rule_effects.specs.Lone.{lone};

use bd_base::{Answer, Job, Name, OutOfMemory, Rows, Setup};
use bd_machine::{Binding, Decided, Due, News, Part};
use std::alloc::Global;
use std::mem::replace;

/// What an answer of the registry decides of the line that asked.
pub fn decision_of(answer: &Answer) -> Option<Decided>
    ensures { result ≡ decision_of answer.now }
{
    match answer {
        Answer::Opened { handle, .. } => Some(Decided::Opened(*handle)),
        Answer::Closed { .. } => Some(Decided::Closed),
        Answer::Claimed => Some(Decided::Done),
        Answer::Removing { .. } => Some(Decided::Done),
        Answer::Resizing { .. } => Some(Decided::Done),
        Answer::Refused(errno) => Some(Decided::Refused(*errno)),
        _ => None,
    }
}

// The names without one.
fn unbind(alloc: Global, bound: &mut Rows<Binding>, name: &Name)
    ensures { bound.new ≡ unbound name.now bound.old }
{
    let mut names = replace(bound, Rows::new(alloc)).into_vec();
    names.retain(|b| !b.name.is(name));
    *bound = Rows::from_vec(names);
}

// An open that was granted binds its name anew, and a close frees it.
fn rebind(
    alloc: Global,
    bound: &mut Rows<Binding>,
    decided: Option<Decided>,
    job: Option<&Job>,
) -> Result<(), OutOfMemory>
    ensures { OnOk result (bound.new ≡ bound_after (option_copied job.entry) decided bound.old) }
{
    match (job, decided) {
        (Some(Job::Open { handle, .. }), Some(Decided::Opened(id))) => {
            let name = handle.copy()?;
            unbind(alloc, bound, handle);
            bound.push(Binding { name, handle: id })
        }
        (Some(Job::Close { handle }), Some(Decided::Closed)) => {
            unbind(alloc, bound, handle);
            Ok(())
        }
        _ => Ok(()),
    }
}

// A mark that is due to a thread.
fn mark_to(receiver: u32, mark: &Name) -> Result<Due, OutOfMemory>
    ensures { IfOk result (λ d. d ≡ mark_to mark.now receiver) }
{
    let name = mark.copy()?;
    Ok(Due {
        receiver,
        news: News::Mark(name),
    })
}

// A mark is due to each thread.
#[tactic(auto, using(crate::proofs::Left::left_from))]
fn post(due: &mut Rows<Due>, threads: u32, mark: &Name) -> Result<(), OutOfMemory>
    ensures { OnOk result (due.new ≡ due.old ++ map (mark_to mark.now) (range_with_len 0 threads)) }
{
    for receiver in 0..threads {
        let owed = mark_to(receiver, mark)?;
        due.push(owed)?;
    }
    Ok(())
}

// A post's mark is due to every thread.
fn post_if_asked(due: &mut Rows<Due>, setup: &Setup, job: Option<&Job>) -> Result<(), OutOfMemory>
    ensures { OnOk result (due.new ≡ due.old ++ posted setup.now (option_copied job.entry)) }
{
    match job {
        Some(Job::Post(mark)) => post(due, setup.threads, mark),
        _ => Ok(()),
    }
}

/// The line with this job is done: the next one is to come, undecided; an open that was granted binds
/// its name anew, a close frees it, and a post's mark is due to every thread. Out of memory leaves the
/// part unspecified.
pub fn line_done(
    alloc: Global,
    part: &mut Part,
    setup: &Setup,
    job: Option<&Job>,
) -> Result<(), OutOfMemory>
    ensures { OnOk result (part.new ≡ (change_job setup.now (lone part.old) (option_copied job.entry)).part) }
{
    let Some(next) = part.next.checked_add(1) else {
        return Err(OutOfMemory);
    };
    rebind(alloc, &mut part.bound, part.decided, job)?;
    post_if_asked(&mut part.due, setup, job)?;
    part.next = next;
    part.decided = None;
    Ok(())
}
