//! What an answer of the registry makes of the part of the thread that asked.
ghost use Rattle.std.specs.Prelude.{◌≡◌, position, OnOk};
ghost use Rattle.bd_machine.specs.Events.{closed_by, decided_by, device_due, destruct_of, due_to, owing, paid, with_due};
ghost use Rattle.bd_machine.specs.Table.{without_first};
ghost use Rattle.bd_machine.specs.Same.{same_owed};
ghost use Rattle.bd_rule_view.specs.Came.{came_shut};

use crate::lines::decision_of;
use bd_base::{Answer, DevId, HandleId, OutOfMemory, Rows, Setup};
use bd_blocks::{home, is_base_handle};
use bd_machine::{Due, News, Owed, Part};
use bd_rule_requests::is_gone;
use bd_rule_view::same_owed;

/// An answer decides the line that asked; after the Shutdown (`shut`) no line asked.
pub fn decide(part: &mut Part, shut: bool, answer: &Answer)
    ensures { part.new ≡ decided_by (came_shut shut) answer.now part.old }
{
    if !shut {
        part.decided = decision_of(answer);
    }
}

fn owed_place(all: &[Owed], owed: Owed) -> Option<usize>
    ensures { result ≡ position (same_owed owed) all.now }
{
    all.iter().position(|o| same_owed(owed, *o))
}

// The first of these that is the same is done.
#[tactic(auto, using(crate::proofs::Firsts::found_below, crate::proofs::Firsts::remove_found, crate::proofs::Firsts::none_to_remove))]
fn drop_owed(all: &mut Rows<Owed>, owed: Owed)
    ensures { all.new ≡ without_first (same_owed owed) all.old }
{
    if let Some(i) = owed_place(all.as_slice(), owed) {
        let _ = all.remove(i);
    }
}

/// What the thread had to do is done.
pub fn pay(part: &mut Part, owed: Owed)
    ensures { part.new ≡ paid owed part.old }
{
    drop_owed(&mut part.owed, owed);
}

/// The thread has this to do. Out of memory leaves the part as it was.
pub fn owe(part: &mut Part, owed: Owed) -> Result<(), OutOfMemory>
    ensures { OnOk result (part.new ≡ owing owed part.old) }
{
    part.owed.push(owed)
}

/// These news are due to a thread. Out of memory leaves the part as it was.
pub fn make_due(part: &mut Part, receiver: u32, news: News) -> Result<(), OutOfMemory>
    ensures { OnOk result (part.new ≡ with_due (due_to receiver news) part.old) }
{
    part.due.push(Due { receiver, news })
}

/// A device that is to be destructed, if one is, is told to its home. Out of memory leaves the part as
/// it was.
pub fn device_due(
    part: &mut Part,
    setup: &Setup,
    destruct: Option<DevId>,
) -> Result<(), OutOfMemory>
    ensures { OnOk result (part.new ≡ with_due (device_due setup.now destruct) part.old) }
{
    match destruct {
        Some(dev) => make_due(part, home(setup, dev), News::Device(dev)),
        None => Ok(()),
    }
}

/// The device that an answer names as one to be destructed.
pub fn destruct_of(answer: &Answer) -> Option<DevId>
    ensures { result ≡ destruct_of answer.now }
{
    match answer {
        Answer::Closed { destruct } => *destruct,
        Answer::Dropped { destruct, .. } => *destruct,
        Answer::Removing { destruct, .. } => *destruct,
        Answer::Resized { destruct, .. } => *destruct,
        _ => None,
    }
}

// A close was answered: of a base handle, it is done; of a handle whose remove event was taken, nothing
// is decided; else the line is.
fn close(part: &mut Part, setup: &Setup, shut: bool, id: HandleId, answer: &Answer)
    ensures { part.new ≡ closed_by setup.now (came_shut shut) id answer.now part.old }
{
    if is_base_handle(setup, id) {
        pay(part, Owed::Close(id));
    } else if !is_gone(part, id) {
        decide(part, shut, answer);
    }
}

/// A close of a handle was answered, before or after the Shutdown (`shut`): it decides the line that
/// asked, if one did, and a device that is to be destructed is told to its home. Out of memory leaves
/// the part unspecified.
pub fn closed(
    part: &mut Part,
    setup: &Setup,
    shut: bool,
    id: HandleId,
    answer: &Answer,
) -> Result<(), OutOfMemory>
    ensures { OnOk result (part.new ≡ with_due (device_due setup.now (destruct_of answer.now))
        (closed_by setup.now (came_shut shut) id answer.now part.old)) }
{
    close(part, setup, shut, id, answer);
    device_due(part, setup, destruct_of(answer))
}
