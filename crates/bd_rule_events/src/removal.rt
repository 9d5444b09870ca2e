//! BeginRemove and Destructed.
ghost use Rattle.std.specs.Prelude.{◌≡◌, ◌++◌, map, IfOk, OnOk};
ghost use Rattle.bd_machine.specs.Asked.{owes_removal};
ghost use Rattle.bd_machine.specs.Events.{device_due, freed_by, gone_due, paid, removal_paid, removing, with_due};
ghost use Rattle.bd_machine.specs.declared.state.Owed.TheVariants as owes;
ghost use Rattle.bd_rule_view.specs.Came.{came_shut};
ghost use Rattle.bd_rule_effects.specs.Begun.{with_walk};

use bd_base::{Answer, DevId, HandleId, OutOfMemory, Setup, ThreadId, WalkId, WalkKind};
use bd_machine::{News, OpenWalk, Owed, Part};
use bd_rule_effects::{Plan, begin_walk, decide, device_due, make_due, owe, pay};
use bd_rule_script::owes_it;

// ---- BeginRemove

// Whether the thread has to remove this device, since it stands on one that is being removed.
fn owes_removal(part: &Part, named: Option<u32>) -> bool
    ensures { result ≡ owes_removal part.now named }
{
    match named {
        Some(n) => owes_it(part, Owed::Remove(DevId(n))),
        None => false,
    }
}

/// The answer to a BeginRemove: the removal that the thread had to make is made, or else the line that
/// asked is decided.
pub fn removal_paid(part: &mut Part, shut: bool, answer: &Answer, named: Option<u32>)
    ensures { part.new ≡ removal_paid (came_shut shut) answer.now named part.old }
{
    match named {
        Some(n) => {
            if owes_removal(part, named) {
                pay(part, Owed::Remove(DevId(n)));
            } else {
                decide(part, shut, answer);
            }
        }
        None => decide(part, shut, answer),
    }
}

// The thread of each handle is told that the device is being removed.
fn tell_handles(part: &mut Part, handles: &[(HandleId, ThreadId)]) -> Result<(), OutOfMemory>
    ensures { OnOk result (part.new ≡ with_due (map gone_due handles.now) part.old) }
{
    for holder in handles {
        make_due(part, holder.1.0, News::Gone(holder.0))?;
    }
    Ok(())
}

/// What the answer to a BeginRemove makes: each handle's thread is to be told, a walk begins, and a
/// device that nothing keeps is to be told to its home. The walk, but over nobody. Out of memory
/// leaves the part unspecified.
pub fn removing(
    part: &mut Part,
    setup: &Setup,
    thread: u32,
    answer: &Answer,
) -> Result<Option<(WalkId, OpenWalk)>, OutOfMemory>
    ensures { IfOk result (λ walk. with_walk part.new walk ≡ removing setup.now thread answer.now part.old) }
{
    let Answer::Removing {
        dev,
        threads,
        handles,
        destruct,
    } = answer
    else {
        return Ok(None);
    };
    tell_handles(part, handles.as_slice())?;
    device_due(part, setup, *destruct)?;
    let plan = Plan {
        dev: *dev,
        kind: WalkKind::Removal,
        threads: *threads,
        request: None,
        time: 0,
    };
    begin_walk(part, thread, plan)
}

// ---- Destructed

/// What the answer to a Destructed makes: the base handle that had its last user is to be closed. Out
/// of memory leaves the part unspecified.
pub fn freed(part: &mut Part, dev: DevId, answer: &Answer) -> Result<(), OutOfMemory>
    ensures { OnOk result (part.new ≡ freed_by answer.now (paid (owes.Report dev) part.old)) }
{
    pay(part, Owed::Report(dev));
    match answer {
        Answer::Freed { close: Some(id) } => owe(part, Owed::Close(*id)),
        _ => Ok(()),
    }
}
