//! BeginResize and EndResize.
ghost use Rattle.std.specs.Prelude.{◌≡◌, map, OnOk};
ghost use Rattle.bd_machine.specs.Events.{decided_by, device_due, destruct_of, paid, resized, resizing, sized_due, with_due};
ghost use Rattle.bd_machine.specs.declared.state.Owed.TheVariants as owes;
ghost use Rattle.bd_rule_view.specs.Came.{came_shut};

use bd_base::{Answer, DevId, HandleId, OutOfMemory, Setup, ThreadId};
use bd_machine::{News, Owed, Part};
use bd_rule_effects::{decide, destruct_of, device_due, make_due, pay};

/// What the answer to a BeginResize to this many blocks makes: it decides the line that asked, and the home is to be
/// told to let the content grow. Out of memory leaves the part unspecified.
pub fn resizing(
    part: &mut Part,
    shut: bool,
    blocks: u64,
    answer: &Answer,
) -> Result<(), OutOfMemory>
    ensures { OnOk result (part.new ≡ resizing blocks answer.now (decided_by (came_shut shut) answer.now part.old)) }
{
    decide(part, shut, answer);
    match answer {
        Answer::Resizing { dev, home } => make_due(part, home.0, News::Grow(*dev, blocks)),
        _ => Ok(()),
    }
}

// The thread of each handle is told how many blocks its device has from now on.
fn tell_sizes(
    part: &mut Part,
    handles: &[(HandleId, ThreadId)],
    blocks: u64,
) -> Result<(), OutOfMemory>
    ensures { OnOk result (part.new ≡ with_due (map (sized_due blocks) handles.now) part.old) }
{
    for holder in handles {
        make_due(part, holder.1.0, News::Sized(holder.0, blocks))?;
    }
    Ok(())
}

fn resized_by(part: &mut Part, answer: &Answer) -> Result<(), OutOfMemory>
    ensures { OnOk result (part.new ≡ resized answer.now part.old) }
{
    match answer {
        Answer::Resized {
            handles,
            blocks,
            ..
        } => tell_sizes(part, handles.as_slice(), *blocks),
        _ => Ok(()),
    }
}

/// What the answer to an EndResize makes: the thread of each handle that it lists is to be told the new size, and a
/// device that is to be destructed is to be told to its home. Out of memory leaves the part unspecified.
pub fn resized(
    part: &mut Part,
    setup: &Setup,
    dev: DevId,
    answer: &Answer,
) -> Result<(), OutOfMemory>
    ensures { OnOk result (part.new ≡ with_due (device_due setup.now (destruct_of answer.now)) (resized answer.now (paid (owes.EndResize dev) part.old))) }
{
    pay(part, Owed::EndResize(dev));
    resized_by(part, answer)?;
    device_due(part, setup, destruct_of(answer))
}
