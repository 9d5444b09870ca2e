//! GetChannel, PutChannel and DropChannel.
ghost use Rattle.std.specs.Prelude.{◌≡◌, OnOk};
ghost use Rattle.std.specs.List.{list_any};
ghost use Rattle.bd_machine.specs.Events.{all_born, born, channel_due, device_due, destruct_of, dropped_by, paid, put_down_by, put_paid, with_due};
ghost use Rattle.bd_machine.specs.Marks.{born_as, remarked, with_frozen};
ghost use Rattle.bd_machine.specs.Same.{same_dev};
ghost use Rattle.bd_machine.specs.declared.state.Owed.TheVariants as owes;

use bd_base::{Answer, DevId, Dropped, OutOfMemory, Setup};
use bd_machine::{FreezeMark, News, Owed, Part};
use bd_rule_effects::{destruct_of, device_due, make_due, pay};
use bd_rule_requests::marking_of;
use bd_rule_walks::{remark, uncount};

// ---- GetChannel

fn is_among(devs: &[DevId], dev: DevId) -> bool
    ensures { result ≡ list_any (same_dev dev) devs.now }
{
    devs.iter().any(|d| dev.0 == d.0)
}

// The device's freeze mark on the thread is set so. Out of memory leaves the part unspecified.
fn freeze_as(part: &mut Part, dev: DevId, frozen: FreezeMark) -> Result<(), OutOfMemory>
    ensures { OnOk result (part.new ≡ remarked dev (with_frozen frozen) part.old) }
{
    let mut marking = marking_of(part, dev);
    marking.frozen = frozen;
    remark(part, dev, marking)
}

// The freeze mark that a channel is born with.
fn born_as(frozen: bool) -> FreezeMark
    ensures { result ≡ born_as frozen }
{
    if frozen {
        FreezeMark::Hard
    } else {
        FreezeMark::Not
    }
}

// A channel is made: frozen where the answer says so, and its delays count from 0.
fn born(part: &mut Part, frozen: &[DevId], dev: DevId) -> Result<(), OutOfMemory>
    ensures { OnOk result (part.new ≡ born frozen.now dev part.old) }
{
    freeze_as(part, dev, born_as(is_among(frozen, dev)))?;
    uncount(part, dev)
}

/// These channels of a thread are made, from the top down. Out of memory leaves the part unspecified.
pub fn got(part: &mut Part, frozen: &[DevId], made: &[DevId]) -> Result<(), OutOfMemory>
    ensures { OnOk result (part.new ≡ all_born frozen.now made.now part.old) }
{
    for dev in made {
        born(part, frozen, *dev)?;
    }
    Ok(())
}

// ---- PutChannel

/// What the answer to a PutChannel changes: a channel without references is due to be dropped, and a
/// limited device's home that put its own owes that no longer. Out of memory leaves the part
/// unspecified.
pub fn put_down(
    part: &mut Part,
    thread: u32,
    dev: DevId,
    closing: bool,
    answer: &Answer,
) -> Result<(), OutOfMemory>
    ensures { OnOk result (part.new ≡ put_down_by thread dev answer.now (put_paid dev closing part.old)) }
{
    if !closing {
        pay(part, Owed::Put(dev));
    }
    match answer {
        Answer::PutDown { left } => {
            if *left == 0 {
                make_due(part, thread, News::Channel(dev))
            } else {
                Ok(())
            }
        }
        _ => Ok(()),
    }
}

// ---- DropChannel

// A channel that is to be dropped is told to its own thread.
fn channel_due(part: &mut Part, thread: u32, dev: Option<DevId>) -> Result<(), OutOfMemory>
    ensures { OnOk result (part.new ≡ with_due (channel_due thread dev) part.old) }
{
    match dev {
        Some(dev) => make_due(part, thread, News::Channel(dev)),
        None => Ok(()),
    }
}

fn dropped_by(part: &mut Part, thread: u32, dev: DevId, answer: &Answer) -> Result<(), OutOfMemory>
    ensures { OnOk result (part.new ≡ dropped_by thread dev answer.now part.old) }
{
    let Answer::Dropped { what, zero, .. } = answer else {
        return Ok(());
    };
    if !matches!(*what, Dropped::Kept) {
        // the freeze mark goes with the channel
        freeze_as(part, dev, FreezeMark::Not)?;
    }
    channel_due(part, thread, *zero)
}

/// What the answer to a DropChannel changes. Out of memory leaves the part unspecified.
pub fn dropped(
    part: &mut Part,
    setup: &Setup,
    thread: u32,
    dev: DevId,
    answer: &Answer,
) -> Result<(), OutOfMemory>
    ensures { OnOk result (part.new ≡ with_due (device_due setup.now (destruct_of answer.now)) (dropped_by thread dev answer.now (paid (owes.Drop dev) part.old))) }
{
    pay(part, Owed::Drop(dev));
    dropped_by(part, thread, dev, answer)?;
    device_due(part, setup, destruct_of(answer))
}
