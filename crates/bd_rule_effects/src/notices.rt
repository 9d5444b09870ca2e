//! A notice is taken.
ghost use Rattle.std.specs.Prelude.{◌≡◌, ◌++◌, position, IfOk, OnOk};
ghost use Rattle.bd_machine.specs.Events.{alone};
ghost use Rattle.bd_machine.specs.Messages.{removals_owed, told_part, told_walk, went};
ghost use Rattle.bd_machine.specs.Same.{same_handle};
ghost use Rattle.bd_machine.specs.Table.{write};
ghost use Rattle.bd_machine.specs.Walks.{reset_of};
ghost use Rattle.bd_machine.specs.declared.state.News.TheVariants as told;
ghost use Rattle.bd_rule_effects.specs.Begun.{with_walk};

use crate::resets::freeze;
use crate::walks::{Plan, begin_walk};
use bd_base::{DevId, HandleId, OutOfMemory, ReqId, Rows, Setup, ThreadSet, WalkId, WalkKind};
use bd_blocks::users;
use bd_machine::{News, OpenWalk, Owed, Part};
use bd_rule_requests::reset_of;
use std::alloc::Global;

// Each of the devices is to remove itself.
fn owe_removals(owed: &mut Rows<Owed>, devs: &[DevId]) -> Result<(), OutOfMemory>
    ensures { OnOk result (owed.new ≡ owed.old ++ removals_owed devs.now) }
{
    for dev in devs {
        owed.push(Owed::Remove(*dev))?;
    }
    Ok(())
}

// A handle's device is being removed: each device that stands on the handle is to remove itself.
fn lose_handle(
    alloc: Global,
    part: &mut Part,
    setup: &Setup,
    handle: HandleId,
) -> Result<(), OutOfMemory>
    ensures { OnOk result (part.new ≡ told_part setup.now (told.Gone handle) part.old) }
{
    let devs = users(alloc, setup, handle)?;
    part.gone.push(handle)?;
    owe_removals(&mut part.owed, devs.as_slice())
}

fn size_place(sizes: &[(HandleId, u64)], handle: HandleId) -> Option<usize>
    ensures { result ≡ position (λ row. same_handle row.0 handle) sizes.now }
{
    sizes.iter().position(|row| row.0.0 == handle.0)
}

// The device of a handle has this many blocks from now on.
fn note_size(
    sizes: &mut Rows<(HandleId, u64)>,
    handle: HandleId,
    blocks: u64,
) -> Result<(), OutOfMemory>
    ensures { OnOk result (sizes.new ≡ write same_handle sizes.old handle blocks) }
{
    match size_place(sizes.as_slice(), handle) {
        Some(i) => {
            sizes.set(i, (handle, blocks));
            Ok(())
        }
        None => {
            sizes.push((handle, blocks))?;
            Ok(())
        }
    }
}

// What a notice tells is noted.
fn note(alloc: Global, part: &mut Part, setup: &Setup, news: &News) -> Result<(), OutOfMemory>
    ensures { OnOk result (part.new ≡ told_part setup.now news.now part.old) }
{
    match news {
        News::Mark(mark) => part.marks.push(mark.copy()?),
        News::Gone(handle) => lose_handle(alloc, part, setup, *handle),
        News::Channel(dev) => part.owed.push(Owed::Drop(*dev)),
        News::Device(dev) => part.owed.push(Owed::Destruct(*dev)),
        News::Go(_, _) => Ok(()),
        News::Grow(dev, blocks) => part.owed.push(Owed::Grow(*dev, *blocks)),
        News::Sized(handle, blocks) => note_size(&mut part.sized, *handle, *blocks),
    }
}

// The thread's reset of a request may begin over these threads: its freeze walk begins.
fn go(
    part: &mut Part,
    thread: u32,
    req: ReqId,
    threads: ThreadSet,
) -> Result<Option<(WalkId, OpenWalk)>, OutOfMemory>
    ensures { IfOk result (λ walk. with_walk part.new walk ≡ went thread req threads (reset_of part.old req) (alone part.old)) }
{
    let Some(reset) = reset_of(part, req) else {
        return Ok(None);
    };
    freeze(part, req, threads);
    let plan = Plan {
        dev: reset.dev,
        kind: WalkKind::Freeze,
        threads,
        request: Some(req),
        time: reset.time,
    };
    begin_walk(part, thread, plan)
}

/// A notice was taken: a mark or a remove event is noted, a channel is to be dropped, a device to be
/// destructed, the devices on a base handle are to remove themselves, and a reset that waited begins its
/// freeze walk, which is answered. Out of memory leaves the part unspecified.
pub fn take_notice(
    alloc: Global,
    part: &mut Part,
    setup: &Setup,
    thread: u32,
    news: &News,
) -> Result<Option<(WalkId, OpenWalk)>, OutOfMemory>
    ensures { IfOk result (λ walk. with_walk part.new walk ≡ told_walk thread news.now (alone (told_part setup.now news.now part.old))) }
{
    note(alloc, part, setup, news)?;
    match news {
        News::Go(req, threads) => go(part, thread, *req, *threads),
        _ => Ok(None),
    }
}
