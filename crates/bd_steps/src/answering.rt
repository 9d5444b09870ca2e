//! What an answer of the registry makes of a thread: its channels after a get, and its part after a removal.
ghost use Rattle.std.specs.Prelude.{◌≡◌, IfOk};
ghost use Rattle.bd_rule_effects.specs.Begun.{with_walk};
ghost use Rattle.bd_steps.specs.Answering.{made_by};
ghost use Rattle.bd_machine.specs.Events.{removal_paid, removing};
ghost use Rattle.bd_machine.specs.Registry.{device_named, references};
ghost use Rattle.bd_rule_view.specs.Came.{came_shut};

use bd_base::{Answer, DevList, Name, OutOfMemory, RegEvent, Rows, Setup, WalkId};
use bd_blocks::number_named;
use bd_machine::{OpenWalk, Part};
use bd_rule_events::{removal_paid, removing};
use bd_rule_registry::made;
use bd_rule_view::Records;
use std::alloc::Global;

/// The channels that a get makes on thread `me`, from the top down; none for another event.
pub fn made_by<R: Records>(
    alloc: Global,
    setup: &Setup,
    registry: &R,
    me: u32,
    event: &RegEvent,
) -> Result<DevList, OutOfMemory>
    ensures { IfOk result (λ devs. devs ≡ made_by setup.now (references (R.registry_of registry.now) me) event.now) }
{
    match event {
        RegEvent::GetChannel { dev } => made(alloc, setup, registry, me, *dev),
        _ => Ok(Rows::new(alloc)),
    }
}

/// The part is as this answer to a removal of the device named so leaves it; the walk that begins by it, if one
/// does.
pub fn removal_answered(
    part: &mut Part,
    setup: &Setup,
    me: u32,
    shut: bool,
    name: &Name,
    answer: &Answer,
) -> Result<Option<(WalkId, OpenWalk)>, OutOfMemory>
    ensures { IfOk result (λ walk. with_walk part.new walk
        ≡ removing setup.now me answer.now (removal_paid (came_shut shut) answer.now (device_named setup.now name.now) part.old)) }
{
    let named = number_named(setup, name)?;
    removal_paid(part, shut, answer, named);
    removing(part, setup, me, answer)
}
