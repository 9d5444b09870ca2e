//! What a thread owes, and the event by which it does it: a channel whose count came to zero is dropped,
//! that of a limited device put, a base handle closed, a device removed that stands on one that is being
//! removed, and the registry told of a device that was destructed; and what thread 0 removes after Shutdown.
ghost use Rattle.std.specs.Prelude.{◌≡◌, find, IfOk};
ghost use Rattle.std.specs.List.{list_any};
ghost use Rattle.bd_machine.specs.BlockMap.{row_of};
ghost use Rattle.bd_steps.specs.Duties.{duty_owed, event_of, growth_of, growth_owed, is_duty, is_growth, is_pending, owes_nothing, removal_after, removal_of};

use bd_base::{DevId, OutOfMemory, RegEvent, Setup};
use bd_blocks::row_of;
use bd_machine::{Owed, Part};
use bd_rule_registry::is_live;
use bd_rule_view::Records;

// Whether an event does it: any but the end of a device, and its growth.
fn is_duty(owed: &Owed) -> bool
    ensures { result ≡ is_duty owed.now }
{
    !matches!(owed, Owed::Destruct(_) | Owed::Grow(_, _))
}

fn first_duty(owed: &[Owed]) -> Option<Owed>
    ensures { result ≡ find is_duty owed.now }
{
    owed.iter().copied().find(|o| is_duty(o))
}

// Whether the registry is wanted for it: an event does it, or follows it.
fn is_pending(owed: &Owed) -> bool
    ensures { result ≡ is_pending owed.now }
{
    !matches!(owed, Owed::Destruct(_))
}

/// Whether the thread owes something that an event does, or that one follows.
pub fn has_duty(owed: &[Owed]) -> bool
    ensures { result ≡ list_any is_pending owed.now }
{
    owed.iter().any(|o| is_pending(o))
}

fn is_growth(owed: &Owed) -> bool
    ensures { result ≡ is_growth owed.now }
{
    matches!(owed, Owed::Grow(_, _))
}

fn first_growth(owed: &[Owed]) -> Option<Owed>
    ensures { result ≡ find is_growth owed.now }
{
    owed.iter().copied().find(|o| is_growth(o))
}

fn growth_of(owed: Option<Owed>) -> Option<(DevId, u64)>
    ensures { result ≡ growth_of owed }
{
    match owed {
        Some(Owed::Grow(dev, blocks)) => Some((dev, blocks)),
        _ => None,
    }
}

/// The first device whose content the thread is to let grow, and to how many blocks.
pub fn growth_owed(owed: &[Owed]) -> Option<(DevId, u64)>
    ensures { result ≡ growth_owed owed.now }
{
    growth_of(first_growth(owed))
}

/// Whether a thread owes nothing, and it took no remove event.
pub fn owes_nothing(part: &Part) -> bool
    ensures { result ≡ owes_nothing part.now }
{
    part.owed.len() == 0 && part.gone.len() == 0
}

// The event that removes a device; none where the setup doesn't have it.
fn removal_of(setup: &Setup, dev: DevId) -> Result<Option<RegEvent>, OutOfMemory>
    ensures { IfOk result (λ event. event ≡ removal_of (row_of setup.now dev)) }
{
    match row_of(setup, dev) {
        Some(row) => Ok(Some(RegEvent::BeginRemove {
            name: row.name.copy()?,
        })),
        None => Ok(None),
    }
}

/// The event that removes a device that is left, after Shutdown on thread 0: one that is neither being removed nor
/// destructed. Before it, on another thread and for another device none.
pub fn removal_after<R: Records>(
    setup: &Setup,
    registry: &R,
    me: u32,
    shut: bool,
    dev: DevId,
) -> Result<Option<RegEvent>, OutOfMemory>
    ensures { IfOk result (λ event. event ≡ removal_after setup.now (R.registry_of registry.now) me shut dev) }
{
    if !(shut && me == 0 && is_live(registry, dev)) {
        return Ok(None);
    }
    removal_of(setup, dev)
}

// The event by which a thread does a pending action. None for the end of a device, for its growth, and for the
// removal of one that isn't in the setup.
fn event_of(setup: &Setup, owed: Owed) -> Result<Option<RegEvent>, OutOfMemory>
    ensures { IfOk result (λ event. event ≡ event_of setup.now owed) }
{
    match owed {
        Owed::Drop(dev) => Ok(Some(RegEvent::DropChannel { dev })),
        Owed::Put(dev) => Ok(Some(RegEvent::PutChannel {
            dev,
            closing: false,
        })),
        Owed::Close(handle) => Ok(Some(RegEvent::Close { handle })),
        Owed::Remove(dev) => removal_of(setup, dev),
        Owed::Report(dev) => Ok(Some(RegEvent::Destructed { dev })),
        Owed::EndResize(dev) => Ok(Some(RegEvent::EndResize { dev })),
        Owed::Destruct(_) | Owed::Grow(_, _) => Ok(None),
    }
}

/// The event of the first pending action that an event does. None where there is none, and for the
/// removal of a device that isn't in the setup.
pub fn duty_owed(setup: &Setup, owed: &[Owed]) -> Result<Option<RegEvent>, OutOfMemory>
    ensures { IfOk result (λ event. event ≡ duty_owed setup.now owed.now) }
{
    match first_duty(owed) {
        Some(first) => event_of(setup, first),
        None => Ok(None),
    }
}
