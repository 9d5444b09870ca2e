//! What the registry answers.
ghost use Rattle.std.specs.Prelude.{◌≡◌, IfOk};
ghost use Rattle.bd_rule_registry.specs.Named.{named_by};
ghost use Rattle.bd_machine.specs.Registry.{answer_to};

use crate::bare::threads_of;
use crate::channels::{drop_answer, get_answer, put_answer};
use crate::devices::{
    begin_reset_answer, destructed_answer, end_reset_answer, finish_reset_answer, injection_answer,
    remove_answer,
};
use crate::handles::{claim_answer, close_answer, open_answer};
use crate::resize::{end_resize_answer, resize_answer};
use bd_base::{Answer, OutOfMemory, RegEvent, Setup};
use bd_blocks::device_named;
use bd_rule_view::Records;
use std::alloc::Global;

// The place of the device that an open, a removal or a resize names.
fn named_by(setup: &Setup, event: &RegEvent) -> Option<usize>
    ensures { result ≡ named_by setup.now event.now }
{
    match event {
        RegEvent::Open { name, .. }
        | RegEvent::BeginRemove { name }
        | RegEvent::BeginResize { name, .. } => device_named(setup, name),
        _ => None,
    }
}

/// What the registry answers to an event of a thread. A device whose place passes 32 bits, and a
/// thread of 16 or more that has a channel, count as out of memory.
pub fn answer_to<R: Records>(
    alloc: Global,
    setup: &Setup,
    registry: &R,
    thread: u32,
    event: &RegEvent,
) -> Result<Answer, OutOfMemory>
    ensures { IfOk result (λ a. a ≡ answer_to setup.now (R.registry_of registry.now) thread event.now) }
{
    answer_by(
        alloc,
        setup,
        registry,
        thread,
        event,
        named_by(setup, event),
    )
}

/// The same, where one knows already which device the event names, by its place among the devices.
pub fn answer_by<R: Records>(
    alloc: Global,
    setup: &Setup,
    registry: &R,
    thread: u32,
    event: &RegEvent,
    named: Option<usize>,
) -> Result<Answer, OutOfMemory>
    requires { named ≡ named_by setup.now event.now }
    ensures { IfOk result (λ a. a ≡ answer_to setup.now (R.registry_of registry.now) thread event.now) }
{
    match event {
        RegEvent::Open { write, .. } => { open_answer(setup, registry, *write, named) }
        RegEvent::Close { handle } => {
            let found = registry.handle(*handle);
            Ok(close_answer(setup, registry, thread, *handle, found))
        }
        RegEvent::Claim { handle, kind } => {
            let found = registry.handle(*handle);
            Ok(claim_answer(registry, thread, *kind, found))
        }
        RegEvent::GetChannel { dev } => get_answer(alloc, setup, registry, thread, *dev),
        RegEvent::PutChannel { dev, .. } => Ok(put_answer(registry.references(thread, *dev))),
        RegEvent::DropChannel { dev } => Ok(drop_answer(setup, registry, thread, *dev)),
        RegEvent::BeginRemove { .. } => remove_answer(alloc, setup, registry, named),
        RegEvent::BeginReset { dev, .. } => {
            let threads = threads_of(setup, registry, *dev)?;
            Ok(begin_reset_answer(threads, registry.device(*dev)))
        }
        RegEvent::EndReset { dev } => {
            let threads = threads_of(setup, registry, *dev)?;
            Ok(end_reset_answer(threads, registry.device(*dev)))
        }
        RegEvent::FinishReset { dev } => {
            let threads = threads_of(setup, registry, *dev)?;
            Ok(finish_reset_answer(threads, registry.device(*dev)))
        }
        RegEvent::TakeInjection { dev, op, .. } => {
            Ok(injection_answer(setup, *dev, *op, registry.device(*dev)))
        }
        RegEvent::Destructed { dev } => destructed_answer(alloc, setup, registry, *dev),
        RegEvent::BeginResize { blocks, .. } => resize_answer(setup, registry, *blocks, named),
        RegEvent::EndResize { dev } => end_resize_answer(alloc, setup, registry, *dev),
    }
}
