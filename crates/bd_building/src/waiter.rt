//! Commands that wait for their base.
ghost use Rattle.std.specs.Prelude.{◌≡◌, IfOk, map, option_copied};
ghost use Rattle.bd_building.specs.Progress.{is_absent, method_of, must_wait, name_or_empty, waiting_of};

use crate::base::base_name_of;
use bd_base::{Name, OutOfMemory, Rows, Setup, Waiting};
use bd_config::Command;
use bd_stack::device_named;
use std::alloc::Global;

/// A command that waits, with its place among the commands.
#[derive(Drop)]
pub struct Waiter {
    pub(crate) index: u32,
    pub(crate) command: Command,
}

fn is_absent(setup: &Setup, base: Option<&Name>) -> bool
    ensures { result ≡ is_absent setup.now (option_copied base.entry) }
{
    match base {
        Some(base) => device_named(setup, base).is_none(),
        None => false,
    }
}

/// Whether a command's base isn't there.
pub(crate) fn must_wait(setup: &Setup, command: &Command) -> bool
    ensures { result ≡ must_wait setup.now command.now }
{
    is_absent(setup, base_name_of(command))
}

fn method_of(command: &Command) -> &'static str
    ensures { result.now ≡ method_of command.now }
{
    match command {
        Command::Passthru { .. } => "bdev_passthru_create",
        Command::Split { .. } => "bdev_split_create",
        Command::Delay { .. } => "bdev_delay_create",
        Command::Error { .. } => "bdev_error_create",
        _ => "",
    }
}

fn name_or_empty(alloc: Global, name: Option<&Name>) -> Result<Name, OutOfMemory>
    ensures { IfOk result (λ n. n ≡ name_or_empty (option_copied name.entry)) }
{
    match name {
        Some(name) => name.copy(),
        None => Ok(Name::new(alloc)),
    }
}

fn waiting_of(alloc: Global, waiter: &Waiter) -> Result<Waiting, OutOfMemory>
    ensures { IfOk result (λ w. w ≡ waiting_of waiter.now) }
{
    Ok(Waiting {
        index: waiter.index,
        method: Name::from_slice(alloc, method_of(&waiter.command).as_bytes())?,
        base: name_or_empty(alloc, base_name_of(&waiter.command))?,
    })
}

/// What a report says of the commands that wait.
pub(crate) fn all_waiting(alloc: Global, waiters: &[Waiter]) -> Result<Rows<Waiting>, OutOfMemory>
    ensures { IfOk result (λ rows. rows ≡ map waiting_of waiters.now) }
{
    let mut rows = Rows::new(alloc);
    for waiter in waiters {
        rows.push(waiting_of(alloc, waiter)?)?;
    }
    Ok(rows)
}
