//! Calls that make devices over another one.
ghost use Rattle.std.specs.Prelude.{◌≡◌, IfOk, IfSome};
ghost use Rattle.serde_json.specs.View.{view};
ghost use Rattle.bd_config.specs.Commands.{IsOpenable, passthru_of, split_of, delay_of, error_of};

use crate::command::Command;
use crate::param::{name, number, number_or, whole};
use bd_base::{Name, OutOfMemory};
use serde_json::Value;
use std::alloc::Global;

/// A device that hands each request to its base; none where a parameter is wrong.
pub(crate) fn passthru(alloc: Global, call: &Value) -> Result<Option<Command>, OutOfMemory>
    ensures value { IfOk result (λ command. command ≡ passthru_of (view call.now)) }
    ensures openable { IfOk result (λ command. IfSome command IsOpenable) }
{
    let (Some(base), Some(name)) = (name(call, "base_bdev_name"), name(call, "name")) else {
        return Ok(None);
    };
    Ok(Some(Command::Passthru {
        base: Name::from_slice(alloc, base)?,
        name: Name::from_slice(alloc, name)?,
    }))
}

/// Parts of a base; none where a parameter is wrong.
pub(crate) fn split(alloc: Global, call: &Value) -> Result<Option<Command>, OutOfMemory>
    ensures value { IfOk result (λ command. command ≡ split_of (view call.now)) }
    ensures openable { IfOk result (λ command. IfSome command IsOpenable) }
{
    let (Some(base), Some(count), Some(megabytes)) = (
        name(call, "base_bdev"),
        number(call, "split_count", 1, 64),
        number_or(call, "split_size_mb", 0, 0, 1_048_576),
    ) else {
        return Ok(None);
    };
    Ok(Some(Command::Split {
        base: Name::from_slice(alloc, base)?,
        count: count as u32,
        megabytes,
    }))
}

/// A device whose requests wait; none where a parameter is wrong.
pub(crate) fn delay(alloc: Global, call: &Value) -> Result<Option<Command>, OutOfMemory>
    ensures value { IfOk result (λ command. command ≡ delay_of (view call.now)) }
    ensures openable { IfOk result (λ command. IfSome command IsOpenable) }
{
    let (Some(base), Some(name)) = (name(call, "base_bdev_name"), name(call, "name")) else {
        return Ok(None);
    };
    let (Some(average_read), Some(p99_read), Some(average_write), Some(p99_write)) = (
        whole(call, "avg_read_latency"),
        whole(call, "p99_read_latency"),
        whole(call, "avg_write_latency"),
        whole(call, "p99_write_latency"),
    ) else {
        return Ok(None);
    };
    Ok(Some(Command::Delay {
        base: Name::from_slice(alloc, base)?,
        name: Name::from_slice(alloc, name)?,
        average_read,
        p99_read,
        average_write,
        p99_write,
    }))
}

/// A device that takes injected errors; none where a parameter is wrong.
pub(crate) fn error(alloc: Global, call: &Value) -> Result<Option<Command>, OutOfMemory>
    ensures value { IfOk result (λ command. command ≡ error_of (view call.now)) }
    ensures openable { IfOk result (λ command. IfSome command IsOpenable) }
{
    let Some(base) = name(call, "base_name") else {
        return Ok(None);
    };
    Ok(Some(Command::Error {
        base: Name::from_slice(alloc, base)?,
    }))
}
