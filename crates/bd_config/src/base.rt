//! Calls that make a device with blocks of its own.
ghost use Rattle.std.specs.Prelude.{◌≡◌, IfOk, IfSome, codes, option_and_then};
ghost use Rattle.serde_json.specs.View.{view};
ghost use Rattle.serde_json.specs.Find.{as_bool};
ghost use Rattle.bd_config.specs.Commands.{malloc_of, null_of, aio_of, IsOpenable, param, is_zero_or_absent, is_plain, is_true};

use crate::command::Command;
use crate::param::{block_size, block_size_or, boundary, depth, filename, name, number, param};
use bd_base::{Name, OutOfMemory};
use serde_json::Value;
use std::alloc::Global;

/// A device in memory; none where a parameter is wrong.
pub(crate) fn malloc(alloc: Global, call: &Value) -> Result<Option<Command>, OutOfMemory>
    ensures value { IfOk result (λ command. command ≡ malloc_of (view call.now)) }
    ensures openable { IfOk result (λ command. IfSome command IsOpenable) }
{
    let (Some(name), Some(blocks), Some(size), Some(boundary), Some(depth)) = (
        name(call, "name"),
        number(call, "num_blocks", 1, 1 << 21),
        block_size(call),
        boundary(call),
        depth(call),
    ) else {
        return Ok(None);
    };
    Ok(Some(Command::Malloc {
        name: Name::from_slice(alloc, name)?,
        blocks,
        size,
        boundary,
        depth,
    }))
}

/// A device that keeps nothing; none where a parameter is wrong.
pub(crate) fn null(alloc: Global, call: &Value) -> Result<Option<Command>, OutOfMemory>
    ensures value { IfOk result (λ command. command ≡ null_of (view call.now)) }
    ensures openable { IfOk result (λ command. IfSome command IsOpenable) }
{
    let (Some(name), Some(blocks), Some(size), Some(boundary), Some(depth)) = (
        name(call, "name"),
        number(call, "num_blocks", 1, 1 << 40),
        block_size(call),
        boundary(call),
        depth(call),
    ) else {
        return Ok(None);
    };
    Ok(Some(Command::Null {
        name: Name::from_slice(alloc, name)?,
        blocks,
        size,
        boundary,
        depth,
    }))
}

/// A device of a file's blocks; none where a parameter is wrong.
pub(crate) fn aio(alloc: Global, call: &Value) -> Result<Option<Command>, OutOfMemory>
    ensures value { IfOk result (λ command. command ≡ aio_of (view call.now)) }
    ensures openable { IfOk result (λ command. IfSome command IsOpenable) }
{
    let (Some(name), Some(file), Some(size), Some(depth)) = (
        name(call, "name"),
        filename(call, "filename"),
        block_size_or(call),
        depth(call),
    ) else {
        return Ok(None);
    };
    Ok(Some(Command::Aio {
        name: Name::from_slice(alloc, name)?,
        file: Name::from_slice(alloc, file)?,
        size,
        depth,
    }))
}

fn is_zero_or_absent(call: &Value, key: &str) -> bool
    ensures { result ≡ is_zero_or_absent (param key.now (view call.now)) }
{
    match param(call, key) {
        Some(value) => value.as_u64() == Some(0),
        None => true,
    }
}

fn is_read_only(call: &Value) -> bool
    ensures { result
        ≡ is_true (option_and_then as_bool (param (codes "readonly") (view call.now))) }
{
    match param(call, "readonly") {
        Some(value) => value.as_bool() == Some(true),
        None => false,
    }
}

/// Whether a call asks for a device without metadata or protection that takes writes.
pub(crate) fn is_plain(call: &Value) -> bool
    ensures { result ≡ is_plain (view call.now) }
{
    is_zero_or_absent(call, "md_size") && is_zero_or_absent(call, "dif_type") && !is_read_only(call)
}
