//! The methods of the subsystem `bdev`, and the codes of their refusals.
ghost use Rattle.std.specs.Prelude.{◌≡◌, IfOk, IfSome};
ghost use Rattle.serde_json.specs.View.{view};
ghost use Rattle.bd_config.specs.Commands.{IsOpenable, sets_options, is_passed_over, or_invalid, base_or_invalid, answer_named, answer_of};

use crate::base::{aio, is_plain, malloc, null};
use crate::command::Command;
use crate::setting::{inject, limits};
use crate::shape::text_of;
use crate::stacked::{delay, error, passthru, split};
use bd_base::OutOfMemory;
use serde_json::Value;
use std::alloc::Global;

/// The method isn't one of those here: JSON-RPC's code.
const METHOD_NOT_FOUND: i32 = -32_601;

/// A parameter is absent, of the wrong form or out of its range: JSON-RPC's code.
const INVALID_PARAMS: i32 = -32_602;

/// The device would have metadata or protection, or take no writes: Linux's EOPNOTSUPP below zero.
const NOT_SUPPORTED: i32 = -95;

// Whether a method sets options of a module.
fn sets_options(method: &str) -> bool
    ensures { result ≡ sets_options method.now }
{
    method.as_bytes().ends_with("_set_options".as_bytes())
}

// Whether a method configures what isn't here.
fn is_passed_over(method: &str) -> bool
    ensures { result ≡ is_passed_over method.now }
{
    sets_options(method)
        || method == "bdev_wait_for_examine"
        || method == "bdev_examine"
        || method == "bdev_nvme_set_hotplug"
}

fn or_invalid(command: Option<Command>) -> Result<Command, i32>
    ensures value { result ≡ or_invalid command }
    ensures openable { IfSome command IsOpenable → IfOk result IsOpenable }
{
    match command {
        Some(command) => Ok(command),
        None => Err(INVALID_PARAMS),
    }
}

// The same of a device with blocks of its own, which is refused unless it is plain. Its parameters
// are looked at first.
fn base_or_invalid(plain: bool, command: Option<Command>) -> Result<Command, i32>
    ensures value { result ≡ base_or_invalid plain command }
    ensures openable { IfSome command IsOpenable → IfOk result IsOpenable }
{
    let command = or_invalid(command)?;
    if plain {
        Ok(command)
    } else {
        Err(NOT_SUPPORTED)
    }
}

fn answer_named(
    alloc: Global,
    method: &str,
    call: &Value,
) -> Result<Result<Command, i32>, OutOfMemory>
    ensures value { IfOk result (λ answer. answer ≡ answer_named method.now (view call.now)) }
    ensures openable { IfOk result (λ answer. IfOk answer IsOpenable) }
{
    if method == "bdev_malloc_create" {
        Ok(base_or_invalid(is_plain(call), malloc(alloc, call)?))
    } else if method == "bdev_null_create" {
        Ok(base_or_invalid(is_plain(call), null(alloc, call)?))
    } else if method == "bdev_aio_create" {
        Ok(base_or_invalid(is_plain(call), aio(alloc, call)?))
    } else if method == "bdev_passthru_create" {
        Ok(or_invalid(passthru(alloc, call)?))
    } else if method == "bdev_split_create" {
        Ok(or_invalid(split(alloc, call)?))
    } else if method == "bdev_delay_create" {
        Ok(or_invalid(delay(alloc, call)?))
    } else if method == "bdev_error_create" {
        Ok(or_invalid(error(alloc, call)?))
    } else if method == "bdev_error_inject_error" {
        Ok(or_invalid(inject(alloc, call)?))
    } else if method == "bdev_set_qos_limit" {
        Ok(or_invalid(limits(alloc, call)?))
    } else if is_passed_over(method) {
        Ok(Ok(Command::PassedOver))
    } else {
        Ok(Err(METHOD_NOT_FOUND))
    }
}

/// The command that a call asks for, or the code of its refusal.
pub(crate) fn answer(alloc: Global, call: &Value) -> Result<Result<Command, i32>, OutOfMemory>
    ensures value { IfOk result (λ answer. answer ≡ answer_of (view call.now)) }
    ensures openable { IfOk result (λ answer. IfOk answer IsOpenable) }
{
    match text_of(call, "method") {
        Some(method) => answer_named(alloc, method, call),
        None => Ok(Err(METHOD_NOT_FOUND)),
    }
}
