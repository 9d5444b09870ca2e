//! Calls that inject errors and set limits.
ghost use Rattle.std.specs.Prelude.{◌≡◌, ◌≤◌, ◌^◌, IfOk, IfSome, option_and_then, codes};
ghost use Rattle.serde_json.specs.View.{view};
ghost use Rattle.bd_config.specs.Commands.{IsOpenable, param, text_from, kind_named, is_corrupt, types_named, types_from, inject_of, limit_from, rates_of, has_rate, limits_of, type_without_data};

use crate::command::Command;
use crate::param::{name, number, number_or, param, text};
use bd_base::{ErrKind, IoSet, Name, OutOfMemory, RateSet};
use serde_json::Value;
use std::alloc::Global;

const NO_TYPE: IoSet = IoSet {
    read: false,
    write: false,
    zeroes: false,
    unmap: false,
    flush: false,
};

fn kind_named(word: &str) -> Option<ErrKind>
    ensures { result ≡ kind_named word.now }
{
    if word == "failure" {
        Some(ErrKind::Failure)
    } else if word == "pending" {
        Some(ErrKind::Pending)
    } else if word == "corrupt_data" {
        Some(ErrKind::Corrupt)
    } else {
        None
    }
}

// The one type of request without data that a word names.
fn type_without_data(word: &str) -> Option<IoSet>
    ensures { result ≡ type_without_data word.now }
{
    if word == "write_zeroes" {
        Some(IoSet {
            zeroes: true,
            ..NO_TYPE
        })
    } else if word == "unmap" {
        Some(IoSet {
            unmap: true,
            ..NO_TYPE
        })
    } else if word == "flush" {
        Some(IoSet {
            flush: true,
            ..NO_TYPE
        })
    } else {
        None
    }
}

// The types of request that a word names, for an error that needs data or for one that doesn't.
fn types_named(needs_data: bool, word: &str) -> Option<IoSet>
    ensures { result ≡ types_named needs_data word.now }
{
    if word == "read" {
        Some(IoSet {
            read: true,
            ..NO_TYPE
        })
    } else if word == "write" {
        Some(IoSet {
            write: true,
            ..NO_TYPE
        })
    } else if word == "all" {
        Some(IoSet {
            read: true,
            write: true,
            zeroes: !needs_data,
            unmap: !needs_data,
            flush: !needs_data,
        })
    } else if needs_data {
        None
    } else {
        type_without_data(word)
    }
}

fn kind(call: &Value) -> Option<ErrKind>
    ensures { result
        ≡ option_and_then kind_named (text_from (param (codes "error_type") (view call.now))) }
{
    kind_named(text(call, "error_type")?)
}

fn types(call: &Value, kind: ErrKind) -> Option<IoSet>
    ensures { result ≡ types_from kind (param (codes "io_type") (view call.now)) }
{
    let needs_data = match kind {
        ErrKind::Failure | ErrKind::Pending => false,
        ErrKind::Corrupt => true,
    };
    types_named(needs_data, text(call, "io_type")?)
}

/// An injected error; none where a parameter is wrong.
pub(crate) fn inject(alloc: Global, call: &Value) -> Result<Option<Command>, OutOfMemory>
    ensures value { IfOk result (λ command. command ≡ inject_of (view call.now)) }
    ensures openable { IfOk result (λ command. IfSome command IsOpenable) }
{
    let Some(kind) = kind(call) else {
        return Ok(None);
    };
    let (Some(name), Some(types), Some(count)) = (
        name(call, "name"),
        types(call, kind),
        number_or(call, "num", 1, 0, 4_294_967_295),
    ) else {
        return Ok(None);
    };
    Ok(Some(Command::InjectError {
        name: Name::from_slice(alloc, name)?,
        types,
        kind,
        count: count as u32,
    }))
}

// A limit up to the most; absent it is left as it was.
fn limit(call: &Value, key: &str, most: u64) -> Option<Option<u64>>
    ensures { result ≡ limit_from most (param key.now (view call.now)) }
{
    if param(call, key).is_none() {
        Some(None)
    } else {
        Some(Some(number(call, key, 0, most)?))
    }
}

fn rates(call: &Value) -> Option<RateSet>
    ensures { result ≡ rates_of (view call.now) }
{
    Some(RateSet {
        rw_ios_per_sec: limit(call, "rw_ios_per_sec", 1_000_000_000)?,
        rw_mbytes_per_sec: limit(call, "rw_mbytes_per_sec", 1_000_000)?,
        r_mbytes_per_sec: limit(call, "r_mbytes_per_sec", 1_000_000)?,
        w_mbytes_per_sec: limit(call, "w_mbytes_per_sec", 1_000_000)?,
    })
}

fn has_rate(rates: &RateSet) -> bool
    ensures { result ≡ has_rate rates.now }
{
    rates.rw_ios_per_sec.is_some()
        || rates.rw_mbytes_per_sec.is_some()
        || rates.r_mbytes_per_sec.is_some()
        || rates.w_mbytes_per_sec.is_some()
}

/// Limits of a device; none where a parameter is wrong or no limit is given.
pub(crate) fn limits(alloc: Global, call: &Value) -> Result<Option<Command>, OutOfMemory>
    ensures value { IfOk result (λ command. command ≡ limits_of (view call.now)) }
    ensures openable { IfOk result (λ command. IfSome command IsOpenable) }
{
    let (Some(name), Some(rates)) = (name(call, "name"), rates(call)) else {
        return Ok(None);
    };
    if !has_rate(&rates) {
        return Ok(None);
    }
    Ok(Some(Command::SetLimits {
        name: Name::from_slice(alloc, name)?,
        rates,
    }))
}
