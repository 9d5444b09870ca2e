//! What configurations mean. A case has a whole text, the calls of its one subsystem, or one call's
//! method and parameters; the answer has the commands, or the refusal.
mod command;

use crate::words::{decoded, first_word};
use bd_base::OutOfMemory;
use bd_config::{Command, ConfigError, read_config};
use std::alloc::Global;

pub(crate) fn answer(alloc: Global, case: &str) -> Result<String, OutOfMemory> {
    let (form, rest) = first_word(case);
    let text = match form {
        "text" => decoded(alloc, rest)?,
        "calls" => with_calls(alloc, decoded(alloc, rest)?.as_slice())?,
        "call" => with_call(alloc, rest)?,
        _ => Vec::new(alloc),
    };
    meaning(alloc, text.as_slice())
}

// A configuration of one call, of this method with these parameters.
fn with_call(alloc: Global, call: &str) -> Result<Vec<u8>, OutOfMemory> {
    let (method, params) = first_word(call);
    let params = decoded(alloc, params)?;
    let mut call = Vec::from_slice(alloc, b"{\"method\":\"")?;
    call.extend_from_slice(method.as_bytes())?;
    call.extend_from_slice(b"\",\"params\":{")?;
    call.extend_from_slice(params.as_slice())?;
    call.extend_from_slice(b"}}")?;
    with_calls(alloc, call.as_slice())
}

// A configuration whose one subsystem has these calls.
fn with_calls(alloc: Global, calls: &[u8]) -> Result<Vec<u8>, OutOfMemory> {
    let before = b"{\"subsystems\":[{\"subsystem\":\"bdev\",\"config\":[";
    let mut text = Vec::from_slice(alloc, before)?;
    text.extend_from_slice(calls)?;
    text.extend_from_slice(b"]}]}")?;
    Ok(text)
}

fn meaning(alloc: Global, text: &[u8]) -> Result<String, OutOfMemory> {
    match read_config(alloc, text) {
        Ok(commands) => told(alloc, commands.as_slice()),
        Err(ConfigError::OutOfMemory) => Err(OutOfMemory),
        Err(ConfigError::Text) => Ok(String::from_str(alloc, "text")?),
        Err(ConfigError::Shape(place)) => Ok(format!(in alloc; "shape {place}")?),
        Err(ConfigError::Method { index, code }) => Ok(format!(in alloc; "method {index} {code}")?),
    }
}

fn told(alloc: Global, commands: &[Command]) -> Result<String, OutOfMemory> {
    if commands.is_empty() {
        return Ok(String::from_str(alloc, "no command")?);
    }
    let mut told = String::new(alloc);
    for command in commands {
        if !told.is_empty() {
            told.push_str("; ")?;
        }
        told.push_str(command::told(alloc, command)?.as_str())?;
    }
    Ok(told)
}
