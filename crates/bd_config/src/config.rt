//! Reading a configuration.
ghost use Rattle.std.specs.Prelude.{◌≡◌, ℕ, ℤ, List, map, vec_len, Option, None, Some, Ok, Err, IfOk, IsErrOf, MatchResult, All};
ghost use Rattle.serde_json.specs.Data.{Data};
ghost use Rattle.serde_json.specs.View.{view};
ghost use Rattle.bd_config.specs.Shape.{subsystems_of, calls_of};
ghost use Rattle.bd_config.specs.Commands.{IsOpenable};
ghost use Rattle.bd_config.specs.Config.{IsJson, IsConfig, IsShapeError, IsMethodError, AsksFor, Refuses, answers_of, first_outside, first_refused, shape_fault, commands_from};
ghost use Rattle.bd_config.specs.declared.command.Command.{Command as Asked};

use crate::command::Command;
use crate::method::answer;
use crate::shape::{calls_in, calls_or_empty, subsystems_of};
use bd_base::OutOfMemory;
use serde_json::Value;
use std::alloc::Global;

/// Why bytes are no configuration.
#[derive(Clone, Copy, PartialEq, Eq)]
pub enum ConfigError {
    OutOfMemory,
    /// They are no JSON text.
    Text,
    /// The first subsystem of the wrong shape, counted from 1; 0 where there is no array of them.
    Shape(u32),
    /// The first call that is refused, counted from 0, and its code.
    Method { index: u32, code: i32 },
}

impl From<OutOfMemory> for ConfigError {
    ghost use Rattle.std.specs.Prelude.{◌≡◌};
    ghost use Rattle.bd_config.specs.declared.config.ConfigError.TheVariants as errors;

    ghost from_gives = { λ _ error. error ≡ errors.OutOfMemory };

    fn from(_e: OutOfMemory) -> ConfigError {
        ConfigError::OutOfMemory
    }
}

// A place as a number of 32 bits; a place that has no such number answers out of memory.
fn place_of(n: usize) -> Result<u32, OutOfMemory>
    ensures { IfOk result (λ place. place ≡ n) }
{
    match u32::try_from(n) {
        Ok(place) => Ok(place),
        Err(_) => Err(OutOfMemory),
    }
}

// Whether each is a subsystem; if not, the place of the first that isn't, from 1.
fn first_outside(subsystems: &[Value]) -> Option<usize>
    ensures { result ≡ first_outside 1 (map view subsystems.now) }
{
    let mut place = 1;
    for subsystem in subsystems {
        if calls_in(subsystem).is_none() {
            return Some(place);
        }
        place += 1;
    }
    None
}

// Adds the commands of these calls. If one is refused, its code, with the commands before it added.
fn read_calls(
    alloc: Global,
    calls: &[Value],
    commands: &mut Vec<Command>,
) -> Result<Option<i32>, OutOfMemory>
    ensures all { result ≡ Ok None
        → commands_from commands.old.items (map view calls.now) ≡ Ok commands.new.items }
    ensures refused { (code : ℤ) → result ≡ Ok (Some code)
        → commands_from commands.old.items (map view calls.now)
        ≡ Err (vec_len commands.new, code) }
    ensures openable { All IsOpenable commands.old.items → All IsOpenable commands.new.items }
{
    for call in calls {
        match answer(alloc, call)? {
            Ok(command) => commands.push(command)?,
            Err(code) => return Ok(Some(code)),
        }
    }
    Ok(None)
}

// The same for the calls of these subsystems.
fn read_subsystems(
    alloc: Global,
    subsystems: &[Value],
    commands: &mut Vec<Command>,
) -> Result<Option<i32>, OutOfMemory>
    ensures all { result ≡ Ok None
        → commands_from commands.old.items (calls_of (map view subsystems.now))
        ≡ Ok commands.new.items }
    ensures refused { (code : ℤ) → result ≡ Ok (Some code)
        → commands_from commands.old.items (calls_of (map view subsystems.now))
        ≡ Err (vec_len commands.new, code) }
    ensures openable { All IsOpenable commands.old.items → All IsOpenable commands.new.items }
{
    for subsystem in subsystems {
        let refused = read_calls(alloc, calls_or_empty(subsystem), commands)?;
        if refused.is_some() {
            return Ok(refused);
        }
    }
    Ok(None)
}

// The commands of all calls of these subsystems.
fn read_commands(alloc: Global, subsystems: &[Value]) -> Result<Vec<Command>, ConfigError>
    ensures ok { IfOk result (λ commands. answers_of (map view subsystems.now) ≡ map Ok commands.items) }
    ensures text { ¬ IsErrOf result ConfigError.Text }
    ensures shape { (place : ℕ) → ¬ IsErrOf result (ConfigError.Shape place) }
    ensures method { (index : ℕ) (code : ℤ) → IsErrOf result (ConfigError.Method index code)
        → first_refused 0 (answers_of (map view subsystems.now)) ≡ Some (index, code) }
    ensures openable { IfOk result (λ commands. All IsOpenable commands.items) }
{
    let mut commands = Vec::new(alloc);
    match read_subsystems(alloc, subsystems, &mut commands)? {
        None => Ok(commands),
        Some(code) => Err(ConfigError::Method {
            index: place_of(commands.len())?,
            code,
        }),
    }
}

fn read_value(alloc: Global, value: &Value) -> Result<Vec<Command>, ConfigError>
    ensures ok { IfOk result (λ commands. AsksFor (view value.now) commands.items) }
    ensures text { ¬ IsErrOf result ConfigError.Text }
    ensures shape { (place : ℕ) → IsErrOf result (ConfigError.Shape place)
        → shape_fault (subsystems_of (view value.now)) ≡ Some place }
    ensures method { (index : ℕ) (code : ℤ) → IsErrOf result (ConfigError.Method index code)
        → Refuses (view value.now) index code }
    ensures openable { IfOk result (λ commands. All IsOpenable commands.items) }
{
    let Some(subsystems) = subsystems_of(value) else {
        return Err(ConfigError::Shape(0));
    };
    if let Some(place) = first_outside(subsystems) {
        return Err(ConfigError::Shape(place_of(place)?));
    }
    read_commands(alloc, subsystems)
}

/// Reads a configuration: the commands of all calls of its subsystems `bdev`, in order. A refusal
/// names the first cause: bytes that are no JSON text; then the first place of the wrong shape; then
/// the first call that is refused, with its code.
pub fn read_config(alloc: Global, bytes: &[u8]) -> Result<Vec<Command>, ConfigError>
    ensures ok { IfOk result (λ commands. IsConfig bytes.now commands.items) }
    ensures text { IsErrOf result ConfigError.Text → (value : Data) → ¬ IsJson bytes.now value }
    ensures shape { (place : ℕ) → IsErrOf result (ConfigError.Shape place) → IsShapeError bytes.now place }
    ensures method { (index : ℕ) (code : ℤ) → IsErrOf result (ConfigError.Method index code)
        → IsMethodError bytes.now index code }
    ensures reads { (asked : List Asked) → IsConfig bytes.now asked
        → MatchResult result (λ commands. commands.items ≡ asked) (λ error. error ≡ ConfigError.OutOfMemory) }
    ensures openable { IfOk result (λ commands. All IsOpenable commands.items) }
{
    let value = match Value::from_slice(alloc, bytes) {
        Ok(value) => value,
        Err(e) if e.is_memory() => return Err(ConfigError::OutOfMemory),
        Err(_) => return Err(ConfigError::Text),
    };
    read_value(alloc, &value)
}
