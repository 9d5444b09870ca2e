//! The commands of all scripts in rising order of line number.
ghost use Rattle.std.specs.Prelude.{◌≡◌, ◌++◌, List, map, flat_map, IfOk, OnOk};
ghost use Rattle.bd_base.specs.declared.act.Entry.{Entry};
ghost use Rattle.bd_report.specs.Order.{as_told, commands_in, commands_of, command_line};
ghost use Rattle.bd_report.specs.Report.{job_lines};

use bd_base::{Line, OutOfMemory, Script};
use std::alloc::Global;

/// A command and its thread.
#[derive(Clone, Copy)]
pub(crate) struct Command<'a> {
    pub(crate) thread: u32,
    pub(crate) line: &'a Line,
}

/// The commands of all scripts in rising order of line number; those of one number stand in the
/// order of the scripts. Out of memory is the only error.
pub(crate) fn in_order<'a>(
    alloc: Global,
    scripts: &'a [Script],
) -> Result<Vec<Command<'a>>, OutOfMemory>
    ensures { IfOk result (λ v. (trace : List Entry) → flat_map (command_line trace) v.items ≡ job_lines scripts.now trace) }
{
    let mut commands = commands_of(alloc, scripts)?;
    commands.sort_by_key(|command| command.line.number)?;
    Ok(commands)
}

// The commands of all scripts.
fn commands_of<'a>(alloc: Global, scripts: &'a [Script]) -> Result<Vec<Command<'a>>, OutOfMemory>
    ensures { IfOk result (λ v. map as_told v.items ≡ commands_of scripts.now) }
{
    let mut commands = Vec::new(alloc);
    for script in scripts {
        push_commands(&mut commands, script)?;
    }
    Ok(commands)
}

// Adds the commands of a script.
fn push_commands<'a>(commands: &mut Vec<Command<'a>>, script: &'a Script) -> Result<(), OutOfMemory>
    ensures { OnOk result (map as_told commands.new.items ≡ map as_told commands.old.items ++ commands_in script.now) }
{
    for line in script.lines.as_slice() {
        commands.push(Command {
            thread: script.thread,
            line,
        })?;
    }
    Ok(())
}
