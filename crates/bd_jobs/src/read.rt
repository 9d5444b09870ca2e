//! A script read line by line.
ghost use Rattle.std.specs.Prelude.{◌≡◌, ℕ, ◌<◌, map, filter, length, Ok, Err, Some, None, IfOk, OnOk, [], ◌∷◌, ◌++◌, List};
ghost use Rattle.bd_jobs.specs.declared.command.Command.{Command};
ghost use Rattle.bd_jobs.specs.Words.{words_of};
ghost use Rattle.bd_jobs.specs.ScriptGrammar.{is_bare, command_at, words_command, scripts_of, IsFirstOutside};
ghost use Rattle.bd_jobs.specs.Held.{all_scripts, lines_at, has_line};

use crate::command::{Command, command_job};
use crate::word::{is_all_blank, number, words};
use bd_base::{Line, OutOfMemory, Rows, Script};
use bstr::ByteSlice;
use std::alloc::Global;

/// The most lines of a script.
const MAX_LINES: u32 = 20_000;

/// Why a text gives no scripts.
#[derive(Clone, Copy, PartialEq, Eq)]
pub enum JobError {
    OutOfMemory,
    /// The line of this number is the first that is outside the grammar.
    Line(u32),
}

impl From<OutOfMemory> for JobError {
    ghost use Rattle.std.specs.Prelude.{◌≡◌};
    ghost use Rattle.bd_jobs.specs.declared.read.JobError.TheVariants as errors;

    ghost from_gives = { λ _ error. error ≡ errors.OutOfMemory };

    fn from(_e: OutOfMemory) -> JobError {
        JobError::OutOfMemory
    }
}

// A line without a command.
fn is_bare(line: &[u8]) -> bool
    ensures { result ≡ is_bare line.now }
{
    line.first().is_some_and(|b| *b == b'#') || is_all_blank(line)
}

// A script without a line for each thread.
fn empty_scripts(alloc: Global, threads: u32) -> Result<Vec<Script>, OutOfMemory>
    ensures { IfOk result (λ scripts. scripts.items ≡ all_scripts [] threads) }
{
    let mut scripts = Vec::new(alloc);
    for thread in 0..threads {
        scripts.push(Script {
            thread,
            lines: Rows::new(alloc),
        })?;
    }
    Ok(scripts)
}

// The lines of a thread among these scripts, which go by thread.
fn lines_at(scripts: &[Script], thread: u32) -> &[Line]
    ensures { result.now ≡ lines_at scripts.now thread }
{
    match scripts.get(thread as usize) {
        Some(script) => script.lines.as_slice(),
        None => &[],
    }
}

// The command of a thread's number and the words after it, where these scripts came before.
fn command_at(
    alloc: Global,
    scripts: &[Script],
    threads: u32,
    at: u32,
    thread: Option<u64>,
    word: &[u8],
    args: &[&[u8]],
) -> Result<Option<Command>, OutOfMemory>
    ensures { IfOk result (λ command. command ≡ command_at threads (lines_at scripts.now) at thread word.now (map (λ w. w.now) args.now)) }
{
    let Some(thread) = thread else {
        return Ok(None);
    };
    if thread >= u64::from(threads) {
        return Ok(None);
    }
    let thread = thread as u32;
    let Some(job) = command_job(alloc, lines_at(scripts, thread), word, args)? else {
        return Ok(None);
    };
    Ok(Some(Command {
        thread,
        line: Line { number: at, job },
    }))
}

// The command of a line's words, where these scripts came before.
fn words_command(
    alloc: Global,
    scripts: &[Script],
    threads: u32,
    at: u32,
    words: &[&[u8]],
) -> Result<Option<Command>, OutOfMemory>
    ensures { IfOk result (λ command. command ≡ words_command threads (lines_at scripts.now) at (map (λ w. w.now) words.now)) }
{
    match words {
        [thread, word, args @ ..] => {
            command_at(alloc, scripts, threads, at, number(thread), word, args)
        }
        _ => Ok(None),
    }
}

// The command of a line that isn't bare.
fn line_command(
    alloc: Global,
    scripts: &[Script],
    threads: u32,
    at: u32,
    line: &[u8],
) -> Result<Option<Command>, OutOfMemory>
    ensures { IfOk result (λ command. command ≡ words_command threads (lines_at scripts.now) at (words_of line.now)) }
{
    let words = words(alloc, line)?;
    words_command(alloc, scripts, threads, at, words.as_slice())
}

// Adds a command after the lines of its thread.
fn add(scripts: &mut Vec<Script>, command: Command) -> Result<(), OutOfMemory>
    requires { command.thread < length scripts.old.items }
    ensures { (commands : List Command) → (threads : ℕ) → scripts.old.items ≡ all_scripts commands threads → OnOk result (scripts.new.items ≡ all_scripts (commands ++ command ∷ []) threads) }
{
    let script = &mut scripts[command.thread as usize];
    script.lines.push(command.line)
}

// The scripts that have a line.
fn with_lines(scripts: Vec<Script>) -> Rows<Script>
    ensures { result ≡ filter has_line scripts.items }
{
    let mut scripts = scripts;
    scripts.retain(|script| script.lines.len() > 0);
    Rows::from_vec(scripts)
}

/// Reads the scripts of `threads` threads: a line has no command, or one of a thread below that
/// number. There is a script for each thread that has a line, by rising thread. `Line` comes exactly
/// where that line is the first one outside the grammar.
pub fn read_jobs(alloc: Global, bytes: &[u8], threads: u32) -> Result<Rows<Script>, JobError>
    ensures ok { IfOk result (λ scripts. scripts_of threads bytes.now ≡ Some scripts) }
    ensures line { (number : ℕ) → result ≡ Err (JobError.Line number) → IsFirstOutside threads bytes.now number }
    ensures text { (number : ℕ) → result ≡ Err (JobError.Line number) → scripts_of threads bytes.now ≡ None }
{
    let mut scripts = empty_scripts(alloc, threads)?;
    let mut at = 1u32;
    for line in bytes.lines() {
        if at > MAX_LINES {
            return Err(JobError::Line(at));
        }
        if !is_bare(line) {
            let Some(command) = line_command(alloc, scripts.as_slice(), threads, at, line)? else {
                return Err(JobError::Line(at));
            };
            add(&mut scripts, command)?;
        }
        at += 1;
    }
    Ok(with_lines(scripts))
}
