//! The words of a command line.
ghost use Rattle.std.specs.Prelude.{◌≡◌, ◌≤◌, map, string_bytes, option_map, option_and_then, IfSome};
ghost use Rattle.bd_jobs.specs.Words.{number_of};
ghost use Rattle.bd_top.specs.Words.{seen, is_file, threads_in, reactors_in, work_in, drive_of, playing_with, playing_of, threads_of, run_of, exercise_of, generate_of, asked_of, IsThreadCount, IsInRange};

use bd_jobs::number;
use bd_node::Drive;

/// Who plays: how many threads (1 to 16), and who drives them.
#[derive(Clone, Copy, PartialEq, Eq)]
pub(crate) struct Playing {
    pub threads: u32,
    pub drive: Drive,
}

/// What a run is asked: its two files, and who plays.
#[derive(Clone, Copy, PartialEq, Eq)]
pub(crate) struct Arguments<'a> {
    pub config: &'a str,
    pub jobs: &'a str,
    pub playing: Playing,
}

/// What the words ask.
#[derive(Clone, Copy, PartialEq, Eq)]
pub(crate) enum Asked<'a> {
    /// That two files are played.
    Run(Arguments<'a>),
    /// That the built-in configuration is played with the generated script, 1 to 500 numbers a thread.
    Exercise { numbers: u32, playing: Playing },
    /// That this script is written for 1 to 16 threads.
    Generate { numbers: u32, threads: u32 },
}

// The option that says how many threads play.
const THREADS: &str = "--threads";

// The option that says by which schedule they take turns.
const SCHEDULE: &str = "--schedule";

// The option that says how many reactors drive them.
const REACTORS: &str = "--reactors";

// ---- numbers

// The number that a word is.
fn number_in(word: &String) -> Option<u64>
    ensures { result ≡ number_of (string_bytes word.now) }
{
    number(word.as_bytes())
}

// The number of threads that a word is, where it is one in its range.
fn threads_in(word: &String) -> Option<u32>
    ensures meaning { result ≡ threads_in (string_bytes word.now) }
    ensures range { IfSome result IsThreadCount }
{
    let threads = number_in(word)?;
    if threads < 1 || 16 < threads {
        return None;
    }
    Some(threads as u32)
}

// The number of reactors that a word is, where it is one in its range.
fn reactors_in(word: &String) -> Option<u32>
    ensures { result ≡ reactors_in (string_bytes word.now) }
{
    let reactors = number_in(word)?;
    if reactors < 1 || 8 < reactors {
        return None;
    }
    Some(reactors as u32)
}

// How many numbers of generated work a word asks for, where that is in its range.
fn work_in(word: &String) -> Option<u32>
    ensures meaning { result ≡ work_in (string_bytes word.now) }
    ensures range { IfSome result (λ numbers. numbers ≤ 500) }
{
    let numbers = number_in(word)?;
    if numbers < 1 || 500 < numbers {
        return None;
    }
    Some(numbers as u32)
}

// ---- options

// Who drives the threads, by an option and its number.
fn drive_of(name: &String, value: &String) -> Option<Drive>
    ensures { result ≡ drive_of (string_bytes name.now) (string_bytes value.now) }
{
    if name.as_str() == SCHEDULE {
        return number_in(value).map(Drive::Schedule);
    }
    if name.as_str() == REACTORS {
        return reactors_in(value).map(Drive::Reactors);
    }
    None
}

// Who plays, where both are known.
fn playing_with(threads: Option<u32>, drive: Option<Drive>) -> Option<Playing>
    requires { IfSome threads IsThreadCount }
    ensures meaning { result ≡ playing_with threads drive }
    ensures range { IfSome result (λ p. IsThreadCount p.threads) }
{
    Some(Playing {
        threads: threads?,
        drive: drive?,
    })
}

// Who plays, by the options.
fn playing_of(options: &[String]) -> Option<Playing>
    ensures meaning { result ≡ playing_of (map string_bytes options.now) }
    ensures range { IfSome result (λ p. IsThreadCount p.threads) }
{
    let one = Drive::Reactors(1);
    match options {
        [] => playing_with(Some(1), Some(one)),
        [name, value] if name.as_str() == THREADS => playing_with(threads_in(value), Some(one)),
        [name, value] => playing_with(Some(1), drive_of(name, value)),
        [name, value, other, more] if name.as_str() == THREADS => {
            playing_with(threads_in(value), drive_of(other, more))
        }
        [name, value, other, more] if other.as_str() == THREADS => {
            playing_with(threads_in(more), drive_of(name, value))
        }
        _ => None,
    }
}

// How many threads a script is for, by the options.
fn threads_of(options: &[String]) -> Option<u32>
    ensures meaning { result ≡ threads_of (map string_bytes options.now) }
    ensures range { IfSome result IsThreadCount }
{
    match options {
        [] => Some(1),
        [name, value] if name.as_str() == THREADS => threads_in(value),
        _ => None,
    }
}

// ---- commands

// A file's name isn't empty, and doesn't begin with `-`.
fn is_file(word: &str) -> bool
    ensures { result ≡ is_file word.now }
{
    match word.as_bytes() {
        [] => false,
        [first, ..] => *first != b'-',
    }
}

// Two files with the options after them.
fn run_of(words: &[String]) -> Option<Asked<'_>>
    ensures meaning { option_map seen result ≡ run_of (map string_bytes words.now) }
    ensures range { IfSome result (λ a. IsInRange (seen a)) }
{
    let [config, jobs, options @ ..] = words else {
        return None;
    };
    let (config, jobs) = (config.as_str(), jobs.as_str());
    if !is_file(config) || !is_file(jobs) {
        return None;
    }
    let playing = playing_of(options)?;
    Some(Asked::Run(Arguments {
        config,
        jobs,
        playing,
    }))
}

// How many numbers are exercised, with the options after it.
fn exercise_of(words: &[String]) -> Option<Asked<'_>>
    ensures meaning { option_map seen result ≡ exercise_of (map string_bytes words.now) }
    ensures range { IfSome result (λ a. IsInRange (seen a)) }
{
    let [numbers, options @ ..] = words else {
        return None;
    };
    let numbers = work_in(numbers)?;
    let playing = playing_of(options)?;
    Some(Asked::Exercise { numbers, playing })
}

// How many numbers a script has for each thread, with the option after it.
fn generate_of(words: &[String]) -> Option<Asked<'_>>
    ensures meaning { option_map seen result ≡ generate_of (map string_bytes words.now) }
    ensures range { IfSome result (λ a. IsInRange (seen a)) }
{
    let [numbers, options @ ..] = words else {
        return None;
    };
    let numbers = work_in(numbers)?;
    let threads = threads_of(options)?;
    Some(Asked::Generate { numbers, threads })
}

/// What the words ask: `run CONFIG JOBS`, `exercise N` or `generate N` with their options. Nothing for
/// any other words.
pub(crate) fn parse(words: &[String]) -> Option<Asked<'_>>
    ensures meaning { option_map seen result ≡ asked_of (map string_bytes words.now) }
    ensures range { IfSome result (λ a. IsInRange (seen a)) }
{
    let [word, rest @ ..] = words else {
        return None;
    };
    match word.as_str() {
        "run" => run_of(rest),
        "exercise" => exercise_of(rest),
        "generate" => generate_of(rest),
        _ => None,
    }
}
