//! Plays a job script over the block devices of a configuration, or generated work over a built-in one,
//! and prints the report and after it the history: `bdevtrace run CONFIG JOBS`, `bdevtrace exercise N`.
#![tactic(auto)]

mod answer;
mod kept;
mod traced;

use answer::answer_to;
use bd_outside::OpenGate;
use bd_real::{Output, SystemClock, SystemHost};
use bd_top::Fault;
use std::env;
use std::io::{self, ErrorKind};
use std::marker::Send;
use std::process::ExitCode;
use std::rt::Runtime;
use std::sync::Wait;
use std::thread::Threads;
use traced::trace;

const VERSION: &str = "bdevtrace 0.1.0";

const HELP: &str = "\
bdevtrace: does what bdevrun does, and prints after the report the history of
the run, everything that its threads did, in order

usage: bdevtrace run CONFIG JOBS [--threads N] [--reactors N | --schedule N]
                             reads the configuration CONFIG (JSON) and the
                             script JOBS, and prints report and history
       bdevtrace exercise N [--threads N] [--reactors N | --schedule N]
                             plays generated work, N writes and reads (1 to
                             500) on each thread, over built-in devices
       bdevtrace --help      prints this
       bdevtrace --version   prints the version

  --threads N    plays on N threads, 1 to 16 (1)
  --reactors N   drives them by N reactors beside each other, 1 to 8 (1)
  --schedule N   lets them take turns as the number N says, 0 to 2^64 - 1

A history is described in the file docs/TRACE.md of the repository, and all
else in docs/FORMATS.md.";

// The words of the command line after the program's name. One that isn't text is a faulty usage.
fn words<R: Runtime + AllocGlobal>(rt: &R) -> Result<Vec<String>, Fault> {
    let mut args = match env::args(rt) {
        Ok(args) => args,
        Err(e) if e.kind() == ErrorKind::OutOfMemory => return Err(Fault::OutOfMemory),
        Err(_) => return Err(Fault::Usage),
    };
    let _program = args.next();
    match args.collect(rt.alloc()) {
        Ok(words) => Ok(words),
        Err(_) => Err(Fault::OutOfMemory),
    }
}

// Prints a text on standard output.
fn print<R: Runtime>(rt: &R, text: &str) -> Result<u8, Fault> {
    match println!(rt; "{text}") {
        Ok(()) => Ok(0),
        Err(_) => Err(Fault::WriteFault),
    }
}

// Does what the words ask, with the files, the output and the clock of the system.
fn do_asked<R: Runtime + AllocGlobal + Threads + Wait + Sync>(
    rt: &R,
    words: &[String],
) -> Result<u8, Fault>
where
    R::File: Send,
{
    let mut host = SystemHost::new(rt.alloc(), rt);
    let mut out = Output::new(io::writer(rt));
    let clock = SystemClock::new(rt);
    let ran = trace(rt, words, &mut host, &mut out, &clock, &OpenGate)?;
    Ok(ran.status)
}

// Does what the command line asks for, and gives the status to end with.
fn serve<R: Runtime + AllocGlobal + Threads + Wait + Sync>(rt: &R) -> Result<u8, Fault>
where
    R::File: Send,
{
    let words = words(rt)?;
    match words.as_slice() {
        [word] if word.as_str() == "--help" => print(rt, HELP),
        [word] if word.as_str() == "--version" => print(rt, VERSION),
        words => do_asked(rt, words),
    }
}

fn main(rt: HostRuntime) -> ExitCode {
    let answer = answer_to(serve(&rt));
    // Where standard error is closed too, the status alone tells of the fault.
    let _ = eprint!(rt; "{answer}");
    ExitCode::from(answer.status)
}
