//! The top call.
ghost use Rattle.std.specs.Prelude.{◌≡◌, ◌<◌, ◌≤◌, ◌⊎◌, ℕ, List, length, map, string_bytes, IfOk, IfErr, MatchResult, Option, None, Some, Err};
ghost use Rattle.bd_building.specs.AioDevices.{aio_devices, AreBasesAlone};
ghost use Rattle.bd_machine.specs.BlockMap.{StandsOnEarlier};
ghost use Rattle.bd_node.specs.Disks.{told_of};
ghost use Rattle.bd_node.specs.Times.{AreMomentsWithin, AreStartsWithin};
ghost use Rattle.bd_disk_pool.specs.Covering.{AreClosed};
ghost use Rattle.bd_outside.specs.File.{Told};
ghost use Rattle.bd_outside.specs.declared.opening.Opening.{Opening};
ghost use Rattle.bd_outside.specs.Sink.{StaysUntold};
ghost use Rattle.bd_top.specs.declared.fault.Fault.{Fault as Refusal};
ghost use Rattle.bd_top.specs.DiskRows.{AreSetOut, TellDisks};
ghost use Rattle.bd_top.specs.Run.{IsPlayed, AreFilesPlayed, IsExercised, IsGenerated, IsDone, IsRun, FileCause, AskedCause, Cause, AreInForm, IsWrong, NamesNoFile, NothingFails, WritesNothing};
ghost use Rattle.bd_top.specs.Words.{Asked as Meant, seen, seen_arguments, asked_of, IsInRange, IsThreadCount};

use crate::exercise::exercise_setup;
use crate::fault::Fault;
use crate::inputs::read_setup;
use crate::setup::Ready;
use crate::words::{Arguments, Asked, Playing, parse};
use bd_base::OutOfMemory;
use bd_disk_pool::{close_all, close_shelf};
use bd_jobs::generate;
use bd_node::{Drive, History, Outside, Played, play};
use bd_outside::{Clock, Failed, Gate, Host, MemHost, Sink};
use bd_report::report::report_with;
use bd_report::writing::write_all;
use std::alloc::Global;
use std::marker::Send;
use std::sync::Wait;
use std::thread::Threads;

/// A call that did what it was asked: its status, which is 0, and the history of what it played; none
/// where it played nothing.
#[derive(Drop)]
pub struct Ran {
    pub status: u8,
    pub trace: History,
}

// What was done: the history, and the text to be written.
#[derive(Drop)]
struct Done {
    trace: History,
    text: Vec<u8>,
}

// Plays the scripts of a setup over its disks as the drive has it, makes the report, and closes the
// disks, however that ends.
fn play_and_report<
    R: AllocGlobal + Threads + Wait + Sync,
    H: Host,
    C: Clock + Sync,
    G: Gate + Sync,
>(
    rt: &R,
    host: &mut H,
    ready: Ready<H::Disk>,
    drive: Drive,
    outside: &Outside<C, G>,
    full: bool,
) -> Result<Done, OutOfMemory>
where
    H::Disk: Send,
    requires some { 0 < ready.setup.threads }
    requires disks { length ready.disks.threads ≡ ready.setup.threads }
    ensures played { AreBasesAlone ready.setup → StandsOnEarlier ready.setup
        → IfOk result (λ done. IsPlayed (C.range outside.now.clock.now) ready.setup (told_of H.Disk.state ready.setup ready.disks.threads) full done.trace done.text.items) }
    ensures moments { IfOk result (λ done. AreMomentsWithin (C.range outside.now.clock.now) done.trace) }
    ensures starts { AreBasesAlone ready.setup → IfOk result (λ done. AreStartsWithin (C.range outside.now.clock.now) done.trace) }
    ensures disks { (told : List ℕ → Told) (base : Option (List Opening)) → AreBasesAlone ready.setup
        → AreSetOut H.Disk.state told (length ready.setup.devices) (aio_devices ready.setup) ready.disks base (H.state host.old).openings
        → IfOk result (λ done. TellDisks told (told_of H.Disk.state ready.setup ready.disks.threads) ready.setup done.trace base
        (H.state host.new).openings) }
    ensures closed { (told : List ℕ → Told) (base : Option (List Opening))
        → AreSetOut H.Disk.state told (length ready.setup.devices) (aio_devices ready.setup) ready.disks base (H.state host.old).openings
        → AreClosed base (H.state host.new).openings }
{
    let Ready { setup, disks } = ready;
    let (names, shelf) = match disks.shelve(rt.alloc()) {
        Ok(shelved) => shelved,
        Err(disks) => {
            close_all(host, disks);
            return Err(OutOfMemory);
        }
    };
    let (played, shelf) = play(rt, rt.alloc(), &setup, shelf, drive, outside);
    close_shelf(host, &names, shelf);
    let Played {
        history: trace,
        stats,
    } = played?;
    let text = report_with(rt.alloc(), &setup, trace.entries(), &stats, full)?;
    Ok(Done { trace, text })
}

// Plays two files.
fn run_files<R: AllocGlobal + Threads + Wait + Sync, H: Host, C: Clock + Sync, G: Gate + Sync>(
    rt: &R,
    arguments: Arguments<'_>,
    host: &mut H,
    outside: &Outside<C, G>,
) -> Result<Done, Fault>
where
    H::Disk: Send,
    requires { IsThreadCount arguments.playing.threads }
    ensures done { IfOk result (λ done. AreFilesPlayed (C.range outside.now.clock.now) (seen_arguments arguments.entry) (H.state host.old) (H.state host.new) done.trace done.text.items) }
    ensures moments { IfOk result (λ done. AreMomentsWithin (C.range outside.now.clock.now) done.trace) }
    ensures starts { IfOk result (λ done. AreStartsWithin (C.range outside.now.clock.now) done.trace) }
    ensures cause { IfErr result
        (FileCause (H.state host.old) (H.state host.new) arguments.entry.config.now arguments.entry.jobs.now arguments.entry.playing.threads) }
    ensures closed { AreClosed (H.state host.old).openings (H.state host.new).openings }
{
    let Arguments {
        config,
        jobs,
        playing,
    } = arguments;
    let ready = read_setup(rt.alloc(), host, config, jobs, playing.threads)?;
    match play_and_report(rt, host, ready, playing.drive, outside, true) {
        Ok(done) => Ok(done),
        Err(OutOfMemory) => Err(Fault::OutOfMemory),
    }
}

// Plays the built-in configuration with the generated script. They open no file, so a host without
// files serves.
fn exercise<R: AllocGlobal + Threads + Wait + Sync, C: Clock + Sync, G: Gate + Sync>(
    rt: &R,
    numbers: u32,
    playing: Playing,
    outside: &Outside<C, G>,
) -> Result<Done, OutOfMemory>
    requires numbers { numbers ≤ 500 }
    requires threads { IsThreadCount playing.threads }
    ensures done { IfOk result (λ done. IsExercised (C.range outside.now.clock.now) numbers playing.threads done.trace done.text.items) }
    ensures moments { IfOk result (λ done. AreMomentsWithin (C.range outside.now.clock.now) done.trace) }
    ensures starts { IfOk result (λ done. AreStartsWithin (C.range outside.now.clock.now) done.trace) }
{
    let alloc = rt.alloc();
    let mut host = MemHost::new(alloc, Vec::new(alloc), 0, Vec::new(alloc))?;
    let ready = exercise_setup(alloc, &mut host, numbers, playing.threads)?;
    play_and_report(rt, &mut host, ready, playing.drive, outside, false)
}

// Makes the generated script.
fn generate_only(alloc: Global, numbers: u32, threads: u32) -> Result<Done, OutOfMemory>
    requires numbers { numbers ≤ 500 }
    requires threads { IsThreadCount threads }
    ensures { IfOk result (λ done. IsGenerated numbers threads done.trace done.text.items) }
{
    let text = generate(alloc, numbers, threads)?;
    Ok(Done {
        trace: History::none(alloc),
        text,
    })
}

// Does what is asked.
fn do_asked<R: AllocGlobal + Threads + Wait + Sync, H: Host, C: Clock + Sync, G: Gate + Sync>(
    rt: &R,
    asked: Asked<'_>,
    host: &mut H,
    outside: &Outside<C, G>,
) -> Result<Done, Fault>
where
    H::Disk: Send,
    requires { IsInRange (seen asked) }
    ensures done { IfOk result (λ done. IsDone (C.range outside.now.clock.now) (seen asked.entry) (H.state host.old) (H.state host.new) done.trace done.text.items) }
    ensures moments { IfOk result (λ done. AreMomentsWithin (C.range outside.now.clock.now) done.trace) }
    ensures starts { IfOk result (λ done. AreStartsWithin (C.range outside.now.clock.now) done.trace) }
    ensures cause { IfErr result (AskedCause (seen asked.entry) (H.state host.old) (H.state host.new)) }
    ensures closed { AreClosed (H.state host.old).openings (H.state host.new).openings }
    ensures unread { NamesNoFile (seen asked.entry) → H.state host.new ≡ H.state host.old }
{
    match asked {
        Asked::Run(arguments) => run_files(rt, arguments, host, outside),
        Asked::Exercise { numbers, playing } => Ok(exercise(rt, numbers, playing, outside)?),
        Asked::Generate { numbers, threads } => Ok(generate_only(rt.alloc(), numbers, threads)?),
    }
}

/// Does what the words ask, and writes the report or the generated script.
///
/// `run CONFIG JOBS` reads the configuration and the script, plays the script, and writes the report.
/// `exercise N` does the same with the built-in configuration and the generated script, which has N
/// numbers (1 to 500) for each thread; it reads no file, and its report has no lines for single commands.
/// Both play on as many threads as `--threads` says (1 to 16, else 1). The threads are driven by as many
/// reactors as `--reactors` says (1 to 8, else 1), beside each other, each of which passes the gate before
/// a turn; or they take turns by the schedule that the number of `--schedule` seeds. For each turn the clock is asked
/// once, and all moments that the history names lie between those that it tells, if it tells them; so does the one
/// since which each limited device's timeslices passed. From the greatest of them on, no request is held longer than the
/// delay devices below its device hold one of its direction. Where time alone has to pass, it pauses between rounds.
/// `generate N` writes the generated script for as many threads as `--threads` says, and plays nothing.
///
/// The file of each aio device is opened as a disk just before its command is done, and all disks are
/// closed before this returns, whatever it returns. After a run, a host that tells its openings has one
/// row for each: the disk was opened over the device's file, did just the pieces that the history says the
/// device served, one after the other and to those ends, and was closed with what it told then: the content
/// that the run leaves the device, and a count of the flushes among them.
///
/// Faults are looked for in this order: the words; the configuration's file, its text, its shape, its
/// commands as they are read; then command after command, the file that it opens and how it is done;
/// the script's file and its grammar; the output. `cause` says when each comes: a file's fault names a
/// file that was due, and the script is due only once the configuration makes its devices. A disk that
/// fails while it serves is no fault of this call: the request that it failed at ends so.
#[tactic(auto, using(crate::proofs::Answers::of_asked, crate::proofs::Answers::names_none, crate::proofs::InForm::only_memory, crate::proofs::Wrong::only_this, crate::proofs::Wrong::not_done))]
pub fn run<
    R: AllocGlobal + Threads + Wait + Sync,
    H: Host,
    K: Sink,
    C: Clock + Sync,
    G: Gate + Sync,
>(rt: &R, words: &[String], host: &mut H, out: &mut K, clock: &C, gate: &G) -> Result<Ran, Fault>
where
    H::Disk: Send,
    ensures run { IfOk result (λ r. IsRun (C.range clock.now) (map string_bytes words.now) (H.state host.old) (H.state host.new) r.trace (K.state out.old) (K.state out.new)) }
    ensures moments { IfOk result (λ r. AreMomentsWithin (C.range clock.now) r.trace) }
    ensures starts { IfOk result (λ r. AreStartsWithin (C.range clock.now) r.trace) }
    ensures status { IfOk result (λ r. r.status ≡ 0) }
    ensures usage { asked_of (map string_bytes words.now) ≡ None → result ≡ Err Fault.Usage }
    ensures cause { IfErr result (Cause (C.range clock.now) (map string_bytes words.now) (H.state host.old) (H.state host.new) (K.state out.old) (K.state out.new)) }
    ensures complete { AreInForm (map string_bytes words.now) (H.state host.old)
        → NothingFails (H.state host.old) (H.state host.new) (K.state out.old) (K.state out.new)
        → IfErr result (λ fault. fault ≡ Fault.OutOfMemory) }
    ensures refused { (fault : Refusal) → IsWrong (map string_bytes words.now) (H.state host.old) fault
        → NothingFails (H.state host.old) (H.state host.new) (K.state out.old) (K.state out.new)
        → MatchResult result (λ _ran. ⊥) (λ given. (given ≡ fault) ⊎ (given ≡ Fault.OutOfMemory)) }
    ensures unread { (asked : Meant) → asked_of (map string_bytes words.now) ≡ Some asked → NamesNoFile asked
        → H.state host.new ≡ H.state host.old }
    ensures closed { AreClosed (H.state host.old).openings (H.state host.new).openings }
    ensures nothing { IfErr result (WritesNothing (K.state out.old) (K.state out.new)) }
    ensures untold { StaysUntold (K.state out.old) (K.state out.new) }
{
    let Some(asked) = parse(words) else {
        return Err(Fault::Usage);
    };
    let outside = Outside { clock, gate };
    let done = do_asked(rt, asked, host, &outside)?;
    let Done { trace, text } = done;
    match write_all(out, text.as_slice()) {
        Ok(()) => Ok(Ran { status: 0, trace }),
        Err(Failed) => Err(Fault::WriteFault),
    }
}
