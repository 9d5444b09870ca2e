//! A run, with its history written after its report.
ghost use Rattle.std.specs.Prelude.{◌≡◌, ◌++◌, ◌⊎◌, map, string_bytes, IfOk, OnOk, IfErr, OnErr, MatchResult, None, Some, Err};
ghost use Rattle.std.specs.Io.KnownBytes.{Appends};
ghost use Rattle.bd_disk_pool.specs.Covering.{AreClosed};
ghost use Rattle.bd_outside.specs.Sink.{SinkState, Fails, StaysUntold};
ghost use Rattle.bd_report.specs.Writing.{AppendsPrefix};
ghost use Rattle.bd_top.specs.declared.fault.Fault.{Fault as Refusal};
ghost use Rattle.bd_top.specs.Run.{IsWrong, NamesNoFile, NothingFails, WritesNothing};
ghost use Rattle.bd_top.specs.Words.{Asked as Meant};
ghost use Rattle.bdevtrace.specs.Traced.{asks_for_script, traced_of, kept_fault, WasPlayed, IsTraced, TraceCause, IsInForm};

use crate::kept::Kept;
use bd_outside::{Clock, Failed, Gate, Host, Sink};
use bd_report::writing::write_all;
use bd_top::{Fault, Ran, run};
use bd_trace::history_text;
use std::marker::Send;
use std::sync::Wait;
use std::thread::Threads;

// What was played: its history, and its report.
#[derive(Drop)]
struct Played {
    ran: Ran,
    report: Vec<u8>,
}

// Whether the words ask for a script.
fn asks_for_script(words: &[String]) -> bool
    ensures { result ≡ asks_for_script (map string_bytes words.now) }
{
    match words {
        [] => false,
        [word, ..] => word.as_str() == "generate",
    }
}

// The fault of a run whose output was kept in memory, which fails only where memory ran out.
fn kept_fault(fault: Fault) -> Fault
    ensures { result ≡ kept_fault fault }
{
    match fault {
        Fault::WriteFault => Fault::OutOfMemory,
        fault => fault,
    }
}

// Plays what the words ask, and keeps the report in memory.
fn play<R: AllocGlobal + Threads + Wait + Sync, H: Host, C: Clock + Sync, G: Gate + Sync>(
    rt: &R,
    words: &[String],
    host: &mut H,
    clock: &C,
    gate: &G,
) -> Result<Played, Fault>
where
    H::Disk: Send,
    ensures played { IfOk result (λ p. WasPlayed (C.range clock.now) (map string_bytes words.now) (H.state host.old) (H.state host.new) p.ran.trace p.report.items) }
    ensures status { IfOk result (λ p. p.ran.status ≡ 0) }
    ensures usage { traced_of (map string_bytes words.now) ≡ None → result ≡ Err Fault.Usage }
    ensures cause { (before after : SinkState) → IfErr result (TraceCause (C.range clock.now) (map string_bytes words.now) (H.state host.old) (H.state host.new) before after) }
    ensures complete { (before after : SinkState) → IsInForm (map string_bytes words.now) (H.state host.old)
        → NothingFails (H.state host.old) (H.state host.new) before after
        → IfErr result (λ fault. fault ≡ Fault.OutOfMemory) }
    ensures refused { (before after : SinkState) (fault : Refusal) → IsWrong (map string_bytes words.now) (H.state host.old) fault
        → NothingFails (H.state host.old) (H.state host.new) before after
        → MatchResult result (λ _played. ⊥) (λ given. (given ≡ fault) ⊎ (given ≡ Fault.OutOfMemory)) }
    ensures unread { (asked : Meant) → traced_of (map string_bytes words.now) ≡ Some asked → NamesNoFile asked
        → H.state host.new ≡ H.state host.old }
    ensures closed { AreClosed (H.state host.old).openings (H.state host.new).openings }
{
    if asks_for_script(words) {
        return Err(Fault::Usage);
    }
    let mut kept = Kept::new(rt.alloc());
    match run(rt, words, host, &mut kept, clock, gate) {
        Ok(ran) => Ok(Played {
            ran,
            report: kept.into_bytes(),
        }),
        Err(fault) => Err(kept_fault(fault)),
    }
}

// Writes one text and then another. Where the output fails, a prefix of both together was written.
#[tactic(auto, using(crate::proofs::Writing::of_first, crate::proofs::Writing::of_second))]
fn write_both<K: Sink>(out: &mut K, first: &[u8], second: &[u8]) -> Result<(), Failed>
    ensures ok { OnOk result (Appends (K.state out.old).written (K.state out.new).written (first.now ++ second.now)) }
    ensures prefix { OnErr result (AppendsPrefix (K.state out.old).written (K.state out.new).written (first.now ++ second.now)) }
    ensures untold { StaysUntold (K.state out.old) (K.state out.new) }
    ensures err { OnErr result (Fails (K.state out.old) (K.state out.new)) }
{
    write_all(out, first)?;
    write_all(out, second)
}

/// Does what the words ask, as `bd_top::run` does it, and writes the report and after it the history.
///
/// The words are those of `run`, but for `generate`, which plays nothing and is outside the grammar here.
/// The report is kept in memory until the text of the history is there: so each fault but that of the
/// output leaves the output as it was. Faults are looked for in the order of `run`.
pub(crate) fn trace<
    R: AllocGlobal + Threads + Wait + Sync,
    H: Host,
    K: Sink,
    C: Clock + Sync,
    G: Gate + Sync,
>(rt: &R, words: &[String], host: &mut H, out: &mut K, clock: &C, gate: &G) -> Result<Ran, Fault>
where
    H::Disk: Send,
    ensures traced { IfOk result (λ r. IsTraced (C.range clock.now) (map string_bytes words.now) (H.state host.old) (H.state host.new) r.trace (K.state out.old) (K.state out.new)) }
    ensures status { IfOk result (λ r. r.status ≡ 0) }
    ensures usage { traced_of (map string_bytes words.now) ≡ None → result ≡ Err Fault.Usage }
    ensures cause { IfErr result (TraceCause (C.range clock.now) (map string_bytes words.now) (H.state host.old) (H.state host.new) (K.state out.old) (K.state out.new)) }
    ensures complete { IsInForm (map string_bytes words.now) (H.state host.old)
        → NothingFails (H.state host.old) (H.state host.new) (K.state out.old) (K.state out.new)
        → IfErr result (λ fault. fault ≡ Fault.OutOfMemory) }
    ensures refused { (fault : Refusal) → IsWrong (map string_bytes words.now) (H.state host.old) fault
        → NothingFails (H.state host.old) (H.state host.new) (K.state out.old) (K.state out.new)
        → MatchResult result (λ _ran. ⊥) (λ given. (given ≡ fault) ⊎ (given ≡ Fault.OutOfMemory)) }
    ensures unread { (asked : Meant) → traced_of (map string_bytes words.now) ≡ Some asked → NamesNoFile asked
        → H.state host.new ≡ H.state host.old }
    ensures closed { AreClosed (H.state host.old).openings (H.state host.new).openings }
    ensures nothing { IfErr result (WritesNothing (K.state out.old) (K.state out.new)) }
    ensures untold { StaysUntold (K.state out.old) (K.state out.new) }
{
    let Played { ran, report } = play(rt, words, host, clock, gate)?;
    let history = history_text(rt.alloc(), ran.trace.entries())?;
    match write_both(out, report.as_slice(), history.as_slice()) {
        Ok(()) => Ok(ran),
        Err(Failed) => Err(Fault::WriteFault),
    }
}
