//! The report, written out.
ghost use Rattle.std.specs.Prelude.{◌≡◌, ◌≤◌, OnOk, IfErr, OnErr};
ghost use Rattle.std.specs.Io.KnownBytes.{Appends};
ghost use Rattle.bd_outside.specs.Sink.{Fails, StaysUntold};
ghost use Rattle.bd_report.specs.Report.{report_with};
ghost use Rattle.bd_report.specs.Writing.{AppendsPrefix, ReportCause};

use crate::report::report_with;
use crate::stats::Stats;
use bd_base::{Entry, Setup};
use bd_outside::{Failed, Sink};
use std::alloc::Global;

/// Why a report isn't written whole.
#[derive(Clone, Copy, PartialEq, Eq)]
pub enum ReportError {
    /// Out of memory before anything was written.
    OutOfMemory,
    /// The sink failed; what was written before is a prefix of the report.
    WriteFault,
}

/// Writes the report of a run by its statistics, as a counter gives them that counted the trace part by
/// part. The text is made whole before its first byte is written.
pub fn write_report<K: Sink>(
    alloc: Global,
    out: &mut K,
    setup: &Setup,
    trace: &[Entry],
    stats: &Stats,
    full: bool,
) -> Result<(), ReportError>
    ensures ok { OnOk result (Appends (K.state out.old).written (K.state out.new).written (report_with full setup.now trace.now stats.now)) }
    ensures cause { IfErr result (ReportCause (K.state out.old) (K.state out.new) (report_with full setup.now trace.now stats.now)) }
    ensures untold { StaysUntold (K.state out.old) (K.state out.new) }
    ensures count { (K.state out.old).faults ≤ (K.state out.new).faults }
{
    let Ok(text) = report_with(alloc, setup, trace, stats, full) else {
        return Err(ReportError::OutOfMemory);
    };
    match write_all(out, text.as_slice()) {
        Ok(()) => Ok(()),
        Err(Failed) => Err(ReportError::WriteFault),
    }
}

/// Writes all of the bytes. Where the sink fails, a prefix of them was written.
#[tactic(auto, using(crate::proofs::WritingLemmas::appends_nothing, crate::proofs::WritingLemmas::appends_kept, crate::proofs::WritingLemmas::appends_next, crate::proofs::WritingLemmas::rises_from))]
pub fn write_all<K: Sink>(out: &mut K, bytes: &[u8]) -> Result<(), Failed>
    ensures ok { OnOk result (Appends (K.state out.old).written (K.state out.new).written bytes.now) }
    ensures prefix { OnErr result (AppendsPrefix (K.state out.old).written (K.state out.new).written bytes.now) }
    ensures untold { StaysUntold (K.state out.old) (K.state out.new) }
    ensures count { (K.state out.old).faults ≤ (K.state out.new).faults }
    ensures err { OnErr result (Fails (K.state out.old) (K.state out.new)) }
{
    let mut at = 0;
    while at < bytes.len() {
        at += out.put(&bytes[at..])?;
    }
    Ok(())
}
