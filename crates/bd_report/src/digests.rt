//! The digests that a trace tells of the devices, by device.
ghost use Rattle.std.specs.Prelude.{◌≡◌, ℕ, ◌==◌, if◌then◌else◌, nat_eq, None, IfOk, OnOk};
ghost use Rattle.std.specs.HashMap.{get};
ghost use Rattle.bd_report.specs.First.{first_of};
ghost use Rattle.bd_report.specs.Index.{TellsDigests};
ghost use Rattle.bd_report.specs.Report.{first_found, digest_in};

use crate::first::put_first;
use bd_base::{Act, Entry, OutOfMemory};
use std::alloc::Global;
use std::collections::HashMap;
use std::marker::Model;

// The digest of a device's contents, by device.
type DigestMap = HashMap<usize, [u8; 32]>;

/// A trace with the first digest of each device, found without a search. It is seen as the trace.
#[derive(Drop)]
pub(crate) struct Digests<'a> {
    trace: &'a [Entry],
    first: DigestMap,
}

impl<'a> Model for Digests<'a> {
    ghost use Rattle.std.specs.Prelude.{List};
    ghost use Rattle.bd_base.specs.declared.act.Entry.{Entry};

    ghost Value = { List Entry };

    ghost use Rattle.bd_report.specs.TraceDigests.{trace_of, Tells};

    ghost view = { trace_of };

    ghost invariant = { Tells };
}

impl<'a> Digests<'a> {
    /// The digests of a trace. Out of memory is the only error.
    pub(crate) fn new(alloc: Global, trace: &'a [Entry]) -> Result<Digests<'a>, OutOfMemory>
        ensures { IfOk result (λ d. d ≡ trace.now) }
    {
        Ok(Digests {
            trace,
            first: first_digests(alloc, trace)?,
        })
    }

    /// The first digest of a device's contents.
    pub(crate) fn get(&self, device: usize) -> Option<[u8; 32]>
        ensures { result ≡ first_found (digest_in device) self.now }
    {
        self.first.get(&device).copied()
    }
}

// The first digest of each device.
fn first_digests(alloc: Global, trace: &[Entry]) -> Result<DigestMap, OutOfMemory>
    ensures { IfOk result (λ m. TellsDigests m trace.now) }
{
    let mut digests = HashMap::new(alloc);
    for entry in trace {
        note_digest(&mut digests, entry)?;
    }
    Ok(digests)
}

// Notes the digest that an entry tells of its device, if it is the first.
fn note_digest(digests: &mut DigestMap, entry: &Entry) -> Result<(), OutOfMemory>
    ensures { OnOk result ((device : ℕ) → get nat_eq digests.new device ≡ first_of (get nat_eq digests.old device) (digest_in device entry.now)) }
{
    if let Act::Destruct { dev, digest } = &entry.act {
        put_digest(digests, dev.0 as usize, *digest)?;
    }
    Ok(())
}

// Notes a device's digest, if there is one and it is the first.
fn put_digest(
    digests: &mut DigestMap,
    at: usize,
    digest: Option<[u8; 32]>,
) -> Result<(), OutOfMemory>
    ensures { OnOk result ((device : ℕ) → get nat_eq digests.new device ≡ first_of (get nat_eq digests.old device) (if at == device then digest else None)) }
{
    if let Some(digest) = digest {
        put_first(digests, at, digest)?;
    }
    Ok(())
}
