//! Whole files.
ghost use Rattle.std.specs.Prelude.{◌≡◌, ◌≤◌, length, IfOk, IfErr};
ghost use Rattle.bd_outside.specs.Host.{IsLater};
ghost use Rattle.bd_top.specs.Fault.{IsFaultOf};
ghost use Rattle.bd_top.specs.Files.{IsRead, ReadCause};

use crate::fault::Fault;
use bd_base::{Bytes, OutOfMemory};
use bd_outside::{Host, HostError};
use std::alloc::{AllocError, Global};

/// The most bytes that a file may have.
const MAX_FILE: usize = 8_388_608;

// How many bytes are asked for at once.
const CHUNK: usize = 65_536;

/// Why a file wasn't read, or wasn't opened.
#[derive(Clone, Copy, PartialEq, Eq)]
pub(crate) enum ReadError {
    /// There is no such file.
    Absent,
    /// The host failed.
    Failed,
    /// The file has more than 8,388,608 bytes.
    TooLong,
    OutOfMemory,
}

impl From<OutOfMemory> for ReadError {
    ghost use Rattle.std.specs.Prelude.{◌≡◌};
    ghost use Rattle.bd_top.specs.declared.files.ReadError.TheVariants as errors;

    ghost from_gives = { λ _ error. error ≡ errors.OutOfMemory };

    fn from(_e: OutOfMemory) -> ReadError {
        ReadError::OutOfMemory
    }
}

/// The fault of a file of this name that wasn't read, or wasn't opened.
pub(crate) fn fault_of(alloc: Global, name: &str, error: ReadError) -> Fault
    ensures { IsFaultOf name.now error result }
{
    let Ok(name) = String::from_str(alloc, name) else {
        return Fault::OutOfMemory;
    };
    match error {
        ReadError::Absent => Fault::NoFile(name),
        ReadError::TooLong => Fault::TooLong(name),
        ReadError::Failed => Fault::ReadFault(name),
        ReadError::OutOfMemory => Fault::OutOfMemory,
    }
}

// Zeros to read into. Its contract says their number alone.
fn buffer(alloc: Global, size: usize) -> Result<Vec<u8>, AllocError>
    ensures { IfOk result (λ v. length v.items ≡ size) }
{
    vec![in alloc; 0; size]
}

/// Reads a file whole, which has at most 8,388,608 bytes.
#[tactic(auto, using(crate::proofs::FileLemmas::later_same, crate::proofs::FileLemmas::later_then, crate::proofs::FileLemmas::fails_from, crate::proofs::FileLemmas::misses_from))]
pub(crate) fn read_file<H: Host>(
    alloc: Global,
    host: &mut H,
    name: &str,
) -> Result<Bytes, ReadError>
    ensures read { IfOk result (IsRead ((H.state host.old).told name.now)) }
    ensures cause { IfErr result (ReadCause (H.state host.old) (H.state host.new) name.now) }
    ensures later { IsLater (H.state host.old) (H.state host.new) }
    ensures openings { (H.state host.new).openings ≡ (H.state host.old).openings }
{
    let mut all = Bytes::new(alloc);
    let Ok(mut chunk) = buffer(alloc, CHUNK) else {
        return Err(ReadError::OutOfMemory);
    };
    let chunk = chunk.as_mut_slice();
    for _turn in 0..MAX_FILE + 1 {
        let n = match host.read_at(name, all.len() as u64, chunk) {
            Ok(n) => n,
            Err(HostError::Absent) => return Err(ReadError::Absent),
            Err(HostError::Failed) => return Err(ReadError::Failed),
        };
        let wanted = n.min(MAX_FILE + 1 - all.len());
        all.append(&chunk[..wanted])?;
        if n == 0 {
            return Ok(all);
        }
        if all.len() > MAX_FILE {
            return Err(ReadError::TooLong);
        }
    }
    unreachable!()
}
