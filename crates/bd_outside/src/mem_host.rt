//! Files in memory.
ghost use Rattle.std.specs.Prelude.{◌≡◌, ◌<◌, ◌≤◌, ℕ, List, [], ◌∷◌, ◌++◌, Some, false, length, take, drop, min, IsTrue, IsErr, IfOk, OnOk, OnErr, IsErrOf, MatchOption};
ghost use Rattle.bd_outside.specs.Count.{one_more};
ghost use Rattle.bd_outside.specs.Disk.{closing_of};
ghost use Rattle.bd_outside.specs.File.{file_of, rest_of, NoFile, Content, GivesPiece};
ghost use Rattle.bd_outside.specs.Memory.{MemoryHost, host_of, next_fails, failed_call, absent_call, read_call, open_call, close_call, IsDiskOver, fails_of, memory_state};
ghost use Rattle.bd_outside.specs.Opening.{open_row, rows_closed};
ghost use Rattle.bd_outside.specs.declared.opening.Opening.{Opening};

use crate::disk::Disk;
use crate::host::{Host, HostError};
use crate::mem_disk::MemDisk;
use crate::opening::{Closing, Opening};
use bd_base::{Bytes, Name, OutOfMemory, Rows};
use std::alloc::Global;
use std::marker::Model;

/// Files in memory by name (of two with one name the first counts), and a list of the calls that
/// fail. Calls of `read_at` and `open_disk` are numbered from 1. The disks over a name may have
/// failing calls too.
#[derive(Drop)]
pub struct MemHost {
    files: Vec<(Name, Bytes)>,
    openings: Vec<Opening>,
    rows: u32,
    fails: Vec<u64>,
    disk_fails: Vec<(Name, Rows<u64>)>,
    calls: u64,
    faults: u64,
    absences: u64,
}

impl Model for MemHost {
    ghost Value = { MemoryHost };

    ghost view = { λ h. record {
      files = h.files.items;
      openings = h.openings.items;
      rows = h.rows;
      fails = h.fails.items;
      disk_fails = h.disk_fails.items;
      calls = h.calls;
      faults = h.faults;
      absences = h.absences;
    } };
}

impl MemHost {
    /// A host of these files, which opens at most `rows` disks in all and keeps a row of each; or
    /// out of memory. An opening beyond the rows answers Failed. None of its disks fails.
    pub fn new(
        alloc: Global,
        files: Vec<(Name, Bytes)>,
        rows: u32,
        fails: Vec<u64>,
    ) -> Result<MemHost, OutOfMemory>
        ensures { IfOk result (λ h. h ≡ host_of files.items rows fails.items) }
    {
        let openings = Vec::with_capacity(alloc, rows as usize)?;
        Ok(MemHost {
            files,
            openings,
            rows,
            fails,
            disk_fails: Vec::new(alloc),
            calls: 0,
            faults: 0,
            absences: 0,
        })
    }

    /// This host, whose disks fail from now on at these calls, by the names of their files. Of two
    /// rows with one name the first counts; a disk without a row never fails.
    pub fn with_disk_fails(mut self, disk_fails: Vec<(Name, Rows<u64>)>) -> MemHost
        ensures { result ≡ record self { disk_fails = disk_fails.items } }
    {
        self.disk_fails = disk_fails;
        self
    }

    /// The openings so far, in order.
    pub fn openings(&self) -> &[Opening]
        ensures { result.now ≡ self.now.openings }
    {
        self.openings.as_slice()
    }

    /// How often it failed; it stands still at u64::MAX.
    pub fn faults(&self) -> u64
        ensures { result ≡ self.now.faults }
    {
        self.faults
    }

    /// How often there was no such file; it stands still at u64::MAX.
    pub fn absences(&self) -> u64
        ensures { result ≡ self.now.absences }
    {
        self.absences
    }

    // Counts a call, and says whether it is one of those that fail.
    fn begin_call(&mut self) -> bool
        ensures fails { result ≡ next_fails self.old }
        ensures counted { self.new ≡ read_call self.old }
    {
        self.calls = self.calls.saturating_add(1);
        self.fails.contains(&self.calls)
    }

    // Counts a fault.
    fn fault(&mut self) -> HostError
        ensures answer { result ≡ HostError.Failed }
        ensures counted { self.new ≡ record self.old { faults = one_more self.old.faults } }
        ensures count { self.old.faults ≤ self.new.faults }
    {
        self.faults = self.faults.saturating_add(1);
        HostError::Failed
    }

    // Counts an absence.
    fn absence(&mut self) -> HostError
        ensures answer { result ≡ HostError.Absent }
        ensures counted { self.new ≡ record self.old { absences = one_more self.old.absences } }
        ensures count { self.old.absences ≤ self.new.absences }
    {
        self.absences = self.absences.saturating_add(1);
        HostError::Absent
    }
}

// The file of a name.
pub(crate) fn find<'a>(files: &'a [(Name, Bytes)], name: &[u8]) -> Option<&'a Bytes>
    ensures { MatchOption result (file_of name.now files.now ≡ NoFile) (λ file. file_of name.now files.now ≡ Content file.now) }
{
    for file in files {
        if file.0.as_slice() == name {
            return Some(&file.1);
        }
    }
    None
}

// The failing calls of a disk over the file of a name.
fn fails_of<'a>(rows: &'a [(Name, Rows<u64>)], name: &[u8]) -> &'a [u64]
    ensures { result.now ≡ fails_of name.now rows.now }
{
    for row in rows {
        if row.0.as_slice() == name {
            return row.1.as_slice();
        }
    }
    &[]
}

// Copies a file's bytes from a place on, as many as there are and fit.
pub(crate) fn copy_from(file: &[u8], at: u64, to: &mut [u8]) -> usize
    ensures most { result ≡ min (length to.old) (length (drop at file.now)) }
    ensures given { GivesPiece (Content file.now) at result to.new }
{
    if at >= file.len() as u64 {
        return 0;
    }
    let rest = &file[at as usize..];
    let n = rest.len().min(to.len());
    to[..n].copy_from_slice(&rest[..n]);
    n
}

// Adds the row of an opening. Out of memory leaves the rows.
pub(crate) fn add_row(rows: &mut Vec<Opening>, name: &str, blocks: u64) -> Result<(), OutOfMemory>
    ensures added { OnOk result (rows.new.items ≡ rows.old.items ++ open_row name.now blocks ∷ []) }
    ensures same { OnErr result (rows.new.items ≡ rows.old.items) }
{
    let name = Name::from_slice(*rows.allocator(), name.as_bytes())?;
    let row = Opening {
        name,
        blocks,
        closing: None,
    };
    rows.push(row)?;
    Ok(())
}

// Fills the row of a disk that is closed by that name, if it has one that stands open.
pub(crate) fn close_row(rows: &mut Vec<Opening>, name: &str, disk: MemDisk)
    ensures { rows.new.items ≡ rows_closed rows.old.items disk.place name.now (closing_of (memory_state disk)) }
{
    let (faults, flushes, place) = (disk.faults(), disk.flushes(), disk.place());
    let closing = Closing {
        content: Some(disk.into_content()),
        faults,
        flushes,
    };
    let Some(place) = place else {
        return;
    };
    if (place as usize) < rows.len() {
        let row = &mut rows[place as usize];
        if row.name.as_slice() == name.as_bytes() && row.closing.is_none() {
            row.closing = Some(closing);
        }
    }
}

impl Host for MemHost {
    type Disk = MemDisk;

    ghost state = { λ h. record {
      faults = λ name. h.faults;
      absences = λ name. h.absences;
      told = λ name. file_of name h.files;
      openings = Some h.openings;
    } };

    /// Gives as many bytes as there are and fit. Failed exactly where this call is one that fails.
    fn read_at(&mut self, name: &str, at: u64, to: &mut [u8]) -> Result<usize, HostError>
        ensures read { IfOk result (λ n. (next_fails self.old ≡ false) × (self.new ≡ read_call self.old)) }
        ensures most { IfOk result (λ n. n ≡ min (length to.old) (length (rest_of (file_of name.now self.old.files) at))) }
        ensures given { IfOk result (λ n. GivesPiece (file_of name.now self.old.files) at n to.new) }

        ensures failed { IsErrOf result HostError.Failed → IsTrue (next_fails self.old) × (self.new ≡ failed_call self.old) }
        ensures absent { IsErrOf result HostError.Absent → (next_fails self.old ≡ false)
            × (file_of name.now self.old.files ≡ NoFile) × (self.new ≡ absent_call self.old) }
        ensures fault_count { self.old.faults ≤ self.new.faults }
        ensures absence_count { self.old.absences ≤ self.new.absences }
    {
        if self.begin_call() {
            return Err(self.fault());
        }
        let Some(file) = find(&self.files, name.as_bytes()) else {
            return Err(self.absence());
        };
        Ok(copy_from(file.as_slice(), at, to))
    }

    /// Opens a file as a disk with a copy of its whole blocks. Failed where this call is one that
    /// fails, where there is a row for each opening that may be made, and where it is out of memory.
    fn open_disk(&mut self, name: &str, block_size: u32) -> Result<MemDisk, HostError>
        requires { 0 < block_size }
        ensures disk { IfOk result (λ d. IsDiskOver (file_of name.now self.old.files) (fails_of name.now self.old.disk_fails)
            block_size (length self.old.openings) d) }
        ensures row { IfOk result (λ d. self.new ≡ open_call self.old name.now d.blocks) }
        ensures listed { IsTrue (next_fails self.old) → IsErrOf result HostError.Failed }
        ensures full { self.old.rows ≤ length self.old.openings → IsErr result }

        ensures failed { IsErrOf result HostError.Failed → self.new ≡ failed_call self.old }
        ensures absent { IsErrOf result HostError.Absent → (file_of name.now self.old.files ≡ NoFile) × (self.new ≡ absent_call self.old) }
        ensures no_file { file_of name.now self.old.files ≡ NoFile → next_fails self.old ≡ false → IsErrOf result HostError.Absent }
        ensures fault_count { self.old.faults ≤ self.new.faults }
        ensures absence_count { self.old.absences ≤ self.new.absences }
    {
        if self.begin_call() {
            return Err(self.fault());
        }
        let Some(file) = find(&self.files, name.as_bytes()) else {
            return Err(self.absence());
        };
        let place = self.openings.len();
        if place >= self.rows as usize {
            return Err(self.fault());
        }
        let alloc = *self.openings.allocator();
        let fails = Vec::from_slice(alloc, fails_of(self.disk_fails.as_slice(), name.as_bytes()));
        let (Ok(content), Ok(fails)) = (file.copy(), fails) else {
            return Err(self.fault());
        };
        let disk = MemDisk::opened(content, block_size, fails, Some(place as u32));
        if add_row(&mut self.openings, name, disk.blocks()).is_err() {
            return Err(self.fault());
        }
        Ok(disk)
    }

    fn close_disk(&mut self, name: &str, disk: MemDisk)
        ensures { self.new ≡ close_call self.old name.now disk }
    {
        close_row(&mut self.openings, name, disk);
    }
}
