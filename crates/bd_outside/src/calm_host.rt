//! Files in memory that never fail.
ghost use Rattle.std.specs.Prelude.{◌≡◌, ◌<◌, ◌≤◌, List, [], ◌∷◌, ◌++◌, Some, None, length, min, IfOk, IfErr, IfSome, OnErr, MatchOption};
ghost use Rattle.bd_outside.specs.Calm.{CalmFiles, calm_host_of, calm_absent_call, calm_beyond_call, calm_close_call, calm_state, OpensCalmly};
ghost use Rattle.bd_outside.specs.File.{file_of, rest_of, NoFile, GivesPiece};
ghost use Rattle.bd_outside.specs.Memory.{disk_over};
ghost use Rattle.bd_outside.specs.Opening.{open_row};

use crate::calm_disk::CalmDisk;
use crate::disk::Disk;
use crate::host::{Host, HostError};
use crate::mem_disk::MemDisk;
use crate::mem_host::{add_row, close_row, copy_from, find};
use crate::opening::Opening;
use bd_base::{Bytes, Name, OutOfMemory};
use std::alloc::Global;
use std::marker::Model;

/// Files in memory by name (of two with one name the first counts), which never fail: the count of
/// faults is 0.
#[derive(Drop)]
pub struct CalmHost {
    files: Vec<(Name, Bytes)>,
    // None once there was no row for an opening.
    openings: Option<Vec<Opening>>,
    rows: u32,
    absences: u64,
}

impl Model for CalmHost {
    ghost use Rattle.std.specs.Option.{option_map};
    ghost use Rattle.bd_outside.specs.Calm.{CalmFiles};

    ghost Value = { CalmFiles };

    ghost view = { λ h. record {
      files = h.files.items;
      openings = option_map (λ rows. rows.items) h.openings;
      rows = h.rows;
      absences = h.absences;
    } };
}

impl CalmHost {
    /// A host of these files with room for `rows` openings of disks, or out of memory. An opening
    /// beyond them gives a disk that tells no content and fails at each call, and from then on the
    /// host no longer tells its openings.
    pub fn new(alloc: Global, files: Vec<(Name, Bytes)>, rows: u32) -> Result<CalmHost, OutOfMemory>
        ensures { IfOk result (λ h. h ≡ calm_host_of files.items rows) }
    {
        let openings = Vec::with_capacity(alloc, rows as usize)?;
        Ok(CalmHost {
            files,
            openings: Some(openings),
            rows,
            absences: 0,
        })
    }

    /// The openings so far, in order; None once one was beyond the rows.
    pub fn openings(&self) -> Option<&[Opening]>
        ensures { MatchOption result (self.now.openings ≡ None) (λ rows. self.now.openings ≡ Some rows.now) }
    {
        match &self.openings {
            Some(rows) => Some(rows.as_slice()),
            None => None,
        }
    }

    /// How often there was no such file; it stands still at u64::MAX.
    pub fn absences(&self) -> u64
        ensures { result ≡ self.now.absences }
    {
        self.absences
    }

    // Counts an absence.
    fn absence(&mut self) -> HostError
        ensures answer { result ≡ HostError.Absent }
        ensures counted { self.new ≡ calm_absent_call self.old }
        ensures count { self.old.absences ≤ self.new.absences }
    {
        self.absences = self.absences.saturating_add(1);
        HostError::Absent
    }
}

// A disk over a file, and its row, where there is room and memory for both; else the rows are as they were.
fn keep(
    rows: &mut Vec<Opening>,
    most: u32,
    name: &str,
    file: &Bytes,
    block_size: u32,
) -> Option<MemDisk>
    requires { 0 < block_size }
    ensures kept { IfSome result (λ disk. (length rows.old.items < most)
        × (disk ≡ disk_over file.now block_size [] (Some (length rows.old.items)))
        × (rows.new.items ≡ rows.old.items ++ open_row name.now disk.blocks ∷ [])) }
{
    let place = rows.len();
    if place >= most as usize {
        return None;
    }
    let content = file.copy().ok()?;
    let fails = Vec::new(*rows.allocator());
    let disk = MemDisk::opened(content, block_size, fails, Some(place as u32));
    add_row(rows, name, disk.blocks()).ok()?;
    Some(disk)
}

impl Host for CalmHost {
    type Disk = CalmDisk;

    ghost state = { λ h. record {
      faults = λ name. 0;
      absences = λ name. h.absences;
      told = λ name. file_of name h.files;
      openings = h.openings;
    } };

    /// Gives as many bytes as there are and fit. It never answers Failed.
    fn read_at(&mut self, name: &str, at: u64, to: &mut [u8]) -> Result<usize, HostError>
        ensures same { IfOk result (λ n. self.new ≡ self.old) }
        ensures most { IfOk result (λ n. n ≡ min (length to.old) (length (rest_of (file_of name.now self.old.files) at))) }
        ensures given { IfOk result (λ n. GivesPiece (file_of name.now self.old.files) at n to.new) }

        ensures answer { IfErr result (λ error. error ≡ HostError.Absent) }
        ensures absent { OnErr result ((file_of name.now self.old.files ≡ NoFile) × (self.new ≡ calm_absent_call self.old)) }
        ensures absence_count { self.old.absences ≤ self.new.absences }
    {
        match find(&self.files, name.as_bytes()) {
            Some(file) => Ok(copy_from(file.as_slice(), at, to)),
            None => Err(self.absence()),
        }
    }

    /// Opens a file as a disk with a copy of its whole blocks. Where there is no row or no memory
    /// for it, the disk is one beyond the rows. It never answers Failed.
    fn open_disk(&mut self, name: &str, block_size: u32) -> Result<CalmDisk, HostError>
        requires { 0 < block_size }
        ensures size { IfOk result (λ d. (calm_state d).block_size ≡ block_size) }
        ensures disk { IfOk result (λ d. OpensCalmly (file_of name.now self.old.files) block_size self.old self.new name.now d) }

        ensures answer { IfErr result (λ error. error ≡ HostError.Absent) }
        ensures absent { OnErr result ((file_of name.now self.old.files ≡ NoFile) × (self.new ≡ calm_absent_call self.old)) }
        ensures absence_count { self.old.absences ≤ self.new.absences }
    {
        let Some(file) = find(&self.files, name.as_bytes()) else {
            return Err(self.absence());
        };
        if let Some(rows) = &mut self.openings {
            if let Some(disk) = keep(rows, self.rows, name, file, block_size) {
                return Ok(CalmDisk::Kept(disk));
            }
        }
        let blocks = (file.as_slice().len() / block_size as usize) as u64;
        self.openings = None;
        Ok(CalmDisk::Beyond {
            block_size,
            blocks,
            faults: 0,
        })
    }

    fn close_disk(&mut self, name: &str, disk: CalmDisk)
        ensures { self.new ≡ calm_close_call self.old name.now disk }
    {
        if let (Some(rows), CalmDisk::Kept(disk)) = (&mut self.openings, disk) {
            close_row(rows, name, disk);
        }
    }
}
