//! Files of the system, which tell nothing to a contract.
ghost use Rattle.std.specs.Prelude.{◌≡◌, ◌≤◌, length, None, IfOk};
ghost use Rattle.bd_outside.specs.Count.{Rises};

use crate::disk::SystemDisk;
use bd_outside::{Host, HostError};
use std::alloc::Global;
use std::fs;
use std::io::{self, ErrorKind, Read, Seek, SeekFrom};
use std::rt::Files;

// A file that was opened, and the byte at which its next read begins.
#[derive(Drop)]
struct OpenedFile<F: Drop> {
    // None where there was no memory for it: then the file isn't kept.
    name: Option<String>,
    file: F,
    at: u64,
}

impl<F: Read + Seek + Drop> OpenedFile<F> {
    // Reads from byte `at` on. Reading on needs no seek, so that a pipe can be read too.
    fn read(&mut self, at: u64, to: &mut [u8]) -> io::Result<usize>
        ensures { IfOk result (λ n. n ≤ length to.old) }
    {
        if self.at != at {
            self.at = self.file.seek(SeekFrom::Start(at))?;
        }
        let n = self.file.read(to)?;
        self.at = self.at.saturating_add(n as u64);
        Ok(n)
    }
}

// The files of a runtime. The one that was read last stays open.
#[derive(Drop)]
struct OpenFiles<'a, R: Files> {
    alloc: Global,
    rt: &'a R,
    last: Option<OpenedFile<R::File>>,
}

impl<R: Files> OpenFiles<'_, R> {
    // The file of a name: the last one, or else opened anew.
    fn open(&mut self, name: &str) -> io::Result<OpenedFile<R::File>> {
        if let Some(opened) = self.last.take() {
            if opened.name.as_ref().is_some_and(|n| n.as_str() == name) {
                return Ok(opened);
            }
        }
        Ok(OpenedFile {
            file: fs::open(self.rt, name)?,
            name: String::from_str(self.alloc, name).ok(),
            at: 0,
        })
    }

    fn read(&mut self, name: &str, at: u64, to: &mut [u8]) -> io::Result<usize>
        ensures { IfOk result (λ n. n ≤ length to.old) }
    {
        let mut opened = self.open(name)?;
        let n = opened.read(at, to)?;
        self.last = Some(opened);
        Ok(n)
    }
}

/// The files of a runtime as a host.
#[derive(Drop)]
pub struct SystemHost<'a, R: Files> {
    files: OpenFiles<'a, R>,
    faults: u64,
    absences: u64,
}

impl<'a, R: Files> SystemHost<'a, R> {
    /// A host with no file open and both counts at 0.
    pub fn new(alloc: Global, rt: &'a R) -> SystemHost<'a, R>
        ensures rt { result.files.rt.now ≡ rt.now }
        ensures closed { result.files.last ≡ None }
        ensures faults { result.faults ≡ 0 }
        ensures absences { result.absences ≡ 0 }
    {
        let files = OpenFiles {
            alloc,
            rt,
            last: None,
        };
        SystemHost {
            files,
            faults: 0,
            absences: 0,
        }
    }

    // Counts a failure, by its kind: no such file, or another one.
    fn count(&mut self, error: io::Error) -> HostError
        ensures same_files { self.new.files ≡ self.old.files }
        ensures absent { result ≡ HostError.Absent → Rises self.old.absences self.new.absences × (self.new.faults ≡ self.old.faults) }
        ensures failed { result ≡ HostError.Failed → Rises self.old.faults self.new.faults × (self.new.absences ≡ self.old.absences) }
        ensures fault_count { self.old.faults ≤ self.new.faults }
        ensures absence_count { self.old.absences ≤ self.new.absences }
    {
        if error.kind() == ErrorKind::NotFound {
            self.absences = self.absences.saturating_add(1);
            HostError::Absent
        } else {
            self.faults = self.faults.saturating_add(1);
            HostError::Failed
        }
    }
}

impl<R: Files> Host for SystemHost<'_, R> {
    ghost use Rattle.std.specs.Prelude.{None};
    ghost use Rattle.bd_outside.specs.File.{Untold};

    type Disk = SystemDisk<R::File>;

    ghost state = { λ h. record {
      faults = λ name. h.faults;
      absences = λ name. h.absences;
      told = λ name. Untold;
      openings = None;
    } };

    /// Absent where the system says that there is no such file. Every other failure, as of a
    /// folder, a path through a file or a file that may not be read, is Failed.
    fn read_at(&mut self, name: &str, at: u64, to: &mut [u8]) -> Result<usize, HostError> {
        match self.files.read(name, at, to) {
            Ok(n) => Ok(n),
            Err(error) => Err(self.count(error)),
        }
    }

    /// Opens a regular file for reading and writing. Absent where the system says that there is no
    /// such file. Every other failure is Failed, also of a file that isn't a regular one.
    fn open_disk(&mut self, name: &str, block_size: u32) -> Result<SystemDisk<R::File>, HostError> {
        match SystemDisk::open(self.files.rt, name, block_size) {
            Ok(disk) => Ok(disk),
            Err(error) => Err(self.count(error)),
        }
    }

    /// Closes the disk's file.
    fn close_disk(&mut self, _name: &str, disk: SystemDisk<R::File>) {
        drop(disk);
    }
}

#[cfg(test)]
mod tests {
    use super::*;

    // Files that each Linux system has or hasn't, or that are folders; what reading one gives, and how often the host
    // failed and found no file by then.
    const READS: [(&str, u64, Result<usize, HostError>, u64, u64); 5] = [
        ("/dev/zero", 0, Ok(4), 0, 0),
        ("/dev/null", 0, Ok(0), 0, 0),
        ("no/such-file", 0, Err(HostError::Absent), 0, 1),
        ("/dev", 0, Err(HostError::Failed), 1, 1),
        ("/dev/null/x", 0, Err(HostError::Failed), 2, 1),
    ];

    #[test]
    fn reads_and_counts(rt: HostRuntime) {
        let mut host = SystemHost::new(rt.alloc(), &rt);
        let mut buffer = [7u8; 4];
        for (name, at, read, faults, absences) in &READS {
            assert!(rt; host.read_at(name, *at, &mut buffer) == *read, "{name}");
            assert_eq!(rt; host.faults, *faults, "faults after {name}");
            assert_eq!(rt; host.absences, *absences, "absences after {name}");
        }
        assert!(rt; buffer == [0; 4]);
    }
}
