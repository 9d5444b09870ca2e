//! Files of the system as disks, which tell no content.
ghost use Rattle.std.specs.Prelude.{◌≡◌, ◌<◌, ◌≤◌, ◌*◌, ◌^◌, IfOk, OnOk, OnErr};
ghost use Rattle.bd_outside.specs.Count.{one_more};

use bd_outside::{Disk, Failed};
use std::fs::{OpenFile, OpenOptions};
use std::io::{self, ErrorKind, Read, Seek, SeekFrom, Write};
use std::rt::Files;

/// A regular file as a disk. Its number of blocks is the file's length at opening divided by the
/// block size, rounded down.
#[derive(Drop)]
pub struct SystemDisk<F: Drop> {
    file: F,
    block_size: u32,
    blocks: u64,
    faults: u64,
    flushes: u64,
    ghost within: { blocks * block_size < 2 ^ 64 },
}

impl<F: Read + Write + Seek + OpenFile + Drop> SystemDisk<F> {
    // A file opened for reading and writing, or why the system won't; one that isn't a regular file
    // is an invalid input.
    pub(crate) fn open<R: Files<File = F>>(
        rt: &R,
        name: &str,
        block_size: u32,
    ) -> io::Result<SystemDisk<F>>
        requires { 0 < block_size }
        ensures size { IfOk result (λ d. d.block_size ≡ block_size) }
        ensures faults { IfOk result (λ d. d.faults ≡ 0) }
        ensures flushes { IfOk result (λ d. d.flushes ≡ 0) }
    {
        let file = OpenOptions::new().read(true).write(true).open(rt, name)?;
        let found = file.metadata()?;
        if !found.is_file() {
            return Err(ErrorKind::InvalidInput.into());
        }
        Ok(SystemDisk {
            file,
            block_size,
            blocks: found.len() / block_size as u64,
            faults: 0,
            flushes: 0,
        })
    }
}

// Fills the buffer with the file's bytes from byte `at` on.
fn read_from<F: Read + Seek>(file: &mut F, at: u64, to: &mut [u8]) -> io::Result<()> {
    file.seek(SeekFrom::Start(at))?;
    file.read_exact(to)
}

// Writes all bytes from byte `at` on.
fn write_from<F: Write + Seek>(file: &mut F, at: u64, from: &[u8]) -> io::Result<()> {
    file.seek(SeekFrom::Start(at))?;
    file.write_all(from)
}

// A failure of the system counts as a fault.
fn count(answer: io::Result<()>, faults: &mut u64) -> Result<(), Failed>
    ensures done { OnOk result (faults.new ≡ faults.old) }
    ensures failed { OnErr result (faults.new ≡ one_more faults.old) }
    ensures count { faults.old ≤ faults.new }
{
    match answer {
        Ok(()) => Ok(()),
        Err(_) => {
            *faults = faults.saturating_add(1);
            Err(Failed)
        }
    }
}

impl<F: Read + Write + Seek + OpenFile + Drop> Disk for SystemDisk<F> {
    ghost use Rattle.std.specs.Prelude.{None};

    ghost state = { λ d. record {
      block_size = d.block_size;
      blocks = d.blocks;
      content = None;
      faults = d.faults;
      flushes = d.flushes;
      place = None;
    } };

    fn block_size(&self) -> u32 {
        self.block_size
    }

    fn blocks(&self) -> u64 {
        self.blocks
    }

    /// False: no contract sees what a file of the system holds.
    fn tells(&self) -> bool {
        false
    }

    /// A read that gives fewer bytes goes on until the buffer is full. Failed where the system
    /// refuses, or the file has become shorter.
    fn read(&mut self, lba: u64, to: &mut [u8]) -> Result<(), Failed> {
        let answer = read_from(&mut self.file, lba * self.block_size as u64, to);
        count(answer, &mut self.faults)
    }

    /// A write that takes fewer bytes goes on until all are taken. Failed where the system refuses.
    fn write(&mut self, lba: u64, from: &[u8]) -> Result<(), Failed> {
        let answer = write_from(&mut self.file, lba * self.block_size as u64, from);
        count(answer, &mut self.faults)
    }

    /// Asks the system to bring the file's data to its device.
    fn flush(&mut self) -> Result<(), Failed> {
        let answer = self.file.sync_data();
        count(answer, &mut self.faults)?;
        self.flushes = self.flushes.saturating_add(1);
        Ok(())
    }
}

#[cfg(test)]
mod tests {
    use crate::SystemHost;
    use bd_outside::{Disk, Failed, Host, HostError};
    use std::test::Fail;
    use std::{fs, process};

    // A file of two blocks of four bytes and a half: its second block is written, and read back in
    // the file after it was closed. There is no third block of it once it is cut.
    #[test]
    fn is_a_file(rt: HostRuntime) -> Result<(), Fail> {
        let name = format!(in rt.alloc(); "disk-{}", process::id(rt.process()))?;
        fs::write(&rt, name.as_str(), b"aaaabbbbcc")?;
        let mut host = SystemHost::new(rt.alloc(), &rt);
        let Ok(mut disk) = host.open_disk(name.as_str(), 4) else {
            panic!(rt; "no disk");
        };
        assert!(rt; disk.block_size() == 4 && disk.blocks() == 2);
        let mut both = [0; 8];
        assert!(rt; disk.write(1, b"BBBB") == Ok(()) && disk.flush() == Ok(()));
        assert!(rt; disk.read(0, &mut both) == Ok(()) && both == *b"aaaaBBBB");
        fs::write(&rt, name.as_str(), b"aaaaBB")?;
        assert!(rt; disk.read(0, &mut both) == Err(Failed));
        host.close_disk(name.as_str(), disk);
        fs::remove_file(&rt, name.as_str())?;
        assert!(rt; host.open_disk(name.as_str(), 4).err() == Some(HostError::Absent));
        assert!(rt; host.open_disk("/dev", 4).err() == Some(HostError::Failed));
        assert!(rt; host.open_disk("/dev/null", 4).err() == Some(HostError::Failed));
        Ok(())
    }
}
