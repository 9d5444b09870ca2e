//! The disks of a calm host.
ghost use Rattle.bd_outside.specs.Calm.{calm_state};

use crate::disk::Disk;
use crate::failed::Failed;
use crate::mem_disk::MemDisk;

/// A disk of a calm host.
#[derive(Drop)]
pub enum CalmDisk {
    /// One that has a row at its host, and never fails.
    Kept(MemDisk),
    /// One without a row: it has its file's blocks, tells no content and fails at each call.
    Beyond {
        block_size: u32,
        blocks: u64,
        faults: u64,
    },
}

impl Disk for CalmDisk {
    ghost state = { calm_state };

    fn block_size(&self) -> u32 {
        match self {
            CalmDisk::Kept(disk) => disk.block_size(),
            CalmDisk::Beyond { block_size, .. } => *block_size,
        }
    }

    fn blocks(&self) -> u64 {
        match self {
            CalmDisk::Kept(disk) => disk.blocks(),
            CalmDisk::Beyond { blocks, .. } => *blocks,
        }
    }

    fn tells(&self) -> bool {
        match self {
            CalmDisk::Kept(disk) => disk.tells(),
            CalmDisk::Beyond { .. } => false,
        }
    }

    fn read(&mut self, lba: u64, to: &mut [u8]) -> Result<(), Failed> {
        match self {
            CalmDisk::Kept(disk) => disk.read(lba, to),
            CalmDisk::Beyond { faults, .. } => {
                *faults = faults.saturating_add(1);
                Err(Failed)
            }
        }
    }

    fn write(&mut self, lba: u64, from: &[u8]) -> Result<(), Failed> {
        match self {
            CalmDisk::Kept(disk) => disk.write(lba, from),
            CalmDisk::Beyond { faults, .. } => {
                *faults = faults.saturating_add(1);
                Err(Failed)
            }
        }
    }

    fn flush(&mut self) -> Result<(), Failed> {
        match self {
            CalmDisk::Kept(disk) => disk.flush(),
            CalmDisk::Beyond { faults, .. } => {
                *faults = faults.saturating_add(1);
                Err(Failed)
            }
        }
    }
}
