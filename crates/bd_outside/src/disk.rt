//! Disks: blocks by number.
use crate::failed::Failed;

/// A disk of whole blocks. No call changes its block size or its number of blocks.
pub trait Disk {
    ghost use Rattle.std.specs.Prelude.{◌≡◌, ◌*◌, ◌≤◌, is_some, length, OnOk, OnErr};
    ghost use Rattle.bd_outside.specs.Count.{Rises, one_more};
    ghost use Rattle.bd_outside.specs.Disk.{DiskState, HasSameShape, HasWholeBlocks, IsInside, Reads, content_written};

    // its blocks, its counts, and its place among the openings of its host
    ghost state: { Self → DiskState };

    /// The bytes of a block.
    fn block_size(&self) -> u32
        ensures { result ≡ (state self.now).block_size };

    /// How many blocks it has.
    fn blocks(&self) -> u64
        ensures { result ≡ (state self.now).blocks };

    /// Whether contracts see its bytes: those of its blocks, whole. No call changes whether they do.
    fn tells(&self) -> bool
        ensures told { result ≡ is_some (state self.now).content }
        ensures whole { HasWholeBlocks (state self.now) };

    /// Fills the buffer from whole blocks inside the disk, from block `lba` on.
    ///
    /// Failed: the buffer may hold anything, and the count of faults rose.
    fn read(&mut self, lba: u64, to: &mut [u8]) -> Result<(), Failed>
        requires { IsInside lba (length to.old) (state self.old).block_size (state self.old).blocks }
        ensures given { OnOk result (Reads (state self.old).content (lba * (state self.old).block_size) to.new) }
        ensures same_content { (state self.new).content ≡ (state self.old).content }

        ensures fault_count { (state self.old).faults ≤ (state self.new).faults }
        ensures failed { OnErr result (Rises (state self.old).faults (state self.new).faults) }
        ensures flush_count { (state self.new).flushes ≡ (state self.old).flushes }

        ensures same_shape { HasSameShape (state self.old) (state self.new) };

    /// Writes whole blocks inside the disk, from block `lba` on.
    ///
    /// Failed: the content that the disk tells is as it was, and the count of faults rose.
    fn write(&mut self, lba: u64, from: &[u8]) -> Result<(), Failed>
        requires { IsInside lba (length from.now) (state self.old).block_size (state self.old).blocks }
        ensures written { OnOk result ((state self.new).content ≡ content_written (state self.old).content (lba * (state self.old).block_size) from.now) }
        ensures same_content { OnErr result ((state self.new).content ≡ (state self.old).content) }

        ensures fault_count { (state self.old).faults ≤ (state self.new).faults }
        ensures failed { OnErr result (Rises (state self.old).faults (state self.new).faults) }
        ensures flush_count { (state self.new).flushes ≡ (state self.old).flushes }

        ensures same_shape { HasSameShape (state self.old) (state self.new) };

    /// Brings what was written to where it stays.
    ///
    /// Failed: the count of faults rose, and the count of flushes is as it was.
    fn flush(&mut self) -> Result<(), Failed>
        ensures done { OnOk result ((state self.new).flushes ≡ one_more (state self.old).flushes) }
        ensures not_done { OnErr result ((state self.new).flushes ≡ (state self.old).flushes) }
        ensures flush_count { (state self.old).flushes ≤ (state self.new).flushes }
        ensures same_content { (state self.new).content ≡ (state self.old).content }

        ensures fault_count { (state self.old).faults ≤ (state self.new).faults }
        ensures failed { OnErr result (Rises (state self.old).faults (state self.new).faults) }

        ensures same_shape { HasSameShape (state self.old) (state self.new) };
}
