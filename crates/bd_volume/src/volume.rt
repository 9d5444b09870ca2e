//! The blocks of a volume.
ghost use Rattle.std.specs.Prelude.{◌≡◌, ◌+◌, ◌%◌, ◌<◌, ◌≤◌, ◌^◌, ◌++◌, length, nat_le, replicate, take, drop, IfOk, OnOk, OnErr};
ghost use Rattle.std.specs.List.{concat};
ghost use Rattle.bd_pages.specs.Fills.{filled};
ghost use Rattle.bd_pages.specs.Pages.{zeroed};

use crate::clusters::{Clusters, Part};
use bd_base::{Bytes, Fill, OutOfMemory};
use std::alloc::Global;
use std::marker::Model;

/// The blocks of a volume, in clusters. A cluster takes memory at the first write that touches it, and
/// until then reads as zeros. Snapshots share clusters; the first write to a shared one makes a copy.
#[derive(Drop)]
pub struct Volume {
    clusters: Clusters,
    count: u64,
}

impl Model for Volume {
    ghost use Rattle.bd_volume.specs.Clusters.{Clustered, content};

    ghost Value = { Clustered };

    ghost view = { λ v. record { cluster = v.clusters.cluster; blocks = content v.count v.clusters } };
}

impl Volume {
    /// `blocks` blocks of `size` bytes in clusters of `cluster` blocks, all zeros. No cluster takes memory.
    pub fn zeros(alloc: Global, blocks: u64, size: u32, cluster: u64) -> Volume
        requires { 0 < cluster }
        ensures cluster { result.cluster ≡ cluster }
        ensures blocks { result.blocks ≡ replicate blocks (replicate size 0) }
    {
        let clusters = Clusters::new(alloc, cluster, size);
        Volume {
            clusters,
            count: blocks,
        }
    }

    /// How many blocks a cluster has.
    pub fn cluster(&self) -> u64
        ensures value { result ≡ self.now.cluster }
        ensures some { 0 < result }
    {
        self.clusters.cluster()
    }

    /// How many blocks there are.
    pub fn len(&self) -> u64
        ensures { result ≡ length self.now.blocks }
    {
        let _cluster = self.clusters.cluster();
        self.count
    }

    /// A snapshot: the same blocks. Both share the clusters until one of them writes.
    pub fn share(&self) -> Result<Volume, OutOfMemory>
        ensures { IfOk result (λ v. v ≡ self.now) }
    {
        let clusters = self.clusters.share()?;
        Ok(Volume {
            clusters,
            count: self.count,
        })
    }

    /// Whether there are `count` blocks from `lba` on.
    pub fn has(&self, lba: u64, count: u64) -> bool
        ensures { result ≡ nat_le (lba + count) (length self.now.blocks) }
    {
        let len = self.len();
        lba <= len && count <= len - lba
    }

    // The bytes of blocks of one cluster.
    fn read_one(&self, alloc: Global, lba: u64, count: u64) -> Result<Bytes, OutOfMemory>
        requires inside { lba + count ≤ length self.now.blocks }
        requires within { lba % self.now.cluster + count ≤ self.now.cluster }
        ensures { IfOk result (λ b. b ≡ concat (take count (drop lba self.now.blocks))) }
    {
        let cluster = self.clusters.cluster();
        let part = Part {
            place: lba / cluster,
            at: lba % cluster,
            count,
        };
        let bytes = self.clusters.read(alloc, part)?;
        Ok(bytes)
    }

    // Puts what a write brings into blocks of one cluster. Out of memory, the blocks are as they were.
    fn fill_one(
        &mut self,
        alloc: Global,
        lba: u64,
        count: u64,
        fill: Fill,
        number: u64,
    ) -> Result<(), OutOfMemory>
        requires inside { lba + count ≤ length self.old.blocks }
        requires within { lba % self.old.cluster + count ≤ self.old.cluster }
        requires numbered { number + count < 2 ^ 64 }
        ensures cluster { self.new.cluster ≡ self.old.cluster }
        ensures ok { OnOk result (self.new.blocks ≡ take lba self.old.blocks ++ filled fill number (take count (drop lba self.old.blocks)) ++ drop (lba + count) self.old.blocks) }
        ensures err { OnErr result (self.new ≡ self.old) }
    {
        let cluster = self.clusters.cluster();
        let part = Part {
            place: lba / cluster,
            at: lba % cluster,
            count,
        };
        self.clusters.fill(alloc, part, fill, number)?;
        Ok(())
    }

    // Makes every byte of blocks of one cluster 0. Out of memory, the blocks are as they were.
    fn zero_one(&mut self, alloc: Global, lba: u64, count: u64) -> Result<(), OutOfMemory>
        requires inside { lba + count ≤ length self.old.blocks }
        requires within { lba % self.old.cluster + count ≤ self.old.cluster }
        ensures cluster { self.new.cluster ≡ self.old.cluster }
        ensures ok { OnOk result (self.new.blocks ≡ take lba self.old.blocks ++ zeroed (take count (drop lba self.old.blocks)) ++ drop (lba + count) self.old.blocks) }
        ensures err { OnErr result (self.new ≡ self.old) }
    {
        let cluster = self.clusters.cluster();
        let part = Part {
            place: lba / cluster,
            at: lba % cluster,
            count,
        };
        self.clusters.zero(alloc, part)?;
        Ok(())
    }

    /// Makes a whole cluster zeros, from its first block on, and gives its memory back where no other
    /// volume shares it. It takes no memory.
    pub fn discard(&mut self, first: u64)
        requires whole { first % self.old.cluster ≡ 0 }
        requires inside { first + self.old.cluster ≤ length self.old.blocks }
        ensures cluster { self.new.cluster ≡ self.old.cluster }
        ensures blocks { self.new.blocks ≡ take first self.old.blocks ++ zeroed (take self.old.cluster (drop first self.old.blocks)) ++ drop (first + self.old.cluster) self.old.blocks }
    {
        let cluster = self.clusters.cluster();
        self.clusters.discard(first / cluster);
    }

    // How many of `count` blocks from `lba` on lie in the cluster of the first.
    fn near(&self, lba: u64, count: u64) -> u64
        ensures most { result ≤ count }
        ensures within { lba % self.now.cluster + result ≤ self.now.cluster }
        ensures some { 0 < count → 0 < result }
    {
        let cluster = self.clusters.cluster();
        let left = cluster - lba % cluster;
        if count < left { count } else { left }
    }

    /// The bytes of `count` blocks from `lba` on, one block after another.
    pub fn read(&self, alloc: Global, lba: u64, count: u64) -> Result<Bytes, OutOfMemory>
        requires { lba + count ≤ length self.now.blocks }
        ensures { IfOk result (λ b. b ≡ concat (take count (drop lba self.now.blocks))) }
    {
        let near = self.near(lba, count);
        if near == count {
            return self.read_one(alloc, lba, near);
        }
        let _len = self.len();
        let mut bytes = Vec::new(alloc);
        let mut done = 0;
        while done < count {
            let some = self.near(lba + done, count - done);
            let part = self.read_one(alloc, lba + done, some)?;
            bytes.extend_from_slice(part.as_slice())?;
            done += some;
        }
        Ok(Bytes::from_vec(bytes))
    }

    // Puts what a write brings into blocks of several clusters. Out of memory leaves them unspecified.
    fn fill_each(
        &mut self,
        alloc: Global,
        lba: u64,
        count: u64,
        fill: Fill,
        number: u64,
    ) -> Result<(), OutOfMemory>
        requires some { 0 < count }
        requires inside { lba + count ≤ length self.old.blocks }
        requires numbered { number + count < 2 ^ 64 }
        ensures cluster { self.new.cluster ≡ self.old.cluster }
        ensures ok { OnOk result (self.new.blocks ≡ take lba self.old.blocks ++ filled fill number (take count (drop lba self.old.blocks)) ++ drop (lba + count) self.old.blocks) }
    {
        let _len = self.len();
        let mut done = self.near(lba, count);
        self.fill_one(alloc, lba, done, fill, number)?;
        let rest = Fill {
            seed: fill.seed,
            flip: false,
        };
        while done < count {
            let some = self.near(lba + done, count - done);
            self.fill_one(alloc, lba + done, some, rest, number + done)?;
            done += some;
        }
        Ok(())
    }

    /// Puts what a write brings into `count` blocks from `lba` on, of which the first has this number on
    /// the device that was written. A cluster that another volume shares is copied first. Out of memory,
    /// the blocks are as they were.
    pub fn fill(
        &mut self,
        alloc: Global,
        lba: u64,
        count: u64,
        fill: Fill,
        number: u64,
    ) -> Result<(), OutOfMemory>
        requires inside { lba + count ≤ length self.old.blocks }
        requires numbered { number + count < 2 ^ 64 }
        ensures cluster { self.new.cluster ≡ self.old.cluster }
        ensures ok { OnOk result (self.new.blocks ≡ take lba self.old.blocks ++ filled fill number (take count (drop lba self.old.blocks)) ++ drop (lba + count) self.old.blocks) }
        ensures err { OnErr result (self.new ≡ self.old) }
    {
        let near = self.near(lba, count);
        if near == count {
            return self.fill_one(alloc, lba, near, fill, number);
        }
        // Memory may run out at the second of several clusters: a snapshot is written, which then is the volume.
        let mut next = self.share()?;
        next.fill_each(alloc, lba, count, fill, number)?;
        *self = next;
        Ok(())
    }

    // Makes blocks of several clusters zeros. Out of memory leaves them unspecified.
    fn zero_each(&mut self, alloc: Global, lba: u64, count: u64) -> Result<(), OutOfMemory>
        requires { lba + count ≤ length self.old.blocks }
        ensures cluster { self.new.cluster ≡ self.old.cluster }
        ensures ok { OnOk result (self.new.blocks ≡ take lba self.old.blocks ++ zeroed (take count (drop lba self.old.blocks)) ++ drop (lba + count) self.old.blocks) }
    {
        let _len = self.len();
        let mut done = 0;
        while done < count {
            let some = self.near(lba + done, count - done);
            self.zero_one(alloc, lba + done, some)?;
            done += some;
        }
        Ok(())
    }

    /// Makes every byte of `count` blocks from `lba` on 0. Out of memory, which a copy of a cluster that
    /// another volume shares may meet, the blocks are as they were.
    pub fn zero(&mut self, alloc: Global, lba: u64, count: u64) -> Result<(), OutOfMemory>
        requires { lba + count ≤ length self.old.blocks }
        ensures cluster { self.new.cluster ≡ self.old.cluster }
        ensures ok { OnOk result (self.new.blocks ≡ take lba self.old.blocks ++ zeroed (take count (drop lba self.old.blocks)) ++ drop (lba + count) self.old.blocks) }
        ensures err { OnErr result (self.new ≡ self.old) }
    {
        let near = self.near(lba, count);
        if near == count {
            return self.zero_one(alloc, lba, near);
        }
        let mut next = self.share()?;
        next.zero_each(alloc, lba, count)?;
        *self = next;
        Ok(())
    }
}
