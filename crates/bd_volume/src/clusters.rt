//! The clusters of a volume, by their places.
ghost use Rattle.std.specs.Prelude.{◌≡◌, ◌+◌, ◌<◌, ◌≤◌, ◌^◌, ◌++◌, ℕ, length, replicate, take, drop, true, IfOk, OnOk, OnErr};
ghost use Rattle.std.specs.List.{concat};
ghost use Rattle.bd_pages.specs.Fills.{filled};
ghost use Rattle.bd_pages.specs.Pages.{zeroed};
ghost use Rattle.bd_volume.specs.Clusters.{StandsAt, blocks_at};

use crate::cluster::Cluster;
use crate::guesses::Guesses;
use bd_base::{Bytes, Fill, OutOfMemory};
use indexmap::IndexMap;
use std::alloc::Global;
use std::marker::Model;

/// Some blocks of one cluster: its place, the first of them in it, and how many.
#[derive(Clone, Copy)]
pub(crate) struct Part {
    pub(crate) place: u64,
    pub(crate) at: u64,
    pub(crate) count: u64,
}

/// The clusters of a volume, seen by their places. One that no write touched takes no memory.
#[derive(Drop)]
pub(crate) struct Clusters {
    map: IndexMap<u64, Cluster>,
    guesses: Guesses,
    cluster: u64,
    size: u32,
}

impl Model for Clusters {
    ghost use Rattle.bd_volume.specs.Clusters.{AreClusters, Placed};

    ghost Value = { Placed };

    ghost view = { λ s. record { cluster = s.cluster; size = s.size; entries = s.map.entries } };

    ghost invariant = { λ s. AreClusters s.cluster s.size s.map.entries };
}

// The bytes of that number of blocks of zeros.
fn zeros(alloc: Global, count: u64, size: u32) -> Result<Bytes, OutOfMemory>
    ensures { IfOk result (λ b. b ≡ concat (replicate count (replicate size 0))) }
{
    let Some(len) = count.checked_mul(size as u64) else {
        return Err(OutOfMemory);
    };
    Ok(Bytes::from_vec(vec![in alloc; 0; len as usize]?))
}

impl Clusters {
    /// Clusters of `cluster` blocks of `size` bytes, all zeros. None takes memory.
    pub(crate) fn new(alloc: Global, cluster: u64, size: u32) -> Clusters
        requires { 0 < cluster }
        ensures cluster { result.cluster ≡ cluster }
        ensures blocks { (place : ℕ) → blocks_at result place ≡ replicate cluster (replicate size 0) }
    {
        Clusters {
            map: IndexMap::new(alloc),
            guesses: Guesses::new(alloc),
            cluster,
            size,
        }
    }

    /// How many blocks a cluster has: at least one, and each has so many.
    pub(crate) fn cluster(&self) -> u64
        ensures value { result ≡ self.now.cluster }
        ensures some { 0 < result }
        ensures each { (place : ℕ) → length (blocks_at self.now place) ≡ result }
    {
        self.cluster
    }

    /// The same clusters, which both share until one of them writes.
    pub(crate) fn share(&self) -> Result<Clusters, OutOfMemory>
        ensures { IfOk result (λ c. c ≡ self.now) }
    {
        let map = self.map.clone()?;
        let guesses = self.guesses.copy()?;
        Ok(Clusters {
            map,
            guesses,
            cluster: self.cluster,
            size: self.size,
        })
    }

    // Whether the cluster at an index of the map is that of a place.
    fn is_at(&self, index: usize, place: u64) -> bool
        ensures { result ≡ true → StandsAt self.now.entries place index }
    {
        match self.map.get_index(index) {
            Some((key, _)) => *key == place,
            None => false,
        }
    }

    // At which index of the map the cluster of a place stands; where there is none, an index past the map's end.
    #[inline(never)]
    fn look_up(&self, place: u64) -> usize
        ensures { StandsAt self.now.entries place result }
    {
        match self.map.get_full(&place) {
            Some((index, _, _)) => index,
            None => self.map.len(),
        }
    }

    // The same. The index that was noted for such a place is tried first.
    fn find(&self, place: u64) -> usize
        ensures { StandsAt self.now.entries place result }
    {
        let noted = self.guesses.of(place);
        if self.is_at(noted, place) {
            return noted;
        }
        self.look_up(place)
    }

    // Puts a cluster at a place that has none. Out of memory, the clusters are as they were.
    #[inline(never)]
    fn put(&mut self, place: u64, cluster: Cluster) -> Result<(), OutOfMemory>
        requires size { cluster.size ≡ self.old.size }
        requires long { length cluster.blocks ≡ self.old.cluster }
        ensures cluster { self.new.cluster ≡ self.old.cluster }
        ensures apart { (other : ℕ) → (other ≡ place → ⊥) → blocks_at self.new other ≡ blocks_at self.old other }
        ensures here { OnOk result (blocks_at self.new place ≡ cluster.blocks) }
        ensures err { OnErr result (self.new ≡ self.old) }
    {
        let index = self.map.len();
        self.map.insert(place, cluster)?;
        self.guesses.make_room(index);
        self.guesses.note(place, index);
        Ok(())
    }

    /// The bytes of some blocks, one block after another.
    pub(crate) fn read(&self, alloc: Global, part: Part) -> Result<Bytes, OutOfMemory>
        requires { part.at + part.count ≤ self.now.cluster }
        ensures { IfOk result (λ b. b ≡ concat (take part.count (drop part.at (blocks_at self.now part.place)))) }
    {
        match self.map.get_index(self.find(part.place)) {
            Some((_, cluster)) => cluster.read(alloc, part.at, part.count),
            None => {
                let bytes = zeros(alloc, part.count, self.size)?;
                Ok(bytes)
            }
        }
    }

    /// Puts what a write brings into some blocks, of which the first has this number on the device that
    /// was written. Out of memory, the clusters are as they were.
    pub(crate) fn fill(
        &mut self,
        alloc: Global,
        part: Part,
        fill: Fill,
        number: u64,
    ) -> Result<(), OutOfMemory>
        requires inside { part.at + part.count ≤ self.old.cluster }
        requires numbered { number + part.count < 2 ^ 64 }
        ensures cluster { self.new.cluster ≡ self.old.cluster }
        ensures apart { (place : ℕ) → (place ≡ part.place → ⊥) → blocks_at self.new place ≡ blocks_at self.old place }
        ensures here { OnOk result (blocks_at self.new part.place ≡ take part.at (blocks_at self.old part.place) ++ filled fill number (take part.count (drop part.at (blocks_at self.old part.place))) ++ drop (part.at + part.count) (blocks_at self.old part.place)) }
        ensures err { OnErr result (self.new ≡ self.old) }
    {
        let index = self.find(part.place);
        self.guesses.note(part.place, index);
        if let Some(cluster) = self.map.get_index_mut(index) {
            if let Err(e) = cluster.fill(alloc, part.at, part.count, fill, number) {
                return Err(e);
            }
            return Ok(());
        }
        let mut cluster = Cluster::zeros(alloc, self.cluster, self.size)?;
        cluster.fill(alloc, part.at, part.count, fill, number)?;
        self.put(part.place, cluster)?;
        Ok(())
    }

    /// Makes a whole cluster zeros and gives its memory back, where no other shares it.
    pub(crate) fn discard(&mut self, place: u64)
        ensures cluster { self.new.cluster ≡ self.old.cluster }
        ensures apart { (other : ℕ) → (other ≡ place → ⊥) → blocks_at self.new other ≡ blocks_at self.old other }
        ensures here { blocks_at self.new place ≡ zeroed (blocks_at self.old place) }
    {
        match self.map.get(&place) {
            Some(cluster) => {
                let _size = cluster.size();
                self.map.swap_remove(&place);
            }
            None => {}
        }
    }

    /// Makes every byte of some blocks 0. Out of memory, the clusters are as they were.
    pub(crate) fn zero(&mut self, alloc: Global, part: Part) -> Result<(), OutOfMemory>
        requires { part.at + part.count ≤ self.old.cluster }
        ensures cluster { self.new.cluster ≡ self.old.cluster }
        ensures apart { (place : ℕ) → (place ≡ part.place → ⊥) → blocks_at self.new place ≡ blocks_at self.old place }
        ensures here { OnOk result (blocks_at self.new part.place ≡ take part.at (blocks_at self.old part.place) ++ zeroed (take part.count (drop part.at (blocks_at self.old part.place))) ++ drop (part.at + part.count) (blocks_at self.old part.place)) }
        ensures err { OnErr result (self.new ≡ self.old) }
    {
        let index = self.find(part.place);
        self.guesses.note(part.place, index);
        if let Some(cluster) = self.map.get_index_mut(index) {
            if let Err(e) = cluster.zero(alloc, part.at, part.count) {
                return Err(e);
            }
            return Ok(());
        }
        Ok(())
    }
}
