//! The disks that are open.
ghost use Rattle.std.specs.Prelude.{◌≡◌, ◌<◌, ◌≤◌, ◌++◌, ◌∷◌, [], length, string_bytes, IfErr, IfOk, OnErr, OnOk};
ghost use Rattle.bd_disk_pool.specs.Held.{none_held, with_disk};

use crate::names::Names;
use bd_base::{DevId, OutOfMemory};
use bd_disks::{Disks, Shelf};
use std::alloc::Global;
use std::collections::VecDeque;
use std::marker::Model;

/// Disks that are open: the name of each one's file, and each thread's disks. They can't be dropped:
/// whoever has them closes them.
pub struct OpenDisks<D> {
    names: Names,
    threads: Vec<Disks<D>>,
}

impl<D> Model for OpenDisks<D> {
    ghost use Rattle.bd_disk_pool.specs.Held.{Held};

    ghost Value = { Held D };

    ghost view = { λ d. record { names = d.names; threads = d.threads.items } };
}

impl<D> OpenDisks<D> {
    /// None yet, for this number of threads.
    pub fn none(alloc: Global, threads: u32) -> Result<OpenDisks<D>, OutOfMemory>
        ensures { IfOk result (λ disks. disks ≡ none_held threads) }
    {
        let mut all = Vec::with_capacity(alloc, threads as usize)?;
        for _ in 0..threads {
            match all.push(Disks::new(alloc)) {
                Ok(()) => (),
                Err(_) => unreachable!(),
            }
        }
        Ok(OpenDisks {
            names: Names::none(alloc),
            threads: all,
        })
    }

    /// Adds the disk of a device, by its file's name, to those of the device's home: the thread whose
    /// number is the device's number modulo the number of threads. Out of memory gives the disk back,
    /// and leaves the others.
    pub fn add(&mut self, dev: DevId, name: String, disk: D) -> Result<(), D>
        requires { 0 < length self.old.threads }
        ensures added { OnOk result (self.new ≡ with_disk self.old dev (string_bytes name) disk) }
        ensures same { OnErr result (self.new ≡ self.old) }
        ensures back { IfErr result (λ back. back ≡ disk) }
    {
        if self.names.add(dev, name).is_err() {
            return Err(disk);
        }
        let home = dev.0 as usize % self.threads.len();
        match self.threads[home].add(dev, disk) {
            Ok(()) => Ok(()),
            Err((disk, OutOfMemory)) => {
                self.names.forget();
                Err(disk)
            }
        }
    }

    /// The names, and the disks on a shelf, each thread's at its place. Out of memory gives all back.
    pub fn shelve(self, alloc: Global) -> Result<(Names, Shelf<D>), OpenDisks<D>>
        ensures names { IfOk result (λ r. r.0 ≡ self.names) }
        ensures items { IfOk result (λ r. r.1.items ≡ self.threads) }
        ensures room { IfOk result (λ r. length self.threads ≤ r.1.capacity) }
        ensures back { IfErr result (λ disks. disks ≡ self) }
    {
        let OpenDisks { names, threads } = self;
        let Ok(shelf) = Shelf::with_room(alloc, threads.len()) else {
            return Err(OpenDisks { names, threads });
        };
        Ok((names, put_all(shelf, threads)))
    }

    /// The names, and the disks of each thread.
    pub(crate) fn into_parts(self) -> (Names, Vec<Disks<D>>)
        ensures names { result.0 ≡ self.names }
        ensures threads { result.1.items ≡ self.threads }
    {
        let OpenDisks { names, threads } = self;
        (names, threads)
    }
}

// Puts each thread's disks on a shelf that has room for them.
fn put_all<D>(shelf: Shelf<D>, threads: Vec<Disks<D>>) -> Shelf<D>
    requires empty { shelf.items ≡ [] }
    requires room { length threads.items ≤ shelf.capacity }
    ensures items { result.items ≡ threads.items }
    ensures room { length threads.items ≤ result.capacity }
{
    let mut shelf = shelf;
    let mut left = VecDeque::from(threads);
    while let Some(own) = left.pop_front() {
        shelf.put(own);
    }
    left.destroy_empty();
    shelf
}
