//! Disks are closed.
ghost use Rattle.std.specs.Prelude.{◌≡◌};
ghost use Rattle.bd_disk_pool.specs.Closing.{closing_all, closing_each, KeepsCounts};

use crate::disks::OpenDisks;
use crate::names::Names;
use bd_disks::{Disks, Shelf};
use bd_outside::Host;
use std::collections::VecDeque;

// Closes the disks of one thread, in order.
#[tactic(auto, using(crate::proofs::EachClosed::kept_same, crate::proofs::EachClosed::kept_then))]
fn close_own<H: Host>(host: &mut H, names: &Names, disks: Disks<H::Disk>)
    ensures counts { KeepsCounts (H.state host.old) (H.state host.new) }
    ensures openings { (H.state host.new).openings ≡ closing_each H.Disk.state names.now disks (H.state host.old).openings }
{
    let mut left = VecDeque::from(disks.finish());
    while let Some((dev, disk)) = left.pop_front() {
        host.close_disk(names.name_of(dev), disk);
    }
    left.destroy_empty();
}

/// Closes all disks, each by its file's name: thread after thread, each thread's in order.
#[tactic(auto, using(crate::proofs::EachClosed::kept_same, crate::proofs::EachClosed::kept_then))]
pub fn close_all<H: Host>(host: &mut H, disks: OpenDisks<H::Disk>)
    ensures counts { KeepsCounts (H.state host.old) (H.state host.new) }
    ensures openings { (H.state host.new).openings ≡ closing_all H.Disk.state disks.names disks.threads (H.state host.old).openings }
{
    let (names, threads) = disks.into_parts();
    let mut left = VecDeque::from(threads);
    while let Some(own) = left.pop_front() {
        close_own(host, &names, own);
    }
    left.destroy_empty();
}

/// Closes all disks of a shelf, each by the name of its device's file: thread after thread, each
/// thread's in order.
#[tactic(auto, using(crate::proofs::EachClosed::kept_same, crate::proofs::EachClosed::kept_then))]
pub fn close_shelf<H: Host>(host: &mut H, names: &Names, shelf: Shelf<H::Disk>)
    ensures counts { KeepsCounts (H.state host.old) (H.state host.new) }
    ensures openings { (H.state host.new).openings ≡ closing_all H.Disk.state names.now shelf.items (H.state host.old).openings }
{
    let mut shelf = shelf;
    while let Some(own) = shelf.take() {
        close_own(host, names, own);
    }
    shelf.end();
}
