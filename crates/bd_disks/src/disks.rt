//! The disks of one thread.
ghost use Rattle.std.specs.Prelude.{◌≡◌, ◌↔◌, ◌++◌, ◌∷◌, [], length, slice_get, IsTrue, IfOk, IfErr, OnOk, OnErr};
ghost use Rattle.std.specs.List.{position};
ghost use Rattle.std.specs.Option.{option_map};
ghost use Rattle.bd_disks.specs.Rows.{ChangesDisk, Does, IsInsideOne, disk_of, is_row, places};
ghost use Rattle.bd_disks.specs.Serving.{IsInsideDisk};

use crate::serving::{can_serve, serve};
use bd_base::{DevId, OutOfMemory};
use bd_home::Given;
use bd_machine::OpenPiece;
use bd_outside::Disk;
use std::alloc::Global;
use std::marker::Model;

/// The disks of one thread's aio devices, each with its device, seen as the list of both. Of two
/// rows of one device the first counts.
pub struct Disks<D> {
    rows: Vec<(DevId, D)>,
}

impl<D> Model for Disks<D> {
    ghost use Rattle.std.specs.Prelude.{List};
    ghost use Rattle.bd_base.specs.declared.id.DevId.{DevId};

    ghost Value = { List (DevId × D) };

    ghost view = { λ d. d.rows.items };
}

impl<D> Disks<D> {
    /// No disks. It takes no memory.
    pub fn new(alloc: Global) -> Disks<D>
        ensures { result ≡ [] }
    {
        Disks {
            rows: Vec::new(alloc),
        }
    }

    /// Adds the disk of a device after the others. Out of memory gives the disk back, and leaves the
    /// others.
    pub fn add(&mut self, dev: DevId, disk: D) -> Result<(), (D, OutOfMemory)>
        ensures added { OnOk result (self.new ≡ self.old ++ (dev, disk) ∷ []) }
        ensures same { OnErr result (self.new ≡ self.old) }
        ensures back { IfErr result (λ error. error.0 ≡ disk) }
    {
        match self.rows.push((dev, disk)) {
            Ok(()) => Ok(()),
            Err(failed) => Err((failed.value.1, OutOfMemory)),
        }
    }

    /// How many disks there are.
    pub fn len(&self) -> usize
        ensures { result ≡ length self.now }
    {
        self.rows.len()
    }

    /// The device of the disk at a place, in the order in which they were added, from 0 on; None
    /// beyond the last.
    pub fn device_at(&self, place: usize) -> Option<DevId>
        ensures { result ≡ option_map (λ row. row.0) (slice_get self.now place) }
    {
        device_of(self.rows.as_slice(), place)
    }

    /// All disks with their devices, in the order in which they were added. It takes no memory.
    pub fn finish(self) -> Vec<(DevId, D)>
        ensures { result.items ≡ self }
    {
        let Disks { rows } = self;
        rows
    }
}

// The device of the row at a place.
fn device_of<D>(rows: &[(DevId, D)], place: usize) -> Option<DevId>
    ensures { result ≡ option_map (λ row. row.0) (slice_get rows.now place) }
{
    match rows.get(place) {
        Some(row) => Some(row.0),
        None => None,
    }
}

// The place of a device's first row.
fn place<D>(rows: &[(DevId, D)], dev: DevId) -> Option<usize>
    ensures { result ≡ position (is_row dev) rows.now }
{
    rows.iter().position(|row| row.0.0 == dev.0)
}

// Serves a piece from the disk of a row.
fn serve_row<D: Disk>(
    alloc: Global,
    row: &mut (DevId, D),
    size: u32,
    piece: &OpenPiece,
) -> Result<Given, OutOfMemory>
    requires inside { IsInsideDisk (D.state row.old.1) size piece.now }
    ensures does { IfOk result (λ s. Does size piece.now s.end s.read (D.state row.old.1) (D.state row.new.1)) }
    ensures same_device { row.new.0 ≡ row.old.0 }
    ensures same_place { (D.state row.new.1).place ≡ (D.state row.old.1).place }
    ensures out_of_memory { OnErr result (row.new ≡ row.old) }
{
    serve(alloc, &mut row.1, size, piece)
}

// How many blocks the disk of a device has.
fn blocks_of<D: Disk>(rows: &[(DevId, D)], dev: DevId) -> Option<u64>
    ensures { result ≡ option_map (λ disk. (D.state disk).blocks) (disk_of dev rows.now) }
{
    match place(rows, dev) {
        Some(i) => Some(rows[i].1.blocks()),
        None => None,
    }
}

// Whether the disk of the piece's device can serve it.
fn can_serve_in<D: Disk>(rows: &[(DevId, D)], size: u32, piece: &OpenPiece) -> bool
    ensures { IsTrue result ↔ IsInsideOne (option_map D.state (disk_of piece.now.base rows.now)) size piece.now }
{
    match place(rows, piece.base) {
        Some(i) => can_serve(&rows[i].1, size, piece),
        None => false,
    }
}

// Serves a piece from the disk of its device.
fn serve_in<D: Disk>(
    alloc: Global,
    rows: &mut [(DevId, D)],
    size: u32,
    piece: &OpenPiece,
) -> Result<Given, OutOfMemory>
    requires inside { IsInsideOne (option_map D.state (disk_of piece.now.base rows.old)) size piece.now }
    ensures does { IfOk result (λ s. ChangesDisk piece.now.base
        (λ old new. Does size piece.now s.end s.read (D.state old) (D.state new)) rows.old rows.new) }
    ensures kept { places D.state rows.new ≡ places D.state rows.old }
    ensures out_of_memory { OnErr result (rows.new ≡ rows.old) }
{
    let Some(i) = place(rows, piece.base) else {
        unreachable!()
    };
    serve_row(alloc, &mut rows[i], size, piece)
}

impl<D: Disk> Disks<D> {
    /// How many blocks the disk of a device has; None where the device has none.
    pub fn blocks(&self, dev: DevId) -> Option<u64>
        ensures { result ≡ option_map (λ disk. (D.state disk).blocks) (disk_of dev self.now) }
    {
        blocks_of(self.rows.as_slice(), dev)
    }

    /// Whether `serve` may be asked to do what the piece asks: its device has a disk here, which has
    /// blocks of `size` bytes, at least 1, and holds the piece's blocks, and the numbers of its
    /// blocks in the request's device and its length in bytes have 64 bits.
    pub fn can_serve(&self, size: u32, piece: &OpenPiece) -> bool
        ensures { IsTrue result ↔ IsInsideOne (option_map D.state (disk_of piece.now.base self.now)) size piece.now }
    {
        can_serve_in(self.rows.as_slice(), size, piece)
    }

    /// Does to the disk of the piece's device what the piece asks, as `serve` does it to one disk. The
    /// same disks are there after it. Out of memory leaves all disks as they were.
    pub fn serve(&mut self, size: u32, piece: &OpenPiece) -> Result<Given, OutOfMemory>
        requires inside { IsInsideOne (option_map D.state (disk_of piece.now.base self.old)) size piece.now }
        ensures does { IfOk result (λ s. ChangesDisk piece.now.base
            (λ old new. Does size piece.now s.end s.read (D.state old) (D.state new)) self.old self.new) }
        ensures kept { places D.state self.new ≡ places D.state self.old }
        ensures out_of_memory { OnErr result (self.new ≡ self.old) }
    {
        let alloc = *self.rows.allocator();
        serve_in(alloc, self.rows.as_mut_slice(), size, piece)
    }
}
