//! The names of the files of disks.
ghost use Rattle.std.specs.Prelude.{◌≡◌, ℕ, List, ◌++◌, ◌∷◌, [], OnErr, OnOk, string_bytes};
ghost use Rattle.std.specs.List.{position};
ghost use Rattle.bd_base.specs.declared.id.DevId.{DevId as Device};
ghost use Rattle.bd_disks.specs.Rows.{is_row};
ghost use Rattle.bd_disk_pool.specs.Closing.{name_in};

use bd_base::{DevId, OutOfMemory};
use std::alloc::Global;
use std::marker::Model;

/// The name of each disk's file, by the disk's device, in the order in which they were opened.
#[derive(Drop)]
pub struct Names {
    rows: Vec<(DevId, String)>,
}

impl Model for Names {
    ghost use Rattle.std.specs.Prelude.{List, ℕ, map, string_bytes};
    ghost use Rattle.bd_base.specs.declared.id.DevId.{DevId};

    ghost Value = { List (DevId × List ℕ) };

    ghost view = { λ n. map (λ row. (row.0, string_bytes row.1)) n.rows.items };
}

// The place of a device's first row.
fn place(rows: &[(DevId, String)], dev: DevId) -> Option<usize>
    ensures { result ≡ position (is_row dev) rows.now }
{
    rows.iter().position(|row| row.0.0 == dev.0)
}

impl Names {
    /// No names. It takes no memory.
    pub(crate) fn none(alloc: Global) -> Names
        ensures { result ≡ [] }
    {
        Names {
            rows: Vec::new(alloc),
        }
    }

    /// Adds the name of the file of a device's disk, after the others. Out of memory leaves them.
    pub(crate) fn add(&mut self, dev: DevId, name: String) -> Result<(), OutOfMemory>
        ensures added { OnOk result (self.new ≡ self.old ++ (dev, string_bytes name) ∷ []) }
        ensures same { OnErr result (self.new ≡ self.old) }
    {
        match self.rows.push((dev, name)) {
            Ok(()) => Ok(()),
            Err(_) => Err(OutOfMemory),
        }
    }

    /// Forgets the last name.
    pub(crate) fn forget(&mut self)
        ensures { (rows : List (Device × List ℕ)) (row : Device × List ℕ) → self.old ≡ rows ++ row ∷ [] → self.new ≡ rows }
    {
        let _last = self.rows.pop();
    }

    /// The name of the file of a device's disk; no bytes where it has none.
    pub fn name_of(&self, dev: DevId) -> &str
        ensures { result.now ≡ name_in self.now dev }
    {
        match place(self.rows.as_slice(), dev) {
            Some(place) => self.rows[place].1.as_str(),
            None => "",
        }
    }
}
