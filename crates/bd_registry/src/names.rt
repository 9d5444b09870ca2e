//! Names and their places.
ghost use Rattle.std.specs.Prelude.{◌≡◌, None, List, ℕ, position, IfOk, OnOk, OnErr};
ghost use Rattle.bd_base.specs.Name.{same_name};
ghost use Rattle.bd_registry.specs.Names.{Gains, place_of_name};

use bd_base::{DevRow, Name, OutOfMemory};
use indexmap::IndexMap;
use std::alloc::Global;

/// Names and the place of each.
#[derive(Drop)]
pub(crate) struct Names {
    places: IndexMap<Vec<u8>, usize>,
}

impl Names {
    // No names.
    pub(crate) fn new(alloc: Global) -> Names
        ensures { (q : List ℕ) → place_of_name result q ≡ None }
    {
        Names {
            places: IndexMap::new(alloc),
        }
    }

    // The places of the names of devices, of which the first with a name counts.
    pub(crate) fn of(alloc: Global, rows: &[DevRow]) -> Result<Names, OutOfMemory>
        ensures { IfOk result (λ names. (q : List ℕ) → place_of_name names q ≡ position (λ row. same_name row.name q) rows.now) }
    {
        let mut names = Names::new(alloc);
        for (place, row) in rows.iter().enumerate() {
            names.add(alloc, &row.name, place)?;
        }
        Ok(names)
    }

    // The place of a name.
    pub(crate) fn find(&self, name: &Name) -> Option<usize>
        ensures { result ≡ place_of_name self.now name.now }
    {
        self.places.get(name.as_slice()).copied()
    }

    // Gives a name a place, where it has none. Out of memory, nothing changes.
    pub(crate) fn add(
        &mut self,
        alloc: Global,
        name: &Name,
        place: usize,
    ) -> Result<(), OutOfMemory>
        ensures ok { OnOk result (Gains self.old name.now place self.new) }
        ensures err { OnErr result ((q : List ℕ) → place_of_name self.new q ≡ place_of_name self.old q) }
    {
        if self.find(name).is_some() {
            return Ok(());
        }
        let key = Vec::from_slice(alloc, name.as_slice())?;
        self.places.insert(key, place)?;
        Ok(())
    }
}
