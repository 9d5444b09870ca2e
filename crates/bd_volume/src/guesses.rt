//! Guesses at which index of a map a place stands. A guess is tried before the map is asked, and never trusted: no
//! contract says what it is.
use bd_base::OutOfMemory;
use std::alloc::Global;

// How many guesses there is room for at first, where there is any. Each further room is twice the one before, so that
// a place's lowest bits say where its guess is.
const FEWEST: usize = 16;

/// For the lowest bits of a place, the index that was noted last for such a place.
#[derive(Drop)]
pub(crate) struct Guesses {
    noted: Vec<usize>,
    mask: u64,
}

impl Guesses {
    /// Nothing is noted. It takes no memory.
    pub(crate) fn new(alloc: Global) -> Guesses {
        Guesses {
            noted: Vec::new(alloc),
            mask: 0,
        }
    }

    /// The index that may be that of a place.
    pub(crate) fn of(&self, place: u64) -> usize {
        match self.noted.get((place & self.mask) as usize) {
            Some(index) => *index,
            None => 0,
        }
    }

    /// Notes the index of a place, where there is room.
    pub(crate) fn note(&mut self, place: u64, index: usize) {
        if let Some(noted) = self.noted.get_mut((place & self.mask) as usize) {
            *noted = index;
        }
    }

    /// Makes room for twice as many guesses as there are clusters, unless there is room or no memory for it.
    pub(crate) fn make_room(&mut self, clusters: usize) {
        let len = self.noted.len();
        if clusters < len / 2 {
            return;
        }
        let room = if len < FEWEST {
            FEWEST
        } else {
            len.saturating_mul(2)
        };
        if let Ok(()) = self.noted.resize(room, 0) {
            self.mask = room as u64 - 1;
        }
    }

    /// The same guesses.
    pub(crate) fn copy(&self) -> Result<Guesses, OutOfMemory> {
        let noted = Vec::from_slice(*self.noted.allocator(), self.noted.as_slice())?;
        Ok(Guesses {
            noted,
            mask: self.mask,
        })
    }
}
