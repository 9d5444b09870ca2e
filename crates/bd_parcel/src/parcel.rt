//! What is kept of a token, at a place of its own.
ghost use Rattle.std.specs.Prelude.{◌≡◌, IfErr, IfOk};
ghost use Rattle.std.specs.Borrow.{Lends, sem};
ghost use Rattle.bd_machine.specs.contracts.state.Kept.{the_row as kept_row};
ghost use Rattle.bd_parcel.specs.contracts.parcel.Parcel.{the_row};

use bd_base::OutOfMemory;
use bd_machine::Kept;
use std::alloc::Global;
use std::marker::Model;

/// What is kept of a token, at a place of its own, seen as what is kept: a token that goes from thread to thread is moved
/// as a pointer.
#[derive(Drop)]
pub struct Parcel {
    kept: Box<Kept>,
}

impl Model for Parcel {
    ghost use Rattle.std.specs.Box.{box_value};
    ghost use Rattle.bd_machine.specs.declared.state.Kept.{Kept};

    ghost Value = { Kept };

    ghost view = { λ p. box_value p.kept };
}

impl Parcel {
    /// Gives what is kept a place of its own, or out of memory.
    pub fn new(alloc: Global, kept: Kept) -> Result<Parcel, OutOfMemory>
        ensures { IfOk result (λ parcel. parcel ≡ kept) }
    {
        let kept = Box::new(alloc, kept)?;
        Ok(Parcel { kept })
    }

    /// Gives what is kept a place of its own. Out of memory, it comes back.
    pub fn try_new(alloc: Global, kept: Kept) -> Result<Parcel, Kept>
        ensures ok { IfOk result (λ parcel. parcel ≡ kept) }
        ensures err { IfErr result (λ back. back ≡ kept) }
    {
        match Box::new(alloc, kept) {
            Ok(kept) => Ok(Parcel { kept }),
            Err(failed) => Err(failed.value),
        }
    }

    /// What is kept.
    pub fn get(&self) -> &Kept
        ensures { result.now ≡ self.now }
    {
        &self.kept
    }

    /// What is kept, to be changed at its place.
    pub fn get_mut(&mut self) -> &mut Kept
        ensures* writes_back { sem 𝓛 (Lends the_row kept_row self.entry result (λ w. w)) }
        ensures value { result.now ≡ self.old }
    {
        &mut self.kept
    }

    /// Something else is kept, at the same place.
    pub fn set(&mut self, kept: Kept)
        ensures { self.new ≡ kept }
    {
        *self.kept = kept;
    }

    /// What is kept, out of its place.
    pub fn open(self) -> Kept
        ensures { result ≡ self }
    {
        Box::into_inner(self.kept)
    }
}
