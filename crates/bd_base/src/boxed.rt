//! A value with a place of its own, which contracts see as the value.
ghost use Rattle.std.specs.Prelude.{◌≡◌, IfOk};
ghost use Rattle.std.specs.Box.{box_value};

use crate::memory::OutOfMemory;
use std::alloc::Global;
use std::marker::Model;

/// A value with a place of its own, seen as the value: what holds it is as narrow as a pointer.
#[derive(Drop)]
pub struct Boxed<T> {
    place: Box<T>,
}

impl<T> Model for Boxed<T> {
    ghost use Rattle.std.specs.Box.{box_value};

    ghost Value = { T };

    ghost view = { λ b. box_value b.place };
}

impl<T: Drop> Boxed<T> {
    /// The value in a place of its own, or out of memory.
    pub fn new(alloc: Global, value: T) -> Result<Boxed<T>, OutOfMemory>
        ensures { IfOk result (λ b. b ≡ value) }
    {
        let place = Box::new(alloc, value)?;
        Ok(Boxed { place })
    }
}

impl<T> Boxed<T> {
    /// The value.
    pub fn get(&self) -> &T
        ensures { result.now ≡ self.now }
    {
        &self.place
    }
}
