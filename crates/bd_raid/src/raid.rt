//! A set of devices.
ghost use Rattle.std.specs.Prelude.{◌≡◌, ◌≤◌, ◌<◌, ◌↔◌, All, IfOk};
ghost use Rattle.bd_raid.specs.Raid.{at_raid, block_of_raid, blocks_of_raid, FollowOn, IsPlace, IsRefused};

use crate::layout::{has_small, joined_at, least, left_in_strip, striped_at, used, used_of_all};
use std::alloc::Global;
use std::marker::Model;

/// Why there is no such set.
#[derive(Clone, Copy, Debug, PartialEq, Eq)]
pub enum RaidError {
    OutOfMemory,
    Inval,
}

/// A set of 1 to 16 devices, of which it uses the whole strips. Where it is striped, the strips go round
/// the members; else the members stand one after the other.
#[derive(Debug, Drop)]
pub struct Raid {
    strip: u64,
    sizes: Vec<u64>,
    striped: bool,
}

impl Model for Raid {
    ghost use Rattle.bd_raid.specs.Raid.{RaidRows, IsRaid};

    ghost Value = { RaidRows };

    ghost view = { λ r. record { strip = r.strip; sizes = r.sizes.items; striped = r.striped } };

    ghost invariant = { λ r. IsRaid (record { strip = r.strip; sizes = r.sizes.items; striped = r.striped }) };
}

impl Raid {
    /// The set of devices of these sizes, in order. Inval exactly where there is none, or more than 16, or
    /// a size is below the strip.
    pub fn new(alloc: Global, strip: u64, sizes: &[u64], striped: bool) -> Result<Raid, RaidError>
        requires some_strip { 1 ≤ strip }
        requires sizes_fit { All (λ size. size ≤ 1099511627776) sizes.now }
        ensures ok { IfOk result (λ r. r ≡ record { strip = strip; sizes = sizes.now; striped = striped }) }
        ensures inval { (result ≡ Err RaidError.Inval) ↔ IsRefused strip sizes.now }
    {
        if sizes.is_empty() || sizes.len() > 16 || has_small(strip, sizes) {
            return Err(RaidError::Inval);
        }
        match Vec::from_slice(alloc, sizes) {
            Ok(sizes) => Ok(Raid {
                strip,
                sizes,
                striped,
            }),
            Err(_) => Err(RaidError::OutOfMemory),
        }
    }

    /// How many blocks the set has: the used blocks of all members, or of a striped set as many of each
    /// as the least has. It takes no memory.
    pub fn blocks(&self) -> u64
        ensures { result ≡ blocks_of_raid self.now }
    {
        if self.striped {
            self.sizes.len() as u64 * used(least(self.sizes.as_slice()), self.strip)
        } else {
            used_of_all(self.strip, self.sizes.as_slice())
        }
    }

    /// Where a block of the set lies: the member, by its number, and the block of it. It is a used block of
    /// a member, and no other block of the set lies there. It takes no memory.
    pub fn at(&self, block: u64) -> (u32, u64)
        requires { block < blocks_of_raid self.now }
        ensures place { result ≡ at_raid self.now block }
        ensures used { IsPlace self.now result }
        ensures alone { block_of_raid self.now result ≡ block }
    {
        if self.striped {
            striped_at(self.strip, self.sizes.len() as u32, block)
        } else {
            joined_at(self.strip, self.sizes.as_slice(), block)
        }
    }

    /// How many blocks of the set from this one on lie on one member one after the other. It takes no memory.
    pub fn run_from(&self, block: u64) -> u64
        requires { block < blocks_of_raid self.now }
        ensures { FollowOn self.now block result }
    {
        if !self.striped {
            let (member, place) = self.at(block);
            used(self.sizes[member as usize], self.strip) - place
        } else if self.sizes.len() > 1 {
            left_in_strip(self.strip, block)
        } else {
            self.blocks() - block
        }
    }
}
