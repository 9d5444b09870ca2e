//! The tokens that aren't at a place: walks in a list, all others in a map.
ghost use Rattle.std.specs.Prelude.{◌≡◌, ◌+◌, ◌^◌, ◌<◌, ◌≤◌, [], length, option_copied, IfNone, IsOk, OnErr, OnOk, None, Some};
ghost use Rattle.std.specs.List.{slice_get};
ghost use Rattle.bd_tokens.specs.Pended.{are_own_pended};
ghost use Rattle.bd_tokens.specs.Tokens.{here_in, Sets};
ghost use Rattle.bd_tokens.specs.Walks.{walks_in};

use crate::key::Key;
use crate::others::{drop_other, get_other, hold_other, take_other};
use crate::pended::are_others_pended;
use crate::walks::{count_walks, drop_walk, get_walk, hold_walk, take_walk, walk_at, walk_of};
use bd_base::{OutOfMemory, Setup, WalkId};
use bd_machine::{Id, Kept, Part};
use std::alloc::Global;
use std::collections::HashMap;
use std::marker::Model;

/// Tokens, seen as their ids with what is kept of each, and as how many more can be held even where memory runs out.
#[derive(Drop)]
pub(crate) struct Unplaced {
    walks: Vec<(WalkId, Kept)>,
    // notices, and requests and pieces whose place another one has
    map: HashMap<Key, Kept>,
}

impl Model for Unplaced {
    ghost use Rattle.std.specs.Prelude.{vec_capacity, vec_len};
    ghost use Rattle.std.specs.HashMap.{spare};
    ghost use Rattle.bd_tokens.specs.Tokens.{Held};
    ghost use Rattle.bd_tokens.specs.Walks.{room_of, unplaced_with, AreUnplaced};

    ghost Value = { Held };

    ghost view = { λ t. record { items = unplaced_with t.walks.items t.map.entries; room = room_of (spare t.map) (vec_capacity t.walks) (vec_len t.walks) } };

    ghost invariant = { λ t. AreUnplaced t.walks.items t.map.entries };
}

impl Unplaced {
    /// No token. It takes no memory.
    pub(crate) fn new(alloc: Global) -> Unplaced
        ensures { result.items ≡ [] }
    {
        Unplaced {
            walks: Vec::new(alloc),
            map: HashMap::new(alloc),
        }
    }

    /// How many tokens there are.
    pub(crate) fn len(&self) -> usize
        ensures value { result ≡ length self.now.items }
        ensures small { result < 2 ^ 63 + 2 ^ 62 }
    {
        count_walks(self.walks.as_slice()) + self.map.len()
    }

    /// What is held of the token.
    pub(crate) fn get(&self, id: Id) -> Option<&Kept>
        ensures { option_copied result ≡ here_in self.now.items id }
    {
        match walk_of(id) {
            Some(walk) => get_walk(self.walks.as_slice(), walk),
            None => get_other(&self.map, id),
        }
    }

    /// Whether each token is a pended request of this thread: no walk is.
    pub(crate) fn are_pended(&self, setup: &Setup, part: &Part, me: u32) -> bool
        ensures { result ≡ are_own_pended setup.now part.now me self.now.items }
    {
        self.walks.is_empty() && are_others_pended(&self.map, setup, part, me)
    }

    /// How many walks there are.
    pub(crate) fn walk_count(&self) -> usize
        ensures { result ≡ length (walks_in self.now.items) }
    {
        count_walks(self.walks.as_slice())
    }

    /// The walk at this place of those that are here.
    pub(crate) fn walk_at(&self, place: usize) -> Option<WalkId>
        ensures { result ≡ slice_get (walks_in self.now.items) place }
    {
        walk_at(self.walks.as_slice(), place)
    }

    /// Takes memory for `n` more tokens of any kind. Out of memory, nothing changed.
    pub(crate) fn reserve(&mut self, n: u32) -> Result<(), OutOfMemory>
        ensures here { here_in self.new.items ≡ here_in self.old.items }
        ensures room { self.old.room ≤ self.new.room }
        ensures ok { OnOk result (n ≤ self.new.room) }
    {
        self.walks.reserve(n as usize)?;
        self.map.reserve(n as usize)?;
        Ok(())
    }

    /// Holds a token, in place of what was held of it. It takes no memory where there is room; out of memory, nothing
    /// changed.
    pub(crate) fn hold(&mut self, id: Id, kept: Kept) -> Result<(), OutOfMemory>
        ensures ok { OnOk result (Sets self.old.items self.new.items id (Some kept)) }
        ensures err { OnErr result (self.new.items ≡ self.old.items) }
        ensures room { self.old.room ≤ self.new.room + 1 }
        ensures holds { 0 < self.old.room → IsOk result }
    {
        match walk_of(id) {
            Some(walk) => {
                hold_walk(&mut self.walks, walk, kept)?;
                Ok(())
            }
            None => {
                hold_other(&mut self.map, id, kept)?;
                Ok(())
            }
        }
    }

    /// Takes out what is held of the token.
    pub(crate) fn take_out(&mut self, id: Id) -> Option<Kept>
        ensures kept { result ≡ here_in self.old.items id }
        ensures gone { Sets self.old.items self.new.items id None }
        ensures same { IfNone result (self.new.items ≡ self.old.items) }
        ensures room { self.old.room ≤ self.new.room }
    {
        match walk_of(id) {
            Some(walk) => take_walk(&mut self.walks, walk),
            None => take_other(&mut self.map, id),
        }
    }

    /// Lets the token go, where it is here.
    pub(crate) fn let_go(&mut self, id: Id)
        ensures gone { Sets self.old.items self.new.items id None }
        ensures room { self.old.room ≤ self.new.room }
    {
        match walk_of(id) {
            Some(walk) => drop_walk(&mut self.walks, walk),
            None => drop_other(&mut self.map, id),
        }
    }
}
