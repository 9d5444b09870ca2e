//! The pairs of one device: which cluster each of its places has.
ghost use Rattle.std.specs.Prelude.{◌≡◌, ◌+◌, ◌<◌, ◌≤◌, ◌^◌, ℕ, [], None, count_by, length, nat_eq, slice_index, IfOk, OnErr, OnOk};
ghost use Rattle.bd_thin_map.specs.Pairs.{cluster_at, one, one_if, users_in, with_cluster, without_place};
ghost use Rattle.indexmap.specs.IndexMap.{values};

use crate::users::Users;
use bd_base::OutOfMemory;
use indexmap::IndexMap;
use std::alloc::Global;
use std::marker::Model;

/// Which cluster each place of a device has, seen in the order of the places.
#[derive(Drop)]
pub(crate) struct Pairs {
    map: IndexMap<u64, u32>,
}

impl Model for Pairs {
    ghost use Rattle.std.specs.Prelude.{nat_eq};
    ghost use Rattle.std.specs.List.{IsDistinct};
    ghost use Rattle.std.specs.Map.{keys_of};
    ghost use Rattle.bd_thin_map.specs.Pairs.{Pairs, in_order};

    ghost Value = { Pairs };

    ghost view = { λ p. in_order p.map.entries };

    ghost invariant = { λ p. IsDistinct nat_eq (keys_of p.map.entries) };
}

// One more place has each of some clusters.
fn raise_each(map: &IndexMap<u64, u32>, users: &mut Users)
    requires there { (c : ℕ) → 0 < count_by (nat_eq c) (values map.now) → c < length users.old }
    requires fits { (c : ℕ) → slice_index users.old c + count_by (nat_eq c) (values map.now) < 2 ^ 64 }
    ensures each { (c : ℕ) → slice_index users.new c ≡ slice_index users.old c + count_by (nat_eq c) (values map.now) }
    ensures as_many { length users.new ≡ length users.old }
{
    for cluster in map.values() {
        users.raise(*cluster);
    }
}

// One place less has each of some clusters.
fn lower_each(map: &IndexMap<u64, u32>, users: &mut Users)
    requires { (c : ℕ) → count_by (nat_eq c) (values map.now) ≤ slice_index users.old c }
    ensures each { (c : ℕ) → slice_index users.new c + count_by (nat_eq c) (values map.now) ≡ slice_index users.old c }
    ensures as_many { length users.new ≡ length users.old }
{
    for cluster in map.values() {
        users.lower(*cluster);
    }
}

impl Pairs {
    /// No place has a cluster. It takes no memory.
    pub(crate) fn new(alloc: Global) -> Pairs
        ensures { result ≡ [] }
    {
        Pairs {
            map: IndexMap::new(alloc),
        }
    }

    /// The cluster of a place; none where it has none.
    pub(crate) fn at(&self, place: u64) -> Option<u32>
        ensures { result ≡ cluster_at self.now place }
    {
        self.map.get(&place).copied()
    }

    /// The place has this cluster from now on. It gives the one that the place had. After out of memory,
    /// which only a place without a cluster meets, nothing changed.
    pub(crate) fn put(&mut self, place: u64, cluster: u32) -> Result<Option<u32>, OutOfMemory>
        ensures old { IfOk result (λ old. old ≡ cluster_at self.old place) }
        ensures ok { OnOk result (self.new ≡ with_cluster place cluster self.old) }
        ensures users { IfOk result (λ old. (c : ℕ) → users_in c self.new + one_if c old ≡ users_in c self.old + one c cluster) }
        ensures err { OnErr result (self.new ≡ self.old) }
        ensures absent { OnErr result (cluster_at self.old place ≡ None) }
    {
        Ok(self.map.insert(place, cluster)?)
    }

    /// The place has no cluster any more. It gives the one that the place had, and takes no memory.
    pub(crate) fn take(&mut self, place: u64) -> Option<u32>
        ensures old { result ≡ cluster_at self.old place }
        ensures rest { self.new ≡ without_place place self.old }
    {
        self.map.swap_remove(&place)
    }

    /// No place has a cluster any more. It takes no memory.
    pub(crate) fn clear(&mut self)
        ensures { self.new ≡ [] }
    {
        self.map.clear();
    }

    /// Equal pairs, or out of memory.
    pub(crate) fn copy(&self) -> Result<Pairs, OutOfMemory>
        ensures { IfOk result (λ p. p ≡ self.now) }
    {
        Ok(Pairs {
            map: self.map.clone()?,
        })
    }

    /// Counts these pairs' places as places that have their clusters. It takes no memory.
    pub(crate) fn join(&self, users: &mut Users)
        requires there { (c : ℕ) → 0 < users_in c self.now → c < length users.old }
        requires fits { (c : ℕ) → slice_index users.old c + users_in c self.now < 2 ^ 64 }
        ensures each { (c : ℕ) → slice_index users.new c ≡ slice_index users.old c + users_in c self.now }
        ensures as_many { length users.new ≡ length users.old }
    {
        raise_each(&self.map, users);
    }

    /// Counts these pairs' places no more. It takes no memory.
    pub(crate) fn leave(&self, users: &mut Users)
        requires { (c : ℕ) → users_in c self.now ≤ slice_index users.old c }
        ensures each { (c : ℕ) → slice_index users.new c + users_in c self.now ≡ slice_index users.old c }
        ensures as_many { length users.new ≡ length users.old }
    {
        lower_each(&self.map, users);
    }
}
