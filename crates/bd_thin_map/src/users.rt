//! How many places have each cluster.
ghost use Rattle.std.specs.Prelude.{◌≡◌, ◌+◌, ◌-◌, ◌<◌, ◌≤◌, ◌^◌, ℕ, length, nat_eq, position, replicate, slice_index, slice_set, IfOk};
ghost use Rattle.std.specs.List.{position_or_len};

use bd_base::OutOfMemory;
use std::alloc::Global;
use std::marker::Model;

/// How many places have each cluster, seen as the list of these numbers.
#[derive(Drop)]
pub(crate) struct Users {
    counts: Vec<u64>,
    // The least cluster that no place has; where each has one, how many clusters there are.
    least: usize,
}

impl Model for Users {
    ghost use Rattle.std.specs.Prelude.{◌≡◌, ◌<◌, ◌^◌, List, ℕ, nat_eq, length};
    ghost use Rattle.std.specs.List.{position_or_len};

    ghost Value = { List ℕ };

    ghost view = { λ u. u.counts.items };

    ghost invariant = { λ u. (u.least ≡ position_or_len (nat_eq 0) u.counts.items) × (length u.counts.items < 2 ^ 32) };
}

// The first cluster from one on that no place has; where each has one, how many clusters there are.
fn next_free(counts: &[u64], from: usize) -> usize
    requires there { from ≤ length counts.now }
    requires before { (c : ℕ) → c < from → 0 < slice_index counts.now c }
    ensures { result ≡ position_or_len (nat_eq 0) counts.now }
{
    let mut cluster = from;
    while cluster < counts.len() && counts[cluster] > 0 {
        cluster += 1;
    }
    cluster
}

impl Users {
    /// No place has any of so many clusters.
    pub(crate) fn new(alloc: Global, clusters: u32) -> Result<Users, OutOfMemory>
        ensures { IfOk result (λ u. u ≡ replicate clusters 0) }
    {
        Ok(Users {
            counts: vec![in alloc; 0; clusters as usize]?,
            least: 0,
        })
    }

    /// How many places have this cluster; one that isn't there no place has.
    pub(crate) fn of(&self, cluster: u32) -> u64
        ensures { result ≡ slice_index self.now cluster }
    {
        match self.counts.get(cluster as usize) {
            Some(count) => *count,
            None => 0,
        }
    }

    /// The least cluster that no place has; none where each has one.
    pub(crate) fn first_free(&self) -> Option<u32>
        ensures { result ≡ position (nat_eq 0) self.now }
    {
        if self.least < self.counts.len() {
            Some(self.least as u32)
        } else {
            None
        }
    }

    /// One more place has the cluster.
    pub(crate) fn raise(&mut self, cluster: u32)
        requires there { cluster < length self.old }
        requires fits { slice_index self.old cluster + 1 < 2 ^ 64 }
        ensures { self.new ≡ slice_set self.old cluster (slice_index self.old cluster + 1) }
    {
        let at = cluster as usize;
        self.counts[at] += 1;
        if at == self.least {
            self.least = next_free(self.counts.as_slice(), at + 1);
        }
    }

    /// One place less has the cluster.
    pub(crate) fn lower(&mut self, cluster: u32)
        requires { 0 < slice_index self.old cluster }
        ensures { self.new ≡ slice_set self.old cluster (slice_index self.old cluster - 1) }
    {
        let at = cluster as usize;
        self.counts[at] -= 1;
        if self.counts[at] == 0 && at < self.least {
            self.least = at;
        }
    }

    /// Equal numbers, or out of memory.
    pub(crate) fn copy(&self) -> Result<Users, OutOfMemory>
        ensures { IfOk result (λ u. u ≡ self.now) }
    {
        Ok(Users {
            counts: self.counts.clone()?,
            least: self.least,
        })
    }
}
