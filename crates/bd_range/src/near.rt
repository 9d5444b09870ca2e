//! Notes of locks by the clusters of blocks in which they begin: a lookup for a short range looks at one or two of them.
ghost use Rattle.std.specs.Prelude.{◌≡◌, ℕ, filter, IfOk, OnErr, OnOk};
ghost use Rattle.std.specs.List.{list_any};
ghost use Rattle.bd_range.specs.Locks.{is_rival};
ghost use Rattle.bd_range.specs.Near.{cluster_of, is_key, is_other, near_at, with_note, without_key};

use crate::rival::{Key, is_rival};
use bd_base::{OutOfMemory, ReqId};
use std::alloc::Global;
use std::collections::HashMap;

// How many blocks a cluster has. A range of at most 512 blocks, with the 511 blocks before it, mostly lies in one of
// them, and never in more than two.
const CLUSTER: u64 = 4_096;

// A lock: its key, and how many blocks it has.
type Lock = (Key, u64);

/// The locks that are noted in each cluster. A lock is noted in the one in which it begins.
pub(crate) type Near = HashMap<u64, Vec<Lock>>;

/// The cluster of a block.
pub(crate) fn cluster_of(block: u64) -> u64
    ensures { result ≡ cluster_of block }
{
    block / CLUSTER
}

/// The same notes.
pub(crate) fn copy_near(near: &Near) -> Result<Near, OutOfMemory>
    ensures { IfOk result (λ n. (c : ℕ) → near_at n c ≡ near_at near.now c) }
{
    Ok(near.clone()?)
}

// Whether one of some locks is another request's, and overlaps a range.
fn rival_in(row: &[Lock], req: ReqId, first: u64, count: u64) -> bool
    ensures { result ≡ list_any (is_rival req first count) row.now }
{
    row.iter()
        .any(|(key, blocks)| is_rival(req, first, count, *key, *blocks))
}

/// Whether a lock that is noted in a cluster is another request's, and overlaps a range. It takes no memory.
pub(crate) fn rival_near(near: &Near, cluster: u64, req: ReqId, first: u64, count: u64) -> bool
    ensures { result ≡ list_any (is_rival req first count) (near_at near.now cluster) }
{
    match near.get(&cluster) {
        Some(row) => rival_in(row.as_slice(), req, first, count),
        None => false,
    }
}

// The locks that are noted in a cluster.
fn row_of(near: &Near, alloc: Global, cluster: u64) -> Result<Vec<Lock>, OutOfMemory>
    ensures { IfOk result (λ r. r.items ≡ near_at near.now cluster) }
{
    match near.get(&cluster) {
        Some(row) => Ok(row.clone()?),
        None => Ok(Vec::new(alloc)),
    }
}

// Whether both are the same key.
fn is_key(a: Key, b: Key) -> bool
    ensures { result ≡ is_key a b }
{
    a.0 == b.0 && a.1 == b.1 && a.2 == b.2
}

// The locks of a key go.
fn drop_key(row: &mut Vec<Lock>, key: Key)
    ensures { row.new.items ≡ filter (is_other key) row.old.items }
{
    row.retain(|lock| !is_key(lock.0, key));
}

/// Notes a lock, in place of any of its key. After out of memory nothing changed.
pub(crate) fn note(near: &mut Near, alloc: Global, key: Key, blocks: u64) -> Result<(), OutOfMemory>
    ensures ok { OnOk result ((c : ℕ) → near_at near.new c ≡ with_note near.old key blocks c) }
    ensures err { OnErr result ((c : ℕ) → near_at near.new c ≡ near_at near.old c) }
{
    let cluster = cluster_of(key.0);
    let mut row = row_of(near, alloc, cluster)?;
    drop_key(&mut row, key);
    row.push((key, blocks))?;
    let _ = near.insert(cluster, row)?;
    Ok(())
}

// A cluster with no lock takes no memory.
fn drop_empty(near: &mut Near, cluster: u64)
    ensures { (c : ℕ) → near_at near.new c ≡ near_at near.old c }
{
    let is_empty = match near.get(&cluster) {
        Some(row) => row.is_empty(),
        None => false,
    };
    if is_empty {
        let _ = near.remove(&cluster);
    }
}

// The locks of a key go from those that are noted in its cluster.
fn forget_in(near: &mut Near, key: Key)
    ensures { (c : ℕ) → near_at near.new c ≡ without_key near.old key c }
{
    if let Some(row) = near.get_mut(&cluster_of(key.0)) {
        drop_key(row, key);
    }
}

/// Notes locks of a key no more. It takes no memory.
pub(crate) fn forget(near: &mut Near, key: Key)
    ensures { (c : ℕ) → near_at near.new c ≡ without_key near.old key c }
{
    forget_in(near, key);
    drop_empty(near, cluster_of(key.0));
}
