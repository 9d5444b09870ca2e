//! The locks of a base device.
ghost use Rattle.std.specs.Prelude.{◌≡◌, ◌+◌, ◌<◌, ◌≤◌, ◌^◌, ◌↔◌, find, length, option_copied, position, IfOk, IsTrue, OnErr, OnOk};
ghost use Rattle.std.specs.List.{list_any};
ghost use Rattle.bd_range.specs.Locks.{first_free, held_by, is_free, is_piece, is_rival, may_go, no_locks, stops, with_lock, without_held, without_lock};

use crate::near::{Near, cluster_of, copy_near, forget, note, rival_near};
use crate::piece::HeldPiece;
use crate::rival::{Key, is_rival};
use bd_base::{OutOfMemory, ReqId, Rows};
use std::alloc::Global;
use std::collections::btree_map::Range;
use std::collections::{BTreeMap, HashMap};
use std::marker::Model;
use std::ops::Bound;

// The most blocks that a lock has. So a lock that overlaps a range begins less than that before it.
const MOST: u64 = 512;

/// The locks of requests on ranges of a base device's blocks, and the pieces that they hold back.
#[derive(Drop)]
pub struct Locks {
    locks: BTreeMap<Key, u64>,
    near: Near,
    alloc: Global,
    held: Rows<HeldPiece>,
}

impl Model for Locks {
    ghost use Rattle.std.specs.Prelude.{◌≤◌, All};
    ghost use Rattle.std.specs.BTreeMap.{values};
    ghost use Rattle.bd_range.specs.Locks.{LockRows};
    ghost use Rattle.bd_range.specs.Near.{AreNoted};

    ghost Value = { LockRows };

    ghost view = { λ l. record { locks = l.locks.entries; held = l.held } };

    ghost invariant = { λ l. All (λ n. n ≤ 512) (values l.locks) × AreNoted l.near l.locks };
}

// Whether one of some locks is another request's, and overlaps a range.
fn has_rival(mut locks: Range<'_, Key, u64>, req: ReqId, first: u64, count: u64) -> bool
    ensures { result ≡ list_any (is_rival req first count) locks.entry }
{
    locks.any(|(key, blocks)| is_rival(req, first, count, *key, *blocks))
}

// The lists of both with the same items.
fn copy_of(locks: &BTreeMap<Key, u64>) -> Result<BTreeMap<Key, u64>, OutOfMemory>
    ensures { IfOk result (λ r. r.entries ≡ locks.now.entries) }
{
    Ok(locks.clone()?)
}

// The first of the pieces that no lock stops.
fn first_of<'a>(locks: &Locks, held: &'a [HeldPiece]) -> Option<&'a HeldPiece>
    ensures { option_copied result ≡ find (may_go locks.now.locks) held.now }
{
    held.iter()
        .find(|p| locks.may_lock(p.req, p.first, p.count))
}

// The place of a piece.
fn place_of(held: &[HeldPiece], req: ReqId, k: u32) -> Option<usize>
    ensures { result ≡ position (is_piece req k) held.now }
{
    held.iter().position(|p| p.req.thread == req.thread && p.req.seq == req.seq && p.k == k)
}

impl Locks {
    /// No lock, and no piece that waits. It takes no memory.
    pub fn new(alloc: Global) -> Locks
        ensures { result ≡ no_locks }
    {
        Locks {
            locks: BTreeMap::new(alloc),
            near: HashMap::new(alloc),
            alloc,
            held: Rows::new(alloc),
        }
    }

    // Whether a lock of another request overlaps a range of at most 512 blocks: it begins in one of two clusters.
    fn has_rival_near(&self, req: ReqId, first: u64, count: u64) -> bool
        requires short { count ≤ 512 }
        requires ends { first + count < 2 ^ 64 }
        ensures { result ≡ list_any (is_rival req first count) self.now.locks }
    {
        if self.locks.len() == 0 {
            return false;
        }
        let low = cluster_of(first.saturating_sub(MOST - 1));
        let high = cluster_of(first + count);
        rival_near(&self.near, low, req, first, count)
            || (low != high && rival_near(&self.near, high, req, first, count))
    }

    // Whether a lock of another request overlaps a range, of any length.
    fn has_rival_between(&self, req: ReqId, first: u64, count: u64) -> bool
        ensures { result ≡ list_any (is_rival req first count) self.now.locks }
    {
        let from = (first.saturating_sub(MOST - 1), 0, 0);
        let to = match first.checked_add(count) {
            Some(end) => Bound::Excluded((end, 0, 0)),
            None => Bound::Unbounded,
        };
        has_rival(
            self.locks.range((Bound::Included(from), to)),
            req,
            first,
            count,
        )
    }

    /// Whether a request may lock a range: no lock of another overlaps it. It takes no memory.
    pub fn may_lock(&self, req: ReqId, first: u64, count: u64) -> bool
        ensures { result ≡ is_free self.now.locks req first count }
    {
        if count <= MOST && first <= u64::MAX - count {
            !self.has_rival_near(req, first, count)
        } else {
            !self.has_rival_between(req, first, count)
        }
    }

    /// A request locks a range. One of more than 512 blocks, which no request has, answers out of memory.
    /// After out of memory nothing changed.
    pub fn lock(&mut self, req: ReqId, first: u64, count: u64) -> Result<(), OutOfMemory>
        ensures ok { OnOk result (self.new ≡ with_lock self.old req first count) }
        ensures few { OnOk result (count ≤ 512) }
        ensures err { OnErr result (self.new ≡ self.old) }
    {
        if count > MOST {
            return Err(OutOfMemory);
        }
        let key = (first, req.thread, req.seq);
        note(&mut self.near, self.alloc, key, count)?;
        match self.locks.insert(key, count) {
            Ok(_) => Ok(()),
            Err(_) => {
                forget(&mut self.near, key);
                Err(OutOfMemory)
            }
        }
    }

    /// The lock of a request from this block on goes; the locks of others stay. It takes no memory.
    pub fn unlock(&mut self, req: ReqId, first: u64)
        ensures { self.new ≡ without_lock self.old req first }
    {
        let key = (first, req.thread, req.seq);
        let _ = self.locks.remove(&key);
        forget(&mut self.near, key);
    }

    /// Whether there is no lock, and no piece waits. It takes no memory.
    pub fn is_empty(&self) -> bool
        ensures { IsTrue result ↔ (self.now ≡ no_locks) }
    {
        self.locks.is_empty() && self.held.len() == 0
    }

    /// Whether a piece has to wait: a lock of another request overlaps its range. It takes no memory.
    pub fn stops(&self, req: ReqId, first: u64, count: u64) -> bool
        ensures { result ≡ stops self.now req first count }
    {
        !self.may_lock(req, first, count)
    }

    /// A piece waits, behind all others. After out of memory nothing changed.
    pub fn hold(&mut self, req: ReqId, k: u32, first: u64, count: u64) -> Result<(), OutOfMemory>
        ensures ok { OnOk result (self.new ≡ held_by self.old req k first count) }
        ensures err { OnErr result (self.new ≡ self.old) }
    {
        self.held.push(HeldPiece {
            req,
            k,
            first,
            count,
        })
    }

    /// The piece that came first of those that no lock stops any more, by its request and its number there.
    /// It takes no memory.
    pub fn first_free(&self) -> Option<(ReqId, u32)>
        ensures { result ≡ first_free self.now }
    {
        match first_of(self, self.held.as_slice()) {
            Some(p) => Some((p.req, p.k)),
            None => None,
        }
    }

    /// The piece of this name waits no more; where it was held twice, the first of both goes. It takes no memory.
    pub fn admit(&mut self, req: ReqId, k: u32)
        ensures { self.new ≡ without_held self.old req k }
    {
        if let Some(place) = place_of(self.held.as_slice(), req, k) {
            let _ = self.held.remove(place);
        }
    }

    /// Equal locks and pieces, or out of memory.
    pub fn copy(&self) -> Result<Locks, OutOfMemory>
        ensures { IfOk result (λ r. r ≡ self.now) }
    {
        Ok(Locks {
            locks: copy_of(&self.locks)?,
            near: copy_near(&self.near)?,
            alloc: self.alloc,
            held: self.held.copy()?,
        })
    }

    /// How many pieces wait. It takes no memory.
    pub fn held(&self) -> usize
        ensures { result ≡ length self.now.held }
    {
        self.held.len()
    }
}
