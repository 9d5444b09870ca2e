//! Held requests, in the order in which their holds end.
ghost use Rattle.std.specs.Prelude.{◌≡◌, ◌∷◌, [], All, length, IfNone, IfSome, OnErr, OnOk};
ghost use Rattle.std.specs.BTreeMap.Range.{IsLeBy};
ghost use Rattle.bd_held.specs.Holds.{first_hold, has_due, has_hold, key_cmp, key_of, with_hold, without_hold};

use bd_base::{OutOfMemory, ReqId};
use bd_machine::Hold;
use std::alloc::Global;
use std::collections::BTreeSet;
use std::marker::Model;

// The moment until which a request is held, then its thread and its number there.
type Key = (u64, u32, u64);

/// A request that is held until a moment (microseconds).
#[derive(Clone, Copy, PartialEq, Eq)]
pub struct HeldRequest {
    pub req: ReqId,
    pub until: u64,
}

/// The held requests of a thread, in the order in which their holds end: by moment, and of one moment by thread and
/// number.
#[derive(Drop)]
pub struct Held {
    order: BTreeSet<Key>,
}

impl Model for Held {
    ghost use Rattle.std.specs.Prelude.{List};
    ghost use Rattle.bd_held.specs.Holds.{HoldKey};

    ghost Value = { List HoldKey };

    ghost view = { λ h. h.order.keys };
}

impl Held {
    /// No held request. It takes no memory.
    pub fn new(alloc: Global) -> Held
        ensures { result ≡ [] }
    {
        Held {
            order: BTreeSet::new(alloc),
        }
    }

    /// A request is held until a moment (microseconds). Out of memory, all stays as it was.
    pub fn insert(&mut self, req: ReqId, until: u64) -> Result<(), OutOfMemory>
        ensures ok { OnOk result (self.new ≡ with_hold self.old req until) }
        ensures err { OnErr result (self.new ≡ self.old) }
    {
        let _ = self.order.insert((until, req.thread, req.seq))?;
        Ok(())
    }

    /// A request is held no longer, whose hold was this one; where it isn't held, nothing changes. It takes no memory.
    pub fn remove(&mut self, req: ReqId, hold: Hold)
        ensures { self.new ≡ without_hold self.old req hold }
    {
        match hold {
            Hold::Until { moment, .. } => {
                let _ = self.order.remove(&(moment, req.thread, req.seq));
            }
            _ => {}
        }
    }

    /// The request whose hold ends first: none ends before it, and of those that end with it it has the least
    /// thread and number. None where no request is held.
    pub fn first(&self) -> Option<HeldRequest>
        ensures first { result ≡ first_hold self.now }
        ensures least { IfSome result (λ h. All (IsLeBy key_cmp (key_of h.req h.until)) self.now) }
    {
        match self.order.first() {
            Some((until, thread, seq)) => Some(HeldRequest {
                req: ReqId {
                    thread: *thread,
                    seq: *seq,
                },
                until: *until,
            }),
            None => None,
        }
    }

    /// Whether the request is held until this moment (microseconds).
    pub fn has(&self, req: ReqId, until: u64) -> bool
        ensures { result ≡ has_hold self.now req until }
    {
        self.order.contains(&(until, req.thread, req.seq))
    }

    /// Whether a hold has ended at this moment (microseconds).
    pub fn is_due(&self, now: u64) -> bool
        ensures { result ≡ has_due now self.now }
    {
        match self.first() {
            Some(first) => first.until <= now,
            None => false,
        }
    }

    /// Takes out the request whose hold ends first. It takes no memory.
    pub fn pop_first(&mut self) -> Option<HeldRequest>
        ensures some { IfSome result (λ h. self.old ≡ key_of h.req h.until ∷ self.new) }
        ensures none { IfNone result (self.new ≡ self.old) }
    {
        let (until, thread, seq) = self.order.pop_first()?;
        Some(HeldRequest {
            req: ReqId { thread, seq },
            until,
        })
    }

    /// No request is held any more. It takes no memory.
    pub fn clear(&mut self)
        ensures { self.new ≡ [] }
    {
        self.order.clear();
    }

    /// How many requests are held.
    pub fn len(&self) -> usize
        ensures { result ≡ length self.now }
    {
        self.order.len()
    }
}
