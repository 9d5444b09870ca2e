//! Requests that are held until a moment.
ghost use Rattle.std.specs.Prelude.{◌≡◌, ◌<◌, ◌≤◌, ◌+◌, ◌-◌, ◌++◌, ◌∷◌, [], length, IsOk, OnOk, OnErr, IfNone, MatchOption};
ghost use Rattle.bd_delay.specs.Holds.{ends_before, id_before, is_of, IsFirstOf, NoneDue, EndsFirst, without, is_held};

use bd_base::{OutOfMemory, ReqId};
use std::alloc::Global;
use std::marker::Model;

// A request that is held until a moment (microseconds).
#[derive(Clone, Copy)]
struct HeldRequest {
    id: ReqId,
    until: u64,
}

impl HeldRequest {
    // Whether this hold ends before another: by its moment, and then by its request.
    fn ends_before(&self, other: &HeldRequest) -> bool
        ensures { result ≡ ends_before self.now other.now }
    {
        self.until < other.until || (self.until == other.until && id_before(&self.id, &other.id))
    }

    // Whether this is the hold of a request.
    fn is_of(&self, id: ReqId) -> bool
        ensures { result ≡ is_of id self.now }
    {
        self.id == id
    }
}

// Whether a request comes before another: by its thread, and then by its number.
fn id_before(a: &ReqId, b: &ReqId) -> bool
    ensures { result ≡ id_before a.now b.now }
{
    a.thread < b.thread || (a.thread == b.thread && a.seq < b.seq)
}

/// The held requests of a thread, in the order in which they came.
#[derive(Drop)]
pub struct Held {
    rows: Vec<HeldRequest>,
}

impl Model for Held {
    ghost use Rattle.std.specs.Prelude.{◌-◌, vec_len, vec_capacity};
    ghost use Rattle.bd_delay.specs.Holds.{Holds};

    ghost Value = { Holds };

    ghost view = { λ h. record { rows = h.rows.items; room = vec_capacity h.rows - vec_len h.rows } };
}

impl Held {
    /// No holds, and room for none. It takes no memory.
    pub fn new(alloc: Global) -> Held
        ensures { result ≡ record { rows = []; room = 0 } }
    {
        Held {
            rows: Vec::new(alloc),
        }
    }

    /// Makes room for `n` more holds. Out of memory, the holds and their room stay as they were.
    pub fn reserve(&mut self, n: u32) -> Result<(), OutOfMemory>
        ensures ok { OnOk result (n ≤ self.new.room) }
        ensures enough { n ≤ self.old.room → IsOk result }
        ensures grows { self.old.room ≤ self.new.room }
        ensures rows { self.new.rows ≡ self.old.rows }
        ensures err { OnErr result (self.new ≡ self.old) }
    {
        self.rows.reserve(n as usize)?;
        Ok(())
    }

    /// Holds a request until a moment (microseconds). There is room for it. It takes no memory.
    pub fn hold(&mut self, id: ReqId, until: u64)
        requires { 0 < self.old.room }
        ensures { self.new ≡ record { rows = self.old.rows ++ record { id = id; until = until } ∷ []; room = self.old.room - 1 } }
    {
        self.rows.push_reserved(HeldRequest { id, until });
    }

    /// The request whose hold ends next, if its moment has come: the least moment, and then the
    /// least request, by thread and number. The hold is taken away. None exactly where no moment
    /// has come, and nothing changes then. It takes no memory.
    pub fn due(&mut self, now: u64) -> Option<ReqId>
        ensures first { MatchOption result (NoneDue self.old.rows now) (EndsFirst self.old self.new now) }
        ensures none { IfNone result (self.new ≡ self.old) }
    {
        let Some(k) = self.first_to_end() else {
            return None;
        };
        if now < self.rows[k].until {
            return None;
        }
        Some(self.rows.remove(k).id)
    }

    // The hold that ends first; none where there is no hold.
    fn first_to_end(&self) -> Option<usize>
        ensures { MatchOption result (self.now.rows ≡ []) (IsFirstOf self.now.rows (length self.now.rows)) }
    {
        if self.rows.is_empty() {
            return None;
        }
        let mut first = 0;
        for k in 1..self.rows.len() {
            first = self.earlier(first, k);
        }
        Some(first)
    }

    // The one that ends first among the first k holds and hold k, given that among the first k.
    #[tactic(auto, using(crate::proofs::Order::stays_first, crate::proofs::Order::ends_irrefl))]
    fn earlier(&self, first: usize, k: usize) -> usize
        requires inside { k < length self.now.rows }
        requires first_so_far { IsFirstOf self.now.rows k first }
        ensures { IsFirstOf self.now.rows (k + 1) result }
    {
        if self.rows[k].ends_before(&self.rows[first]) {
            k
        } else {
            first
        }
    }

    /// Takes a request's hold away. False exactly where it isn't held, and nothing changes then. It
    /// takes no memory.
    pub fn stop(&mut self, id: ReqId) -> bool
        ensures found { result ≡ is_held id self.old.rows }
        ensures rest { self.new.rows ≡ without id self.old.rows }
        ensures room { self.new.room + length self.new.rows ≡ self.old.room + length self.old.rows }
    {
        let held = self.rows.iter().any(|hold| hold.is_of(id));
        self.rows.retain(|hold| !hold.is_of(id));
        held
    }
}
