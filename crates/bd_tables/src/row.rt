//! A request at its place.
ghost use Rattle.std.specs.Prelude.{◌≡◌};
ghost use Rattle.bd_tables.specs.Rows.{holds_up, holds_up_of, is_in, is_on, is_out, is_waiting, keeps, same_id, same_place, waits_over};

use crate::place::Place;
use crate::under::Under;
use bd_base::{DevId, HandleId, Op, ReqId, ThreadId};
use bd_msg::Request;

/// A request at its place, with the devices over which it stands. At `Away` the request itself was handed
/// out, and this is its copy.
#[derive(Clone, Copy, Debug)]
pub struct Row {
    pub request: Request,
    pub place: Place,
    pub under: Under,
}

impl Row {
    /// Whether it stands at a place.
    pub fn is_in(&self, place: Place) -> bool
        ensures { result ≡ is_in place self.now }
    {
        match (self.place, place) {
            (Place::Quality(a), Place::Quality(b)) => a.0 == b.0,
            (Place::Fresh, Place::Fresh)
            | (Place::Away, Place::Away)
            | (Place::Pended, Place::Pended)
            | (Place::Retry, Place::Retry)
            | (Place::Out, Place::Out)
            | (Place::Delayed, Place::Delayed)
            | (Place::ResetQueue, Place::ResetQueue) => true,
            _ => false,
        }
    }

    /// Whether it keeps the request of this id.
    pub fn keeps(&self, id: ReqId) -> bool
        ensures { result ≡ keeps id self.now }
    {
        self.request.id == id && !self.is_in(Place::Away)
    }

    /// Whether it remembers the request of this id, which was handed out.
    pub fn is_out(&self, id: ReqId) -> bool
        ensures { result ≡ is_out id self.now }
    {
        self.request.id == id && self.is_in(Place::Away)
    }

    /// Whether its request was submitted on a handle.
    pub fn is_on(&self, handle: HandleId) -> bool
        ensures { result ≡ is_on handle self.now }
    {
        self.request.handle == handle
    }

    // Whether it waits here for anything: fresh or pended, for limits, a delay's moment or a home's room. One
    // that is out or away doesn't, and resets and aborts never do.
    fn is_waiting(&self) -> bool
        ensures { result ≡ is_waiting self.now }
    {
        let ranged = !matches!(self.request.op, Op::Reset(_) | Op::Abort(_));
        ranged && !matches!(self.place, Place::Away | Place::Out | Place::ResetQueue)
    }

    /// Whether it stands over the device, and waits here: a mark of the device is to stop it.
    pub fn waits_under(&self, dev: DevId) -> bool
        ensures { result ≡ waits_over dev self.now }
    {
        self.under.has(dev) && self.is_waiting()
    }

    /// Whether it stands over the device, and is no reset: a drain of the device waits for it, wherever it is.
    pub fn holds_up(&self, dev: DevId) -> bool
        ensures { result ≡ holds_up dev self.now }
    {
        self.under.has(dev) && !matches!(self.request.op, Op::Reset(_))
    }

    /// Whether it holds up a drain of the device at this thread.
    pub fn holds_up_of(&self, dev: DevId, thread: ThreadId) -> bool
        ensures { result ≡ holds_up_of dev thread.0 self.now }
    {
        self.holds_up(dev) && self.request.id.thread == thread.0
    }
}
