//! Where tickets come from.
ghost use Rattle.std.specs.Prelude.{◌≡◌, ◌+◌, ◌<◌, ◌^◌, max};

use crate::ticket::Ticket;
use bd_base::{ReqId, ThreadId};
use std::marker::Model;

/// Makes the tickets of one thread, seen as the id of the next one. Numbers rise from 0, so no two
/// tickets of a mint have one id.
#[derive(Drop)]
pub struct Mint {
    next: ReqId,
}

impl Model for Mint {
    ghost use Rattle.bd_base.specs.declared.id.ReqId.{ReqId};

    ghost Value = { ReqId };

    ghost view = { λ m. m.next };
}

impl Mint {
    /// A mint of this thread, whose first ticket has number 0.
    pub fn new(thread: ThreadId) -> Mint
        ensures { result ≡ record { thread = thread.0; seq = 0 } }
    {
        Mint {
            next: ReqId {
                thread: thread.0,
                seq: 0,
            },
        }
    }

    /// The next ticket. The greatest number is never issued: it names no request.
    pub fn issue(&mut self) -> Ticket
        requires { self.old.seq < u64.MAX }
        ensures next_id { result ≡ self.old }
        ensures counted { self.new ≡ record self.old { seq = self.old.seq + 1 } }
    {
        let ticket = Ticket::of(self.next);
        self.next.seq += 1;
        ticket
    }

    /// Takes note of a number that was used elsewhere: later tickets are above it.
    pub fn meet(&mut self, seq: u64)
        requires { seq < 2 ^ 63 }
        ensures { self.new ≡ record self.old { seq = max self.old.seq (seq + 1) } }
    {
        self.next.seq = self.next.seq.max(seq + 1);
    }
}
