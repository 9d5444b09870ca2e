//! Tickets: each accepted request has one, which is spent exactly once.
ghost use Rattle.std.specs.Prelude.{◌≡◌};

use bd_base::{ReqId, Status};
use std::marker::Model;

/// The right and the duty to complete a request, seen as the request's id. It can be neither copied
/// nor dropped: whoever holds it finishes it, or abandons it where the run halts.
pub struct Ticket {
    id: ReqId,
}

/// A request that completed.
#[derive(Clone, Copy, Debug, PartialEq, Eq)]
pub struct Finished {
    pub id: ReqId,
    pub status: Status,
}

impl Model for Ticket {
    ghost use Rattle.bd_base.specs.declared.id.ReqId.{ReqId};

    ghost Value = { ReqId };

    ghost view = { λ t. t.id };
}

impl Ticket {
    /// A ticket of this id. Only a mint makes one.
    pub(crate) fn of(id: ReqId) -> Ticket
        ensures { result ≡ id }
    {
        Ticket { id }
    }

    /// The request that it is for.
    pub fn id(&self) -> ReqId
        ensures { result ≡ self.now }
    {
        self.id
    }

    /// Spends the ticket: the request completed with this status.
    pub fn finish(self, status: Status) -> Finished
        ensures { result ≡ record { id = self; status = status } }
    {
        let Ticket { id } = self;
        Finished { id, status }
    }

    /// Spends the ticket where the run halts, or where no accepted request took it.
    pub fn abandon(self) {
        let Ticket { id: _ } = self;
    }
}
