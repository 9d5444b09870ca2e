//! The next ticket of a thread, and a ticket that is spent.
ghost use Rattle.std.specs.Prelude.{◌≡◌, ◌<◌, IfSome};
ghost use Rattle.bd_msg.specs.Purse.{without};
ghost use Rattle.bd_steps.specs.Tickets.{IsNextTicket};

use bd_base::{ReqId, Status, ThreadId};
use bd_msg::{Mint, Purse, Ticket};

/// A ticket with the number that the thread gives next, while there are numbers.
pub fn next_ticket(thread: u32, next: u64) -> Option<Ticket>
    ensures { IfSome result (λ ticket. IsNextTicket thread next ticket) }
{
    if next >= 1 << 62 {
        return None;
    }
    let mut mint = Mint::new(ThreadId(thread));
    if next > 0 {
        mint.meet(next - 1);
    }
    Some(mint.issue())
}

/// The ticket of a request that completed is spent.
pub fn spend(purse: &mut Purse, req: ReqId, status: Status)
    ensures { purse.new.ids ≡ without req purse.old.ids }
{
    let _ = purse.finish(req, status);
}
