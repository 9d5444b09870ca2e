//! The tickets of a thread's open requests.
ghost use Rattle.std.specs.Prelude.{◌≡◌, ◌+◌, ◌<◌, ◌≤◌, ◌↔◌, ◌++◌, ◌∷◌, [], length, true, Contains, List, position, IsSome, IfSome, IsTrue, OnSome, IfNone, OnOk, OnErr};
ghost use Rattle.std.specs.List.{HoldsAt};
ghost use Rattle.bd_msg.specs.Purse.{same_request, RiseBelow};

use crate::ticket::{Finished, Ticket};
use bd_base::{OutOfMemory, ReqId, Status};
use std::alloc::Global;
use std::collections::VecDeque;
use std::marker::Model;

/// Tickets that are kept, seen as the list of their ids, and beside it how many it can keep without
/// taking memory. Like its tickets it can be neither copied nor dropped. One of many is found without
/// going through them, while their numbers rise, as those of a mint's tickets do.
pub struct Purse {
    tickets: VecDeque<Ticket>,
    // a number above those of all, while they rise strictly
    next: Option<u64>,
}

impl Model for Purse {
    ghost use Rattle.std.specs.Prelude.{IfSome};
    ghost use Rattle.std.specs.VecDeque.{deque_capacity};
    ghost use Rattle.bd_msg.specs.Purse.{Kept, RiseBelow};

    ghost Value = { Kept };

    ghost view = { λ p. record { ids = p.tickets.items; capacity = deque_capacity p.tickets } };

    ghost invariant = { λ p. IfSome p.next (RiseBelow p.tickets.items) };
}

// A ticket comes last: the number above all is the one after its own. None where its number isn't above
// the others'.
fn next_after(next: Option<u64>, id: ReqId) -> Option<u64>
    ensures { (ids : List ReqId) → IfSome next (RiseBelow ids) → IfSome result (RiseBelow (ids ++ id ∷ [])) }
{
    let least = next?;
    let after = id.seq.checked_add(1)?;
    if id.seq < least {
        return None;
    }
    Some(after)
}

// Whether the ticket at this place has this id.
fn is_at(tickets: &VecDeque<Ticket>, place: usize, id: ReqId) -> bool
    ensures within { IsTrue result → place < length tickets.now.items }
    ensures same { IsTrue result → HoldsAt (λ x. same_request x id ≡ true) tickets.now.items place }
{
    match tickets.get(place) {
        Some(ticket) => ticket.id() == id,
        None => false,
    }
}

// The place where the ticket of this id is, where numbers rise and it is where it belongs then.
fn place_by_number(tickets: &VecDeque<Ticket>, id: ReqId) -> Option<usize>
    ensures within { IfSome result (λ place. place < length tickets.now.items) }
    ensures same { IfSome result (HoldsAt (λ x. same_request x id ≡ true) tickets.now.items) }
{
    let place = tickets.partition_point(|ticket| ticket.id().seq < id.seq);
    if is_at(tickets, place, id) {
        Some(place)
    } else {
        None
    }
}

// The place of the first of these tickets that has this id.
fn place_in(tickets: &[Ticket], id: ReqId) -> Option<usize>
    ensures { result ≡ position (λ x. same_request x id) tickets.now }
{
    tickets.iter().position(|ticket| ticket.id() == id)
}

// The place of the first ticket that has this id, from the oldest one on.
fn place_from_first(tickets: &VecDeque<Ticket>, id: ReqId) -> Option<usize>
    ensures { result ≡ position (λ x. same_request x id) tickets.now.items }
{
    let (first, later) = tickets.as_slices();
    match place_in(first, id) {
        Some(place) => Some(place),
        None => {
            let place = place_in(later, id)?;
            Some(first.len() + place)
        }
    }
}

impl Purse {
    ghost use Rattle.bd_msg.specs.Purse.{same_request, without};

    /// An empty purse. It takes no memory.
    pub fn new(alloc: Global) -> Purse
        ensures { result.ids ≡ [] }
    {
        Purse {
            tickets: VecDeque::new(alloc),
            next: Some(0),
        }
    }

    /// Takes memory for `n` more tickets. It answers `OutOfMemory` only where that room was missing,
    /// and then nothing changed.
    pub fn reserve(&mut self, n: u32) -> Result<(), OutOfMemory>
        ensures ids { self.new.ids ≡ self.old.ids }
        ensures capacity { self.old.capacity ≤ self.new.capacity }
        ensures ok { OnOk result (length self.old.ids + n ≤ self.new.capacity) }
        ensures full { OnErr result (self.old.capacity < length self.old.ids + n) }
        ensures err { OnErr result (self.new ≡ self.old) }
    {
        let room = self.tickets.capacity() - self.tickets.len();
        if n as usize <= room {
            return Ok(());
        }
        let more = (n as usize).max(self.tickets.len());
        self.tickets.reserve_exact(more)?;
        Ok(())
    }

    /// Keeps a ticket, as the last one. It takes no memory, and needs a spare place.
    pub fn keep(&mut self, ticket: Ticket)
        requires { length self.old.ids < self.old.capacity }
        ensures ids { self.new.ids ≡ self.old.ids ++ ticket ∷ [] }
        ensures capacity { self.old.capacity ≤ self.new.capacity }
    {
        self.next = next_after(self.next, ticket.id());
        match self.tickets.push_back(ticket) {
            Ok(()) => (),
            Err(_) => unreachable!(),
        }
    }

    /// Finishes the ticket of this id, the first one where there are several. None exactly where no
    /// ticket of this id is kept, and then nothing changed.
    pub fn finish(&mut self, id: ReqId, status: Status) -> Option<Finished>
        ensures found { IsSome result ↔ Contains self.old.ids id }
        ensures finished { IfSome result (λ f. f ≡ record { id = id; status = status }) }
        ensures rest { OnSome result (self.new ≡ record self.old { ids = without id self.old.ids }) }
        ensures none { IfNone result (self.new ≡ self.old) }
    {
        let ticket = self.take(id)?;
        Some(ticket.finish(status))
    }

    // Takes the first ticket of this id out.
    fn take(&mut self, id: ReqId) -> Option<Ticket>
        ensures found { IsSome result ↔ Contains self.old.ids id }
        ensures ticket { IfSome result (λ t. t ≡ id) }
        ensures rest { OnSome result (self.new ≡ record self.old { ids = without id self.old.ids }) }
        ensures none { IfNone result (self.new ≡ self.old) }
    {
        let place = self.place_of(id)?;
        self.tickets.remove(place)
    }

    // The place of the first ticket of this id.
    fn place_of(&self, id: ReqId) -> Option<usize>
        ensures { result ≡ position (λ x. same_request x id) self.now.ids }
    {
        if self.next.is_some() {
            if let Some(place) = place_by_number(&self.tickets, id) {
                return Some(place);
            }
        }
        place_from_first(&self.tickets, id)
    }

    /// Abandons every ticket, where the run halts.
    pub fn abandon(self) {
        let Purse {
            mut tickets,
            next: _,
        } = self;
        while let Some(ticket) = tickets.pop_back() {
            ticket.abandon();
        }
        tickets.destroy_empty();
    }
}
