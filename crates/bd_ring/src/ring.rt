//! A ring of posts, from many senders to one receiver.
ghost use Rattle.std.specs.Prelude.{◌≡◌, ◌+◌, ◌<◌, ◌≤◌, [], ◌∷◌, ◌++◌, length, map, true, IfOk, IfErr, IfSome, MatchResult, MatchOption, vec_len};
ghost use Rattle.crossbeam_queue.specs.Passes.{view as known, IsPassOf};
ghost use Rattle.bd_ring.specs.Posts.{Brings};
ghost use Rattle.bd_ring.specs.RingRule.{receiver};

use crate::letter::Letter;
use crate::ring_rule::{
    AddsSender, CountsSender, EndsSender, KeepsOrder, Puts, Takes, TakesRest, View,
};
use bd_base::OutOfMemory;
use bd_turns::Post;
use crossbeam_queue::{Pass, RuledArrayQueue};
use std::alloc::Global;
use std::marker::Model;
use std::sync::Wait;

type Queue = RuledArrayQueue<Letter, View, KeepsOrder>;

/// A bounded ring of posts, seen as which one it is and its capacity.
#[derive(Drop)]
pub struct Ring {
    queue: RuledArrayQueue<Letter, View, KeepsOrder>,
}

impl Model for Ring {
    ghost use Rattle.bd_ring.specs.Rings.{Place};

    ghost Value = { Place };

    ghost view = { λ r. record { ring = r.queue.table.shared.table_id; capacity = r.queue.cap } };
}

/// The right to put posts as one sender, seen as its ring, how many senders that is for, its number, what it
/// put, and the count of its puts that found the ring full, which begins again after 2^64 - 1.
#[derive(Drop)]
pub struct SendPass {
    pass: Pass<Letter, View>,
    number: u32,
    refused: u64,
}

impl Model for SendPass {
    ghost use Rattle.std.specs.Prelude.{◌≡◌, true, []};
    ghost use Rattle.crossbeam_queue.specs.Passes.{view as known};
    ghost use Rattle.bd_ring.specs.Rings.{Sender};

    ghost Value = { Sender };

    ghost view = { λ s. record { ring = s.pass.table_id; senders = (known s.pass).senders; number = s.number; put = (known s.pass).put; refused = s.refused } };

    ghost invariant = { λ s. (s.pass.me.1 ≡ []) × ((known s.pass).sends ≡ true) × ((known s.pass).from ≡ s.number) };
}

/// The right to take posts, seen as its ring, how many senders there are, what was taken, and the count of its
/// takes that found the ring empty, which begins again after 2^64 - 1.
#[derive(Drop)]
pub struct TakePass {
    pass: Pass<Letter, View>,
    missed: u64,
}

impl Model for TakePass {
    ghost use Rattle.std.specs.Prelude.{◌≡◌, true, []};
    ghost use Rattle.crossbeam_queue.specs.Passes.{view as known};
    ghost use Rattle.bd_ring.specs.Rings.{Receiver};

    ghost Value = { Receiver };

    ghost view = { λ s. record { ring = s.pass.table_id; senders = (known s.pass).made; taken = (known s.pass).taken; missed = s.missed } };

    ghost invariant = { λ s. (s.pass.me.1 ≡ []) × ((known s.pass).receives ≡ true) × ((known s.pass).ended ≡ []) };
}

/// A ring whose senders are being ended one by one, seen as which ring it is, how many senders
/// there are, what the ended ones put, and what was taken.
#[derive(Drop)]
pub struct Settling {
    queue: RuledArrayQueue<Letter, View, KeepsOrder>,
    pass: Pass<Letter, View>,
}

impl Model for Settling {
    ghost use Rattle.std.specs.Prelude.{◌≡◌, true};
    ghost use Rattle.crossbeam_queue.specs.Passes.{view as known, IsPassOf};
    ghost use Rattle.bd_ring.specs.Rings.{Closing};

    ghost Value = { Closing };

    ghost view = { λ s. record { ring = s.queue.table.shared.table_id; senders = (known s.pass).made; puts = (known s.pass).ended; taken = (known s.pass).taken } };

    ghost invariant = { λ s. IsPassOf s.queue s.pass × ((known s.pass).receives ≡ true) };
}

/// A ring whose senders have all ended, seen as what each put, and what was taken.
#[derive(Drop)]
pub struct Settled {
    queue: RuledArrayQueue<Letter, View, KeepsOrder>,
    pass: Pass<Letter, View>,
}

impl Model for Settled {
    ghost use Rattle.std.specs.Prelude.{◌≡◌, true, length};
    ghost use Rattle.crossbeam_queue.specs.Passes.{view as known, IsPassOf};
    ghost use Rattle.bd_ring.specs.Rings.{Account};

    ghost Value = { Account };

    ghost view = { λ s. record { puts = (known s.pass).ended; taken = (known s.pass).taken } };

    ghost invariant = { λ s. IsPassOf s.queue s.pass × ((known s.pass).receives ≡ true) × ((known s.pass).made ≡ length (known s.pass).ended) };
}

/// A post that found the ring full.
#[derive(Drop)]
pub struct Full {
    pub post: Post,
}

impl SendPass {
    /// The sender's number.
    pub fn number(&self) -> u32
        ensures { result ≡ self.now.number }
    {
        self.number
    }
}

// The ring is for one sender more.
fn count_sender(queue: &Queue, pass: &mut Pass<Letter, View>)
    requires queue { IsPassOf queue.now pass.old }
    requires receiver { ((known pass.old).receives ≡ true) × ((known pass.old).made ≡ 0) }
    ensures queue { IsPassOf queue.now pass.new }
    ensures receiver { known pass.new ≡ receiver ((known pass.old).senders + 1) (known pass.old).made (known pass.old).ended (known pass.old).taken }
{
    queue.another::<CountsSender>(pass);
}

// The pass of the next sender.
fn next_sender(queue: &Queue, pass: &mut Pass<Letter, View>, number: u32) -> SendPass
    requires queue { IsPassOf queue.now pass.old }
    requires receiver { ((known pass.old).receives ≡ true) × ((known pass.old).ended ≡ [])
        × ((known pass.old).made ≡ number) × (number < (known pass.old).senders) }
    ensures queue { IsPassOf queue.now pass.new }
    ensures receiver { known pass.new ≡ receiver (known pass.old).senders ((known pass.old).made + 1) (known pass.old).ended (known pass.old).taken }
    ensures sender { result ≡ record { ring = queue.now.table.shared.table_id; senders = (known pass.old).senders; number = number; put = []; refused = 0 } }
{
    let pass = queue.another::<AddsSender>(pass);
    SendPass {
        pass,
        number,
        refused: 0,
    }
}

impl Ring {
    ghost use Rattle.bd_ring.specs.Rings.{after_put, after_refusal, after_miss, Took, WasFull, WasEmpty, new_senders, AreSendersOf, IsSettled};

    /// A ring of this capacity (in posts), a pass for each sender, and the receiver's pass.
    pub fn new(
        alloc: Global,
        capacity: u32,
        senders: u32,
    ) -> Result<(Ring, Vec<SendPass>, TakePass), OutOfMemory>
        requires { 0 < capacity }
        ensures ring { IfOk result (λ r. r.0.capacity ≡ capacity) }
        ensures sends { IfOk result (λ r. r.1.items ≡ new_senders r.0.ring senders) }
        ensures take { IfOk result (λ r. r.2 ≡ record { ring = r.0.ring; senders = senders; taken = []; missed = 0 }) }
    {
        let (queue, mut pass) = RuledArrayQueue::ruled(alloc, capacity as usize)?;
        for _counted in 0..senders {
            count_sender(&queue, &mut pass);
        }
        let mut sends = Vec::new(alloc);
        for number in 0..senders {
            sends.push(next_sender(&queue, &mut pass, number))?;
        }
        Ok((Ring { queue }, sends, TakePass { pass, missed: 0 }))
    }

    /// Puts a post after all that the ring holds. A full ring gives it back, and then the pass is as
    /// before, but that it counts one more of these. It takes no memory.
    pub fn put<R: Wait>(&self, rt: &R, pass: &mut SendPass, post: Post) -> Result<(), Full>
        requires ring { pass.old.ring ≡ self.now.ring }
        requires sender { post.message.sender ≡ pass.old.number }
        requires brings { Brings post }
        ensures put { MatchResult result
            (λ _. pass.new ≡ after_put pass.old post)
            (λ full. (full.post ≡ post) × (pass.new ≡ after_refusal pass.old) × WasFull self.now pass.old) }
        ensures alone { IfErr result (λ full. (pass.old.senders ≡ 1) × (pass.old.number ≡ 0) → self.now.capacity ≤ length pass.old.put) }
    {
        let letter = Letter::new(post);
        match self.queue.push_as::<Puts, R>(rt, &mut pass.pass, letter) {
            Ok(()) => Ok(()),
            Err(letter) => {
                pass.refused = pass.refused.wrapping_add(1);
                Err(Full {
                    post: letter.open(),
                })
            }
        }
    }

    /// Takes the first post, whose message brings the token that it names. An empty ring gives none,
    /// and then the pass is as before, but that it counts one more of these. It takes no memory.
    pub fn take<R: Wait>(&self, rt: &R, pass: &mut TakePass) -> Option<Post>
        requires ring { pass.old.ring ≡ self.now.ring }
        ensures take { MatchOption result ((pass.new ≡ after_miss pass.old) × WasEmpty pass.old) (λ post. Took pass.old post pass.new) }
        ensures brings { IfSome result (λ post. Brings post) }
    {
        let Some(letter) = self.queue.pop_as::<Takes, R>(rt, &mut pass.pass) else {
            pass.missed = pass.missed.wrapping_add(1);
            return None;
        };
        Some(letter.open())
    }

    /// Ends all senders at once. What they put and nobody took is still there to be handed out. It
    /// takes no memory.
    pub fn settle(self, take: TakePass, sends: Vec<SendPass>) -> Settled
        requires take { take.ring ≡ self.ring }
        requires all { vec_len sends ≡ take.senders }
        requires each { AreSendersOf self.ring sends.items }
        ensures puts { result.puts ≡ map (λ s. s.put) sends.items }
        ensures taken { result.taken ≡ take.taken }
        ensures settled { IsSettled result }
    {
        let mut settling = self.close(take);
        for send in sends {
            settling.absorb(send);
        }
        settling.finish()
    }

    /// Begins to end the senders one by one. It takes no memory.
    pub fn close(self, take: TakePass) -> Settling
        requires { take.ring ≡ self.ring }
        ensures { result ≡ record { ring = self.ring; senders = take.senders; puts = []; taken = take.taken } }
    {
        let Ring { queue } = self;
        let TakePass { pass, missed: _ } = take;
        Settling { queue, pass }
    }
}

impl Settling {
    ghost use Rattle.bd_ring.specs.Rings.{IsSettled};

    /// Ends the next sender. It takes no memory.
    pub fn absorb(&mut self, send: SendPass)
        requires ring { send.ring ≡ self.old.ring }
        requires next { send.number ≡ length self.old.puts }
        ensures { self.new ≡ record self.old { puts = self.old.puts ++ send.put ∷ [] } }
    {
        let SendPass {
            pass,
            number: _,
            refused: _,
        } = send;
        self.queue.absorb::<EndsSender>(&mut self.pass, pass);
    }

    /// The settled ring, once all senders have ended. It takes no memory.
    pub fn finish(self) -> Settled
        requires { length self.puts ≡ self.senders }
        ensures account { result ≡ record { puts = self.puts; taken = self.taken } }
        ensures settled { IsSettled result }
    {
        let Settling { queue, mut pass } = self;
        queue.learn_as::<TakesRest>(&mut pass);
        Settled { queue, pass }
    }
}

impl Settled {
    ghost use Rattle.bd_ring.specs.Rings.{HandsOut, IsSpent};

    /// Hands out the first post that was put and not taken, whose message brings the token that it
    /// names. None exactly where nothing is left. It takes no memory.
    pub fn next<R: Wait>(&mut self, rt: &R) -> Option<Post>
        ensures next { MatchOption result ((self.new ≡ self.old) × IsSpent self.old) (λ post. HandsOut self.old post self.new) }
        ensures brings { IfSome result (λ post. Brings post) }
    {
        let letter = self.queue.pop_as::<TakesRest, R>(rt, &mut self.pass)?;
        Some(letter.open())
    }
}
