//! What a thread puts to another: the messages of its queue to that thread, put into the ring.
ghost use Rattle.std.specs.Prelude.{◌≡◌, length, vec_len, IfOk, OnOk};
ghost use Rattle.bd_ring.specs.Rings.{AreSendsTo};
ghost use Rattle.bd_seat.specs.Outgoing.{has_next, AreServed, Flushed, FlushedAll, FlushedOne, HasFlushedAll, IsServed};

use bd_base::OutOfMemory;
use bd_links::Queue;
use bd_ring::{Ring, SendPass};
use bd_rule_requests::brings;
use bd_turns::Post;
use std::sync::Wait;

// Whether there is a first message, which is of this sender and brings the token that it names.
fn has_next(pass: &SendPass, queue: &Queue) -> bool
    ensures { result ≡ has_next pass.now.number queue.now }
{
    match queue.first() {
        Some(message) => {
            message.sender == pass.number() && brings(&message.what, Some(message.kept.get()))
        }
        None => false,
    }
}

// Puts the first message into the ring, with this stamp: true. A full ring gives it back, and it stays
// first.
fn flush_next<W: Wait>(
    rt: &W,
    ring: &Ring,
    pass: &mut SendPass,
    queue: &mut Queue,
    stamp: u128,
) -> Result<bool, OutOfMemory>
    requires { pass.old.ring ≡ ring.now.ring }
    ensures { IfOk result (λ put. FlushedOne stamp ring.now pass.old queue.old pass.new queue.new put) }
{
    if !has_next(pass, queue) {
        return Ok(false);
    }
    let Some(message) = queue.pop() else {
        return Ok(false);
    };
    match ring.put(rt, pass, Post { message, stamp }) {
        Ok(()) => Ok(true),
        Err(full) => {
            queue.push_first(full.post.message)?;
            Ok(false)
        }
    }
}

/// Puts messages of a queue into the ring of the thread that they go to, the first first and each with
/// this stamp, until the queue is empty or the ring is found full. What the ring doesn't take stays in
/// the queue, in its order; so does a message that isn't of this sender or doesn't bring the token that
/// it names, and those after it. Out of memory a message may be lost, and the thread has to halt.
pub fn flush<W: Wait>(
    rt: &W,
    ring: &Ring,
    pass: &mut SendPass,
    queue: &mut Queue,
    stamp: u128,
) -> Result<(), OutOfMemory>
    requires { pass.old.ring ≡ ring.now.ring }
    ensures flushed { OnOk result (Flushed stamp pass.old queue.old pass.new queue.new) }
    ensures all { OnOk result (HasFlushedAll ring.now pass.new queue.new) }
    ensures served { OnOk result (IsServed pass.old pass.new queue.new) }
{
    if queue.len() == 0 {
        return Ok(());
    }
    for _ in rt.forever() {
        if !flush_next(rt, ring, pass, queue, stamp)? {
            return Ok(());
        }
    }
    unreachable!()
}

/// Puts what goes to other threads into their rings, queue by queue as `flush` does, each as far as its ring
/// has room. A ring that is full holds up no other; what the thread put to itself stays in its queue. Out of memory a message may be
/// lost, and the thread has to halt.
pub fn flush_all<W: Wait>(
    rt: &W,
    rings: &[Ring],
    sends: &mut Vec<SendPass>,
    queues: &mut Vec<Queue>,
    me: usize,
    stamp: u128,
) -> Result<(), OutOfMemory>
    requires rings { length rings.now ≡ vec_len queues.old }
    requires sends { vec_len sends.old ≡ vec_len queues.old }
    requires each { AreSendsTo rings.now sends.old.items }
    ensures flushed { OnOk result (FlushedAll me stamp sends.old.items queues.old.items sends.new.items queues.new.items) }
    ensures all { OnOk result (AreServed me sends.old.items sends.new.items queues.new.items) }
    ensures queues { vec_len queues.new ≡ vec_len queues.old }
    ensures sends { vec_len sends.new ≡ vec_len sends.old }
{
    for to in 0..queues.len() {
        if to != me {
            flush(rt, &rings[to], &mut sends[to], &mut queues[to], stamp)?;
        }
    }
    Ok(())
}
