//! What comes to a thread: the posts of its ring, put last in its own queue.
ghost use Rattle.std.specs.Prelude.{◌≡◌, ◌<◌, max, vec_len, OnOk};
ghost use Rattle.bd_links.specs.Queues.{Pushed};
ghost use Rattle.bd_seat.specs.Incoming.{Fetched, HasFetchedAll};

use bd_base::OutOfMemory;
use bd_links::{Queue, is_full, push};
use bd_log::Log;
use bd_ring::{Ring, TakePass};
use bd_turns::Post;
use std::sync::Wait;

// Puts a post's message last in the thread's queue, and the log meets its stamp.
fn receive(log: &mut Log, queues: &mut Vec<Queue>, me: u32, post: Post) -> Result<(), OutOfMemory>
    requires { me < vec_len queues.old }
    ensures pushed { OnOk result (Pushed queues.old.items queues.new.items me post.message) }
    ensures len { vec_len queues.new ≡ vec_len queues.old }
    ensures met { log.new ≡ record log.old { last = max log.old.last post.stamp } }
{
    log.meet(post.stamp);
    push(queues, me as usize, post.message)
}

/// Takes posts from the thread's ring, in order, and puts their messages last in its queue, until the
/// queue is full (1,024 messages) or the ring is found empty. The log meets their stamps, so that what
/// the thread does from then on has later ones. Out of memory a message may be lost, and the thread
/// has to halt.
pub fn fetch<W: Wait>(
    rt: &W,
    ring: &Ring,
    pass: &mut TakePass,
    log: &mut Log,
    queues: &mut Vec<Queue>,
    me: u32,
) -> Result<(), OutOfMemory>
    requires me { me < vec_len queues.old }
    requires ring { pass.old.ring ≡ ring.now.ring }
    ensures fetched { OnOk result (Fetched me pass.old log.old queues.old.items pass.new log.new queues.new.items) }
    ensures all { OnOk result (HasFetchedAll me pass.old pass.new queues.new.items) }
    ensures len { vec_len queues.new ≡ vec_len queues.old }
{
    for _ in rt.forever() {
        if is_full(queues.as_slice(), me) {
            return Ok(());
        }
        let Some(post) = ring.take(rt, pass) else {
            return Ok(());
        };
        receive(log, queues, me, post)?;
    }
    unreachable!()
}
