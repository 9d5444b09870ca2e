//! A ring at work: senders in threads of their own, and a receiver in another one.
ghost use Rattle.std.specs.Prelude.{◌≡◌, ◌<◌, ℕ, [], ◌∷◌, ◌++◌, cond, vec_len, IfOk};
ghost use Rattle.bd_ring.specs.Counting.{post as counted, first_posts, HasPut, HavePut, AreNew};
ghost use Rattle.bd_ring.specs.Posts.{Brings, sent_by};

use crate::ring::{Ring, SendPass, TakePass};
use bd_base::{DevId, OutOfMemory, Token};
use bd_machine::{Kept, News};
use bd_parcel::Parcel;
use bd_turns::{Message, Post};
use std::alloc::Global;
use std::sync::Wait;
use std::thread;
use std::thread::Threads;

// The post with this number: a channel of the device with this number is to be dropped.
pub(crate) fn post(alloc: Global, sender: u32, number: u32) -> Result<Post, OutOfMemory>
    ensures post { IfOk result (λ post. post ≡ counted sender number) }
    ensures brings { IfOk result (λ post. Brings post) }
{
    let dev = DevId(number);
    let kept = Parcel::new(alloc, Kept::Notice(News::Channel(dev)))?;
    Ok(Post {
        message: Message {
            sender,
            what: Token::Channel(dev),
            kept,
        },
        stamp: u128::from(number),
    })
}

// Puts the post with this number: whether it is in the ring. It isn't where the ring is full or memory ran out.
fn put_next<R: Wait>(rt: &R, alloc: Global, ring: &Ring, pass: &mut SendPass, number: u32) -> bool
    requires { pass.old.ring ≡ ring.now.ring }
    ensures same { (pass.new.ring ≡ pass.old.ring) × (pass.new.senders ≡ pass.old.senders) × (pass.new.number ≡ pass.old.number) }
    ensures put { pass.new.put ≡ cond result (pass.old.put ++ counted pass.old.number number ∷ []) pass.old.put }
{
    match post(alloc, pass.number(), number) {
        Ok(post) => ring.put(rt, pass, post).is_ok(),
        Err(OutOfMemory) => false,
    }
}

// Puts this number of posts. One that finds the ring full, or no memory, is tried again.
fn put_all<R: Wait>(rt: &R, alloc: Global, ring: &Ring, pass: &mut SendPass, count: u32)
    requires { (pass.old.ring ≡ ring.now.ring) × (pass.old.put ≡ []) }
    ensures { HasPut count pass.old pass.new }
{
    let mut next = 0;
    for _ in rt.forever() {
        if next >= count {
            break;
        }
        if put_next(rt, alloc, ring, pass, next) {
            next += 1;
        } else {
            thread::yield_now();
        }
    }
}

// Each sender puts this number of posts, in a thread of its own.
fn put_each<R: Threads + Wait + Sync>(
    rt: &R,
    alloc: Global,
    ring: &Ring,
    mut sends: Vec<SendPass>,
    count: u32,
) -> Vec<SendPass>
    requires { AreNew ring.now.ring sends.items }
    ensures len { vec_len result ≡ vec_len sends }
    ensures each { HavePut count sends.items result.items }
{
    let threads = sends.len().max(1);
    thread::for_each_mut(
        rt,
        sends.as_mut_slice(),
        threads,
        &|_, pass: &mut SendPass| { put_all(rt, alloc, ring, pass, count) },
    );
    sends
}

// Takes this number of posts, or fewer where memory runs out. An empty ring is tried again.
fn take_all<R: Wait>(
    rt: &R,
    alloc: Global,
    ring: &Ring,
    mut pass: TakePass,
    count: u32,
) -> (TakePass, Vec<Post>)
    requires { (pass.ring ≡ ring.now.ring) × (pass.taken ≡ []) }
    ensures { (result.0.ring ≡ ring.now.ring) × (result.0.senders ≡ pass.senders) × (result.0.taken ≡ result.1.items) }
{
    let mut taken = Vec::new(alloc);
    let mut left = count;
    for _ in rt.forever() {
        if left == 0 || taken.reserve(1).is_err() {
            break;
        }
        match ring.take(rt, &mut pass) {
            Some(post) => {
                taken.push_reserved(post);
                left -= 1;
            }
            None => thread::yield_now(),
        }
    }
    (pass, taken)
}

/// All that the senders put, each `count` posts and in a thread of its own, as another thread
/// took it meanwhile. What comes of each sender is what it put, in its order.
pub fn exchange<R: Threads + Wait + Sync>(
    rt: &R,
    alloc: Global,
    capacity: u32,
    senders: u32,
    count: u32,
) -> Result<Vec<Post>, OutOfMemory>
    requires { 0 < capacity }
    ensures { IfOk result (λ v. (k : ℕ) → k < senders → sent_by k v.items ≡ first_posts k count) }
{
    let (ring, sends, take) = Ring::new(alloc, capacity, senders)?;
    let line = &ring;
    let (sends, (take, mut taken)) = thread::join(
        rt,
        move || -> Vec<SendPass>
            requires { AreNew line.now.ring sends.items }
            ensures { (vec_len result ≡ vec_len sends) × HavePut count sends.items result.items }
        { put_each(rt, alloc, line, sends, count) },
        move || -> (TakePass, Vec<Post>)
            requires { (take.ring ≡ line.now.ring) × (take.taken ≡ []) }
            ensures { (result.0.ring ≡ line.entry.now.ring) × (result.0.senders ≡ take.senders) × (result.0.taken ≡ result.1.items) }
        { take_all(rt, alloc, line, take, count.saturating_mul(senders)) },
    );
    let mut settled = ring.settle(take, sends);
    for _ in rt.forever() {
        match settled.next(rt) {
            Some(post) => taken.push(post)?,
            None => return Ok(taken),
        }
    }
    unreachable!()
}
