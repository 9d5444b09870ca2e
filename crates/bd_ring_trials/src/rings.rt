//! Rings.
ghost use Rattle.std.specs.Prelude.{◌≡◌, IfOk};
ghost use Rattle.bd_ring.specs.Posts.{Brings};

use bd_base::{DevId, OutOfMemory, Token};
use bd_machine::{Kept, News};
use bd_parcel::Parcel;
use bd_ring::exchange::exchange;
use bd_ring::{Ring, SendPass, Settled, TakePass};
use bd_turns::{Message, Post};
use std::alloc::Global;
use std::sync::Wait;
use std::thread::Threads;

fn device_of(post: &Post) -> Option<u32> {
    match &post.message.what {
        Token::Channel(dev) => Some(dev.0),
        _ => None,
    }
}

// How many posts came from each of 16 senders, or None where one came out of its order.
fn count_in_order(taken: &[Post]) -> Option<[u32; 16]> {
    let mut next = [0u32; 16];
    for post in taken {
        let sender = post.message.sender as usize;
        if sender >= 16 || device_of(post) != Some(next[sender]) {
            return None;
        }
        next[sender] = next[sender].wrapping_add(1);
    }
    Some(next)
}

/// Sixteen senders put 250 posts each into a ring for four: what the receiver took of each.
pub(crate) fn sixteen_senders<R: AllocGlobal + Threads + Wait + Sync>(
    rt: &R,
) -> Result<String, OutOfMemory> {
    let taken = exchange(rt, rt.alloc(), 4, 16, 250)?;
    let counts = count_in_order(taken.as_slice());
    Ok(format!(in rt.alloc(); "{counts:?}")?)
}

// The post with this number: a channel of the device with this number is to be dropped.
fn post(alloc: Global, sender: u32, number: u32) -> Result<Post, OutOfMemory>
    ensures sender { IfOk result (λ post. post.message.sender ≡ sender) }
    ensures brings { IfOk result (λ post. Brings post) }
{
    let dev = DevId(number);
    let kept = Parcel::new(alloc, Kept::Notice(News::Channel(dev)))?;
    Ok(Post {
        message: Message {
            sender,
            what: Token::Channel(dev),
            kept,
        },
        stamp: u128::from(number),
    })
}

// Puts the post with this number: the device that it names, where the ring is full and gives it back.
fn refused<R: Wait>(
    rt: &R,
    alloc: Global,
    ring: &Ring,
    pass: &mut SendPass,
    number: u32,
) -> Result<Option<u32>, OutOfMemory>
    requires { pass.old.ring ≡ ring.now.ring }
    ensures { (pass.new.ring ≡ pass.old.ring) × (pass.new.number ≡ pass.old.number) }
{
    let post = post(alloc, pass.number(), number)?;
    match ring.put(rt, pass, post) {
        Ok(()) => Ok(None),
        Err(full) => Ok(device_of(&full.post)),
    }
}

// Takes the first post: the device that it names.
fn taken<R: Wait>(rt: &R, ring: &Ring, pass: &mut TakePass) -> Option<u32>
    requires { pass.old.ring ≡ ring.now.ring }
    ensures { (pass.new.ring ≡ pass.old.ring) × (pass.new.senders ≡ pass.old.senders) }
{
    let post = ring.take(rt, pass)?;
    device_of(&post)
}

// The device of the first post that is left.
fn left<R: Wait>(rt: &R, settled: &mut Settled) -> Option<u32> {
    let post = settled.next(rt)?;
    device_of(&post)
}

/// A ring for one post and two senders: a take, puts of the second sender, two takes, a put, and what is left in the
/// end, each by the device that it names.
pub(crate) fn capacity_of_one<R: AllocGlobal + Wait>(rt: &R) -> Result<String, OutOfMemory> {
    let alloc = rt.alloc();
    let (ring, mut sends, mut take) = Ring::new(alloc, 1, 2)?;
    let (Some(mut second), Some(first)) = (sends.pop(), sends.pop()) else {
        unreachable!()
    };
    let mut text = String::new(alloc);
    write!(text, "{:?}", taken(rt, &ring, &mut take))?;
    write!(text, " {:?}", refused(rt, alloc, &ring, &mut second, 1)?)?;
    write!(text, " {:?}", refused(rt, alloc, &ring, &mut second, 2)?)?;
    write!(text, " {:?}", taken(rt, &ring, &mut take))?;
    write!(text, " {:?}", taken(rt, &ring, &mut take))?;
    write!(text, " {:?}", refused(rt, alloc, &ring, &mut second, 3)?)?;

    let mut settling = ring.close(take);
    settling.absorb(first);
    settling.absorb(second);
    let mut settled = settling.finish();
    write!(text, " {:?}", left(rt, &mut settled))?;
    write!(text, " {:?}", left(rt, &mut settled))?;
    Ok(text)
}
