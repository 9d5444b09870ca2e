//! When two answers of the registry are the same.
ghost use Rattle.std.specs.Prelude.{◌≡◌};
ghost use Rattle.std.specs.Cmp.Lexicographic.{pointwise};
ghost use Rattle.bd_base.specs.declared.event.Answer.TheVariants as answers;
ghost use Rattle.bd_machine.specs.Same.{same_answer, same_dev, same_dropped, same_holder, same_if_any, same_next_reset};

use crate::same::{same_decision, same_errno, same_handle_if_any, same_request, same_threads};
use bd_base::{
    Answer, Decision, DevId, DevList, Dropped, Errno, HandleId, HandleList, ReqId, ThreadId,
    ThreadSet,
};

fn same_dev_if_any(a: Option<DevId>, b: Option<DevId>) -> bool
    ensures { result ≡ same_if_any same_dev a b }
{
    match (a, b) {
        (Some(x), Some(y)) => x.0 == y.0,
        (None, None) => true,
        _ => false,
    }
}

fn same_dropped(a: Dropped, b: Dropped) -> bool
    ensures { result ≡ same_dropped a b }
{
    match (a, b) {
        (Dropped::Kept, Dropped::Kept) => true,
        (Dropped::Gone, Dropped::Gone) => true,
        (Dropped::Last, Dropped::Last) => true,
        _ => false,
    }
}

fn same_devs(a: &[DevId], b: &[DevId]) -> bool
    ensures { result ≡ pointwise same_dev a.now b.now }
{
    a == b
}

fn same_holders(a: &[(HandleId, ThreadId)], b: &[(HandleId, ThreadId)]) -> bool
    ensures { result ≡ pointwise same_holder a.now b.now }
{
    a == b
}

// Whether both name the same reset with the same threads, or none.
fn same_next_reset(a: Option<(ReqId, ThreadSet)>, b: Option<(ReqId, ThreadSet)>) -> bool
    ensures { result ≡ same_if_any same_next_reset a b }
{
    match (a, b) {
        (Some(x), Some(y)) => same_request(x.0, y.0) && same_threads(x.1, y.1),
        (None, None) => true,
        _ => false,
    }
}

// Whether the answer opened this handle of this device, which has this number of blocks.
fn is_opened(b: &Answer, handle: HandleId, dev: DevId, blocks: u64) -> bool
    ensures { result ≡ same_answer (answers.Opened handle dev blocks) b.now }
{
    match b {
        Answer::Opened {
            handle: h,
            dev: d,
            blocks: n,
        } => handle.0 == h.0 && dev.0 == d.0 && blocks == *n,
        _ => false,
    }
}

// Whether the answer closed a handle, and left this device to be destructed.
fn is_closed(b: &Answer, destruct: Option<DevId>) -> bool
    ensures { result ≡ same_answer (answers.Closed destruct) b.now }
{
    match b {
        Answer::Closed { destruct: d } => same_dev_if_any(destruct, *d),
        _ => false,
    }
}

// Whether the answer got a channel, with these channels born frozen.
fn is_got(b: &Answer, fresh: bool, frozen: &DevList) -> bool
    ensures { result ≡ same_answer (answers.Got fresh frozen.now) b.now }
{
    match b {
        Answer::Got {
            fresh: f,
            frozen: ds,
        } => { fresh == *f && same_devs(frozen.as_slice(), ds.as_slice()) }
        _ => false,
    }
}

// Whether the answer put a reference, and left this number of them.
fn is_put_down(b: &Answer, left: u128) -> bool
    ensures { result ≡ same_answer (answers.PutDown left) b.now }
{
    match b {
        Answer::PutDown { left: n } => left == *n,
        _ => false,
    }
}

// Whether the answer to a drop says this.
fn is_dropped(b: &Answer, what: Dropped, zero: Option<DevId>, destruct: Option<DevId>) -> bool
    ensures { result ≡ same_answer (answers.Dropped what zero destruct) b.now }
{
    match b {
        Answer::Dropped {
            what: w,
            zero: z,
            destruct: d,
        } => same_dropped(what, *w) && same_dev_if_any(zero, *z) && same_dev_if_any(destruct, *d),
        _ => false,
    }
}

// Whether the answer to a removal says this.
fn is_removing(
    b: &Answer,
    dev: DevId,
    threads: ThreadSet,
    handles: &HandleList,
    destruct: Option<DevId>,
) -> bool
    ensures { result ≡ same_answer (answers.Removing dev threads handles.now destruct) b.now }
{
    match b {
        Answer::Removing {
            dev: v,
            threads: ts,
            handles: hs,
            destruct: d,
        } => {
            dev.0 == v.0
                && same_threads(threads, *ts)
                && same_holders(handles.as_slice(), hs.as_slice())
                && same_dev_if_any(destruct, *d)
        }
        _ => false,
    }
}

// Whether the answer started a reset over these threads.
fn is_reset_started(b: &Answer, threads: ThreadSet) -> bool
    ensures { result ≡ same_answer (answers.ResetStarted threads) b.now }
{
    match b {
        Answer::ResetStarted { threads: ts } => same_threads(threads, *ts),
        _ => false,
    }
}

// Whether the answer ended a reset over these threads.
fn is_reset_ended(b: &Answer, threads: ThreadSet) -> bool
    ensures { result ≡ same_answer (answers.ResetEnded threads) b.now }
{
    match b {
        Answer::ResetEnded { threads: ts } => same_threads(threads, *ts),
        _ => false,
    }
}

// Whether the answer finished a reset, and this one is next.
fn is_reset_finished(b: &Answer, next: Option<(ReqId, ThreadSet)>) -> bool
    ensures { result ≡ same_answer (answers.ResetFinished next) b.now }
{
    match b {
        Answer::ResetFinished { next: n } => same_next_reset(next, *n),
        _ => false,
    }
}

fn is_injected(b: &Answer, decision: Decision) -> bool
    ensures { result ≡ same_answer (answers.Injected decision) b.now }
{
    match b {
        Answer::Injected { decision: d } => same_decision(decision, *d),
        _ => false,
    }
}

// Whether the answer to the end of a device left this base handle to be closed.
fn is_freed(b: &Answer, close: Option<HandleId>) -> bool
    ensures { result ≡ same_answer (answers.Freed close) b.now }
{
    match b {
        Answer::Freed { close: h } => same_handle_if_any(close, *h),
        _ => false,
    }
}

// Whether the answer began a resize of this device, which this thread carries out.
fn is_resizing(b: &Answer, dev: DevId, home: ThreadId) -> bool
    ensures { result ≡ same_answer (answers.Resizing dev home) b.now }
{
    match b {
        Answer::Resizing { dev: d, home: t } => dev.0 == d.0 && home.0 == t.0,
        _ => false,
    }
}

// Whether the answer to the end of a resize says this.
fn is_resized(b: &Answer, handles: &HandleList, blocks: u64, destruct: Option<DevId>) -> bool
    ensures { result ≡ same_answer (answers.Resized handles.now blocks destruct) b.now }
{
    match b {
        Answer::Resized {
            handles: hs,
            blocks: n,
            destruct: d,
        } => {
            same_holders(handles.as_slice(), hs.as_slice())
                && blocks == *n
                && same_dev_if_any(destruct, *d)
        }
        _ => false,
    }
}

fn is_refused(b: &Answer, errno: Errno) -> bool
    ensures { result ≡ same_answer (answers.Refused errno) b.now }
{
    match b {
        Answer::Refused(e) => same_errno(errno, *e),
        _ => false,
    }
}

/// Whether the registry answers the same.
pub fn same_answer(a: &Answer, b: &Answer) -> bool
    ensures { result ≡ same_answer a.now b.now }
{
    match a {
        Answer::Opened {
            handle,
            dev,
            blocks,
        } => is_opened(b, *handle, *dev, *blocks),
        Answer::Closed { destruct } => is_closed(b, *destruct),
        Answer::Claimed => matches!(b, Answer::Claimed),
        Answer::Got { fresh, frozen } => is_got(b, *fresh, frozen),
        Answer::PutDown { left } => is_put_down(b, *left),
        Answer::Dropped {
            what,
            zero,
            destruct,
        } => is_dropped(b, *what, *zero, *destruct),
        Answer::Removing {
            dev,
            threads,
            handles,
            destruct,
        } => is_removing(b, *dev, *threads, handles, *destruct),
        Answer::ResetStarted { threads } => is_reset_started(b, *threads),
        Answer::ResetQueued => matches!(b, Answer::ResetQueued),
        Answer::ResetEnded { threads } => is_reset_ended(b, *threads),
        Answer::ResetFinished { next } => is_reset_finished(b, *next),
        Answer::Injected { decision } => is_injected(b, *decision),
        Answer::Freed { close } => is_freed(b, *close),
        Answer::Resizing { dev, home } => is_resizing(b, *dev, *home),
        Answer::Resized {
            handles,
            blocks,
            destruct,
        } => is_resized(b, handles, *blocks, *destruct),
        Answer::Refused(errno) => is_refused(b, *errno),
    }
}
