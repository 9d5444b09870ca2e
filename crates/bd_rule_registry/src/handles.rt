//! Answers about handles: an open, a close and a claim.
ghost use Rattle.std.specs.Prelude.{◌≡◌, IfOk};
ghost use Rattle.bd_machine.specs.Registry.{claim_answer, close_answer, open_answer, refused_or};

use crate::bare::freed_by_close;
use crate::sizes::size_now;
use crate::standing::{are_live, is_live};
use bd_base::{Answer, ClaimKind, DevId, Errno, HandleId, OutOfMemory, Setup};
use bd_machine::Handle;
use bd_rule_claims::{claim_refusal, open_refusal};
use bd_rule_view::Records;

/// The refusal, where there is one, or else the answer.
pub(crate) fn refused_or(errno: Option<Errno>, answer: Answer) -> Answer
    ensures { result ≡ refused_or errno answer }
{
    match errno {
        Some(errno) => Answer::Refused(errno),
        None => answer,
    }
}

/// The answer to an open of the device at this place, or of none. A place that passes 32 bits counts
/// as out of memory.
pub(crate) fn open_answer<R: Records>(
    setup: &Setup,
    registry: &R,
    write: bool,
    place: Option<usize>,
) -> Result<Answer, OutOfMemory>
    ensures { IfOk result (λ a. a ≡ open_answer setup.now (R.registry_of registry.now) write place) }
{
    let Some(place) = place else {
        return Ok(Answer::Refused(Errno::NoDev));
    };
    let Ok(number) = u32::try_from(place) else {
        return Err(OutOfMemory);
    };
    let dev = DevId(number);
    if !are_live(setup, registry, dev) {
        return Ok(Answer::Refused(Errno::NoDev));
    }
    let handle = HandleId(registry.next());
    let blocks = size_now(setup, registry, dev);
    let opened = Answer::Opened {
        handle,
        dev,
        blocks,
    };
    Ok(refused_or(open_refusal(registry.handles_of(dev), dev, write), opened))
}

/// The answer to a close of this handle by a thread.
pub(crate) fn close_answer<R: Records>(
    setup: &Setup,
    registry: &R,
    thread: u32,
    id: HandleId,
    handle: Option<Handle>,
) -> Answer
    ensures { result ≡ close_answer setup.now (R.registry_of registry.now) thread id handle }
{
    let Some(h) = handle else {
        return Answer::Refused(Errno::NoDev);
    };
    if h.thread.0 == thread {
        Answer::Closed {
            destruct: freed_by_close(setup, registry, thread, id, h.dev),
        }
    } else {
        Answer::Refused(Errno::BadDesc)
    }
}

/// The answer to a claim of this kind for this handle by a thread.
pub(crate) fn claim_answer<R: Records>(
    registry: &R,
    thread: u32,
    kind: ClaimKind,
    handle: Option<Handle>,
) -> Answer
    ensures { result ≡ claim_answer (R.registry_of registry.now) thread kind handle }
{
    let Some(h) = handle else {
        return Answer::Refused(Errno::BadDesc);
    };
    if h.thread.0 != thread {
        Answer::Refused(Errno::BadDesc)
    } else if !is_live(registry, h.dev) {
        Answer::Refused(Errno::NoDev)
    } else {
        let handles = registry.handles_of(h.dev);
        refused_or(claim_refusal(handles, h.dev, h.id, kind), Answer::Claimed)
    }
}
