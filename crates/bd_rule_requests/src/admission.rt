//! Which submissions are refused, and why.
ghost use Rattle.std.specs.Prelude.{◌≡◌, IfErr, IfOk, None, Some, true};
ghost use Rattle.bd_machine.specs.Admission.{has_range, is_gone, is_on_removed, is_outside, is_removed_handle, is_unmap, refusal_of, refusal_on, size_of_handle, writes};
ghost use Rattle.bd_machine.specs.Asked.{is_handle_on};
ghost use Rattle.bd_machine.specs.Registry.{handle_of};
ghost use Rattle.bd_machine.specs.Requests.{is_device_of};

use crate::marks::is_removed_below;
use bd_base::{DevId, Errno, HandleId, Op, Setup};
use bd_blocks::{is_aio, size_of};
use bd_machine::{Handle, Part};
use bd_rule_view::{Sees, Submission};

/// The most bytes of one request (this project's choice).
const MAX_BYTES: u128 = 262_144;

fn writes(op: Op) -> bool
    ensures { result ≡ writes op }
{
    matches!(op, Op::Write(_) | Op::Zeroes | Op::Unmap | Op::Flush)
}

/// Whether the type has a range of blocks: all but a reset and an abort.
pub fn has_range(op: Op) -> bool
    ensures { result ≡ has_range op }
{
    !matches!(op, Op::Reset(_) | Op::Abort(_))
}

fn is_unmap(op: Op) -> bool
    ensures { result ≡ is_unmap op }
{
    matches!(op, Op::Unmap)
}

/// How many blocks a handle's device has, as far as the thread was told: the last number that it was told of since
/// the open, or that at the open.
pub fn size_of_handle(part: &Part, handle: &Handle) -> u64
    ensures { result ≡ size_of_handle part.now handle.now }
{
    for row in part.sized.as_slice() {
        if row.0.0 == handle.id.0 {
            return row.1;
        }
    }
    handle.blocks
}

// Whether no request on a device of this many blocks may have the range.
fn is_outside(setup: &Setup, dev: DevId, blocks: u64, lba: u64, count: u64) -> bool
    ensures { result ≡ is_outside setup.now dev blocks lba count }
{
    count == 0
        || MAX_BYTES < count as u128 * size_of(setup, dev) as u128
        || (blocks as u128) < lba as u128 + count as u128
}

fn refusal_on(setup: &Setup, part: &Part, handle: Option<Handle>, what: Submission) -> Option<Errno>
    ensures { result ≡ refusal_on setup.now part.now handle what.op what.lba what.count }
{
    let Some(h) = handle else {
        return Some(Errno::BadDesc);
    };
    if writes(what.op) && !h.write {
        Some(Errno::BadDesc)
    } else if is_unmap(what.op) && is_aio(setup, h.dev) {
        Some(Errno::NotSup)
    } else if has_range(what.op)
        && is_outside(setup, h.dev, size_of_handle(part, &h), what.lba, what.count)
    {
        Some(Errno::Inval)
    } else {
        None
    }
}

/// Whether the remove event of a handle was taken.
pub fn is_gone(part: &Part, id: HandleId) -> bool
    ensures { result ≡ is_gone part.now id }
{
    part.gone.as_slice().iter().any(|h| id.0 == h.0)
}

// Whether the handle is there, and a device below its own is being removed.
fn is_on_removed(setup: &Setup, part: &Part, handle: Option<Handle>) -> bool
    ensures { result ≡ is_on_removed setup.now part.now handle }
{
    match handle {
        Some(h) => is_removed_below(setup, part, h.dev),
        None => false,
    }
}

// Whether the handle's device was removed, as far as the thread was told.
fn is_removed_handle<S: Sees>(seen: &S, setup: &Setup, id: HandleId) -> bool
    ensures { result ≡ is_removed_handle setup.now (S.view_of seen.now) id }
{
    let part = seen.part();
    is_gone(part, id) || is_on_removed(setup, part, seen.handle(id))
}

/// Why a submission through a handle, or through none, is refused, if it is: `NoDev` where the
/// handle's remove event was taken, or a device below its own carries a removal mark; then `BadDesc`
/// where the handle isn't open, or for a write, zeroes, unmap or flush where it is open for reading;
/// then `NotSup` for an unmap over a file; then `Inval` for no block, more than 262,144 bytes, or a
/// range past the end of the device, as far as the thread was told of its size. The order is this project's choice.
pub fn refusal_of<S: Sees>(
    seen: &S,
    setup: &Setup,
    handle: Option<HandleId>,
    what: Submission,
) -> Option<Errno>
    ensures { result ≡ refusal_of setup.now (S.view_of seen.now) handle what.op what.lba what.count }
{
    let Some(id) = handle else {
        return Some(Errno::BadDesc);
    };
    if is_removed_handle(seen, setup, id) {
        Some(Errno::NoDev)
    } else {
        refusal_on(setup, seen.part(), seen.handle(id), what)
    }
}

/// Whether it is the device of the handle, where the thread has that open.
pub fn is_device_of<S: Sees>(seen: &S, dev: DevId, handle: HandleId) -> bool
    ensures { result ≡ is_device_of dev (handle_of (S.view_of seen.now).handles handle) }
{
    match seen.handle(handle) {
        Some(h) => h.dev.0 == dev.0,
        None => true,
    }
}

/// The device of a handle for a submission through it, or why it is refused, as `refusal_of` says.
pub fn admit<S: Sees>(
    seen: &S,
    setup: &Setup,
    handle: HandleId,
    what: Submission,
) -> Result<DevId, Errno>
    ensures admitted { IfOk result (λ dev. refusal_of setup.now (S.view_of seen.now) (Some handle) what.op what.lba what.count ≡ None) }
    ensures on { IfOk result (λ dev. is_handle_on dev (handle_of (S.view_of seen.now).handles handle) ≡ true) }
    ensures device { IfOk result (λ dev. is_device_of dev (handle_of (S.view_of seen.now).handles handle) ≡ true) }
    ensures refused { IfErr result (λ errno. refusal_of setup.now (S.view_of seen.now) (Some handle) what.op what.lba what.count ≡ Some errno) }
{
    if is_removed_handle(seen, setup, handle) {
        return Err(Errno::NoDev);
    }
    let found = seen.handle(handle);
    match refusal_on(setup, seen.part(), found, what) {
        Some(errno) => Err(errno),
        None => match found {
            Some(h) => Ok(h.dev),
            None => Err(Errno::BadDesc),
        },
    }
}
