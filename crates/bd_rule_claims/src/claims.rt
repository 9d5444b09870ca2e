//! Why an open or a claim is refused; the rule for an exclusive claim, and the order of the causes, are
//! this project's choice.
ghost use Rattle.std.specs.Prelude.{◌≡◌, ◌&&◌, not};
ghost use Rattle.std.specs.List.{list_any};
ghost use Rattle.bd_rule_claims.specs.Among.{holders_among};
ghost use Rattle.bd_machine.specs.Claims.{claim_refusal, has_no_key, holds, holds_one, holds_other, is_claimant, is_other_writer, open_refusal, stands_against};

use crate::holder::{holds_other, is_other_writer, writes_beside};
use bd_base::{ClaimKind, DevId, Errno, HandleId};
use bd_machine::Handle;

// Whether a claim of any kind stands.
fn is_claimed(handles: &[Handle], dev: DevId) -> bool
    ensures { result ≡ list_any is_claimant (holders_among handles.now dev) }
{
    for h in handles {
        if h.dev.0 == dev.0 && h.claim.is_some() {
            return true;
        }
    }
    false
}

// Whether a claim of another kind stands.
fn is_claimed_otherwise(handles: &[Handle], dev: DevId, kind: ClaimKind) -> bool
    ensures { result ≡ list_any (holds_other kind) (holders_among handles.now dev) }
{
    for h in handles {
        if h.dev.0 == dev.0 && holds_other(h, kind) {
            return true;
        }
    }
    false
}

// Whether the handle holds a claim already.
fn holds_one(handles: &[Handle], dev: DevId, id: HandleId) -> bool
    ensures { result ≡ holds_one id.0 (holders_among handles.now dev) }
{
    for h in handles {
        if h.dev.0 == dev.0 && (h.id.0 == id.0 && h.claim.is_some()) {
            return true;
        }
    }
    false
}

// Whether some handle is a writing one.
fn is_written(handles: &[Handle], dev: DevId) -> bool
    ensures { result ≡ list_any (λ h. h.writing) (holders_among handles.now dev) }
{
    for h in handles {
        if h.dev.0 == dev.0 && h.write {
            return true;
        }
    }
    false
}

// Whether another handle is a writing one.
fn is_written_by_other(handles: &[Handle], dev: DevId, id: HandleId) -> bool
    ensures { result ≡ list_any (is_other_writer id.0) (holders_among handles.now dev) }
{
    for h in handles {
        if h.dev.0 == dev.0 && is_other_writer(h, id) {
            return true;
        }
    }
    false
}

// Whether another handle that does not hold such a claim is a writing one.
fn is_written_beside(handles: &[Handle], dev: DevId, id: HandleId, kind: ClaimKind) -> bool
    ensures { result ≡ list_any (λ h. is_other_writer id.0 h && not (holds kind h)) (holders_among handles.now dev) }
{
    for h in handles {
        if h.dev.0 == dev.0 && writes_beside(h, id, kind) {
            return true;
        }
    }
    false
}

/// Why an open is refused: `Perm` for writing, where the device has a claim of any kind.
pub fn open_refusal(handles: &[Handle], dev: DevId, write: bool) -> Option<Errno>
    ensures { result ≡ open_refusal write (holders_among handles.now dev) }
{
    if write && is_claimed(handles, dev) {
        Some(Errno::Perm)
    } else {
        None
    }
}

// Whether the other handles forbid a claim of this kind.
fn stands_against(handles: &[Handle], dev: DevId, id: HandleId, kind: ClaimKind) -> bool
    ensures { result ≡ stands_against kind id.0 (holders_among handles.now dev) }
{
    match kind {
        ClaimKind::Exclusive => is_claimed(handles, dev),
        ClaimKind::WriteOne => { is_claimed(handles, dev) || is_written_by_other(handles, dev, id) }
        ClaimKind::WriteNone => {
            is_claimed_otherwise(handles, dev, kind) || is_written(handles, dev)
        }
        ClaimKind::Shared(_) => {
            is_claimed_otherwise(handles, dev, kind) || is_written_beside(handles, dev, id, kind)
        }
    }
}

// Whether it is a shared claim with key 0.
fn has_no_key(kind: ClaimKind) -> bool
    ensures { result ≡ has_no_key kind }
{
    match kind {
        ClaimKind::Shared(key) => key == 0,
        _ => false,
    }
}

/// Why a claim of a device for its handle is refused: `Inval` for a shared claim with key 0; then
/// `Perm` where the handle holds a claim already, or where the other handles forbid it:
///
/// - exclusive: a claim stands;
/// - one writer: a claim stands, or another handle is a writing one;
/// - no writer: a claim of another kind stands, or any handle is a writing one;
/// - shared: a claim of another kind or key stands, or another handle without this claim is a
///   writing one.
pub fn claim_refusal(handles: &[Handle], dev: DevId, id: HandleId, kind: ClaimKind) -> Option<Errno>
    ensures { result ≡ claim_refusal kind id.0 (holders_among handles.now dev) }
{
    if has_no_key(kind) {
        Some(Errno::Inval)
    } else if holds_one(handles, dev, id) || stands_against(handles, dev, id, kind) {
        Some(Errno::Perm)
    } else {
        None
    }
}
