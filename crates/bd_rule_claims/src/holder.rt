//! What an open handle holds.
ghost use Rattle.std.specs.Prelude.{◌≡◌, ◌&&◌, not};
ghost use Rattle.bd_machine.specs.Claims.{holds, holds_other, is_other_writer};
ghost use Rattle.bd_machine.specs.Registry.{holder_of};

use bd_base::{ClaimKind, HandleId};
use bd_machine::Handle;
use bd_rule_view::same_kind;

// Whether the handle holds a claim of this kind.
fn holds(h: &Handle, kind: ClaimKind) -> bool
    ensures { result ≡ holds kind (holder_of h.now) }
{
    match h.claim {
        Some(claim) => same_kind(claim, kind),
        None => false,
    }
}

// Whether it holds a claim, and of another kind.
pub(crate) fn holds_other(h: &Handle, kind: ClaimKind) -> bool
    ensures { result ≡ holds_other kind (holder_of h.now) }
{
    h.claim.is_some() && !holds(h, kind)
}

// Whether it is another handle than this one, and a writing one.
pub(crate) fn is_other_writer(h: &Handle, id: HandleId) -> bool
    ensures { result ≡ is_other_writer id.0 (holder_of h.now) }
{
    h.id.0 != id.0 && h.write
}

// Whether it is another handle than this one, a writing one, and without a claim of this kind.
pub(crate) fn writes_beside(h: &Handle, id: HandleId, kind: ClaimKind) -> bool
    ensures { result ≡ (is_other_writer id.0 (holder_of h.now) && not (holds kind (holder_of h.now))) }
{
    is_other_writer(h, id) && !holds(h, kind)
}
