//! Whether a walk visits a thread.
ghost use Rattle.std.specs.Prelude.{◌≡◌};
ghost use Rattle.bd_steps.specs.Visiting.{may_visit, visitor};

use bd_base::{Setup, WalkId};
use bd_machine::OpenWalk;
use bd_rule_requests::walk_here;
use bd_rule_view::Sees;
use bd_rule_walks::refused_visit;

// Whether the rules let the walk visit thread `me`.
fn may_visit<S: Sees>(seen: &S, setup: &Setup, me: u32, id: WalkId, walk: OpenWalk) -> bool
    ensures { result ≡ may_visit setup.now me (S.view_of seen.now) id walk }
{
    let OpenWalk { dev, kind, .. } = walk;
    refused_visit(seen, setup, me, id, dev, kind).is_none()
}

/// The walk, where it is here and the rules let it visit thread `me`.
pub fn visitor<S: Sees>(seen: &S, setup: &Setup, me: u32, id: WalkId) -> Option<OpenWalk>
    ensures { result ≡ visitor setup.now me (S.view_of seen.now) id }
{
    let walk = walk_here(seen, id)?;
    if may_visit(seen, setup, me, id, walk) {
        Some(walk)
    } else {
        None
    }
}
