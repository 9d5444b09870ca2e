//! Which devices a thread is done with: those whose home is another thread, and those that were destructed; and
//! whether it closed each handle whose remove event it took.
ghost use Rattle.std.specs.Prelude.{◌≡◌, ◌-◌};
ghost use Rattle.std.specs.List.{list_all, list_any, range_with_len};
ghost use Rattle.bd_machine.specs.Same.{same_dev};
ghost use Rattle.bd_steps.specs.Resting.{is_done_with, is_settled};

use bd_base::{DevId, HandleId, Setup};
use bd_blocks::{home, is_base_handle};
use bd_rule_requests::has_destructed;
use bd_rule_view::Sees;

/// Whether another thread is the device's home, or it was destructed.
pub fn is_done_with(setup: &Setup, me: u32, destructed: &[DevId], n: u32) -> bool
    ensures { result ≡ is_done_with setup.now me destructed.now n }
{
    home(setup, DevId(n)) != me || has_destructed(destructed, DevId(n))
}

/// Whether the thread is done with each device below this number.
#[tactic(auto, using(crate::proofs::Left::left_from))]
pub fn are_done_with(setup: &Setup, me: u32, destructed: &[DevId], count: u32) -> bool
    ensures { result ≡ list_all (is_done_with setup.now me destructed.now) (range_with_len 0 count) }
{
    for n in 0..count {
        if !is_done_with(setup, me, destructed, n) {
            return false;
        }
    }
    true
}

// Whether the handle is a base handle, or isn't open on this thread.
fn is_settled<S: Sees>(seen: &S, setup: &Setup, id: HandleId) -> bool
    ensures { result ≡ is_settled setup.now (S.view_of seen.now) id }
{
    is_base_handle(setup, id) || seen.handle(id).is_none()
}

/// Whether each handle whose remove event was taken is closed, but for base handles.
pub fn are_settled<S: Sees>(seen: &S, setup: &Setup) -> bool
    ensures { result ≡ list_all (is_settled setup.now (S.view_of seen.now)) (S.view_of seen.now).part.gone }
{
    seen.part()
        .gone
        .as_slice()
        .iter()
        .all(|id| is_settled(seen, setup, *id))
}
