//! What a thread has to ask the registry for: what the next line names, and the devices that are left.
ghost use Rattle.std.specs.Prelude.{◌≡◌, ◌-◌};
ghost use Rattle.std.specs.List.{list_any, range_with_len};
ghost use Rattle.std.specs.Option.{option_copied};
ghost use Rattle.bd_steps.specs.Asking.{asks_registry, is_base_if_any, is_live_at};

use bd_base::{DevId, HandleId, Job, Setup};
use bd_blocks::is_base_handle;
use bd_machine::Part;
use bd_rule_registry::is_live;
use bd_rule_script::bound_to;
use bd_rule_view::Records;

// Whether it is a base handle.
fn is_base_if_any(setup: &Setup, handle: Option<HandleId>) -> bool
    ensures { result ≡ is_base_if_any setup.now handle }
{
    match handle {
        Some(id) => is_base_handle(setup, id),
        None => false,
    }
}

/// Whether the line asks the registry: it opens, claims, removes or resizes, or it closes what is no base handle.
pub fn asks_registry(setup: &Setup, part: &Part, job: Option<&Job>) -> bool
    ensures { result ≡ asks_registry setup.now part.now (option_copied job.entry) }
{
    match job {
        Some(Job::Open { .. } | Job::Claim { .. } | Job::Remove { .. } | Job::Resize { .. }) =>
            true,
        Some(Job::Close { handle }) => !is_base_if_any(setup, bound_to(part, handle)),
        _ => false,
    }
}

/// Whether one of the devices below this number is neither being removed nor destructed.
#[tactic(auto, using(crate::proofs::Left::left_from))]
pub fn is_any_live<R: Records>(registry: &R, count: u32) -> bool
    ensures { result ≡ list_any (is_live_at (R.registry_of registry.now)) (range_with_len 0 count) }
{
    for n in 0..count {
        if is_live(registry, DevId(n)) {
            return true;
        }
    }
    false
}
