//! When a run is complete.
ghost use Rattle.std.specs.Prelude.{◌≡◌, length, IfOk};
ghost use Rattle.std.specs.List.{list_all, range_with_len};
ghost use Rattle.bd_machine.specs.Run.{is_destructed, is_finished, is_nothing_left};

use crate::rest::{is_any_in_ring, is_any_open, is_any_walking};
use bd_base::{DevId, OutOfMemory, Setup};
use bd_blocks::home;
use bd_machine::State;
use bd_rule_requests::has_destructed;

// The home of a device has destructed it.
#[tactic(auto, using(crate::proofs::Beyond::part_beyond))]
fn is_destructed(setup: &Setup, state: &State, n: u32) -> bool
    ensures { result ≡ is_destructed setup.now state.now n }
{
    let home = home(setup, DevId(n)) as usize;
    if home < state.parts.len() {
        let part = &state.parts.as_slice()[home];
        has_destructed(part.destructed.as_slice(), DevId(n))
    } else {
        false
    }
}

#[tactic(auto, using(bd_rule_effects::proofs::Left::left_from))]
fn all_destructed(setup: &Setup, state: &State, count: u32) -> bool
    ensures { result ≡ list_all (is_destructed setup.now state.now) (range_with_len 0 count) }
{
    for n in 0..count {
        if !is_destructed(setup, state, n) {
            return false;
        }
    }
    true
}

// Every message that goes once was put, and what is done once was done.
fn is_nothing_left(state: &State) -> bool
    ensures { result ≡ is_nothing_left state.now }
{
    state
        .parts
        .as_slice()
        .iter()
        .all(|part| part.due.len() == 0 && part.owed.len() == 0)
}

/// Shut down, every device destructed, no request open, every message taken, every walk ended, and
/// nothing left to put or to do. More devices than 32
/// bits count answer out of memory.
pub fn is_finished(setup: &Setup, state: &State) -> Result<bool, OutOfMemory>
    ensures { IfOk result (λ b. b ≡ is_finished setup.now state.now) }
{
    let Ok(count) = u32::try_from(setup.devices.len()) else {
        return Err(OutOfMemory);
    };
    Ok(
        state.shut
            && all_destructed(setup, state, count)
            && !is_any_open(state)
            && !is_any_in_ring(state)
            && !is_any_walking(state)
            && is_nothing_left(state),
    )
}
