//! When a run is at rest.
ghost use Rattle.std.specs.Prelude.{◌≡◌};
ghost use Rattle.std.specs.List.{list_any};
ghost use Rattle.bd_machine.specs.Marks.{has_any_mark};
ghost use Rattle.bd_machine.specs.Rest.{are_all_done, are_all_pended, are_all_put, are_gone_closed, is_at_rest, is_idle_owed, is_in_ring, is_left_open, is_nothing_owed, is_open_request, is_open_walk, is_pended, is_resting_token};
ghost use Rattle.bd_machine.specs.View.{part_of};

use bd_base::Setup;
use bd_blocks::is_base_handle;
use bd_machine::{Handle, Id, Kept, OpenRequest, Owed, Part, Place, Registry, State, Tracked};
use bd_rule_registry::is_live;
use bd_rule_requests::{has_any_mark, is_gone};
use bd_rule_script::open_on;

/// A message is in a ring.
pub fn is_any_in_ring(state: &State) -> bool
    ensures { result ≡ list_any is_in_ring state.now.tokens }
{
    state
        .tokens
        .as_slice()
        .iter()
        .any(|token| matches!(token.1.place, Place::Ring { .. }))
}

/// A request is open.
pub fn is_any_open(state: &State) -> bool
    ensures { result ≡ list_any is_open_request state.now.tokens }
{
    state.tokens.as_slice().iter().any(|token| matches!(token.0, Id::Request(_))
        && !matches!(token.1.place, Place::Nowhere))
}

/// A walk is open.
pub fn is_any_walking(state: &State) -> bool
    ensures { result ≡ list_any is_open_walk state.now.tokens }
{
    state.tokens.as_slice().iter().any(|token| matches!(token.0, Id::Walk(_))
        && !matches!(token.1.place, Place::Nowhere))
}

fn is_nothing_due(state: &State) -> bool
    ensures { result ≡ are_all_put state.now }
{
    state
        .parts
        .as_slice()
        .iter()
        .all(|part| part.due.len() == 0)
}

// A thread at rest owes at most to remove a device that is being removed already.
fn is_idle_owed(registry: &Registry, owed: Owed) -> bool
    ensures { result ≡ is_idle_owed registry.now owed }
{
    match owed {
        Owed::Remove(dev) => !is_live(registry, dev),
        _ => false,
    }
}

fn is_nothing_owed(registry: &Registry, part: &Part) -> bool
    ensures { result ≡ is_nothing_owed registry.now part.now }
{
    part.owed
        .as_slice()
        .iter()
        .all(|owed| is_idle_owed(registry, *owed))
}

fn are_all_done(state: &State) -> bool
    ensures { result ≡ are_all_done state.now }
{
    state
        .parts
        .as_slice()
        .iter()
        .all(|part| is_nothing_owed(&state.registry, part))
}

// Whether a script's handle waits for its thread, which closes it by itself.
#[tactic(auto, using(crate::proofs::Beyond::part_beyond))]
fn is_left_open(setup: &Setup, state: &State, handle: &Handle) -> bool
    ensures { result ≡ is_left_open setup.now state.now handle.now }
{
    let thread = handle.thread.0 as usize;
    if is_base_handle(setup, handle.id) || state.parts.len() <= thread {
        return false;
    }
    let part = &state.parts.as_slice()[thread];
    is_gone(part, handle.id) && open_on(part, handle.id) == 0
}

fn are_gone_closed(setup: &Setup, state: &State) -> bool
    ensures { result ≡ are_gone_closed setup.now state.now }
{
    for handle in state.registry.handles.as_slice() {
        if is_left_open(setup, state, handle) {
            return false;
        }
    }
    true
}

// Whether a device below carries a mark on the thread, a soft one too; a thread that there isn't has none.
#[tactic(auto, using(crate::proofs::Beyond::unmarked_beyond))]
fn is_marked_on(setup: &Setup, state: &State, thread: u32, r: OpenRequest) -> bool
    ensures { result ≡ has_any_mark setup.now (part_of state.now thread) r.dev }
{
    if state.parts.len() <= thread as usize {
        return false;
    }
    has_any_mark(setup, &state.parts.as_slice()[thread as usize], r.dev)
}

// Whether a request is kept without an answer, and nothing stops it.
fn is_pended(setup: &Setup, state: &State, thread: u32, r: OpenRequest) -> bool
    ensures { result ≡ is_pended setup.now state.now thread r }
{
    r.pended && r.aborted.is_none() && !is_marked_on(setup, state, thread, r)
}

fn is_resting_token(setup: &Setup, state: &State, token: &(Id, Tracked)) -> bool
    ensures { result ≡ is_resting_token setup.now state.now token.now.0 token.now.1 }
{
    match (token.0, &token.1.kept) {
        (Id::Request(req), Kept::Request(r)) => {
            matches!(token.1.place, Place::Nowhere) || is_pended(setup, state, req.thread, *r)
        }
        _ => true,
    }
}

fn are_all_pended(setup: &Setup, state: &State) -> bool
    ensures { result ≡ are_all_pended setup.now state.now }
{
    state
        .tokens
        .as_slice()
        .iter()
        .all(|token| is_resting_token(setup, state, token))
}

/// The run is at rest.
pub fn is_at_rest(setup: &Setup, state: &State, thread: u32) -> bool
    ensures { result ≡ is_at_rest setup.now state.now thread }
{
    thread == 0
        && !state.shut
        && is_nothing_due(state)
        && !is_any_in_ring(state)
        && are_all_done(state)
        && are_gone_closed(setup, state)
        && !is_any_walking(state)
        && are_all_pended(setup, state)
}
