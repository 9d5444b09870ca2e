//! The machine as one of its threads sees it.
ghost use Rattle.std.specs.Prelude.{◌≡◌, ◌<◌, length, option_copied};
ghost use Rattle.bd_machine.specs.View.{here_of, view};

use bd_base::{DevId, HandleId, Setup};
use bd_blocks::references;
use bd_machine::{Handle, Id, Kept, Part, Place, State, Tracked};
use bd_rule_view::{Sees, look_up, own_handle};

/// The setup and the state as one of the threads sees them. Its view is the machine's own, `view` of
/// the state and the thread.
#[derive(Clone, Copy)]
pub struct Side<'a> {
    pub setup: &'a Setup,
    pub state: &'a State,
    /// Its number, below the number of the state's parts.
    pub thread: u32,
    ghost exists: { thread < length state.now.parts },
}

// What is kept of a token that is on a thread.
fn here(token: Option<&Tracked>, thread: u32) -> Option<&Kept>
    ensures { option_copied result ≡ here_of thread (option_copied token.entry) }
{
    match token {
        Some(
            Tracked {
                place: Place::At(at),
                kept,
            },
        ) => if *at == thread { Some(kept) } else { None },
        _ => None,
    }
}

impl<'a> Sees for Side<'a> {
    ghost view_of = { λ s. view s.state.now s.thread };

    ghost thread_of = { λ s. s.thread };

    fn thread(&self) -> u32 {
        self.thread
    }

    fn part(&self) -> &Part {
        &self.state.parts.as_slice()[self.thread as usize]
    }

    fn kept(&self, id: Id) -> Option<&Kept> {
        here(look_up(self.state.tokens.as_slice(), id), self.thread)
    }

    fn handle(&self, id: HandleId) -> Option<Handle> {
        own_handle(self.state.registry.handles.as_slice(), self.thread, id)
    }

    #[tactic(auto, using(bd_machine::proofs::Laws::filter_twice))]
    fn handles_of(&self, _dev: DevId) -> &[Handle] {
        self.state.registry.handles.as_slice()
    }

    fn channels(&self, dev: DevId) -> Option<u128> {
        references(&self.state.registry, self.thread, dev)
    }
}
