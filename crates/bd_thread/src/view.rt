//! A thread, as the rules see it.
ghost use Rattle.std.specs.Prelude.{◌≡◌, filter};
ghost use Rattle.bd_machine.specs.Registry.{is_on};
ghost use Rattle.bd_machine.specs.View.{is_of};
ghost use Rattle.bd_thread.specs.Seen.{view_of, view_seen};

use crate::links::Links;
use crate::thread::Thread;
use bd_base::{DevId, HandleId};
use bd_machine::{Handle, Id, Kept, Part};
use bd_registry::Registry;
use bd_rule_view::{Records, Sees};
use bd_tokens::Tokens;

/// What a thread sees: its part, what it holds of tokens, and of the registry its own handles and
/// channels.
#[derive(Clone, Copy)]
pub(crate) struct Seen<'s> {
    me: u32,
    part: &'s Part,
    held: &'s Tokens,
    registry: &'s Registry,
}

impl<'s> Sees for Seen<'s> {
    ghost view_of = { λ s. view_seen s };

    ghost thread_of = { λ s. s.me };

    fn thread(&self) -> u32 {
        self.me
    }

    fn part(&self) -> &Part {
        self.part
    }

    fn kept(&self, id: Id) -> Option<&Kept> {
        self.held.get(id)
    }

    fn handle(&self, id: HandleId) -> Option<Handle> {
        self.registry.own_handle(self.me, id)
    }

    #[tactic(auto, using(crate::proofs::Going::on_own))]
    fn handles_of(&self, dev: DevId) -> &[Handle] {
        self.registry.handles_of(dev)
    }

    fn channels(&self, dev: DevId) -> Option<u128> {
        self.registry.references(self.me, dev)
    }
}

impl<'a> Thread<'a> {
    /// Open handles: those of this thread on the device are the handles that it sees on it. Others may
    /// stand beside them, of any thread and any device.
    #[tactic(auto, using(crate::proofs::Going::on_own))]
    pub(crate) fn handles_of<'s>(&self, links: &'s Links, dev: DevId) -> &'s [Handle]
        ensures { filter (is_of self.now.me) (filter (is_on dev) result.now) ≡ filter (is_on dev) (view_of self.now links.now).handles }
    {
        links.registry.handles_of(dev)
    }

    /// The thread, as the rules see it.
    pub(crate) fn seen<'s>(&'s self, links: &'s Links) -> Seen<'s>
        ensures { view_seen result ≡ view_of self.now links.now }
    {
        Seen {
            me: self.me,
            part: &self.part,
            held: &self.held,
            registry: &links.registry,
        }
    }
}
