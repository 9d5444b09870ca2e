//! What the acting thread sees.
use bd_base::{DevId, HandleId};
use bd_machine::{Handle, Id, Kept, Part};

/// What one thread sees of the machine: its part, what is kept of the tokens that are on it, the
/// handles that it has open, and its references to devices. Contracts see it as the machine's own view.
pub trait Sees {
    ghost use Rattle.std.specs.Prelude.{◌≡◌, ℕ, filter};
    ghost use Rattle.std.specs.Option.{option_copied};
    ghost use Rattle.bd_machine.specs.Registry.{handle_of, is_on};
    ghost use Rattle.bd_machine.specs.View.{View, is_of};

    ghost view_of: { Self → View };

    ghost thread_of: { Self → ℕ };

    /// The number of the thread, below the number of threads.
    fn thread(&self) -> u32
        ensures { result ≡ thread_of self.now };

    /// What is the thread's alone.
    fn part(&self) -> &Part
        ensures { result.now ≡ (view_of self.now).part };

    /// What is kept of a token that is on the thread.
    fn kept(&self, id: Id) -> Option<&Kept>
        ensures { option_copied result ≡ (view_of self.now).here id };

    /// The handle of a number, where this thread has it open.
    fn handle(&self, id: HandleId) -> Option<Handle>
        ensures { result ≡ handle_of (view_of self.now).handles id };

    /// Open handles: those of this thread on the device are the handles that it sees on it. Others may
    /// stand beside them, of any thread and any device.
    fn handles_of(&self, dev: DevId) -> &[Handle]
        ensures { filter (is_of (thread_of self.now)) (filter (is_on dev) result.now) ≡ filter (is_on dev) (view_of self.now).handles };

    /// How many references the thread has to a device; none where it has no channel of it.
    fn channels(&self, dev: DevId) -> Option<u128>
        ensures { result ≡ (view_of self.now).channels dev };
}
