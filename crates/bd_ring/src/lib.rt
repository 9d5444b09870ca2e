//! What threads share: rings of messages, each from many senders to one receiver, and a slot that
//! lends one value to one thread at a time.
#![tactic(auto)]

pub mod exchange;
mod letter;
mod ring;
mod ring_rule;
mod slot;
mod slot_rule;
pub mod writers;

pub use ring::{Full, Ring, SendPass, Settled, Settling, TakePass};
pub use slot::{Slot, SlotPass, SlotSettling};
