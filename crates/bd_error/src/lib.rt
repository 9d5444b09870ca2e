//! Injected errors: what a request takes of the errors that are set on an error device.
#![tactic(auto)]

mod injections;

pub use injections::InjectionCalls;
