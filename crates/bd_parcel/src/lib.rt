//! What is kept of a token, at a place of its own: so a token that goes from thread to thread is moved as a pointer.
#![tactic(auto)]

mod parcel;

pub use parcel::Parcel;
