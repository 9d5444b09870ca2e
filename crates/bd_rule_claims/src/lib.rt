//! The claims of one device, by SPDK's rules for descriptors: which open and which claim is refused.
#![tactic(auto)]

mod claims;
mod holder;

pub use claims::{claim_refusal, open_refusal};
