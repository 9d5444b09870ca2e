//! Which pieces base devices served in a run, in which order and to which ends: by the machine's states, by what
//! each thread saw, and by its turns; and the laws that these are the same.
#![tactic(auto)]

pub mod law;
