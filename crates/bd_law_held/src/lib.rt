//! Which requests delay devices hold in a run, and until when: by the machine's states, by what each thread saw, and
//! by its turns; the laws that these are the same, and that each is held as it was accepted.
#![tactic(auto)]

pub mod law;
