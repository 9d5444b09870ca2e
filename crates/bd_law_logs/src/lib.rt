//! Many logs are one run: the logs of threads that keep to the machine's rules, each by what it sees
//! and by what came to it, merged by stamp and thread, are a run of the sequential machine.
#![tactic(auto)]

pub mod law;
