//! Threads that run beside each other: what each knows of its own course, how that goes on, and how
//! the courses of all are one complete run.
#![tactic(auto)]

pub mod law;
