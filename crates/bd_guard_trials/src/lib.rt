//! Tests of guards, through the public functions of the crates in which the machine's rules are
//! programs. They stand apart because a crate with tests is proved a second time with them.
#![tactic(auto)]

#[cfg(test)]
mod guards;
#[cfg(test)]
mod setups;
