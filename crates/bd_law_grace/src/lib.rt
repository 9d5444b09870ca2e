//! How a freeze mark that stops each request came to stand on a thread; the law that an abort by a soft one comes only
//! after its time.
#![tactic(auto)]

pub mod law;
