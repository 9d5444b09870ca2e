//! Where the requests of a thread wait: the table of held requests by place, with who waits over each device.
#![tactic(auto)]

mod board;
mod line;
mod place;
mod row;
mod shelf;
mod tables;
mod under;

pub use place::Place;
pub use row::Row;
pub use tables::Tables;
pub use under::Under;
