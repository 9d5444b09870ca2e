//! The blocks of a malloc device as pages that are taken at the first write.
#![tactic(auto)]

mod blocks;
mod page;
mod pages;
mod table;

pub use blocks::Blocks;
pub use pages::Pages;
