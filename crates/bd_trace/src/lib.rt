//! A history as text: a line that says how many entries it has, and then a line for each.
#![tactic(auto)]

mod acts;
mod history;
mod messages;
mod registry;
mod text;
mod words;

pub use history::history_text;
