//! The machine played by hand, the histories of whole runs judged by it, and nodes whose threads have turns by hand.
mod by_hand;
mod clocked;
mod deeds;
mod full;
mod limited;
mod nodes;
mod outside;
mod pieces;
mod runs;
mod setups;
mod timed;
mod top;
