//! What a run begins from.
use crate::device::{DevRow, Injections, Rates};
use crate::job::Script;
use crate::name::Name;
use crate::rows::Rows;

/// A command whose base never came, by its place among the commands.
#[derive(Drop)]
pub struct Waiting {
    pub index: u32,
    pub method: Name,
    pub base: Name,
}

/// What a configuration and a script mean together. Devices, rates and injections go by device
/// number; scripts are of different threads.
#[derive(Drop)]
pub struct Setup {
    pub threads: u32,
    pub devices: Rows<DevRow>,
    pub rates: Rows<Rates>,
    pub injections: Rows<Injections>,
    pub waiting: Rows<Waiting>,
    pub scripts: Rows<Script>,
}
