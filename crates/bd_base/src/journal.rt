//! Values that keep a journal of registry events, which contracts alone see.
use crate::device::{DevRow, Injections, Rates};
use crate::rows::Rows;

/// That from which a journal begins.
#[derive(Drop)]
pub struct Start {
    pub threads: u32,
    pub devices: Rows<DevRow>,
    pub rates: Rows<Rates>,
    pub injections: Rows<Injections>,
}

/// A value with a journal: the registry events made on it so far, each with its stamp and thread,
/// and the start from which they lead to it.
pub trait Journaled {
    ghost use Rattle.std.specs.Prelude.{List};
    ghost use Rattle.bd_base.specs.declared.act.Entry.{Entry};
    ghost use Rattle.bd_base.specs.declared.journal.Start.{Start};

    ghost journal: { Self → List Entry };

    ghost start: { Self → Start };
}
