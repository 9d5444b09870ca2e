//! What happened in a run.
ghost use Rattle.std.specs.Prelude.{◌≡◌, [], List};

use bd_base::{Entry, Rows};
use bd_report::stats::Stats;
use std::alloc::Global;
use std::marker::Model;

/// The entries of a run in the order of their stamps, seen as their list. Others can only make one
/// that is empty.
#[derive(Drop)]
pub struct History {
    entries: Rows<Entry>,
}

impl Model for History {
    ghost use Rattle.std.specs.Prelude.{List};
    ghost use Rattle.bd_base.specs.declared.act.Entry.{Entry};

    ghost Value = { List Entry };

    ghost view = { λ h. h.entries };
}

impl History {
    /// No entry. It takes no memory.
    pub fn none(alloc: Global) -> Self
        ensures { result ≡ [] }
    {
        History {
            entries: Rows::new(alloc),
        }
    }

    /// All that a node's threads did.
    pub(crate) fn of(entries: Rows<Entry>) -> Self
        ensures { result ≡ entries }
    {
        History { entries }
    }

    /// The entries, by stamp.
    pub fn entries(&self) -> &[Entry]
        ensures { result.now ≡ self.now }
    {
        self.entries.as_slice()
    }

    /// The entries as rows. It takes no memory.
    pub fn into_rows(self) -> Rows<Entry>
        ensures { result ≡ self }
    {
        self.entries
    }
}

/// What a run came to.
#[derive(Drop)]
pub struct Played {
    pub history: History,
    pub stats: Stats,
}
