//! The text of a history.
ghost use Rattle.std.specs.Prelude.{◌≡◌, ◌++◌, OnOk, IfOk, flat_map};
ghost use Rattle.bd_trace.specs.History.{entry_line, head_line, history_text};

use crate::acts::add_act;
use crate::text::Text;
use bd_base::{Entry, OutOfMemory};
use std::alloc::Global;

/// The text of a history: how many entries it has, and then a line for each, in their order. Out of
/// memory is the only error.
pub fn history_text(alloc: Global, entries: &[Entry]) -> Result<Vec<u8>, OutOfMemory>
    ensures { IfOk result (λ v. v.items ≡ history_text entries.now) }
{
    let mut text = Text::new(alloc);
    add_head(&mut text, entries.len())?;
    add_entries(&mut text, entries)?;
    Ok(text.into_vec())
}

// Adds how many entries there are.
fn add_head(text: &mut Text, entries: usize) -> Result<(), OutOfMemory>
    ensures { OnOk result (text.new ≡ text.old ++ head_line entries) }
{
    text.add(b"history")?;
    text.add(b" ")?;
    text.decimal(entries as u128)?;
    text.add(b"\n")
}

// Adds entries in their order.
fn add_entries(text: &mut Text, entries: &[Entry]) -> Result<(), OutOfMemory>
    ensures { OnOk result (text.new ≡ text.old ++ flat_map entry_line entries.now) }
{
    for entry in entries {
        add_entry(text, entry)?;
    }
    Ok(())
}

// Adds an entry's line.
#[tactic(auto, unfolding(crate::specs::History::entry_line))]
fn add_entry(text: &mut Text, entry: &Entry) -> Result<(), OutOfMemory>
    ensures { OnOk result (text.new ≡ text.old ++ entry_line entry.now) }
{
    text.decimal(entry.stamp)?;
    text.add(b" ")?;
    text.decimal(u128::from(entry.thread))?;
    text.add(b" ")?;
    add_act(text, &entry.act)?;
    text.add(b"\n")
}
