//! The registry.
ghost use Rattle.std.specs.Prelude.{◌≡◌, ◌<◌, ◌++◌, ◌∷◌, [], List, IfOk, OnOk, OnErr};
ghost use Rattle.bd_rule_registry.specs.Named.{named_by};
ghost use Rattle.bd_base.specs.declared.act.Entry.{Entry};
ghost use Rattle.bd_base.specs.declared.setup.Setup.{Setup};
ghost use Rattle.bd_log.specs.Log.{IsWithin};
ghost use Rattle.bd_log.specs.Merge.{IsOrdered, Rises};
ghost use Rattle.bd_machine.specs.Registry.{answer_to};
ghost use Rattle.bd_machine.specs.Start.{registry_at_start};
ghost use Rattle.bd_law_logs.specs.Journals.{events};

use crate::copies::event_row;
use crate::names::Names;
use crate::setups::rows_of;
use crate::tables::Tables;
use bd_base::{Act, Answer, DevId, Entry, HandleId, Journaled, OutOfMemory, RegEvent, Rows, Setup};
use bd_machine::{Between, Device, Handle};
use bd_rule_channels::counts_after;
use bd_rule_registry::answer_by;
use bd_rule_view::Records;
use std::alloc::Global;
use std::marker::Model;

/// The registry: its rows, and what the events of its journal left of what there was at the start. Seen
/// as `Registered`: the rows as a setup without scripts, the journal, the journal's last stamp, and
/// the registry that the journal leaves.
#[derive(Drop)]
pub struct Registry {
    setup: Setup,
    names: Names,
    tables: Tables,
    journal: Vec<Entry>,
    last: u128,
    shut: bool,
}

impl Model for Registry {
    ghost use Rattle.std.specs.Prelude.{◌≡◌};
    ghost use Rattle.bd_registry.specs.Registered.{IsRegistered};
    ghost use Rattle.bd_registry.specs.State.{Registered, is_shut, registered_by};

    ghost Value = { Registered };

    ghost view = { λ r. registered_by r.setup r.journal.items r.last };

    ghost invariant = { λ r. IsRegistered r.names r.tables (registered_by r.setup r.journal.items r.last) × (r.shut ≡ is_shut r.journal.items) };
}

impl Journaled for Registry {
    ghost use Rattle.bd_registry.specs.State.{start_of};

    ghost journal = { λ r. r.journal };

    ghost start = { λ r. start_of r.setup };
}

impl Records for Registry {
    ghost registry_of = { λ r. r.state };

    fn next(&self) -> u128 {
        self.tables.handles.next()
    }

    fn between(&self) -> Option<Between> {
        self.tables.between
    }

    fn handle(&self, id: HandleId) -> Option<Handle> {
        self.tables.handles.find(id)
    }

    fn own_handle(&self, thread: u32, id: HandleId) -> Option<Handle> {
        self.tables.handles.find_own(thread, id)
    }

    fn handles_of(&self, dev: DevId) -> &[Handle] {
        self.tables.handles.on(dev)
    }

    fn open_handles(&self, alloc: Global) -> Result<Rows<Handle>, OutOfMemory> {
        self.tables.handles.all(alloc)
    }

    fn references(&self, thread: u32, dev: DevId) -> Option<u128> {
        self.tables.channels.references(thread, dev)
    }

    fn device(&self, dev: DevId) -> Option<&Device> {
        self.tables.devices.as_slice().get(dev.0 as usize)
    }
}

impl Registry {
    ghost use Rattle.bd_registry.specs.State.{HasRowsOf, IsFollowedFromStart, IsReplayFromStart, is_shut, left_from_start, registered, rows_of, shut_at};

    /// The registry of a setup before any event, with the setup's threads, devices, rates and injections.
    pub fn of(alloc: Global, setup: &Setup) -> Result<Registry, OutOfMemory>
        ensures { IfOk result (λ r. r ≡ record { setup = rows_of setup.now; journal = []; last = 0; state = registry_at_start (rows_of setup.now) }) }
    {
        let setup = rows_of(alloc, setup)?;
        let names = Names::of(alloc, setup.devices.as_slice())?;
        let tables = Tables::at_start(alloc, &setup)?;
        Ok(Registry {
            setup,
            names,
            tables,
            journal: Vec::new(alloc),
            last: 0,
            shut: false,
        })
    }

    /// The stamp of the journal's last row; 0 where the journal has no row.
    pub fn last_stamp(&self) -> u128
        ensures { result ≡ self.now.last }
    {
        self.last
    }

    /// Whether the journal has the Shutdown.
    pub fn is_shut(&self) -> bool
        ensures { result ≡ is_shut self.now.journal }
    {
        self.shut
    }

    /// The journal: the events that were answered, and the Shutdown, each with its stamp and thread.
    /// Stamps rise. By any setup with the registry's rows it is a replay from the start, each row with
    /// what had to follow when it was asked, and leaves what the registry is.
    pub fn journal(&self) -> &[Entry]
        ensures rows { result.now ≡ self.now.journal }
        ensures rises { Rises self.now.journal }
        ensures ordered { IsOrdered self.now.journal }
        ensures within { IsWithin self.now.last self.now.journal }
        ensures events { events self.now.journal ≡ self.now.journal }
        ensures replay { (setup : Setup) → HasRowsOf self.now setup → IsReplayFromStart setup self.now.journal }
        ensures followed { (setup : Setup) → HasRowsOf self.now setup → IsFollowedFromStart setup self.now.journal }
        ensures leaves { (setup : Setup) → HasRowsOf self.now setup → left_from_start setup self.now.journal ≡ self.now.state }
    {
        self.journal.as_slice()
    }

    /// Adds the Shutdown to the journal with this stamp, as an entry of thread 0. It is never refused,
    /// and leaves all else. Out of memory, nothing changes.
    pub fn shut(&mut self, stamp: u128) -> Result<(), OutOfMemory>
        requires { self.old.last < stamp }
        ensures ok { OnOk result (self.new ≡ shut_at self.old stamp) }
        ensures err { OnErr result (self.new ≡ self.old) }
    {
        self.journal.push(Entry {
            stamp,
            thread: 0,
            act: Act::Shutdown,
        })?;
        self.last = stamp;
        self.shut = true;
        Ok(())
    }

    /// Answers an event of a thread, which the journal then has with this stamp. A refused event changes
    /// nothing else, but what has to follow at once. Out of memory, nothing changes; so it is where a
    /// device has a channel on a thread of number 16 and on, and where a count would pass 128 bits.
    pub fn event(
        &mut self,
        alloc: Global,
        thread: u32,
        stamp: u128,
        event: &RegEvent,
    ) -> Result<Answer, OutOfMemory>
        requires { self.old.last < stamp }
        ensures answer { IfOk result (λ a. a ≡ answer_to self.old.setup self.old.state thread event.now) }
        ensures after { IfOk result (λ a. self.new ≡ registered self.old thread stamp event.now a) }
        ensures err { OnErr result (self.new ≡ self.old) }
    {
        let answer = answer_by(alloc, &self.setup, self, thread, event, self.named(event))?;
        self.note(alloc, thread, stamp, event, &answer)?;
        Ok(answer)
    }

    // The place of the device that an open or a removal names.
    fn named(&self, event: &RegEvent) -> Option<usize>
        ensures { result ≡ named_by self.now.setup event.now }
    {
        match event {
            RegEvent::Open { name, .. }
            | RegEvent::BeginRemove { name }
            | RegEvent::BeginResize { name, .. } => self.names.find(name),
            _ => None,
        }
    }

    // Changes the tables and the journal as the answer to an event says.
    fn note(
        &mut self,
        alloc: Global,
        thread: u32,
        stamp: u128,
        event: &RegEvent,
        answer: &Answer,
    ) -> Result<(), OutOfMemory>
        requires later { self.old.last < stamp }
        requires answered { answer.now ≡ answer_to self.old.setup self.old.state thread event.now }
        ensures ok { OnOk result (self.new ≡ registered self.old thread stamp event.now answer.now) }
        ensures err { OnErr result (self.new ≡ self.old) }
    {
        let counts = counts_after(alloc, &self.setup, self, thread, event, answer)?;
        let row = event_row(alloc, thread, stamp, event, answer)?;
        self.journal.push(row)?;
        match self
            .tables
            .change(alloc, thread, event, answer, counts.as_slice())
        {
            Ok(()) => {
                self.last = stamp;
                Ok(())
            }
            Err(e) => {
                drop_last(&mut self.journal);
                Err(e)
            }
        }
    }
}

// Takes the last row out again.
fn drop_last(journal: &mut Vec<Entry>)
    ensures { (es : List Entry) (e : Entry) → journal.old.items ≡ es ++ e ∷ [] → journal.new.items ≡ es }
{
    let _ = journal.pop();
}
