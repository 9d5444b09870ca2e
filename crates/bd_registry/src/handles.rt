//! The open handles by device, and a device of each by its number.
ghost use Rattle.std.specs.Prelude.{◌≡◌, ◌<◌, ◌+◌, ◌++◌, ◌∷◌, [], ℕ, List, Some, true, filter, length, option_to_list, slice_get, IfOk, OnOk, OnErr};
ghost use Rattle.bd_base.specs.declared.event.RegEvent.TheVariants.{Open};
ghost use Rattle.bd_machine.specs.Changes.{handles_after, next_after};
ghost use Rattle.bd_machine.specs.Registry.{handle_of, is_on};
ghost use Rattle.bd_machine.specs.View.{is_of};
ghost use Rattle.bd_machine.specs.declared.state.Handle.{Handle};

use bd_base::{Answer, DevId, HandleId, OutOfMemory, RegEvent, Rows, ThreadId};
use bd_machine::Handle;
use bd_rule_channels::place_of;
use bd_rule_effects::change_handles;
use std::alloc::Global;
use std::marker::Model;

/// The open handles, seen as a `HandleTable`. What is done with a handle takes a number of steps that
/// grows with the handles of its own device alone.
#[derive(Drop)]
pub(crate) struct Handles {
    rows: Rows<Rows<Handle>>,
    devices: Vec<DevId>,
}

impl Model for Handles {
    ghost use Rattle.std.specs.Prelude.{◌<◌, length};
    ghost use Rattle.bd_registry.specs.Handles.{HandleTable};

    ghost Value = { HandleTable };

    ghost view = { λ h. record { rows = h.rows; devices = h.devices.items } };

    ghost invariant = { λ h. 0 < length h.rows };
}

impl Handles {
    ghost use Rattle.bd_rule_channels.specs.ByDevice.{row_at, with_row};
    ghost use Rattle.bd_registry.specs.Handles.{AreCounted, IsNext, Keeps, is_of_kind, named_handle};

    // No handles. There is a row for each of so many devices, and one for all others.
    pub(crate) fn new(alloc: Global, devices: usize) -> Result<Handles, OutOfMemory>
        ensures none { IfOk result (λ h. Keeps h []) }
        ensures next { IfOk result (λ h. h.devices ≡ []) }
    {
        let mut rows = Rows::new(alloc);
        rows.push(Rows::new(alloc))?;
        for _device in 0..devices {
            rows.push(Rows::new(alloc))?;
        }
        Ok(Handles {
            rows,
            devices: Vec::new(alloc),
        })
    }

    // These handles, whose numbers are their places. There is a row for each of so many devices, and
    // one for all others.
    pub(crate) fn of(
        alloc: Global,
        devices: usize,
        handles: &[Handle],
    ) -> Result<Handles, OutOfMemory>
        requires { AreCounted 0 handles.now }
        ensures keeps { IfOk result (λ h. Keeps h handles.now) }
        ensures next { IfOk result (λ h. length h.devices ≡ length handles.now) }
    {
        let mut table = Handles::new(alloc, devices)?;
        for handle in handles {
            table.add(*handle)?;
        }
        Ok(table)
    }

    // The number of the next handle.
    pub(crate) fn next(&self) -> u128
        ensures { result ≡ length self.now.devices }
    {
        self.devices.len() as u128
    }

    // The handles of a device, and perhaps some of others.
    pub(crate) fn on(&self, dev: DevId) -> &[Handle]
        ensures { result.now ≡ row_at self.now.rows dev }
    {
        self.rows.as_slice()[place_of(self.rows.len(), dev)].as_slice()
    }

    // The device of the handle of a number, open or not.
    fn device_of(&self, id: HandleId) -> Option<DevId>
        ensures { result ≡ slice_get self.now.devices id.0 }
    {
        if id.0 < self.devices.len() as u128 {
            Some(self.devices[id.0 as usize])
        } else {
            None
        }
    }

    // The open handle of a number.
    pub(crate) fn find(&self, id: HandleId) -> Option<Handle>
        ensures { (handles : List Handle) → Keeps self.now handles → result ≡ handle_of handles id }
    {
        match self.device_of(id) {
            Some(dev) => find_on(self.on(dev), dev, id),
            None => None,
        }
    }

    // The open handle of a number, where this thread has it open.
    pub(crate) fn find_own(&self, thread: u32, id: HandleId) -> Option<Handle>
        ensures { (handles : List Handle) → Keeps self.now handles → result ≡ handle_of (filter (is_of thread) handles) id }
    {
        match self.device_of(id) {
            Some(dev) => find_own_on(self.on(dev), dev, thread, id),
            None => None,
        }
    }

    // All open handles, by rising number, or out of memory. It takes a step for each handle that was ever opened.
    pub(crate) fn all(&self, alloc: Global) -> Result<Rows<Handle>, OutOfMemory>
        ensures { (handles : List Handle) → Keeps self.now handles → IfOk result (λ all. all ≡ handles) }
    {
        let mut all = Rows::new(alloc);
        for number in 0..self.next() {
            push_found(&mut all, self.find(HandleId(number)))?;
        }
        Ok(all)
    }

    // Puts a handle into the row of its device.
    fn put(&mut self, handle: Handle) -> Result<(), OutOfMemory>
        ensures ok { OnOk result (self.new ≡ record self.old { rows = with_row self.old.rows handle.dev (row_at self.old.rows handle.dev ++ handle ∷ []) }) }
        ensures err { OnErr result (self.new ≡ self.old) }
        ensures some { 0 < length self.old.rows }
    {
        let place = place_of(self.rows.len(), handle.dev);
        self.rows.at_mut(place).push(handle)?;
        Ok(())
    }

    // Adds a handle, which has the next number. Out of memory, nothing changes.
    pub(crate) fn add(&mut self, handle: Handle) -> Result<(), OutOfMemory>
        ensures ok { OnOk result ((handles : List Handle) → Keeps self.old handles → handle.id.0 ≡ length self.old.devices → Keeps self.new (handles ++ handle ∷ [])) }
        ensures next { OnOk result (length self.new.devices ≡ length self.old.devices + 1) }
        ensures err { OnErr result (self.new ≡ self.old) }
    {
        self.devices.push(handle.dev)?;
        match self.put(handle) {
            Ok(()) => Ok(()),
            Err(e) => {
                let _ = self.devices.pop();
                Err(e)
            }
        }
    }

    // Changes the row of a device as an answer says.
    fn change_row(
        &mut self,
        alloc: Global,
        dev: DevId,
        thread: u32,
        event: &RegEvent,
        answer: &Answer,
    ) -> Result<(), OutOfMemory>
        ensures ok { OnOk result (self.new ≡ record self.old { rows = with_row self.old.rows dev (handles_after thread (row_at self.old.rows dev) event.now answer.now) }) }
        ensures err { OnErr result (self.new ≡ self.old) }
        ensures some { 0 < length self.old.rows }
    {
        let place = place_of(self.rows.len(), dev);
        change_handles(alloc, self.rows.at_mut(place), thread, event, answer)?;
        Ok(())
    }

    // Changes the handles by the answer to an open.
    fn open(&mut self, thread: u32, write: bool, answer: &Answer) -> Result<(), OutOfMemory>
        requires { IsNext (length self.old.devices) answer.now }
        ensures ok { OnOk result ((handles : List Handle) (name : List ℕ) → Keeps self.old handles → Keeps self.new (handles_after thread handles (Open name write) answer.now)) }
        ensures next { OnOk result (length self.new.devices ≡ next_after (length self.old.devices) answer.now) }
        ensures err { OnErr result (self.new ≡ self.old) }
    {
        match answer {
            Answer::Opened {
                handle,
                dev,
                blocks,
            } => self.add(Handle {
                id: *handle,
                dev: *dev,
                thread: ThreadId(thread),
                write,
                claim: None,
                blocks: *blocks,
            }),
            _ => Ok(()),
        }
    }

    // Changes the handles by the answer to a close or a claim of this handle.
    fn change_by(
        &mut self,
        alloc: Global,
        id: HandleId,
        thread: u32,
        event: &RegEvent,
        answer: &Answer,
    ) -> Result<(), OutOfMemory>
        requires { named_handle event.now ≡ Some id }
        ensures ok { OnOk result ((handles : List Handle) → Keeps self.old handles → Keeps self.new (handles_after thread handles event.now answer.now)) }
        ensures same { self.new.devices ≡ self.old.devices }
        ensures err { OnErr result (self.new ≡ self.old) }
    {
        match self.device_of(id) {
            Some(dev) => {
                self.change_row(alloc, dev, thread, event, answer)?;
                Ok(())
            }
            None => Ok(()),
        }
    }

    // Changes the handles as the answer to an event says. Out of memory, nothing changes.
    pub(crate) fn change(
        &mut self,
        alloc: Global,
        thread: u32,
        event: &RegEvent,
        answer: &Answer,
    ) -> Result<(), OutOfMemory>
        requires number { IsNext (length self.old.devices) answer.now }
        requires kind { is_of_kind event.now answer.now ≡ true }
        ensures ok { OnOk result ((handles : List Handle) → Keeps self.old handles → Keeps self.new (handles_after thread handles event.now answer.now)) }
        ensures next { OnOk result (length self.new.devices ≡ next_after (length self.old.devices) answer.now) }
        ensures err { OnErr result (self.new ≡ self.old) }
    {
        match event {
            RegEvent::Open { write, .. } => {
                self.open(thread, *write, answer)?;
                Ok(())
            }
            RegEvent::Close { handle } => self.change_by(alloc, *handle, thread, event, answer),
            RegEvent::Claim { handle, .. } => self.change_by(alloc, *handle, thread, event, answer),
            _ => Ok(()),
        }
    }
}

// Adds a handle that was found, if one was.
fn push_found(all: &mut Rows<Handle>, found: Option<Handle>) -> Result<(), OutOfMemory>
    ensures { OnOk result (all.new ≡ all.old ++ option_to_list found) }
{
    match found {
        Some(handle) => all.push(handle),
        None => Ok(()),
    }
}

// The handle of a number among those of a device.
fn find_on(handles: &[Handle], dev: DevId, id: HandleId) -> Option<Handle>
    ensures { result ≡ handle_of (filter (is_on dev) handles.now) id }
{
    for h in handles {
        if h.dev.0 == dev.0 && h.id.0 == id.0 {
            return Some(*h);
        }
    }
    None
}

// The handle of a number among those of a device that a thread has open.
fn find_own_on(handles: &[Handle], dev: DevId, thread: u32, id: HandleId) -> Option<Handle>
    ensures { result ≡ handle_of (filter (is_of thread) (filter (is_on dev) handles.now)) id }
{
    for h in handles {
        if h.dev.0 == dev.0 && (h.thread.0 == thread && h.id.0 == id.0) {
            return Some(*h);
        }
    }
    None
}
