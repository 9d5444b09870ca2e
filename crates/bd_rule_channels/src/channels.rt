//! The counts of all channels.
ghost use Rattle.std.specs.Prelude.{◌≡◌, ◌<◌, ◌++◌, ◌∷◌, [], None, List, ℕ, Option, true, length, map, position, slice_set, IfOk, OnOk, OnErr};
ghost use Rattle.bd_base.specs.declared.id.DevId.{DevId};
ghost use Rattle.bd_machine.specs.Changes.{counts_set};
ghost use Rattle.bd_machine.specs.Same.{same_channel};
ghost use Rattle.bd_machine.specs.declared.state.Channel.{Channel};

use crate::by_device::place_of;
use bd_base::{DevId, OutOfMemory, Rows};
use bd_machine::Channel;
use std::alloc::Global;
use std::marker::Model;

/// How many references each thread has to each device, seen as a `Table`: for each device entries with
/// the count of a channel, or none where the thread has no channel.
#[derive(Drop)]
pub struct Channels {
    rows: Rows<Rows<(Channel, Option<u128>)>>,
}

impl Model for Channels {
    ghost use Rattle.std.specs.Prelude.{◌<◌, length};
    ghost use Rattle.bd_rule_channels.specs.Counts.{Table};

    ghost Value = { Table };

    ghost view = { λ c. c.rows };

    ghost invariant = { λ c. 0 < length c.rows };
}

impl Channels {
    ghost use Rattle.bd_rule_channels.specs.ByDevice.{row_at, with_row};
    ghost use Rattle.bd_rule_channels.specs.Counts.{Has, HasPlaces, HaveSame, IsSet, PlacesStay, channel_of, count_for, count_in, has_place};

    /// No channels yet. There is a row for each of so many devices, and one for all others.
    pub fn new(alloc: Global, devices: usize) -> Result<Channels, OutOfMemory>
        ensures { IfOk result (λ c. Has c []) }
    {
        let mut rows = Rows::new(alloc);
        rows.push(Rows::new(alloc))?;
        for _device in 0..devices {
            rows.push(Rows::new(alloc))?;
        }
        Ok(Channels { rows })
    }

    /// The counts of this list of channels, where the first entry of a channel counts. There is a row for
    /// each of so many devices, and one for all others.
    pub fn of(
        alloc: Global,
        devices: usize,
        channels: &[(Channel, Option<u128>)],
    ) -> Result<Channels, OutOfMemory>
        ensures { IfOk result (λ c. Has c channels.now) }
    {
        let mut table = Channels::new(alloc, devices)?;
        for i in (0..channels.len()).rev() {
            let entry = channels[i];
            table.put(entry.0, entry.1)?;
        }
        Ok(table)
    }

    // The entries of a device.
    fn row(&self, dev: DevId) -> &[(Channel, Option<u128>)]
        ensures value { result.now ≡ row_at self.now dev }
        ensures some { 0 < length self.now }
    {
        self.rows.as_slice()[place_of(self.rows.len(), dev)].as_slice()
    }

    /// How many references a thread has to a device; none where it has no channel.
    pub fn references(&self, thread: u32, dev: DevId) -> Option<u128>
        ensures { result ≡ count_in self.now thread dev }
    {
        let row = self.row(dev);
        match entry_of(row, thread, dev) {
            Some(place) => row[place].1,
            None => None,
        }
    }

    // Adds an entry without a count.
    fn add(&mut self, thread: u32, dev: DevId) -> Result<(), OutOfMemory>
        ensures ok { OnOk result (self.new ≡ with_row self.old dev (row_at self.old dev ++ (channel_of dev thread, None) ∷ [])) }
        ensures err { OnErr result (self.new ≡ self.old) }
    {
        let place = place_of(self.rows.len(), dev);
        let channel = Channel { dev, thread };
        self.rows.at_mut(place).push((channel, None))?;
        Ok(())
    }

    // Makes room for the count of a thread, which is none where it had no room.
    fn make_room(&mut self, thread: u32, dev: DevId) -> Result<(), OutOfMemory>
        ensures same { HaveSame self.old self.new }
        ensures stays { PlacesStay self.old self.new }
        ensures ok { OnOk result (has_place self.new thread dev ≡ true) }
    {
        match entry_of(self.row(dev), thread, dev) {
            Some(_) => Ok(()),
            None => {
                self.add(thread, dev)?;
                Ok(())
            }
        }
    }

    // Puts the count of a channel in the place of an entry.
    fn put_at(&mut self, entry: usize, channel: Channel, count: Option<u128>)
        requires { entry < length (row_at self.old channel.dev) }
        ensures { self.new ≡ with_row self.old channel.dev (slice_set (row_at self.old channel.dev) entry (channel, count)) }
    {
        let place = place_of(self.rows.len(), channel.dev);
        self.rows.at_mut(place).set(entry, (channel, count));
    }

    // Sets the count of a thread for which there is room.
    fn set(&mut self, thread: u32, dev: DevId, count: Option<u128>)
        requires { has_place self.old thread dev ≡ true }
        ensures counts { IsSet self.old thread dev count self.new }
        ensures stays { PlacesStay self.old self.new }
    {
        if let Some(entry) = entry_of(self.row(dev), thread, dev) {
            self.put_at(entry, Channel { dev, thread }, count);
        }
    }

    // Sets the count of a channel.
    fn put(&mut self, channel: Channel, count: Option<u128>) -> Result<(), OutOfMemory>
        ensures { OnOk result (IsSet self.old channel.thread channel.dev count self.new) }
    {
        self.make_room(channel.thread, channel.dev)?;
        self.set(channel.thread, channel.dev, count);
        Ok(())
    }

    // Makes room for these counts of a thread.
    fn make_all_room(
        &mut self,
        thread: u32,
        counts: &[(DevId, Option<u128>)],
    ) -> Result<(), OutOfMemory>
        ensures same { HaveSame self.old self.new }
        ensures ok { OnOk result (HasPlaces self.new thread counts.now) }
    {
        for count in counts {
            self.make_room(thread, count.0)?;
        }
        Ok(())
    }

    // Sets these counts of a thread, one after another.
    fn set_all(&mut self, thread: u32, counts: &[(DevId, Option<u128>)])
        requires { HasPlaces self.old thread counts.now }
        ensures { (cs : List (Channel × Option ℕ)) → Has self.old cs → Has self.new (counts_set thread (map count_for counts.now) cs) }
    {
        for count in counts {
            self.set(thread, count.0, count.1);
        }
    }

    /// Sets these counts of a thread, one after another; none is for no channel. Out of memory, every
    /// count stays as it was.
    pub fn change(
        &mut self,
        thread: u32,
        counts: &[(DevId, Option<u128>)],
    ) -> Result<(), OutOfMemory>
        ensures ok { OnOk result ((cs : List (Channel × Option ℕ)) → Has self.old cs → Has self.new (counts_set thread (map count_for counts.now) cs)) }
        ensures err { OnErr result (HaveSame self.old self.new) }
    {
        self.make_all_room(thread, counts)?;
        self.set_all(thread, counts);
        Ok(())
    }
}

// The place of a channel among the entries.
fn entry_of(row: &[(Channel, Option<u128>)], thread: u32, dev: DevId) -> Option<usize>
    ensures { result ≡ position (λ e. same_channel e.0 (record { dev = dev; thread = thread })) row.now }
{
    row.iter()
        .position(|(c, _)| c.dev.0 == dev.0 && c.thread == thread)
}
