//! The channels of a thread: for each base device that it sent pieces to, what is in flight and what waits.
ghost use Rattle.std.specs.Prelude.{◌≡◌, [], find, length, option_copied, position, OnOk};
ghost use Rattle.std.specs.List.{list_all};
ghost use Rattle.bd_machine.specs.Table.{change_first};
ghost use Rattle.bd_retries.specs.Channels.{changed, changed_if_any, dropped, is_idle, is_of, landed, next_at, next_in, queued, refused, retried, sent, waits, waits_in, with_channel};

use crate::retry::Retry;
use crate::waiting::Waiting;
use bd_base::{DevId, OutOfMemory, ReqId, Rows};
use std::alloc::Global;
use std::marker::Model;

/// The channels of a thread, one for each base device that it has sent pieces to. They are found by going
/// over those base devices; pieces that are in flight or wait make them no more.
#[derive(Drop)]
pub struct Retries {
    alloc: Global,
    channels: Rows<Retry>,
}

impl Model for Retries {
    ghost use Rattle.std.specs.Prelude.{List};
    ghost use Rattle.bd_retries.specs.Channels.{Channel};

    ghost Value = { List Channel };

    ghost view = { λ r. r.channels };
}

// The place of the channel of a base device.
fn place_of(channels: &[Retry], base: DevId) -> Option<usize>
    ensures { result ≡ position (is_of base) channels.now }
{
    channels.iter().position(|c| c.is_of(base))
}

// The channel of a base device.
fn find_channel(channels: &[Retry], base: DevId) -> Option<&Retry>
    ensures { option_copied result ≡ find (is_of base) channels.now }
{
    channels.iter().find(|c| c.is_of(base))
}

// The channel of a base device is among them.
fn make(alloc: Global, channels: &mut Rows<Retry>, base: DevId) -> Result<(), OutOfMemory>
    ensures { OnOk result (channels.new ≡ with_channel base channels.old) }
{
    match find_channel(channels.as_slice(), base) {
        Some(_) => Ok(()),
        None => channels.push(Retry::new(alloc, base)),
    }
}

fn add_sent(channels: &mut Rows<Retry>, base: DevId, n: u32) -> Result<(), OutOfMemory>
    ensures { OnOk result (channels.new ≡ changed_if_any base (sent n) channels.old) }
{
    match place_of(channels.as_slice(), base) {
        Some(place) => channels.at_mut(place).sent(n),
        None => Ok(()),
    }
}

fn add_queued(
    channels: &mut Rows<Retry>,
    base: DevId,
    req: ReqId,
    n: u32,
) -> Result<(), OutOfMemory>
    ensures { OnOk result (channels.new ≡ changed_if_any base (queued req n) channels.old) }
{
    match place_of(channels.as_slice(), base) {
        Some(place) => channels.at_mut(place).queue(req, n),
        None => Ok(()),
    }
}

fn add_refused(
    channels: &mut Rows<Retry>,
    base: DevId,
    piece: (ReqId, u32),
) -> Result<(), OutOfMemory>
    ensures { OnOk result (channels.new ≡ changed_if_any base (refused piece) channels.old) }
{
    match place_of(channels.as_slice(), base) {
        Some(place) => channels.at_mut(place).refused(piece),
        None => Ok(()),
    }
}

fn send_first(channels: &mut Rows<Retry>, base: DevId) -> Result<(), OutOfMemory>
    ensures { OnOk result (channels.new ≡ changed_if_any base retried channels.old) }
{
    match place_of(channels.as_slice(), base) {
        Some(place) => channels.at_mut(place).retried(),
        None => Ok(()),
    }
}

fn land(channels: &mut Rows<Retry>, base: DevId)
    ensures { channels.new ≡ changed_if_any base landed channels.old }
{
    if let Some(place) = place_of(channels.as_slice(), base) {
        channels.at_mut(place).landed();
    }
}

fn drop_at(channels: &mut Rows<Retry>, base: DevId, req: ReqId, n: usize)
    ensures { channels.new ≡ changed_if_any base (dropped req n) channels.old }
{
    if let Some(place) = place_of(channels.as_slice(), base) {
        channels.at_mut(place).dropped(req, n);
    }
}

impl Retries {
    /// No channel. It takes no memory.
    pub fn new(alloc: Global) -> Retries
        ensures { result ≡ [] }
    {
        Retries {
            alloc,
            channels: Rows::new(alloc),
        }
    }

    /// How many channels there are: as many as base devices that pieces were sent to.
    pub fn len(&self) -> usize
        ensures { result ≡ length self.now }
    {
        self.channels.len()
    }

    /// Whether a piece waits in the retry queue of a base device.
    pub fn waits(&self, base: DevId) -> bool
        ensures { result ≡ waits base self.now }
    {
        match find_channel(self.channels.as_slice(), base) {
            Some(channel) => channel.waits(),
            None => false,
        }
    }

    /// Whether no piece is in flight to any base device, and none waits in a retry queue.
    pub fn are_idle(&self) -> bool
        ensures { result ≡ list_all is_idle self.now }
    {
        self.channels.as_slice().iter().all(|c| c.is_idle())
    }

    /// `n` more pieces of a base device are in flight. A count past 64 bits answers out of memory too. After
    /// out of memory the channels are unspecified.
    pub fn sent(&mut self, base: DevId, n: u32) -> Result<(), OutOfMemory>
        ensures { OnOk result (self.new ≡ changed base (sent n) self.old) }
    {
        make(self.alloc, &mut self.channels, base)?;
        add_sent(&mut self.channels, base, n)
    }

    /// The first `n` pieces of a request join the end of a base device's retry queue. After out of memory the
    /// channels are unspecified.
    pub fn queue(&mut self, base: DevId, req: ReqId, n: u32) -> Result<(), OutOfMemory>
        ensures { OnOk result (self.new ≡ changed base (queued req n) self.old) }
    {
        make(self.alloc, &mut self.channels, base)?;
        add_queued(&mut self.channels, base, req, n)
    }

    /// A piece came back with an end: one fewer of its base device is in flight. It takes no memory.
    pub fn landed(&mut self, base: DevId)
        ensures { self.new ≡ changed_if_any base landed self.old }
    {
        land(&mut self.channels, base);
    }

    /// A piece came back without an end: one fewer of its base device is in flight, it joins the end of the
    /// retry queue, and the threshold is that of what is in flight then. After out of memory the channels are
    /// unspecified.
    pub fn refused(&mut self, base: DevId, piece: (ReqId, u32)) -> Result<(), OutOfMemory>
        ensures { OnOk result (self.new ≡ changed base (refused piece) self.old) }
    {
        make(self.alloc, &mut self.channels, base)?;
        add_refused(&mut self.channels, base, piece)
    }

    /// The first piece of the retry queue of the channel at this place, where no more pieces of it are in
    /// flight than the threshold of its last refusal. Else none, also where there is no such channel.
    pub fn next_at(&self, place: usize) -> Option<Waiting>
        ensures { result ≡ next_at self.now place }
    {
        match self.channels.as_slice().get(place) {
            Some(channel) => channel.next(),
            None => None,
        }
    }

    /// The first piece of the retry queue of a base device is in flight. A count past 64 bits answers out of
    /// memory, and then the channels are unspecified. It takes no memory.
    pub fn retried(&mut self, base: DevId) -> Result<(), OutOfMemory>
        ensures { OnOk result (self.new ≡ changed_if_any base retried self.old) }
    {
        send_first(&mut self.channels, base)
    }

    /// `n` pieces of a base device that were never sent are no longer in flight, and no piece of the request
    /// waits in its retry queue. It takes no memory.
    pub fn dropped(&mut self, base: DevId, req: ReqId, n: usize)
        ensures { self.new ≡ changed_if_any base (dropped req n) self.old }
    {
        drop_at(&mut self.channels, base, req, n);
    }
}
