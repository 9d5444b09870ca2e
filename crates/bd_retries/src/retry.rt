//! The channel of one base device: its pieces in flight, and those that wait since the home was full.
ghost use Rattle.std.specs.Prelude.{◌≡◌, ◌++◌, filter, map, not, OnOk};
ghost use Rattle.bd_machine.specs.Same.{same_request};
ghost use Rattle.bd_retries.specs.Channels.{blank, dropped, first_waiting, is_idle, is_of, is_some_waiting, landed, next, pieces_named, queued, refused, retried, sent};

use crate::waiting::Waiting;
use bd_base::{DevId, OutOfMemory, ReqId};
use std::alloc::Global;
use std::collections::VecDeque;
use std::marker::Model;

/// The channel of a base device on one thread, with its retry queue: a piece that comes back since the
/// home was full joins its end, and so do new pieces while it isn't empty.
#[derive(Drop)]
pub struct Retry {
    base: DevId,
    in_flight: u64,
    threshold: u64,
    pieces: VecDeque<(ReqId, u32)>,
}

impl Model for Retry {
    ghost use Rattle.bd_retries.specs.Channels.{Channel};

    ghost Value = { Channel };

    ghost view = { λ r. record { base = r.base; in_flight = r.in_flight; threshold = r.threshold; pieces = r.pieces.items } };
}

// The first n pieces of a request come to the end.
#[tactic(auto, using(crate::proofs::Left::left_from))]
fn join(pieces: &mut VecDeque<(ReqId, u32)>, req: ReqId, n: u32) -> Result<(), OutOfMemory>
    ensures { OnOk result (pieces.new.items ≡ pieces.old.items ++ pieces_named req n) }
{
    for k in 0..n {
        pieces.push_back((req, k))?;
    }
    Ok(())
}

// The pieces of a request go, and the others stay in order.
fn leave(pieces: &mut VecDeque<(ReqId, u32)>, req: ReqId)
    ensures { pieces.new.items ≡ filter (λ p. not (same_request p.0 req)) pieces.old.items }
{
    pieces.retain(|p| !(p.0.thread == req.thread && p.0.seq == req.seq));
}

// The first of the pieces.
fn first(base: DevId, pieces: &VecDeque<(ReqId, u32)>) -> Option<Waiting>
    ensures { result ≡ first_waiting base pieces.now.items }
{
    match pieces.front() {
        Some((req, k)) => Some(Waiting {
            base,
            req: *req,
            k: *k,
        }),
        None => None,
    }
}

impl Retry {
    /// The channel of a base device with nothing in flight, and nothing that waits. It takes no memory.
    pub fn new(alloc: Global, base: DevId) -> Retry
        ensures { result ≡ blank base }
    {
        Retry {
            base,
            in_flight: 0,
            threshold: 0,
            pieces: VecDeque::new(alloc),
        }
    }

    /// Whether it is the channel of this base device.
    pub fn is_of(&self, base: DevId) -> bool
        ensures { result ≡ is_of base self.now }
    {
        self.base.0 == base.0
    }

    /// Whether a piece waits.
    pub fn waits(&self) -> bool
        ensures { result ≡ is_some_waiting self.now.pieces }
    {
        first(self.base, &self.pieces).is_some()
    }

    /// Whether nothing is in flight, and nothing waits.
    pub fn is_idle(&self) -> bool
        ensures { result ≡ is_idle self.now }
    {
        self.in_flight == 0 && !self.waits()
    }

    /// `n` more pieces are in flight. A count past 64 bits answers out of memory, and nothing changed.
    pub fn sent(&mut self, n: u32) -> Result<(), OutOfMemory>
        ensures { OnOk result (self.new ≡ sent n self.old) }
    {
        let Some(more) = self.in_flight.checked_add(n as u64) else {
            return Err(OutOfMemory);
        };
        self.in_flight = more;
        Ok(())
    }

    /// A piece came back, so one fewer is in flight; none is fewer than none. It takes no memory.
    pub fn landed(&mut self)
        ensures { self.new ≡ landed self.old }
    {
        self.in_flight = self.in_flight.saturating_sub(1);
    }

    /// A piece came back refused: one fewer is in flight, it joins the end, and the threshold becomes
    /// half of what is in flight then or 8 fewer, whichever is more (this project's choice). After out of
    /// memory the channel is unspecified.
    pub fn refused(&mut self, piece: (ReqId, u32)) -> Result<(), OutOfMemory>
        ensures { OnOk result (self.new ≡ refused piece self.old) }
    {
        self.pieces.push_back(piece)?;
        self.in_flight = self.in_flight.saturating_sub(1);
        self.threshold = (self.in_flight / 2).max(self.in_flight.saturating_sub(8));
        Ok(())
    }

    /// The first `n` pieces of a request join the end. After out of memory the channel is unspecified.
    pub fn queue(&mut self, req: ReqId, n: u32) -> Result<(), OutOfMemory>
        ensures { OnOk result (self.new ≡ queued req n self.old) }
    {
        join(&mut self.pieces, req, n)
    }

    /// The first piece that waits, where no more are in flight than the threshold of the last refusal.
    /// None where there is none, or more are in flight.
    pub fn next(&self) -> Option<Waiting>
        ensures { result ≡ next self.now }
    {
        if self.in_flight <= self.threshold {
            first(self.base, &self.pieces)
        } else {
            None
        }
    }

    /// The first piece that waits is in flight. A count past 64 bits answers out of memory, and nothing
    /// changed. It takes no memory.
    pub fn retried(&mut self) -> Result<(), OutOfMemory>
        ensures { OnOk result (self.new ≡ retried self.old) }
    {
        let Some(more) = self.in_flight.checked_add(1) else {
            return Err(OutOfMemory);
        };
        self.in_flight = more;
        let _ = self.pieces.pop_front();
        Ok(())
    }

    /// `n` pieces that were never sent are no longer in flight, and no piece of the request waits. It takes
    /// no memory.
    pub fn dropped(&mut self, req: ReqId, n: usize)
        ensures { self.new ≡ dropped req n self.old }
    {
        self.in_flight = self.in_flight.saturating_sub(n as u64);
        leave(&mut self.pieces, req);
    }
}
