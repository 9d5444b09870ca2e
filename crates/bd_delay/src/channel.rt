//! The latencies of one delay device on one thread.
ghost use Rattle.std.specs.Prelude.{◌≡◌};
ghost use Rattle.bd_base.specs.declared.device.Kind.TheVariants.{Delay};
ghost use Rattle.bd_machine.specs.declared.state.Delayed.{Delayed};
ghost use Rattle.bd_machine.specs.Delays.{counted_once, latency_of_kind, uncounted};
ghost use Rattle.bd_delay.specs.Channel.{in_hundred};

use crate::latency::{counted_once, latency_of_kind};
use bd_base::{Kind, Way};
use bd_machine::Delayed;
use std::marker::Model;

/// A thread's channel of a delay device: its latencies in microseconds, and how many reads and
/// writes it had.
#[derive(Drop)]
pub struct DelayChannel {
    kind: Kind,
    // Counted modulo 100.
    counted: Delayed,
}

impl Model for DelayChannel {
    ghost use Rattle.std.specs.Prelude.{◌<◌};
    ghost use Rattle.bd_delay.specs.Channel.{Channel};

    ghost Value = { Channel };

    ghost view = { λ c. record { kind = c.kind; counted = c.counted } };

    ghost invariant = { λ c. (c.counted.reads < 100) × (c.counted.writes < 100) };
}

impl DelayChannel {
    /// A channel that had no request yet, with its latencies in microseconds: the average and the
    /// p99 of reads and of writes. It takes no memory.
    pub fn new(average_read: u64, p99_read: u64, average_write: u64, p99_write: u64) -> DelayChannel
        ensures { result ≡ record { kind = Delay average_read p99_read average_write p99_write; counted = uncounted } }
    {
        DelayChannel {
            kind: Kind::Delay {
                average_read,
                p99_read,
                average_write,
                p99_write,
            },
            counted: Delayed {
                reads: 0,
                writes: 0,
            },
        }
    }

    /// How long (microseconds) the next request of this way waits: each hundredth read and each
    /// hundredth write waits its p99 latency, and the others the average (this project's choice).
    /// It is the latency after any counts that are these modulo 100. The request is counted. It takes
    /// no memory.
    pub fn next(&mut self, way: Way) -> u64
        ensures waits { (all : Delayed) → in_hundred all ≡ self.old.counted → result ≡ latency_of_kind self.old.kind way all }
        ensures counts { self.new ≡ record self.old { counted = in_hundred (counted_once way self.old.counted) } }
    {
        let waits = latency_of_kind(self.kind, way, self.counted);
        if let Ok(counted) = counted_once(way, self.counted) {
            self.counted = in_hundred(counted);
        }
        waits
    }
}

// Counts modulo 100.
fn in_hundred(counted: Delayed) -> Delayed
    ensures { result ≡ in_hundred counted }
{
    Delayed {
        reads: counted.reads % 100,
        writes: counted.writes % 100,
    }
}
