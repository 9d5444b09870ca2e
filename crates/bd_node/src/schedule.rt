//! Which thread's turn comes next.
ghost use Rattle.std.specs.Prelude.{◌≡◌, ◌<◌};
ghost use Rattle.bd_node.specs.Schedule.{advance, chosen};

/// Knuth's linear congruential generator of 64 bits.
const MULTIPLIER: u128 = 6_364_136_223_846_793_005;

const INCREMENT: u128 = 1_442_695_040_888_963_407;

/// The lower bits of a state follow short periods, and choose nothing.
const LOWER_BITS: u32 = 33;

fn advance(x: u64) -> u64
    ensures { result ≡ advance x }
{
    ((x as u128 * MULTIPLIER + INCREMENT) % (1 << 64)) as u64
}

/// A schedule, which a seed fixes.
#[derive(Drop)]
pub(crate) struct Schedule {
    pub state: u64,
}

impl Schedule {
    /// The thread whose turn is next.
    pub fn next(&mut self, threads: u32) -> u32
        requires { 0 < threads }
        ensures state { self.new.state ≡ advance self.old.state }
        ensures thread { result ≡ chosen threads self.new.state }
        ensures below { result < threads }
    {
        self.state = advance(self.state);
        ((self.state >> LOWER_BITS) % threads as u64) as u32
    }
}
