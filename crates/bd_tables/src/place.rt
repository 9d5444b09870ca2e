//! Places where a request waits on its thread.
ghost use Rattle.std.specs.Prelude.{◌≡◌};

use bd_base::DevId;

/// Where a request stands on the thread that keeps it.
#[derive(Clone, Copy, Debug, PartialEq, Eq)]
pub enum Place {
    /// It was just accepted, or a step of it just ended.
    Fresh,
    /// It was handed out, to travel to a home's limits.
    Away,
    /// An injected error keeps it without an answer.
    Pended,
    /// Pieces of it wait to be sent again.
    Retry,
    /// Pieces of it are at a home or on their way.
    Out,
    /// A delay holds it.
    Delayed,
    /// It is a reset that waits for another one.
    ResetQueue,
    /// It waits for the limits of this device.
    Quality(DevId),
}
