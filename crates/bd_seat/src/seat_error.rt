//! Why a step round a thread was refused.
use bd_base::OutOfMemory;
use bd_log::LogError;
use std::error::Error;
use std::fmt;

/// Why a step round a thread was refused.
#[derive(Clone, Copy, Debug, PartialEq, Eq)]
pub enum SeatError {
    /// There was no memory.
    OutOfMemory,
    /// The thread's log, or the journal of its replica, has not so many stamps left.
    StampsSpent,
}

impl fmt::Display for SeatError {
    fn fmt<W: fmt::Write>(&self, f: &mut fmt::Formatter<W>) -> fmt::Result {
        match self {
            SeatError::OutOfMemory => write!(f, "out of memory"),
            SeatError::StampsSpent => write!(f, "no stamp is left"),
        }
    }
}

impl Error for SeatError {}

impl From<OutOfMemory> for SeatError {
    ghost use Rattle.std.specs.Prelude.{◌≡◌};
    ghost use Rattle.bd_seat.specs.declared.seat_error.SeatError.TheVariants as errors;

    ghost from_gives = { λ _ error. error ≡ errors.OutOfMemory };

    fn from(_e: OutOfMemory) -> SeatError {
        SeatError::OutOfMemory
    }
}

impl From<LogError> for SeatError {
    fn from(e: LogError) -> SeatError {
        match e {
            LogError::OutOfMemory => SeatError::OutOfMemory,
            LogError::StampsSpent(_) => SeatError::StampsSpent,
        }
    }
}
