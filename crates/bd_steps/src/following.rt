//! What has to follow at the registry at once: a channel after an open, and the close after a put.
ghost use Rattle.std.specs.Prelude.{◌≡◌};
ghost use Rattle.bd_steps.specs.Following.{close_due, get_due};

use bd_base::{HandleId, RegEvent};
use bd_machine::Between;

/// The channel that has to follow an open of this thread.
pub fn get_due(me: u32, between: Option<Between>) -> Option<RegEvent>
    ensures { result ≡ get_due me between }
{
    match between {
        Some(Between::Opening { thread, dev }) if thread == me => {
            Some(RegEvent::GetChannel { dev })
        }
        _ => None,
    }
}

/// The close of the handle, where it has to follow a put of this thread.
pub fn close_due(handle: HandleId, me: u32, between: Option<Between>) -> Option<RegEvent>
    ensures { result ≡ close_due handle me between }
{
    match between {
        Some(Between::Closing { thread, dev: _ }) if thread == me => {
            Some(RegEvent::Close { handle })
        }
        _ => None,
    }
}
