//! A piece that is back on its own thread: its channel has one fewer in flight, and where it was refused it waits.
ghost use Rattle.std.specs.Prelude.{◌≡◌, option_copied, OnOk};
ghost use Rattle.bd_machine.specs.Kept.{as_request};
ghost use Rattle.bd_machine.specs.Messages.{is_aborted};
ghost use Rattle.bd_tokens.specs.Tokens.{here_in};
ghost use Rattle.bd_steps.specs.Returning.{back_by, channels_back};

use bd_base::{OutOfMemory, ReqId};
use bd_machine::{Id, Kept};
use bd_retries::Retries;
use bd_tokens::Tokens;

// Whether it is a request that is aborted.
fn is_aborted(kept: Option<&Kept>) -> bool
    ensures { result ≡ is_aborted (as_request (option_copied kept.entry)) }
{
    match kept {
        Some(Kept::Request(r)) => r.aborted.is_some(),
        _ => false,
    }
}

/// A piece is back on its own thread: one fewer of its base device is in flight; without an end it was
/// refused, and waits to be sent again, unless its request is aborted. Where it isn't here nothing
/// changes. After out of memory the channels are unspecified.
pub fn piece_back(
    retries: &mut Retries,
    held: &Tokens,
    req: ReqId,
    k: u32,
) -> Result<(), OutOfMemory>
    ensures { OnOk result (retries.new ≡ channels_back req k (here_in held.now.items) retries.old) }
{
    let aborted = is_aborted(held.get(Id::Request(req)));
    let Some(Kept::Piece(piece)) = held.get(Id::Piece(req, k)) else {
        return Ok(());
    };
    if piece.end.is_none() && !aborted {
        return retries.refused(piece.base, (req, k));
    }
    retries.landed(piece.base);
    Ok(())
}
