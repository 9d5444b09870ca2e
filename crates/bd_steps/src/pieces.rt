//! The pieces of a request that was cut: held, and to be put or to wait.
ghost use Rattle.std.specs.Prelude.{◌≡◌, ◌++◌, length, IfOk, OnOk};
ghost use Rattle.bd_machine.specs.Alone.{held_after};
ghost use Rattle.bd_machine.specs.Requests.{pieces_made};
ghost use Rattle.bd_tokens.specs.Tokens.{here_in};
ghost use Rattle.bd_steps.specs.Pieces.{channels_cut, outbox_cut, pieces_to};

use bd_base::{DevId, OutOfMemory, ReqId, Rows, Setup, Token};
use bd_blocks::{base_of, home, new_piece};
use bd_machine::{Extent, Id, Kept, OpenRequest};
use bd_retries::Retries;
use bd_tokens::Tokens;
use std::collections::VecDeque;

/// Holds the pieces of a request, one for each extent.
pub fn hold_pieces(
    tokens: &mut Tokens,
    setup: &Setup,
    req: ReqId,
    r: OpenRequest,
    extents: &[Extent],
) -> Result<(), OutOfMemory>
    ensures { OnOk result (here_in tokens.new.items ≡ held_after (pieces_made setup.now req r 0 extents.now) (here_in tokens.old.items)) }
{
    let mut k: u32 = 0;
    for extent in extents {
        let piece = new_piece(setup, r, k, *extent)?;
        tokens.hold(Id::Piece(req, k), Kept::Piece(piece))?;
        let Some(more) = k.checked_add(1) else {
            return Err(OutOfMemory);
        };
        k = more;
    }
    Ok(())
}

// The first n pieces of a request are to be put to a thread.
#[tactic(auto, using(crate::proofs::Left::left_from))]
fn send_pieces(
    outbox: &mut VecDeque<(u32, Token)>,
    to: u32,
    req: ReqId,
    n: u32,
) -> Result<(), OutOfMemory>
    ensures { OnOk result (outbox.new.items ≡ outbox.old.items ++ pieces_to to req n) }
{
    for k in 0..n {
        outbox.push_back((to, Token::Piece(req, k)))?;
    }
    Ok(())
}

/// The first n pieces of a request on a device are to be put to the device's home, and are in flight. Where
/// pieces wait already to be sent again to its base device, they wait after those. After out of memory
/// both are unspecified.
pub fn send_cut(
    outbox: &mut VecDeque<(u32, Token)>,
    retries: &mut Retries,
    setup: &Setup,
    dev: DevId,
    req: ReqId,
    n: u32,
) -> Result<(), OutOfMemory>
    ensures outbox { OnOk result (outbox.new.items ≡ outbox_cut setup.now dev req n retries.old outbox.old.items) }
    ensures retries { OnOk result (retries.new ≡ channels_cut setup.now dev req n retries.old) }
{
    let base = base_of(setup, dev);
    if retries.waits(base) {
        return retries.queue(base, req, n);
    }
    send_pieces(outbox, home(setup, dev), req, n)?;
    retries.sent(base, n)
}

/// How many pieces there are. More than 32 bits count answer out of memory.
pub fn piece_count(found: &Rows<Extent>) -> Result<u32, OutOfMemory>
    ensures { IfOk result (λ n. n ≡ length found.now) }
{
    match u32::try_from(found.len()) {
        Ok(n) => Ok(n),
        Err(_) => Err(OutOfMemory),
    }
}
