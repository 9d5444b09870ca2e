//! Which piece a home sends back since its device's queue is full.
ghost use Rattle.std.specs.Prelude.{◌≡◌, OnOk};
ghost use Rattle.bd_tokens.specs.Tokens.{here_in};
ghost use Rattle.bd_steps.specs.Refusing.{here_refused, if_refused, refusal_due};

use bd_base::{DevId, OutOfMemory, ReqId, Setup};
use bd_blocks::copy_of_piece;
use bd_home::last_waiting;
use bd_machine::{Id, Kept, Progress};
use bd_rule_requests::may_refuse;
use bd_rule_view::{PieceId, Sees, as_piece};
use bd_tokens::Tokens;

/// The piece that thread `me` sends back from a device, by its request and its number there: the last in
/// the device's queue, where the thread is the device's home, the piece is here and on the device, and it
/// is one more than the queue takes. Else none.
pub fn refusal_due<S: Sees>(seen: &S, setup: &Setup, me: u32, dev: DevId) -> Option<(ReqId, u32)>
    ensures { result ≡ refusal_due setup.now me (S.view_of seen.now) dev }
{
    let (req, k) = last_waiting(seen.part().bases.as_slice(), dev)?;
    if may_refuse(seen, setup, me, PieceId { req, k }, dev) {
        Some((req, k))
    } else {
        None
    }
}

/// The piece is kept as one that goes back without an end, where it is here. After out of memory what is
/// held is unspecified.
pub fn refuse(tokens: &mut Tokens, req: ReqId, k: u32) -> Result<(), OutOfMemory>
    ensures { OnOk result (here_in tokens.new.items ≡ here_refused req k (here_in tokens.old.items)) }
{
    let id = Id::Piece(req, k);
    let Some(piece) = as_piece(tokens.get(id)) else {
        return Ok(());
    };
    let mut refused = copy_of_piece(piece)?;
    refused.progress = Progress::Served;
    tokens.hold(id, Kept::Piece(refused))
}
