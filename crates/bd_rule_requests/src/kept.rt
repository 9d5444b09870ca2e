//! What is kept of the tokens that are on the thread.
ghost use Rattle.std.specs.Prelude.{◌≡◌, option_copied};
ghost use Rattle.bd_machine.specs.Kept.{piece_here, request_here, walk_here};
ghost use Rattle.bd_machine.specs.Requests.{new_request};

use crate::marks::late_of;
use bd_base::{Decision, DevId, HandleId, ReqId, Setup, WalkId};
use bd_machine::{Hold, Id, Injected, OpenPiece, OpenRequest, OpenWalk, Part, Trip};
use bd_rule_view::{PieceId, Sees, Submission, as_piece, as_request, as_walk};

/// What is kept of a request that is on the thread.
pub fn request_here<S: Sees>(seen: &S, req: ReqId) -> Option<OpenRequest>
    ensures { result ≡ request_here (S.view_of seen.now) req }
{
    as_request(seen.kept(Id::Request(req)))
}

/// What is kept of a piece that is on the thread.
pub fn piece_here<S: Sees>(seen: &S, piece: PieceId) -> Option<&OpenPiece>
    ensures { option_copied result ≡ piece_here (S.view_of seen.now) piece.req piece.k }
{
    as_piece(seen.kept(Id::Piece(piece.req, piece.k)))
}

/// What is kept of a walk that is on the thread.
pub fn walk_here<S: Sees>(seen: &S, walk: WalkId) -> Option<OpenWalk>
    ensures { result ≡ walk_here (S.view_of seen.now) walk }
{
    as_walk(seen.kept(Id::Walk(walk)))
}

/// What is kept of a request at its acceptance on a thread with this part.
pub fn new_request(
    setup: &Setup,
    part: &Part,
    handle: HandleId,
    dev: DevId,
    what: Submission,
) -> OpenRequest
    ensures { result ≡ new_request setup.now part.now handle dev what.op what.lba what.count }
{
    OpenRequest {
        handle,
        dev,
        op: what.op,
        lba: what.lba,
        count: what.count,
        lets: 0,
        trip: Trip::Own,
        injected: Injected {
            asked: 0,
            count: 0,
            last: Decision::Pass,
            turned: false,
        },
        pended: false,
        aborted: None,
        pieces: None,
        hold: Hold::Before,
        late: late_of(setup, part, dev),
    }
}
