//! What is kept of a token.
ghost use Rattle.std.specs.Prelude.{◌≡◌, option_copied};
ghost use Rattle.bd_machine.specs.Kept.{as_piece, as_request, as_walk};
ghost use Rattle.bd_machine.specs.Same.{same_id};
ghost use Rattle.bd_machine.specs.Table.{look_up};

use crate::same::same_id;
use bd_machine::{Id, Kept, OpenPiece, OpenRequest, OpenWalk};

/// What a table has at a token: the first entry of this id.
pub fn look_up<V>(table: &[(Id, V)], id: Id) -> Option<&V>
    ensures { option_copied result ≡ look_up same_id table.now id }
{
    for entry in table {
        if same_id(entry.0, id) {
            return Some(&entry.1);
        }
    }
    None
}

/// The request that is kept, if it is one.
pub fn as_request(kept: Option<&Kept>) -> Option<OpenRequest>
    ensures { result ≡ as_request (option_copied kept.entry) }
{
    match kept {
        Some(Kept::Request(r)) => Some(*r),
        _ => None,
    }
}

/// The piece that is kept, if it is one.
pub fn as_piece(kept: Option<&Kept>) -> Option<&OpenPiece>
    ensures { option_copied result ≡ as_piece (option_copied kept.entry) }
{
    match kept {
        Some(Kept::Piece(p)) => Some(p),
        _ => None,
    }
}

/// The walk that is kept, if it is one.
pub fn as_walk(kept: Option<&Kept>) -> Option<OpenWalk>
    ensures { result ≡ as_walk (option_copied kept.entry) }
{
    match kept {
        Some(Kept::Walk(w)) => Some(*w),
        _ => None,
    }
}
