//! Which tokens are requests that are kept without an answer.
ghost use Rattle.std.specs.Prelude.{◌≡◌};
ghost use Rattle.std.specs.List.{list_all};
ghost use Rattle.bd_tokens.specs.Pended.{is_entry_pended, is_own_pended, is_pended, is_row_pended};

use crate::key::Key;
use crate::places::Row;
use bd_base::Setup;
use bd_machine::{Id, Kept, OpenRequest, Part};
use bd_rule_requests::has_any_mark;
use std::collections::HashMap;

/// Whether a request is kept without an answer, and nothing stops it: it wasn't aborted, and no device below it
/// carries a mark.
pub(crate) fn is_pended(setup: &Setup, part: &Part, r: OpenRequest) -> bool
    ensures { result ≡ is_pended setup.now part.now r }
{
    r.pended && r.aborted.is_none() && !has_any_mark(setup, part, r.dev)
}

// Whether the token is a request of this thread, and is pended: no piece, walk or notice is.
fn is_own_pended(setup: &Setup, part: &Part, me: u32, id: Id, kept: &Kept) -> bool
    ensures { result ≡ is_own_pended setup.now part.now me id kept.now }
{
    match (id, kept) {
        (Id::Request(req), Kept::Request(r)) => req.thread == me && is_pended(setup, part, *r),
        _ => false,
    }
}

// Whether nothing is at the place, or a pended request of this thread.
fn is_row_pended(row: &Row, setup: &Setup, part: &Part, me: u32) -> bool
    ensures { result ≡ is_row_pended setup.now part.now me row.now }
{
    match row {
        Some((id, parcel)) => is_own_pended(setup, part, me, *id, parcel.get()),
        None => true,
    }
}

/// Whether each token at its place is a pended request of this thread.
pub(crate) fn are_rows_pended(rows: &[Row], setup: &Setup, part: &Part, me: u32) -> bool
    ensures { result ≡ list_all (is_row_pended setup.now part.now me) rows.now }
{
    rows.iter().all(|row| is_row_pended(row, setup, part, me))
}

/// Whether each token of the map is a pended request of this thread.
pub(crate) fn are_others_pended(
    map: &HashMap<Key, Kept>,
    setup: &Setup,
    part: &Part,
    me: u32,
) -> bool
    ensures { result ≡ list_all (is_entry_pended setup.now part.now me) map.now.entries }
{
    map.iter()
        .all(|(key, kept)| is_own_pended(setup, part, me, key.id, kept))
}
