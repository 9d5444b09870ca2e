//! Places for tokens: each request and each piece has one near, which it shares with others, and one far off, for where
//! many are held at once. What is at the places is found without a search; a token whose places others have is in a map.
ghost use Rattle.std.specs.Prelude.{◌≡◌, ◌<◌, ◌≤◌, [], length, slice_index_or, slice_set, option_copied, option_map, true, vec_len, IfErr, IfNone, IfOk, IfSome, OnErr, OnOk, Some, None};
ghost use Rattle.bd_tokens.specs.Places.{far_place_of, is_free, is_own, items_in, kept_in, kept_of, near_place_of, place_of, AreAt};
ghost use Rattle.bd_tokens.specs.Tokens.{here_in};

use bd_base::DevId;
use bd_machine::{Id, Kept, News};
use bd_parcel::Parcel;
use bd_rule_view::same_id;
use std::alloc::Global;

/// Places of one kind: near ones, which are few, or those far off, for where many tokens are held at once.
#[derive(Clone, Copy)]
pub(crate) enum Tier {
    Near,
    Far,
}

/// How many parcels are kept for tokens to come.
const SPARES: usize = 16;

/// What is at a place: a token with what is kept of it, if there is one.
pub(crate) type Row = Option<(Id, Parcel)>;

// How many places there are of this kind.
fn place_count(tier: Tier) -> usize
    ensures { result ≤ 4096 }
{
    match tier {
        Tier::Near => 384,
        Tier::Far => 3072,
    }
}

// The near place of a request or a piece.
fn near_place_of(id: Id) -> Option<usize>
    ensures { result ≡ near_place_of id }
{
    match id {
        Id::Request(req) => Some(256 + (req.seq % 128) as usize),
        Id::Piece(req, k) => {
            let column = ((req.seq % 16) as usize + (k % 16) as usize) % 16;
            Some(16 * (req.thread % 16) as usize + column)
        }
        _ => None,
    }
}

// The far place of a request or a piece.
fn far_place_of(id: Id) -> Option<usize>
    ensures { result ≡ far_place_of id }
{
    match id {
        Id::Request(req) => Some(1024 + (req.seq % 2048) as usize),
        Id::Piece(req, k) => Some(64 * (req.seq % 16) as usize + (k % 64) as usize),
        _ => None,
    }
}

// The place of a token of this kind of places.
fn place_of(tier: Tier, id: Id) -> Option<usize>
    ensures { result ≡ place_of tier id }
{
    match tier {
        Tier::Near => near_place_of(id),
        Tier::Far => far_place_of(id),
    }
}

// What is kept of the token, where it is the one of this row.
fn kept_in(row: &Row, id: Id) -> Option<&Kept>
    ensures { option_copied result ≡ kept_in id row.now }
{
    match row {
        Some((other, parcel)) => {
            if same_id(*other, id) {
                Some(parcel.get())
            } else {
                None
            }
        }
        None => None,
    }
}

// Whether the row has no other token.
fn is_free(row: &Row, id: Id) -> bool
    ensures { result ≡ is_free id row.now }
{
    match row {
        Some((other, _)) => same_id(*other, id),
        None => true,
    }
}

// Whether the row has the token.
fn is_own(row: &Row, id: Id) -> bool
    ensures { result ≡ is_own id row.now }
{
    match row {
        Some((other, _)) => same_id(*other, id),
        None => false,
    }
}

/// What is kept of the token, where it is at its place.
#[inline(always)]
pub(crate) fn kept_at_place(tier: Tier, rows: &[Row], id: Id) -> Option<&Kept>
    requires { AreAt tier 0 rows.now }
    ensures { option_copied result ≡ here_in (items_in rows.now) id }
{
    let Some(place) = place_of(tier, id) else {
        return None;
    };
    match rows.get(place) {
        Some(row) => kept_in(row, id),
        None => None,
    }
}

/// The place of the token, where no other one is there.
#[inline(always)]
pub(crate) fn free_place(tier: Tier, rows: &[Row], id: Id) -> Option<usize>
    requires { AreAt tier 0 rows.now }
    ensures within { IfSome result (λ place. place < length rows.now) }
    ensures place { IfSome result (λ place. place_of tier id ≡ Some place) }
    ensures free { IfSome result (λ place. is_free id (slice_index_or rows.now place None) ≡ true) }
    ensures none { IfNone result (here_in (items_in rows.now) id ≡ None) }
{
    let Some(place) = place_of(tier, id) else {
        return None;
    };
    let Some(row) = rows.get(place) else {
        return None;
    };
    if is_free(row, id) { Some(place) } else { None }
}

/// The place of the token, where it is there.
#[inline(always)]
pub(crate) fn own_place(tier: Tier, rows: &[Row], id: Id) -> Option<usize>
    requires { AreAt tier 0 rows.now }
    ensures within { IfSome result (λ place. place < length rows.now) }
    ensures place { IfSome result (λ place. place_of tier id ≡ Some place) }
    ensures own { IfSome result (λ place. is_own id (slice_index_or rows.now place None) ≡ true) }
    ensures none { IfNone result (here_in (items_in rows.now) id ≡ None) }
{
    let Some(place) = place_of(tier, id) else {
        return None;
    };
    let Some(row) = rows.get(place) else {
        return None;
    };
    if is_own(row, id) { Some(place) } else { None }
}

/// Makes the places, where there are none yet, as far as there is memory for them.
pub(crate) fn make_places(tier: Tier, rows: &mut Vec<Row>)
    requires at { AreAt tier 0 rows.old.items }
    requires few { vec_len rows.old ≤ 4096 }
    ensures at { AreAt tier 0 rows.new.items }
    ensures few { vec_len rows.new ≤ 4096 }
    ensures same { items_in rows.new.items ≡ items_in rows.old.items }
{
    if rows.is_empty() {
        add_places(tier, rows);
    }
}

// Makes the places, as far as there is memory for them.
#[tactic(auto, using(crate::proofs::Placed::none_more, crate::proofs::Placed::at_more))]
fn add_places(tier: Tier, rows: &mut Vec<Row>)
    requires { rows.old.items ≡ [] }
    ensures at { AreAt tier 0 rows.new.items }
    ensures few { vec_len rows.new ≤ 4096 }
    ensures none { items_in rows.new.items ≡ [] }
{
    let places = place_count(tier);
    if rows.reserve_exact(places).is_err() {
        return;
    }
    for _place in 0..places {
        if rows.push(None).is_err() {
            return;
        }
    }
}

/// Takes out what is at a place.
pub(crate) fn take_at(rows: &mut Vec<Row>, place: usize) -> Option<Parcel>
    requires { place < vec_len rows.old }
    ensures kept { result ≡ option_map kept_of (slice_index_or rows.old.items place None) }
    ensures taken { rows.new.items ≡ slice_set rows.old.items place None }
{
    let row = &mut rows[place];
    match row.take() {
        Some((_, parcel)) => Some(parcel),
        None => None,
    }
}

// What a spare has in it, which takes no memory of its own.
fn nothing() -> Kept {
    Kept::Notice(News::Device(DevId(0)))
}

// A parcel of what is kept: a spare, where there is one, else a new one. Out of memory, what is kept comes back.
fn parcel_of(alloc: Global, spares: &mut Vec<Parcel>, kept: Kept) -> Result<Parcel, Kept>
    ensures ok { IfOk result (λ parcel. parcel ≡ kept) }
    ensures err { IfErr result (λ back. back ≡ kept) }
{
    match spares.pop() {
        Some(mut spare) => {
            spare.set(kept);
            Ok(spare)
        }
        None => Parcel::try_new(alloc, kept),
    }
}

// Keeps a parcel as a spare, without what is in it. It is dropped where there are spares enough, or no memory for one more.
fn keep_spare(spares: &mut Vec<Parcel>, parcel: Parcel)
    ensures few { vec_len spares.old ≤ 16 → vec_len spares.new ≤ 16 }
{
    if spares.len() < SPARES {
        let mut spare = parcel;
        spare.set(nothing());
        let _ = spares.push(spare);
    }
}

/// The token is at its place, where no other one is, with this kept of it, in a spare if there is one. Out of memory, what is
/// kept comes back.
#[inline(always)]
pub(crate) fn put_at(
    rows: &mut Vec<Row>,
    spares: &mut Vec<Parcel>,
    place: usize,
    id: Id,
    kept: Kept,
) -> Result<(), Kept>
    requires within { place < vec_len rows.old }
    requires free { is_free id (slice_index_or rows.old.items place None) ≡ true }
    ensures ok { OnOk result (rows.new.items ≡ slice_set rows.old.items place (Some (id, kept))) }
    ensures back { IfErr result (λ back. back ≡ kept) }
    ensures err { OnErr result (rows.new.items ≡ rows.old.items) }
    ensures none { OnErr result (slice_index_or rows.old.items place None ≡ None) }
{
    if let Some((_, parcel)) = &mut rows[place] {
        parcel.set(kept);
        return Ok(());
    }
    let parcel = parcel_of(*rows.allocator(), spares, kept)?;
    rows[place] = Some((id, parcel));
    Ok(())
}

/// Nothing is at the place any more. The parcel that was there becomes a spare, without what was in it.
#[inline(always)]
pub(crate) fn clear_at(rows: &mut Vec<Row>, spares: &mut Vec<Parcel>, place: usize)
    requires { place < vec_len rows.old }
    ensures { rows.new.items ≡ slice_set rows.old.items place None }
{
    if let Some(parcel) = take_at(rows, place) {
        keep_spare(spares, parcel);
    }
}

/// How many tokens are at their places.
pub(crate) fn count(rows: &[Row]) -> usize
    ensures value { result ≡ length (items_in rows.now) }
    ensures within { result ≤ length rows.now }
{
    let mut count = 0;
    for row in rows {
        if row.is_some() {
            count += 1;
        }
    }
    count
}
