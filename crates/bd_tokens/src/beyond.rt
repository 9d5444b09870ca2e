//! The tokens that aren't at near places: requests and pieces at their far ones, once many are held, and those without a place.
ghost use Rattle.std.specs.Prelude.{◌≡◌, ◌+◌, ◌^◌, ◌<◌, ◌≤◌, [], length, slice_index_or, option_copied, true, vec_len, IfNone, OnOk, OnErr, IsOk, None, Some};
ghost use Rattle.std.specs.List.{slice_get};
ghost use Rattle.bd_tokens.specs.Pended.{are_own_pended};
ghost use Rattle.bd_tokens.specs.Places.{far_place_of, is_free, items_in, items_with, AreAt, AreKept};
ghost use Rattle.bd_tokens.specs.Tokens.{here_in, Sets};
ghost use Rattle.bd_tokens.specs.Walks.{walks_in};
ghost use Rattle.bd_tokens.specs.declared.places.Tier.TheVariants.{Far};

use crate::pended::are_rows_pended;
use crate::places::{
    Row, Tier, clear_at, count, free_place, kept_at_place, make_places, own_place, put_at, take_at,
};
use crate::unplaced::Unplaced;
use bd_base::{OutOfMemory, Setup, WalkId};
use bd_machine::{Id, Kept, Part};
use bd_parcel::Parcel;
use std::alloc::Global;
use std::marker::Model;

/// Of how many tokens without a place on there are far ones.
const MANY: usize = 64;

/// Tokens, seen as their ids with what is kept of each, and as how many more can be held even where memory runs out.
#[derive(Drop)]
pub(crate) struct Beyond {
    // requests and pieces, each at its far place
    rows: Vec<Row>,
    // parcels of tokens that were let go, for tokens to come: what is in them means nothing
    spares: Vec<Parcel>,
    // walks and notices, and tokens whose places others have
    unplaced: Unplaced,
}

impl Model for Beyond {
    ghost use Rattle.bd_tokens.specs.Places.{items_with, AreKept};
    ghost use Rattle.bd_tokens.specs.Tokens.{Held};
    ghost use Rattle.bd_tokens.specs.declared.places.Tier.TheVariants.{Far};

    ghost Value = { Held };

    ghost view = { λ t. record { items = items_with t.rows.items t.unplaced.items; room = t.unplaced.room } };

    ghost invariant = { λ t. AreKept Far t.rows.items t.unplaced.items };
}

// Makes the far places where there are none yet and so many tokens have no place, as far as there is memory for them.
fn widen(rows: &mut Vec<Row>, without: usize)
    requires at { AreAt Far 0 rows.old.items }
    requires few { vec_len rows.old ≤ 4096 }
    ensures at { AreAt Far 0 rows.new.items }
    ensures few { vec_len rows.new ≤ 4096 }
    ensures same { items_in rows.new.items ≡ items_in rows.old.items }
{
    if MANY <= without {
        make_places(Tier::Far, rows);
    }
}

// The token is at its far place, where that is free, and else it has none.
fn hold(
    rows: &mut Vec<Row>,
    spares: &mut Vec<Parcel>,
    unplaced: &mut Unplaced,
    id: Id,
    kept: Kept,
) -> Result<(), OutOfMemory>
    requires { AreKept Far rows.old.items unplaced.old.items }
    ensures kept { AreKept Far rows.new.items unplaced.new.items }
    ensures ok { OnOk result (Sets (items_with rows.old.items unplaced.old.items) (items_with rows.new.items unplaced.new.items) id (Some kept)) }
    ensures err { OnErr result (items_with rows.new.items unplaced.new.items ≡ items_with rows.old.items unplaced.old.items) }
    ensures room { unplaced.old.room ≤ unplaced.new.room + 1 }
    ensures holds { 0 < unplaced.old.room → IsOk result }
{
    match free_place(Tier::Far, rows.as_slice(), id) {
        Some(place) => hold_at(rows, spares, unplaced, place, id, kept),
        None => {
            unplaced.hold(id, kept)?;
            Ok(())
        }
    }
}

// The token is at its far place, which is free, or has none where there is no memory for what is kept of it.
fn hold_at(
    rows: &mut Vec<Row>,
    spares: &mut Vec<Parcel>,
    unplaced: &mut Unplaced,
    place: usize,
    id: Id,
    kept: Kept,
) -> Result<(), OutOfMemory>
    requires kept { AreKept Far rows.old.items unplaced.old.items }
    requires within { place < vec_len rows.old }
    requires place { far_place_of id ≡ Some place }
    requires free { is_free id (slice_index_or rows.old.items place None) ≡ true }
    ensures kept { AreKept Far rows.new.items unplaced.new.items }
    ensures ok { OnOk result (Sets (items_with rows.old.items unplaced.old.items) (items_with rows.new.items unplaced.new.items) id (Some kept)) }
    ensures err { OnErr result (items_with rows.new.items unplaced.new.items ≡ items_with rows.old.items unplaced.old.items) }
    ensures room { unplaced.old.room ≤ unplaced.new.room + 1 }
    ensures holds { 0 < unplaced.old.room → IsOk result }
{
    match put_at(rows, spares, place, id, kept) {
        Ok(()) => {
            unplaced.let_go(id);
            Ok(())
        }
        Err(kept) => {
            unplaced.hold(id, kept)?;
            Ok(())
        }
    }
}

// What is kept of a token, if anything, out of its place.
fn opened(parcel: Option<Parcel>) -> Option<Kept>
    ensures { result ≡ parcel }
{
    match parcel {
        Some(parcel) => Some(parcel.open()),
        None => None,
    }
}

impl Beyond {
    /// No token. It takes no memory.
    pub(crate) fn new(alloc: Global) -> Beyond
        ensures { result.items ≡ [] }
    {
        Beyond {
            rows: Vec::new(alloc),
            spares: Vec::new(alloc),
            unplaced: Unplaced::new(alloc),
        }
    }

    /// How many tokens there are.
    pub(crate) fn len(&self) -> usize
        ensures value { result ≡ length self.now.items }
        ensures small { result < 2 ^ 63 + 2 ^ 62 + 2 ^ 13 }
    {
        count(self.rows.as_slice()) + self.unplaced.len()
    }

    /// What is held of the token.
    pub(crate) fn get(&self, id: Id) -> Option<&Kept>
        ensures { option_copied result ≡ here_in self.now.items id }
    {
        match kept_at_place(Tier::Far, self.rows.as_slice(), id) {
            Some(kept) => Some(kept),
            None => self.unplaced.get(id),
        }
    }

    /// Whether each token is a pended request of this thread: no walk is.
    pub(crate) fn are_pended(&self, setup: &Setup, part: &Part, me: u32) -> bool
        ensures { result ≡ are_own_pended setup.now part.now me self.now.items }
    {
        are_rows_pended(self.rows.as_slice(), setup, part, me)
            && self.unplaced.are_pended(setup, part, me)
    }

    /// How many walks there are.
    pub(crate) fn walk_count(&self) -> usize
        ensures { result ≡ length (walks_in self.now.items) }
    {
        self.unplaced.walk_count()
    }

    /// The walk at this place of those that are here.
    pub(crate) fn walk_at(&self, place: usize) -> Option<WalkId>
        ensures { result ≡ slice_get (walks_in self.now.items) place }
    {
        self.unplaced.walk_at(place)
    }

    /// Takes memory for `n` more tokens of any kind. Out of memory, nothing changed.
    pub(crate) fn reserve(&mut self, n: u32) -> Result<(), OutOfMemory>
        ensures here { here_in self.new.items ≡ here_in self.old.items }
        ensures room { self.old.room ≤ self.new.room }
        ensures ok { OnOk result (n ≤ self.new.room) }
    {
        self.unplaced.reserve(n)?;
        Ok(())
    }

    /// Holds a token, in place of what was held of it. It takes no memory where there is none and there is room; out of
    /// memory, nothing changed.
    pub(crate) fn hold(&mut self, id: Id, kept: Kept) -> Result<(), OutOfMemory>
        ensures ok { OnOk result (Sets self.old.items self.new.items id (Some kept)) }
        ensures err { OnErr result (self.new.items ≡ self.old.items) }
        ensures room { self.old.room ≤ self.new.room + 1 }
        ensures holds { 0 < self.old.room → IsOk result }
    {
        widen(&mut self.rows, self.unplaced.len());
        hold(
            &mut self.rows,
            &mut self.spares,
            &mut self.unplaced,
            id,
            kept,
        )
    }

    /// Takes out what is held of the token.
    pub(crate) fn take_out(&mut self, id: Id) -> Option<Kept>
        ensures kept { result ≡ here_in self.old.items id }
        ensures gone { Sets self.old.items self.new.items id None }
        ensures same { IfNone result (self.new.items ≡ self.old.items) }
        ensures room { self.old.room ≤ self.new.room }
    {
        match own_place(Tier::Far, self.rows.as_slice(), id) {
            Some(place) => opened(take_at(&mut self.rows, place)),
            None => self.unplaced.take_out(id),
        }
    }

    /// Lets the token go, where it is here.
    pub(crate) fn let_go(&mut self, id: Id)
        ensures gone { Sets self.old.items self.new.items id None }
        ensures room { self.old.room ≤ self.new.room }
    {
        match own_place(Tier::Far, self.rows.as_slice(), id) {
            Some(place) => clear_at(&mut self.rows, &mut self.spares, place),
            None => self.unplaced.let_go(id),
        }
    }
}
