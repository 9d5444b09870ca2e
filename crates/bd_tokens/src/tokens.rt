//! What a thread holds of the tokens that are on it.
ghost use Rattle.std.specs.Prelude.{◌≡◌, ◌+◌, ◌<◌, ◌≤◌, [], length, slice_index_or, option_copied, true, vec_len, IfNone, IfOk, OnOk, OnErr, IsOk, None, Some};
ghost use Rattle.std.specs.List.{slice_get};
ghost use Rattle.bd_rule_effects.specs.Begun.{begun, taken, walk_moved};
ghost use Rattle.bd_machine.specs.Alone.{held_after};
ghost use Rattle.bd_tokens.specs.Pended.{are_own_pended, is_pended_at};
ghost use Rattle.bd_tokens.specs.Places.{is_free, items_with, near_place_of, AreKept};
ghost use Rattle.bd_tokens.specs.declared.places.Tier.TheVariants.{Near};
ghost use Rattle.bd_tokens.specs.Tokens.{here_in, left_of, Sets};
ghost use Rattle.bd_tokens.specs.Walks.{walks_in};

use crate::beyond::Beyond;
use crate::pended::{are_rows_pended, is_pended};
use crate::places::{
    Row, Tier, clear_at, count, free_place, kept_at_place, make_places, own_place, put_at, take_at,
};
use bd_base::{OutOfMemory, ReqId, Setup, Token, WalkId};
use bd_machine::{Id, Kept, OpenWalk, Part};
use bd_parcel::Parcel;
use bd_rule_effects::{is_at_end, progress_took, stays};
use bd_rule_view::as_request;
use std::alloc::Global;
use std::marker::Model;

/// The tokens that are on a thread, seen as their ids with what is kept of each, and as how many more
/// can be held even where memory runs out.
#[derive(Drop)]
pub struct Tokens {
    // requests and pieces, each at its place
    rows: Vec<Row>,
    // parcels of tokens that were let go, for tokens to come: what is in them means nothing
    spares: Vec<Parcel>,
    // tokens whose place another one has, walks and notices
    beyond: Beyond,
}

impl Model for Tokens {
    ghost use Rattle.bd_tokens.specs.Places.{items_with, AreKept};
    ghost use Rattle.bd_tokens.specs.declared.places.Tier.TheVariants.{Near};
    ghost use Rattle.bd_tokens.specs.Tokens.{Held};

    ghost Value = { Held };

    ghost view = { λ t. record { items = items_with t.rows.items t.beyond.items; room = t.beyond.room } };

    ghost invariant = { λ t. AreKept Near t.rows.items t.beyond.items };
}

// The token is at its place, where that is free, and else it has none.
fn hold(
    rows: &mut Vec<Row>,
    spares: &mut Vec<Parcel>,
    beyond: &mut Beyond,
    id: Id,
    kept: Kept,
) -> Result<(), OutOfMemory>
    requires { AreKept Near rows.old.items beyond.old.items }
    ensures kept { AreKept Near rows.new.items beyond.new.items }
    ensures ok { OnOk result (Sets (items_with rows.old.items beyond.old.items) (items_with rows.new.items beyond.new.items) id (Some kept)) }
    ensures err { OnErr result (items_with rows.new.items beyond.new.items ≡ items_with rows.old.items beyond.old.items) }
    ensures room { beyond.old.room ≤ beyond.new.room + 1 }
    ensures holds { 0 < beyond.old.room → IsOk result }
{
    match free_place(Tier::Near, rows.as_slice(), id) {
        Some(place) => hold_at(rows, spares, beyond, place, id, kept),
        None => {
            beyond.hold(id, kept)?;
            Ok(())
        }
    }
}

// The token is at its place, which is free, or has none where there is no memory for what is kept of it.
fn hold_at(
    rows: &mut Vec<Row>,
    spares: &mut Vec<Parcel>,
    beyond: &mut Beyond,
    place: usize,
    id: Id,
    kept: Kept,
) -> Result<(), OutOfMemory>
    requires kept { AreKept Near rows.old.items beyond.old.items }
    requires within { place < vec_len rows.old }
    requires place { near_place_of id ≡ Some place }
    requires free { is_free id (slice_index_or rows.old.items place None) ≡ true }
    ensures kept { AreKept Near rows.new.items beyond.new.items }
    ensures ok { OnOk result (Sets (items_with rows.old.items beyond.old.items) (items_with rows.new.items beyond.new.items) id (Some kept)) }
    ensures err { OnErr result (items_with rows.new.items beyond.new.items ≡ items_with rows.old.items beyond.old.items) }
    ensures room { beyond.old.room ≤ beyond.new.room + 1 }
    ensures holds { 0 < beyond.old.room → IsOk result }
{
    match put_at(rows, spares, place, id, kept) {
        Ok(()) => {
            beyond.let_go(id);
            Ok(())
        }
        Err(kept) => {
            beyond.hold(id, kept)?;
            Ok(())
        }
    }
}

// The token that a message brought is at its place, where that is free, and else it has none.
fn hold_parcel(
    rows: &mut Vec<Row>,
    beyond: &mut Beyond,
    id: Id,
    parcel: Parcel,
) -> Result<(), OutOfMemory>
    requires { AreKept Near rows.old.items beyond.old.items }
    ensures kept { AreKept Near rows.new.items beyond.new.items }
    ensures ok { OnOk result (Sets (items_with rows.old.items beyond.old.items) (items_with rows.new.items beyond.new.items) id (Some parcel)) }
    ensures err { OnErr result (items_with rows.new.items beyond.new.items ≡ items_with rows.old.items beyond.old.items) }
    ensures room { beyond.old.room ≤ beyond.new.room + 1 }
    ensures holds { 0 < beyond.old.room → IsOk result }
{
    match free_place(Tier::Near, rows.as_slice(), id) {
        Some(place) => {
            hold_parcel_at(rows, beyond, place, id, parcel);
            Ok(())
        }
        None => {
            beyond.hold(id, parcel.open())?;
            Ok(())
        }
    }
}

// The token is at its place, which is free.
fn hold_parcel_at(rows: &mut Vec<Row>, beyond: &mut Beyond, place: usize, id: Id, parcel: Parcel)
    requires kept { AreKept Near rows.old.items beyond.old.items }
    requires within { place < vec_len rows.old }
    requires place { near_place_of id ≡ Some place }
    requires free { is_free id (slice_index_or rows.old.items place None) ≡ true }
    ensures kept { AreKept Near rows.new.items beyond.new.items }
    ensures held { Sets (items_with rows.old.items beyond.old.items) (items_with rows.new.items beyond.new.items) id (Some parcel) }
    ensures room { beyond.old.room ≤ beyond.new.room }
{
    beyond.let_go(id);
    rows[place] = Some((id, parcel));
}

// What is kept of a token, if anything, at a place of its own.
fn enclosed(alloc: Global, kept: Option<Kept>) -> Result<Option<Parcel>, OutOfMemory>
    ensures { IfOk result (λ parcel. parcel ≡ kept) }
{
    match kept {
        Some(kept) => Ok(Some(Parcel::new(alloc, kept)?)),
        None => Ok(None),
    }
}

// What is kept of a token that was taken.
fn receive(parcel: &mut Parcel)
    ensures { parcel.new ≡ taken parcel.old }
{
    match parcel.get_mut() {
        Kept::Request(_) => (),
        Kept::Piece(p) => p.progress = progress_took(p.progress),
        Kept::Walk(w) => w.taken = true,
        Kept::Notice(_) => (),
    }
}

impl Tokens {
    /// No token. It takes no memory.
    pub fn new(alloc: Global) -> Tokens
        ensures { result.items ≡ [] }
    {
        Tokens {
            rows: Vec::new(alloc),
            spares: Vec::new(alloc),
            beyond: Beyond::new(alloc),
        }
    }

    /// How many tokens are held.
    pub fn len(&self) -> usize
        ensures { result ≡ length self.now.items }
    {
        count(self.rows.as_slice()) + self.beyond.len()
    }

    /// What is held of the token.
    pub fn get(&self, id: Id) -> Option<&Kept>
        ensures { option_copied result ≡ here_in self.now.items id }
    {
        match kept_at_place(Tier::Near, self.rows.as_slice(), id) {
            Some(kept) => Some(kept),
            None => self.beyond.get(id),
        }
    }

    /// Whether each token that is held is a request of this thread that is kept without an answer, and that nothing
    /// stops: it wasn't aborted, and no device below it carries a mark. It goes over all of them.
    pub fn are_all_pended(&self, setup: &Setup, part: &Part, me: u32) -> bool
        ensures { result ≡ are_own_pended setup.now part.now me self.now.items }
    {
        are_rows_pended(self.rows.as_slice(), setup, part, me)
            && self.beyond.are_pended(setup, part, me)
    }

    /// Whether the request is held, kept without an answer, and nothing stops it.
    pub fn is_pended(&self, setup: &Setup, part: &Part, req: ReqId) -> bool
        ensures { result ≡ is_pended_at setup.now part.now (here_in self.now.items) req }
    {
        match as_request(self.get(Id::Request(req))) {
            Some(r) => is_pended(setup, part, r),
            None => false,
        }
    }

    /// Takes memory for `n` more tokens. Out of memory, nothing changed.
    pub fn reserve(&mut self, n: u32) -> Result<(), OutOfMemory>
        ensures here { here_in self.new.items ≡ here_in self.old.items }
        ensures room { self.old.room ≤ self.new.room }
        ensures ok { OnOk result (n ≤ self.new.room) }
    {
        self.beyond.reserve(n)?;
        Ok(())
    }

    /// Holds a token, in place of what was held of it. Where there is room it succeeds; out of memory,
    /// nothing changed.
    pub fn hold(&mut self, id: Id, kept: Kept) -> Result<(), OutOfMemory>
        ensures ok { OnOk result (Sets self.old.items self.new.items id (Some kept)) }
        ensures err { OnErr result (self.new.items ≡ self.old.items) }
        ensures room { self.old.room ≤ self.new.room + 1 }
        ensures holds { 0 < self.old.room → IsOk result }
    {
        make_places(Tier::Near, &mut self.rows);
        hold(&mut self.rows, &mut self.spares, &mut self.beyond, id, kept)
    }

    /// Takes out what is held of the token, where it is here. It takes memory only for a token that isn't at a place; out of
    /// memory, what was held of it is lost.
    pub fn take_out(&mut self, id: Id) -> Result<Option<Parcel>, OutOfMemory>
        ensures kept { IfOk result (λ parcel. parcel ≡ here_in self.old.items id) }
        ensures gone { Sets self.old.items self.new.items id None }
        ensures same { IfOk result (λ parcel. IfNone parcel (self.new.items ≡ self.old.items)) }
        ensures room { self.old.room ≤ self.new.room }
    {
        match own_place(Tier::Near, self.rows.as_slice(), id) {
            Some(place) => Ok(take_at(&mut self.rows, place)),
            None => {
                let kept = self.beyond.take_out(id);
                let parcel = enclosed(*self.rows.allocator(), kept)?;
                Ok(parcel)
            }
        }
    }

    /// Lets the token go, where it is here. What was kept of it is dropped; the place of that may stay, for a token to come.
    pub fn let_go(&mut self, id: Id)
        ensures gone { Sets self.old.items self.new.items id None }
        ensures room { self.old.room ≤ self.new.room }
    {
        match own_place(Tier::Near, self.rows.as_slice(), id) {
            Some(place) => clear_at(&mut self.rows, &mut self.spares, place),
            None => self.beyond.let_go(id),
        }
    }

    /// A token that a message brought is held as it is once it was taken, or ends: a notice does, and a
    /// walk that is back on the thread that began it. Out of memory, nothing changed.
    pub fn land(
        &mut self,
        thread: u32,
        id: Id,
        what: &Token,
        kept: Parcel,
    ) -> Result<(), OutOfMemory>
        ensures ok { OnOk result (Sets self.old.items self.new.items id (left_of thread what.now kept)) }
        ensures err { OnErr result (self.new.items ≡ self.old.items) }
        ensures holds { 0 < self.old.room → IsOk result }
    {
        if !stays(thread, what, kept.get()) {
            self.let_go(id);
            return Ok(());
        }
        let mut parcel = kept;
        receive(&mut parcel);
        make_places(Tier::Near, &mut self.rows);
        hold_parcel(&mut self.rows, &mut self.beyond, id, parcel)
    }

    /// A walk that begins is held. Out of memory, nothing changed.
    pub fn hold_begun(&mut self, walk: Option<(WalkId, OpenWalk)>) -> Result<(), OutOfMemory>
        ensures ok { OnOk result (here_in self.new.items ≡ held_after (begun walk) (here_in self.old.items)) }
        ensures err { OnErr result (self.new.items ≡ self.old.items) }
        ensures holds { 0 < self.old.room → IsOk result }
    {
        match walk {
            Some((id, walk)) => self.hold(Id::Walk(id), Kept::Walk(walk)),
            None => Ok(()),
        }
    }

    /// A walk that is on the thread is held on, or ends. Out of memory, nothing changed.
    pub fn hold_walk(&mut self, thread: u32, id: WalkId, walk: OpenWalk) -> Result<(), OutOfMemory>
        ensures ok { OnOk result (here_in self.new.items ≡ held_after (walk_moved thread id walk) (here_in self.old.items)) }
        ensures err { OnErr result (self.new.items ≡ self.old.items) }
        ensures holds { 0 < self.old.room → IsOk result }
    {
        if is_at_end(thread, id, walk) {
            self.let_go(Id::Walk(id));
            Ok(())
        } else {
            self.hold(Id::Walk(id), Kept::Walk(walk))
        }
    }

    /// How many walks are held.
    pub fn walk_count(&self) -> usize
        ensures { result ≡ length (walks_in self.now.items) }
    {
        self.beyond.walk_count()
    }

    /// The walk at this place of those that are held, from 0, in no order that means anything.
    pub fn walk_at(&self, place: usize) -> Option<WalkId>
        ensures { result ≡ slice_get (walks_in self.now.items) place }
    {
        self.beyond.walk_at(place)
    }
}
