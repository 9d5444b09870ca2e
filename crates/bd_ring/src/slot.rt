//! A slot that lends one value to one thread at a time.
ghost use Rattle.std.specs.Prelude.{◌≡◌, ◌+◌, ◌<◌, ◌≤◌, [], ◌∷◌, ◌++◌, true, false, length, IfOk, IfNone, MatchOption, vec_len, slice_get, slice_index_or, Some, ℕ};
ghost use Rattle.crossbeam_queue.specs.Passes.{view as known, IsPassOf};
ghost use Rattle.bd_ring.specs.SlotRule.{AddsOwn, BeginsWithEach, one_more, rows_of};
ghost use Rattle.bd_ring.specs.Slots.{Holder, holder, new_holders, AreHoldersOf, after_give, after_miss, IsTakenBy, WasAway};

use crate::slot_rule::{
    AddsPass, EndsPass, GivesValue, OneHolder, Opens, SlotView, TakesLast, TakesValue,
};
use bd_base::{Journaled, OutOfMemory};
use crossbeam_queue::{Pass, RuledArrayQueue};
use std::alloc::Global;
use std::marker::Model;
use std::sync::Wait;
use std::thread;

type Queue<R> = RuledArrayQueue<R, SlotView, OneHolder>;

/// A place for one value, seen as which slot it is.
#[derive(Drop)]
pub struct Slot<R: Journaled> {
    queue: RuledArrayQueue<R, SlotView, OneHolder>,
}

impl<R: Journaled> Model for Slot<R> {
    ghost use Rattle.std.specs.Prelude.{◌≡◌};
    ghost use Rattle.atomic_table.specs.Seated.{TableId};

    ghost Value = { TableId };

    ghost view = { λ s. s.queue.table.shared.table_id };

    ghost invariant = { λ s. s.queue.cap ≡ 1 };
}

/// A thread's right to borrow the value, seen as its slot, its thread, whether it has the value, the
/// journal that it last saw, the rows that it made, the start, and the counts of its tries that took the
/// value and of those that found it away, which begin again after 2^64 - 1; that of thread 0 also shows
/// how many passes there are.
#[derive(Drop)]
pub struct SlotPass<R> {
    pass: Pass<R, SlotView>,
    borrowed: u64,
    missed: u64,
}

impl<R> Model for SlotPass<R> {
    ghost use Rattle.std.specs.Prelude.{◌≡◌, []};
    ghost use Rattle.crossbeam_queue.specs.Passes.{view as known};
    ghost use Rattle.bd_ring.specs.Slots.{Holder, seen_as, IsSound};

    ghost Value = { Holder };

    ghost view = { λ s. seen_as s.pass.table_id s.borrowed s.missed (known s.pass) };

    ghost invariant = { λ s. (s.pass.me.1 ≡ []) × IsSound (known s.pass) };
}

/// A slot whose passes are being ended one by one, seen as which slot it is, how many passes there
/// are, the start, and the rows that the ended ones made, and those that they last saw.
#[derive(Drop)]
pub struct SlotSettling<R: Journaled> {
    queue: RuledArrayQueue<R, SlotView, OneHolder>,
    pass: Pass<R, SlotView>,
}

impl<R: Journaled> Model for SlotSettling<R> {
    ghost use Rattle.std.specs.Prelude.{◌≡◌};
    ghost use Rattle.crossbeam_queue.specs.Passes.{view as known, IsPassOf};
    ghost use Rattle.bd_ring.specs.Slots.{Ending, ending_as, IsEnding};

    ghost Value = { Ending };

    ghost view = { λ s. ending_as s.queue.table.shared.table_id (known s.pass) };

    ghost invariant = { λ s. IsPassOf s.queue s.pass × IsEnding (known s.pass) };
}

// The pass of one more thread.
fn next_pass<R: Journaled>(queue: &Queue<R>, pass: &mut Pass<R, SlotView>) -> SlotPass<R>
    requires queue { IsPassOf queue.now pass.old }
    requires leads { ((known pass.old).leads ≡ true) × ((known pass.old).opened ≡ true) × ((known pass.old).holds ≡ false)
        × ((known pass.old).ended ≡ []) × ((known pass.old).viewed ≡ []) × (0 < (known pass.old).made) }
    ensures queue { IsPassOf queue.now pass.new }
    ensures leads { known pass.new ≡ one_more (known pass.old) }
    ensures next { result ≡ holder queue.now.table.shared.table_id (known pass.old).start (known pass.old).made 0 }
{
    let pass = queue.another::<AddsPass>(pass);
    SlotPass {
        pass,
        borrowed: 0,
        missed: 0,
    }
}

// The pass of thread 0, and the others.
fn first_and_rest<R>(mut passes: Vec<SlotPass<R>>) -> (SlotPass<R>, Vec<SlotPass<R>>)
    requires { 0 < vec_len passes }
    ensures { passes.items ≡ result.0 ∷ result.1.items }
{
    let first = passes.remove(0);
    (first, passes)
}

impl<R: Drop + Journaled> Slot<R> {
    /// A slot with this value, and a pass for each thread, by number. Out of memory, the value is
    /// dropped.
    pub fn new<W: Wait>(
        rt: &W,
        alloc: Global,
        value: R,
        passes: u32,
    ) -> Result<(Slot<R>, Vec<SlotPass<R>>), OutOfMemory>
        requires some { 0 < passes }
        requires empty { R.journal value ≡ [] }
        ensures { IfOk result (λ r. r.1.items ≡ new_holders r.0 (R.start value) passes) }
    {
        let (queue, mut first) = RuledArrayQueue::ruled(alloc, 1)?;
        match queue.push_as::<Opens, W>(rt, &mut first, value) {
            Ok(()) => {}
            Err(_) => unreachable!(),
        }
        let mut all = Vec::new(alloc);
        for _number in 1..passes {
            all.push(next_pass(&queue, &mut first))?;
        }
        all.insert(
            0,
            SlotPass {
                pass: first,
                borrowed: 0,
                missed: 0,
            },
        )?;
        Ok((Slot { queue }, all))
    }

    /// Takes the value out of the slot. None where another pass has it, and then this pass is as
    /// before, but that it counts one more of these tries. It takes no memory.
    pub fn try_take<W: Wait>(&self, rt: &W, pass: &mut SlotPass<R>) -> Option<R>
        requires slot { pass.old.slot ≡ self.now }
        requires free { pass.old.holds ≡ false }
        ensures take { MatchOption result ((pass.new ≡ after_miss pass.old) × WasAway pass.old) (λ value. IsTakenBy pass.old (R.journal value) (R.start value) pass.new) }
        ensures alone { IfNone result (pass.old.thread ≡ 0 → 1 < pass.old.passes) }
    {
        match self.queue.pop_as::<TakesValue, W>(rt, &mut pass.pass) {
            Some(value) => {
                pass.borrowed = pass.borrowed.wrapping_add(1);
                Some(value)
            }
            None => {
                pass.missed = pass.missed.wrapping_add(1);
                None
            }
        }
    }

    /// Takes the value out of the slot, and waits until it is there. It takes no memory.
    pub fn take<W: Wait>(&self, rt: &W, pass: &mut SlotPass<R>) -> R
        requires slot { pass.old.slot ≡ self.now }
        requires free { pass.old.holds ≡ false }
        ensures { IsTakenBy (record pass.old { missed = pass.new.missed }) (R.journal result) (R.start result) pass.new }
    {
        for _ in rt.forever() {
            if let Some(value) = self.try_take(rt, pass) {
                return value;
            }
            thread::yield_now();
        }
        unreachable!()
    }

    /// Gives the value back to the slot, with the rows that this thread added. It is never refused,
    /// and takes no memory.
    pub fn give<W: Wait>(&self, rt: &W, pass: &mut SlotPass<R>, value: R)
        requires slot { pass.old.slot ≡ self.now }
        requires held { pass.old.holds ≡ true }
        requires start { R.start value ≡ pass.old.start }
        requires own { AddsOwn pass.old.thread pass.old.seen (R.journal value) }
        ensures { pass.new ≡ after_give pass.old (R.journal value) }
    {
        let Slot { queue } = self;
        match queue.push_as::<GivesValue, W>(rt, &mut pass.pass, value) {
            Ok(()) => {}
            Err(_) => unreachable!(),
        }
    }

    /// Ends all passes at once, and gives the value. It takes no memory.
    pub fn settle<W: Wait>(self, rt: &W, passes: Vec<SlotPass<R>>) -> R
        requires { AreHoldersOf self passes.items }
        ensures start { (p : Holder) → slice_get passes.items 0 ≡ Some p → R.start result ≡ p.start }
        ensures rows { (k : ℕ) (p : Holder) → slice_get passes.items k ≡ Some p → rows_of k (R.journal result) ≡ p.wrote }
        ensures others { (k : ℕ) → vec_len passes ≤ k → rows_of k (R.journal result) ≡ [] }
    {
        let (first, rest) = first_and_rest(passes);
        let mut settling = self.close(first);
        for other in rest {
            settling.absorb(other);
        }
        settling.finish(rt)
    }

    /// Begins to end the passes one by one, with that of thread 0. It takes no memory.
    pub fn close(self, first: SlotPass<R>) -> SlotSettling<R>
        requires slot { first.slot ≡ self }
        requires first { first.thread ≡ 0 }
        requires free { first.holds ≡ false }
        ensures { result ≡ record { slot = self; passes = first.passes; start = first.start; wrote = first.wrote ∷ []; seen = first.seen ∷ [] } }
    {
        let Slot { queue } = self;
        let SlotPass {
            pass,
            borrowed: _,
            missed: _,
        } = first;
        SlotSettling { queue, pass }
    }
}

impl<R: Drop + Journaled> SlotSettling<R> {
    /// Ends the next thread's pass. It takes no memory.
    pub fn absorb(&mut self, other: SlotPass<R>)
        requires slot { other.slot ≡ self.old.slot }
        requires next { other.thread ≡ length self.old.wrote }
        requires free { other.holds ≡ false }
        ensures { self.new ≡ record self.old { wrote = self.old.wrote ++ other.wrote ∷ []; seen = self.old.seen ++ other.seen ∷ [] } }
    {
        let SlotPass {
            pass,
            borrowed: _,
            missed: _,
        } = other;
        self.queue.absorb::<EndsPass>(&mut self.pass, pass);
    }

    /// Gives the value, once all passes have ended. It takes no memory.
    pub fn finish<W: Wait>(self, rt: &W) -> R
        requires { length self.wrote ≡ self.passes }
        ensures start { R.start result ≡ self.start }
        ensures rows { (k : ℕ) → k < length self.wrote → rows_of k (R.journal result) ≡ slice_index_or self.wrote k [] }
        ensures others { (k : ℕ) → length self.wrote ≤ k → rows_of k (R.journal result) ≡ [] }
        ensures seen { BeginsWithEach (R.journal result) self.seen }
    {
        let SlotSettling { queue, mut pass } = self;
        match queue.pop_as::<TakesLast, W>(rt, &mut pass) {
            Some(value) => value,
            None => unreachable!(),
        }
    }
}
