//! The rule of a slot, and the kinds of step under it.
use bd_base::{Entry, Journaled, Start};
use crossbeam_queue::protocol::{Join, Lesson, Outcome, Protocol, Split};
use std::collections::LinkedList;

/// What a pass of a slot knows. Proofs alone have such values.
///
/// Every pass knows its thread, whether it has the value, the journal that it last saw, and the
/// rows that it made. The pass of thread 0 leads: it also knows how many passes there are, and what
/// those made and last saw that have ended.
pub struct SlotView {
    pub serves: bool,
    pub leads: bool,
    pub opened: bool,
    pub holds: bool,
    pub thread: u32,
    pub made: u64,
    pub start: Start,
    pub seen: LinkedList<Entry>,
    pub wrote: LinkedList<Entry>,
    pub ended: LinkedList<LinkedList<Entry>>,
    pub viewed: LinkedList<LinkedList<Entry>>,
}

/// The value is in the slot or with one pass, and of each thread its journal has the rows that the
/// thread's pass made.
pub struct OneHolder;

impl<R: Journaled> Protocol<R, SlotView> for OneHolder {
    ghost use Rattle.bd_ring.specs.SlotRule.{SlotRule, newcomer};

    ghost holds = { SlotRule R.journal R.start };

    ghost first = { newcomer };
}

/// The first give, by which the value comes into the new slot.
pub struct Opens;

impl<R: Journaled> Outcome<R, SlotView> for Opens {
    ghost use Rattle.std.specs.Prelude.{◌≡◌};
    ghost use Rattle.bd_ring.specs.SlotRule.{opened_at};

    ghost then = { λ v x w. w ≡ opened_at (R.start x) };
}

impl<R> Lesson<R, SlotView> for Opens {
    ghost use Rattle.std.specs.Prelude.{◌≡◌, []};

    ghost fact = { λ v items. items ≡ [] };
}

/// A split: the leading pass makes that of one more thread.
pub struct AddsPass;

impl Split<SlotView> for AddsPass {
    ghost use Rattle.bd_ring.specs.SlotRule.{one_more, server};

    ghost left = { one_more };

    ghost right = { λ v. server v.made v.start };
}

/// A take: the value goes from the slot to the pass. Where it is not there, another pass has it.
pub struct TakesValue;

impl<R: Journaled> Outcome<R, SlotView> for TakesValue {
    ghost use Rattle.bd_ring.specs.SlotRule.{IsTaken};

    ghost then = { λ v x w. IsTaken v (R.journal x) (R.start x) w };
}

impl<R> Lesson<R, SlotView> for TakesValue {
    ghost use Rattle.std.specs.Prelude.{◌≡◌, length};
    ghost use Rattle.bd_ring.specs.SlotRule.{IsAway};

    ghost fact = { λ v items. length items ≡ 0 → IsAway v };
}

/// A give: the value goes back into the slot, which is empty.
pub struct GivesValue;

impl<R: Journaled> Outcome<R, SlotView> for GivesValue {
    ghost use Rattle.std.specs.Prelude.{◌≡◌};
    ghost use Rattle.bd_ring.specs.SlotRule.{after_give};

    ghost then = { λ v x w. w ≡ after_give v (R.journal x) };
}

impl<R> Lesson<R, SlotView> for GivesValue {
    ghost use Rattle.std.specs.Prelude.{◌≡◌, []};

    ghost fact = { λ v items. items ≡ [] };
}

/// A join: a thread's pass ends, and the leading one keeps the rows that it made and those that it saw.
pub struct EndsPass;

impl Join<SlotView> for EndsPass {
    ghost use Rattle.bd_ring.specs.SlotRule.{with_ended, nobody};

    ghost both = { with_ended };

    ghost spent = { nobody };
}

/// The last take, once all other passes have ended: the value is there.
pub struct TakesLast;

impl<R: Journaled> Outcome<R, SlotView> for TakesLast {
    ghost use Rattle.bd_ring.specs.SlotRule.{IsLast};

    ghost then = { λ v x w. IsLast v (R.journal x) (R.start x) };
}

impl<R> Lesson<R, SlotView> for TakesLast {
    ghost use Rattle.std.specs.Prelude.{◌≡◌, length};

    ghost fact = { λ v items. length items ≡ 1 };
}
