//! The rule of a ring, and the kinds of step under it.
use crate::letter::Letter;
use bd_turns::Post;
use crossbeam_queue::protocol::{Join, Lesson, Outcome, Protocol, Split};
use std::collections::LinkedList;

/// What a pass of a ring knows. Proofs alone have such values.
///
/// Each pass knows how many senders the ring is for. The receiver's also knows how many of them were
/// made, what those put that have ended, and what was taken; a sender's its number and what it put.
pub struct View {
    pub senders: u64,
    pub receives: bool,
    pub made: u64,
    pub ended: LinkedList<LinkedList<Post>>,
    pub taken: LinkedList<Post>,
    pub sends: bool,
    pub from: u32,
    pub put: LinkedList<Post>,
}

/// Of each sender, what was taken and then what the ring holds is what it put, in its order.
pub struct KeepsOrder;

impl Protocol<Letter, View> for KeepsOrder {
    ghost use Rattle.std.specs.Prelude.{[]};
    ghost use Rattle.bd_ring.specs.RingRule.{RingRule, receiver};

    ghost holds = { RingRule };

    ghost first = { receiver 0 0 [] [] };
}

/// A split, before any sender is made: the ring is for one sender more. The other pass is nobody's.
pub struct CountsSender;

impl Split<View> for CountsSender {
    ghost use Rattle.std.specs.Prelude.{◌+◌};
    ghost use Rattle.bd_ring.specs.RingRule.{receiver, nobody};

    ghost left = { λ v. receiver (v.senders + 1) v.made v.ended v.taken };

    ghost right = { λ v. nobody };
}

/// A split: the receiver's pass makes that of the next sender.
pub struct AddsSender;

impl Split<View> for AddsSender {
    ghost use Rattle.std.specs.Prelude.{[], ◌+◌};
    ghost use Rattle.bd_ring.specs.RingRule.{receiver, sender};

    ghost left = { λ v. receiver v.senders (v.made + 1) v.ended v.taken };

    ghost right = { λ v. sender v.senders v.made [] };
}

/// A join: a sender ends, and the receiver's pass keeps what it put.
pub struct EndsSender;

impl Join<View> for EndsSender {
    ghost use Rattle.std.specs.Prelude.{[], ◌∷◌, ◌++◌};
    ghost use Rattle.bd_ring.specs.RingRule.{receiver, nobody};

    ghost both = { λ v w. receiver v.senders v.made (v.ended ++ w.put ∷ []) v.taken };

    ghost spent = { nobody };
}

/// A put: the message comes after all that the ring holds. Where it is full, it holds messages of
/// its senders alone, and of this one the last that it put.
pub struct Puts;

impl Outcome<Letter, View> for Puts {
    ghost use Rattle.std.specs.Prelude.{◌≡◌};
    ghost use Rattle.bd_ring.specs.RingRule.{after_put};

    ghost then = { λ v x w. w ≡ after_put v x };
}

impl Lesson<Letter, View> for Puts {
    ghost use Rattle.bd_ring.specs.RingRule.{HoldsLast};

    ghost fact = { HoldsLast };
}

/// A take: the message that stood first leaves.
pub struct Takes;

impl Outcome<Letter, View> for Takes {
    ghost use Rattle.bd_ring.specs.RingRule.{IsTaken};

    ghost then = { IsTaken };
}

impl Lesson<Letter, View> for Takes {
    ghost use Rattle.bd_ring.specs.RingRule.{Delivers};

    ghost fact = { Delivers };
}

/// A take after all senders have ended, which also tells what was left of them.
pub struct TakesRest;

impl Outcome<Letter, View> for TakesRest {
    ghost use Rattle.bd_ring.specs.RingRule.{IsNext};

    ghost then = { IsNext };
}

impl Lesson<Letter, View> for TakesRest {
    ghost use Rattle.bd_ring.specs.RingRule.{Delivers};

    ghost fact = { Delivers };
}
