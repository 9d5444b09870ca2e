//! Where reactors may be held.

/// A gate, which each reactor passes before a turn. It may hold the caller, and answers nothing.
pub trait Gate {
    /// Passes before a turn of a round. Rounds are numbered from 1, and a round's number stays at
    /// u64::MAX once it is there. A reactor's turns in a round are numbered from 1 in order, and
    /// numbers may be left out: a thread whose turn was quiet has no further ones in that round.
    fn pass(&self, reactor: u32, round: u64, turn: u32);
}

/// A gate that lets everyone pass at once.
#[derive(Clone, Copy, PartialEq, Eq)]
pub struct OpenGate;

impl Gate for OpenGate {
    fn pass(&self, _reactor: u32, _round: u64, _turn: u32) {}
}
