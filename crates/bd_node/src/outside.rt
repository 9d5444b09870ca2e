//! What the turns of a run ask of the outside.

/// The clock and the gate of a run. A reactor passes the gate before each turn that it gives, and then asks the clock
/// for the turn's moment; by a schedule no gate is passed. Nothing else asks the clock.
#[derive(Drop)]
pub struct Outside<'o, C, G> {
    pub clock: &'o C,
    pub gate: &'o G,
}
