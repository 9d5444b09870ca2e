//! The law of the registry's rows. Its function has an empty body, and its clause is the law.
ghost use Rattle.bd_registry.specs.Laws.{RowsAreEnough};

/// Setups with the same threads, devices, rates and injections have the same registry: at the start,
/// in what it answers, in what an answer changes, in what is a replay, and in what a journal leaves.
/// So it is of a setup and its rows.
pub fn rows_are_enough()
    ensures { RowsAreEnough }
{}
