//! A registry that follows another one, by the rows of the other's journal.
ghost use Rattle.std.specs.Prelude.{◌≡◌, ◌≤◌, ◌+◌, ◌-◌, length, take, IfErr, OnOk};
ghost use Rattle.bd_machine.specs.Start.{registry_at_start};
ghost use Rattle.bd_machine.specs.View.{asked};
ghost use Rattle.bd_law_logs.specs.Journals.{registry_by, registry_next, IsAnswered, IsReplay};
ghost use Rattle.bd_registry.specs.State.{start_of};
ghost use Rattle.bd_seat.specs.Causes.{IsCause};

use crate::seat_error::SeatError;
use bd_base::{Act, Entry};
use bd_registry::Registry;
use std::alloc::Global;

// The replica answers the event of a row, if it is one.
fn follow_row(alloc: Global, replica: &mut Registry, row: &Entry) -> Result<(), SeatError>
    requires { IsAnswered replica.old.setup replica.old.state row.now.thread (asked row.now.act) }
    ensures setup { replica.new.setup ≡ replica.old.setup }
    ensures state { OnOk result (replica.new.state ≡ registry_next replica.old.setup replica.old.state row.now) }
    ensures cause { IfErr result (λ error. IsCause error replica.new.last) }
    ensures stamps { replica.new.last ≤ replica.old.last + 1 }
{
    let Act::Reg { event, .. } = &row.act else {
        return Ok(());
    };
    let last = replica.last_stamp();
    if last == u128::MAX {
        return Err(SeatError::StampsSpent);
    }
    replica.event(alloc, row.thread, last + 1, event)?;
    Ok(())
}

/// The replica answers the events of these rows, in order, whichever threads they are of; what it has then
/// is what the rows leave of what it had. Its own journal has them with stamps of its own. Where memory or
/// these stamps run out it has followed a prefix of the rows.
pub fn follow(alloc: Global, replica: &mut Registry, rows: &[Entry]) -> Result<(), SeatError>
    requires { IsReplay replica.old.setup replica.old.state rows.now }
    ensures setup { replica.new.setup ≡ replica.old.setup }
    ensures state { OnOk result (replica.new.state ≡ registry_by replica.old.setup replica.old.state rows.now) }
    ensures cause { IfErr result (λ error. IsCause error replica.new.last) }
    ensures stamps { replica.new.last ≤ replica.old.last + length rows.now }
{
    for row in rows {
        follow_row(alloc, replica, row)?;
    }
    Ok(())
}

/// The replica, which begins as the lent registry does and is what the first rows of its journal leave,
/// this many, becomes what all of them leave: what the lent registry is. Where memory or stamps run out as `follow`.
pub fn catch_up(
    alloc: Global,
    replica: &mut Registry,
    lent: &Registry,
    seen: usize,
) -> Result<(), SeatError>
    requires start { start_of replica.old.setup ≡ start_of lent.now.setup }
    requires seen { seen ≤ length lent.now.journal }
    requires state { replica.old.state ≡ registry_by replica.old.setup (registry_at_start replica.old.setup) (take seen lent.now.journal) }
    ensures setup { replica.new.setup ≡ replica.old.setup }
    ensures state { OnOk result (replica.new.state ≡ lent.now.state) }
    ensures cause { IfErr result (λ error. IsCause error replica.new.last) }
    ensures stamps { replica.new.last ≤ replica.old.last + (length lent.now.journal - seen) }
{
    let rows = lent.journal();
    follow(alloc, replica, &rows[seen..])
}
