//! What a turn did, taken over into the thread's own log and into the registry that it was lent.
ghost use Rattle.std.specs.Prelude.{◌≡◌, ◌+◌, ◌<◌, ◌≤◌, ◌∷◌, [], ◌++◌, true, false, length, is_some, IfErr, IfOk, OnOk};
ghost use Rattle.std.specs.List.{AllByRecursion};
ghost use Rattle.bd_law_threads.specs.Course.{acts_of, restamped};
ghost use Rattle.bd_log.specs.Log.{entry_of};
ghost use Rattle.bd_machine.specs.Step.{is_shutdown};
ghost use Rattle.bd_machine.specs.View.{asked};
ghost use Rattle.bd_law_logs.specs.Journals.{events, IsAnswered, IsReplay};
ghost use Rattle.bd_seat.specs.Causes.{IsCause};
ghost use Rattle.bd_seat.specs.Taking.{is_event_act, AppendsAlone, TakesOver};

use crate::seat_error::SeatError;
use bd_base::{Act, Entry, Rows};
use bd_log::{Log, LogError};
use bd_registry::Registry;
use std::alloc::Global;
use std::collections::VecDeque;

// Whether the act asks the registry.
fn asks(act: &Act) -> bool
    ensures { result ≡ is_some (asked act.now) }
{
    matches!(act, Act::Reg { .. })
}

// Appends an act to the log, with the stamp after its last.
#[tactic(auto, using(crate::proofs::Causes::not_spent))]
fn push(log: &mut Log, act: Act) -> Result<(), SeatError>
    ensures entries { OnOk result (log.new.entries ≡ log.old.entries ++ entry_of log.old act ∷ []) }
    ensures last { OnOk result (log.new.last ≡ log.old.last + 1) }
    ensures thread { log.new.thread ≡ log.old.thread }
    ensures cause { IfErr result (λ error. IsCause error log.new.last) }
    ensures stamps { log.new.last ≤ log.old.last + 1 }
{
    match log.push(act) {
        Ok(_) => Ok(()),
        Err(LogError::OutOfMemory) => Err(SeatError::OutOfMemory),
        Err(LogError::StampsSpent(_)) => Err(SeatError::StampsSpent),
    }
}

// The registry answers the event of an entry as the entry says, with the stamp that it has in the log.
fn take_over_event(
    alloc: Global,
    me: u32,
    log: &mut Log,
    registry: &mut Registry,
    act: Act,
) -> Result<(), SeatError>
    requires me { me ≡ log.old.thread }
    requires last { registry.old.last ≤ log.old.last }
    requires asks { is_some (asked act) ≡ true }
    requires answered { IsAnswered registry.old.setup registry.old.state me (asked act) }
    ensures taken { OnOk result (TakesOver log.old registry.old (restamped log.old.thread log.old.last (act ∷ [])) log.new registry.new) }
    ensures cause { IfErr result (λ error. IsCause error log.new.last) }
    ensures stamps { log.new.last ≤ log.old.last + 1 }
{
    let Act::Reg { event, answer } = act else {
        unreachable!()
    };
    let last = log.last();
    if last == u128::MAX {
        return Err(SeatError::StampsSpent);
    }
    let _given = registry.event(alloc, me, last + 1, &event)?;
    push(log, Act::Reg { event, answer })?;
    Ok(())
}

// An act is taken over: where it asks the registry, the registry answers it too.
#[tactic(auto, using(crate::proofs::TakenOver::takes_act))]
fn take_over_one(
    alloc: Global,
    me: u32,
    log: &mut Log,
    registry: &mut Registry,
    act: Act,
) -> Result<(), SeatError>
    requires me { me ≡ log.old.thread }
    requires last { registry.old.last ≤ log.old.last }
    requires no_shutdown { is_shutdown act ≡ false }
    requires answered { IsAnswered registry.old.setup registry.old.state me (asked act) }
    ensures taken { OnOk result (TakesOver log.old registry.old (restamped log.old.thread log.old.last (act ∷ [])) log.new registry.new) }
    ensures cause { IfErr result (λ error. IsCause error log.new.last) }
    ensures stamps { log.new.last ≤ log.old.last + 1 }
{
    if asks(&act) {
        return take_over_event(alloc, me, log, registry, act);
    }
    push(log, act)?;
    Ok(())
}

/// Takes over what a turn of the log's thread did: each act is appended to the log, with the next stamp,
/// and the registry, which the thread was lent, answers each event among them, with the stamp that it has
/// in the log. The entries are this thread's, none is a Shutdown, and from what the registry is they name
/// its answers; their own stamps don't matter. Where memory or stamps run out a prefix may have been taken
/// over, and the thread has to halt.
pub fn take_over(
    alloc: Global,
    me: u32,
    log: &mut Log,
    registry: &mut Registry,
    entries: Rows<Entry>,
) -> Result<(), SeatError>
    requires me { me ≡ log.old.thread }
    requires last { registry.old.last ≤ log.old.last }
    requires threads { AllByRecursion (λ e. e.thread ≡ me) entries }
    requires no_shutdown { AllByRecursion (λ e. is_shutdown e.act ≡ false) entries }
    requires replay { IsReplay registry.old.setup registry.old.state entries }
    ensures taken { OnOk result (TakesOver log.old registry.old (restamped log.old.thread log.old.last (acts_of entries)) log.new registry.new) }
    ensures cause { IfErr result (λ error. IsCause error log.new.last) }
    ensures stamps { log.new.last ≤ log.old.last + length entries }
{
    let mut left = VecDeque::from(entries.into_vec());
    while let Some(entry) = left.pop_front() {
        take_over_one(alloc, me, log, registry, entry.act)?;
    }
    Ok(())
}

// An act that isn't an event is appended to the log.
#[tactic(auto, using(crate::proofs::TakenOver::alone_one))]
fn append_alone(log: &mut Log, act: Act) -> Result<(), SeatError>
    requires { is_event_act act ≡ false }
    ensures appended { OnOk result (AppendsAlone log.old (restamped log.old.thread log.old.last (act ∷ [])) log.new) }
    ensures cause { IfErr result (λ error. IsCause error log.new.last) }
    ensures stamps { log.new.last ≤ log.old.last + 1 }
{
    push(log, act)?;
    Ok(())
}

// Each act is appended to the log, with the next stamp, one after the other: so a part of them where the stamps don't
// suffice for all.
fn append_each(log: &mut Log, entries: Rows<Entry>) -> Result<Rows<Entry>, SeatError>
    requires none_asks { events entries ≡ [] }
    ensures appended { OnOk result (AppendsAlone log.old (restamped log.old.thread log.old.last (acts_of entries)) log.new) }
    ensures left { IfOk result (λ left. left ≡ []) }
    ensures cause { IfErr result (λ error. IsCause error log.new.last) }
    ensures stamps { log.new.last ≤ log.old.last + length entries }
{
    let mut left = VecDeque::from(entries.into_vec());
    while let Some(entry) = left.pop_front() {
        append_alone(log, entry.act)?;
    }
    Ok(Rows::from_vec(Vec::from(left)))
}

// The acts are appended to the log at once. There are some, and the stamps suffice for them.
#[tactic(auto, using(crate::proofs::Stamped::alone_all))]
fn append_many(log: &mut Log, entries: Rows<Entry>) -> Result<Rows<Entry>, SeatError>
    requires none_asks { events entries ≡ [] }
    requires some { 0 < length entries }
    requires stamps { log.old.last + length entries ≤ u128.MAX }
    ensures appended { OnOk result (AppendsAlone log.old (restamped log.old.thread log.old.last (acts_of entries)) log.new) }
    ensures left { IfOk result (λ left. left ≡ []) }
    ensures cause { IfErr result (λ error. IsCause error log.new.last) }
    ensures stamps { log.new.last ≤ log.old.last + length entries }
{
    match log.push_all(entries.into_vec()) {
        Ok(left) => Ok(Rows::from_vec(left)),
        Err(LogError::OutOfMemory) => Err(SeatError::OutOfMemory),
        Err(LogError::StampsSpent(_)) => Err(SeatError::StampsSpent),
    }
}

/// Takes over what a turn without the registry did: each act is appended to the log, with the next stamp.
/// None of the entries asks the registry or is a Shutdown; their own stamps don't matter. It answers the list that they
/// were in, without them but with its memory. Where memory or stamps run out a prefix may have been taken over, and the
/// thread has to halt.
pub fn append_all(log: &mut Log, entries: Rows<Entry>) -> Result<Rows<Entry>, SeatError>
    requires none_asks { events entries ≡ [] }
    ensures appended { OnOk result (AppendsAlone log.old (restamped log.old.thread log.old.last (acts_of entries)) log.new) }
    ensures left { IfOk result (λ left. left ≡ []) }
    ensures cause { IfErr result (λ error. IsCause error log.new.last) }
    ensures stamps { log.new.last ≤ log.old.last + length entries }
{
    if entries.len() == 0 {
        return Ok(entries);
    }
    if log.last().checked_add(entries.len() as u128).is_none() {
        return append_each(log, entries);
    }
    append_many(log, entries)
}
