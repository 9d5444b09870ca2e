//! Drain times: until when a soft freeze mark lasts here, and that it becomes hard then.
ghost use Rattle.std.specs.Prelude.{◌≡◌, ◌<◌, true, find, None, vec_len, IfOk, OnOk};
ghost use Rattle.std.specs.List.{list_any};
ghost use Rattle.bd_machine.specs.Grace.{is_mark_due};
ghost use Rattle.bd_thread.specs.Acted.{Acted};
ghost use Rattle.bd_thread.specs.Grace.{ended_walk, grace_until, is_due, lasts, lasts_at, lasts_for, least, next_due, soonest, until_of, Graces, Hardens, IsHardened, NoDue};
ghost use Rattle.bd_thread.specs.Requests.{KeepsTickets};
ghost use Rattle.bd_thread.specs.Waits.{Idles};
ghost use Rattle.bd_thread.specs.Work.{AsksNothing};

use crate::links::Links;
use crate::thread::Thread;
use bd_base::{AbortCause, Act, DevId, OutOfMemory, WalkId};
use bd_machine::{FreezeMark, Marking, Part};
use bd_rule_faults::{harden, is_mark_due, may_grace, set_grace};

// The walk of a soft mark that lasts until this moment or one before it.
fn ended_walk(now: u64, mark: FreezeMark) -> Option<WalkId>
    ensures { result ≡ ended_walk now mark }
{
    match mark {
        FreezeMark::Soft {
            walk,
            until: Some(until),
            ..
        } if until <= now => Some(walk),
        _ => None,
    }
}

// Whether the rules let the mark of this row become hard at this moment.
fn is_due(part: &Part, now: u64, row: &(DevId, Marking)) -> bool
    ensures { result ≡ is_due part.now now row.now }
{
    match ended_walk(now, row.1.frozen) {
        Some(walk) => is_mark_due(part, walk, now),
        None => false,
    }
}

// The first device whose mark the rules let become hard at this moment, with that mark.
fn due_row(part: &Part, now: u64) -> Option<(DevId, Marking)>
    ensures { result ≡ find (is_due part.now now) part.now.marked }
{
    part.marked
        .as_slice()
        .iter()
        .copied()
        .find(|row| is_due(part, now, row))
}

// The same, with the walk that set the mark.
fn next_due(part: &Part, now: u64) -> Option<(DevId, WalkId)>
    ensures { result ≡ next_due part.now now }
{
    let (dev, marking) = due_row(part, now)?;
    let walk = ended_walk(now, marking.frozen)?;
    Some((dev, walk))
}

// Whether a mark is soft and lasts until some moment.
fn lasts(mark: &FreezeMark) -> bool
    ensures { result ≡ lasts mark.now }
{
    matches!(mark, FreezeMark::Soft { until: Some(_), .. })
}

// Whether one of these marks is soft and lasts until some moment.
fn any_lasts(marked: &[(DevId, Marking)]) -> bool
    ensures { result ≡ list_any lasts_at marked.now }
{
    for row in marked {
        if lasts(&row.1.frozen) {
            return true;
        }
    }
    false
}

// The moment until which a soft mark lasts, once the thread named it.
fn until_of(mark: FreezeMark) -> Option<u64>
    ensures { result ≡ until_of mark }
{
    match mark {
        FreezeMark::Soft { until, .. } => until,
        _ => None,
    }
}

// The lesser of two moments, either of which may be missing.
fn least(first: Option<u64>, second: Option<u64>) -> Option<u64>
    ensures { result ≡ least first second }
{
    match (first, second) {
        (Some(a), Some(b)) => Some(a.min(b)),
        (Some(a), None) => Some(a),
        (None, other) => other,
    }
}

// The least moment until which one of these marks lasts.
fn soonest(marked: &[(DevId, Marking)]) -> Option<u64>
    ensures { result ≡ soonest None marked.now }
{
    let mut first = None;
    for row in marked {
        first = least(first, until_of(row.1.frozen));
    }
    first
}

impl<'a> Thread<'a> {
    // The turn's moment with a drain time (microseconds), at most the greatest moment.
    fn grace_until(&self, time: u64) -> u64
        ensures { result ≡ grace_until self.now time }
    {
        self.time.moment().saturating_add(time)
    }

    /// Where the thread's entry before is the visit of this walk that set a soft mark, that lasts until the turn's moment
    /// with the drain time (microseconds) that the walk brings, at most until the greatest moment. Else nothing changes.
    pub(crate) fn grace(
        &mut self,
        links: &mut Links,
        walk: WalkId,
        time: u64,
    ) -> Result<(), OutOfMemory>
        ensures acted { OnOk result (Acted self.old links.old self.new links.new) }
        ensures tickets { OnOk result (KeepsTickets self.old → KeepsTickets self.new) }
        ensures graces { OnOk result (Graces walk time self.old links.old self.new links.new) }
    {
        let until = self.grace_until(time);
        let may = may_grace(&self.part, walk, until);
        if !may {
            return Ok(());
        }
        set_grace(&mut self.part, walk, until)?;
        self.note(links, Act::Grace { walk, until })?;
        Ok(())
    }

    // The soft mark of this walk, which may become hard at the turn's moment, does.
    fn end_mark(&mut self, links: &mut Links, walk: WalkId) -> Result<(), OutOfMemory>
        requires { is_mark_due self.old.part walk self.old.time.moment ≡ true }
        ensures acted { OnOk result (Acted self.old links.old self.new links.new) }
        ensures tickets { OnOk result (KeepsTickets self.old → KeepsTickets self.new) }
        ensures hardened { OnOk result (IsHardened walk self.old links.old self.new links.new) }
    {
        let now = self.time.moment();
        harden(&mut self.part, walk, now)?;
        self.note(links, Act::Due { walk, now })?;
        Ok(())
    }

    // The first soft mark whose moment is there becomes hard, and stops what waits here for its device: true. Else nothing
    // changes.
    fn harden_next(&mut self, links: &mut Links) -> Result<bool, OutOfMemory>
        requires { self.old.me < vec_len links.old.queues }
        ensures acted { OnOk result (Acted self.old links.old self.new links.new) }
        ensures tickets { OnOk result (KeepsTickets self.old → KeepsTickets self.new) }
        ensures hardens { IfOk result (Hardens self.old links.old self.new links.new) }
        ensures quiet { OnOk result (Idles NoDue self.old links.old self.new links.new) }
        ensures alone { OnOk result (AsksNothing links.old links.new) }
    {
        let now = self.time.moment();
        let Some(due) = next_due(&self.part, now) else {
            return Ok(false);
        };
        self.end_mark(links, due.1)?;
        self.stop_all(links, due.0, AbortCause::Frozen(due.0))?;
        Ok(true)
    }

    // The same as `harden_all`, whatever marks there are.
    fn harden_due(&mut self, links: &mut Links) -> Result<(), OutOfMemory>
        requires { self.old.me < vec_len links.old.queues }
        ensures acted { OnOk result (Acted self.old links.old self.new links.new) }
        ensures tickets { OnOk result (KeepsTickets self.old → KeepsTickets self.new) }
        ensures quiet { OnOk result (Idles NoDue self.old links.old self.new links.new) }
        ensures alone { OnOk result (AsksNothing links.old links.new) }
    {
        for _round in 0..self.part.marked.len() {
            if !self.harden_next(links)? {
                break;
            }
        }
        Ok(())
    }

    /// Each soft mark whose moment is there at the turn's becomes hard, one after another, and stops what waits here for
    /// its device, in the lines of limited devices too.
    pub(crate) fn harden_all(&mut self, links: &mut Links) -> Result<(), OutOfMemory>
        requires { self.old.me < vec_len links.old.queues }
        ensures acted { OnOk result (Acted self.old links.old self.new links.new) }
        ensures tickets { OnOk result (KeepsTickets self.old → KeepsTickets self.new) }
        ensures quiet { OnOk result (Idles NoDue self.old links.old self.new links.new) }
        ensures alone { OnOk result (AsksNothing links.old links.new) }
    {
        // Every turn comes here, and hardly any finds such a mark.
        if !any_lasts(self.part.marked.as_slice()) {
            return Ok(());
        }
        self.harden_due(links)
    }

    /// For how many microseconds from the moment of its turn on the first of its soft marks lasts; none where it has none
    /// that lasts until some moment.
    pub fn softened_for(&self) -> Option<u64>
        ensures { result ≡ lasts_for self.now }
    {
        let until = soonest(self.part.marked.as_slice())?;
        Some(until.saturating_sub(self.time.moment()))
    }
}
