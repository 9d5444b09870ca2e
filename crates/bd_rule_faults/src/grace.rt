//! Grace and Due: how long a soft freeze mark lasts, and that it becomes hard.
ghost use Rattle.std.specs.Prelude.{◌≡◌, OnOk};
ghost use Rattle.bd_machine.specs.Grace.{dev_if_any, ended, ending_mark, guards_due, guards_grace, has_come, has_ended, is_ending, is_mark_due, least_until, may_grace, may_last, remarked_if_any, softened, time_of_mark, until_of};
ghost use Rattle.bd_machine.specs.Marks.{frozen_until, hardened, with_until};
ghost use Rattle.bd_machine.specs.Step.{first_failing};

use crate::limits::seen_at;
use bd_base::{DevId, OutOfMemory, WalkId};
use bd_machine::guard::{GRACE_DUE, MARK_DUE};
use bd_machine::{FreezeMark, Marking, Part, Prior};
use bd_rule_requests::marking_of;
use bd_rule_view::{Sees, same_walk};
use bd_rule_walks::{hardened, remark};

// ---- Grace

// The device whose soft mark of this walk the thread's entry before set.
fn softened(walk: WalkId, prior: Option<Prior>) -> Option<DevId>
    ensures { result ≡ softened walk prior }
{
    match prior {
        Some(Prior::Softening { walk: w, dev }) => same_walk(w, walk).then_some(dev),
        _ => None,
    }
}

// The drain time of a soft mark (microseconds); 0 of any other.
fn time_of_mark(mark: FreezeMark) -> u64
    ensures { result ≡ time_of_mark mark }
{
    match mark {
        FreezeMark::Soft { time, .. } => time,
        _ => 0,
    }
}

// The least moment until which the device's soft mark may last.
fn least_until(part: &Part, dev: DevId) -> u64
    ensures { result ≡ least_until part.now dev }
{
    let time = time_of_mark(marking_of(part, dev).frozen);
    part.moments.last.saturating_add(time)
}

fn may_last(part: &Part, until: u64, dev: Option<DevId>) -> bool
    ensures { result ≡ may_last part.now until dev }
{
    match dev {
        Some(dev) => least_until(part, dev) <= until,
        None => false,
    }
}

/// Whether the thread's entry before set the soft mark of this walk, and its drain time may last until then
/// (microseconds).
pub fn may_grace(part: &Part, walk: WalkId, until: u64) -> bool
    ensures { result ≡ may_grace part.now walk until }
{
    may_last(part, until, softened(walk, part.prior))
}

/// Why a Grace isn't allowed.
pub fn refused_grace<S: Sees>(seen: &S, walk: WalkId, until: u64) -> Option<u32>
    ensures { result ≡ first_failing (guards_grace (S.view_of seen.now) walk until) }
{
    if may_grace(seen.part(), walk, until) {
        None
    } else {
        Some(GRACE_DUE)
    }
}

fn frozen_until(until: u64, mark: FreezeMark) -> FreezeMark
    ensures { result ≡ frozen_until until mark }
{
    match mark {
        FreezeMark::Soft { walk, time, .. } => FreezeMark::Soft {
            walk,
            time,
            until: Some(until),
        },
        _ => mark,
    }
}

fn with_until(until: u64, marking: Marking) -> Marking
    ensures { result ≡ with_until until marking }
{
    let mut lasting = marking;
    lasting.frozen = frozen_until(until, marking.frozen);
    lasting
}

/// The soft mark of this walk, which the thread's entry before set, lasts until then (microseconds). Out of memory
/// leaves the part unspecified.
pub fn set_grace(part: &mut Part, walk: WalkId, until: u64) -> Result<(), OutOfMemory>
    ensures { OnOk result (part.new ≡ remarked_if_any (softened walk part.old.prior) (with_until until) part.old) }
{
    match softened(walk, part.prior) {
        Some(dev) => {
            let lasting = with_until(until, marking_of(part, dev));
            remark(part, dev, lasting)
        }
        None => Ok(()),
    }
}

// ---- Due

// The moment until which a soft mark of this walk lasts (microseconds), once the thread named it.
fn until_of(walk: WalkId, mark: FreezeMark) -> Option<u64>
    ensures { result ≡ until_of walk mark }
{
    match mark {
        FreezeMark::Soft { walk: w, until, .. } => { if same_walk(w, walk) { until } else { None } }
        _ => None,
    }
}

fn is_ending(walk: WalkId, row: &(DevId, Marking)) -> bool
    ensures { result ≡ is_ending walk row.now }
{
    until_of(walk, row.1.frozen).is_some()
}

// The soft mark of this walk that stands until some moment, with its device.
fn ending_mark(part: &Part, walk: WalkId) -> Option<(DevId, Marking)>
    ensures { result ≡ ending_mark part.now walk }
{
    part.marked
        .as_slice()
        .iter()
        .copied()
        .find(|row| is_ending(walk, row))
}

fn has_come(now: u64, until: Option<u64>) -> bool
    ensures { result ≡ has_come now until }
{
    match until {
        Some(until) => until <= now,
        None => false,
    }
}

fn has_ended(walk: WalkId, now: u64, row: Option<(DevId, Marking)>) -> bool
    ensures { result ≡ has_ended walk now row }
{
    match row {
        Some(row) => has_come(now, until_of(walk, row.1.frozen)),
        None => false,
    }
}

/// Whether the soft mark of this walk stands on the thread, and its moment has come by now (microseconds).
pub fn is_mark_due(part: &Part, walk: WalkId, now: u64) -> bool
    ensures { result ≡ is_mark_due part.now walk now }
{
    has_ended(walk, now, ending_mark(part, walk)) && part.moments.last <= now
}

/// Why a Due isn't allowed.
pub fn refused_due<S: Sees>(seen: &S, walk: WalkId, now: u64) -> Option<u32>
    ensures { result ≡ first_failing (guards_due (S.view_of seen.now) walk now) }
{
    if is_mark_due(seen.part(), walk, now) {
        None
    } else {
        Some(MARK_DUE)
    }
}

// The mark of this row's device, where there is a row, is hard from now on.
fn make_hard(part: &mut Part, row: Option<(DevId, Marking)>) -> Result<(), OutOfMemory>
    ensures { OnOk result (part.new ≡ remarked_if_any (dev_if_any row) hardened part.old) }
{
    match row {
        Some((dev, _)) => {
            let hard = hardened(marking_of(part, dev))?;
            remark(part, dev, hard)
        }
        None => Ok(()),
    }
}

/// The soft mark of this walk becomes hard at this moment (microseconds). Out of memory leaves the part unspecified.
pub fn harden(part: &mut Part, walk: WalkId, now: u64) -> Result<(), OutOfMemory>
    ensures { OnOk result (part.new ≡ ended walk now part.old) }
{
    let moments = part.moments;
    make_hard(part, ending_mark(part, walk))?;
    part.moments = seen_at(now, moments);
    Ok(())
}
