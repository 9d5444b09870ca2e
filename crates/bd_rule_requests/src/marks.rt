//! The freeze and removal marks of devices on a thread.
ghost use Rattle.std.specs.Prelude.{◌≡◌};
ghost use Rattle.std.specs.List.{list_any};
ghost use Rattle.bd_machine.specs.Marks.{freezes_here, has_any_mark, has_mark, is_frozen, is_hard_mark, is_marked, is_removed, is_removed_below, is_soft_mark, late_of, marking_of, stops_here};
ghost use Rattle.bd_rule_requests.specs.Marks.{carries_any, carries_mark, freezes};

use bd_base::{DevId, DevSet, Setup};
use bd_blocks::below;
use bd_machine::{FreezeMark, Marking, OpenRequest, Part};

const UNMARKED: Marking = Marking {
    frozen: FreezeMark::Not,
    removed: false,
    times: 0,
};

/// The marks of a device on the thread, and how often one of them was set that stops all; none at first.
pub fn marking_of(part: &Part, dev: DevId) -> Marking
    ensures { result ≡ marking_of part.now dev }
{
    for row in part.marked.as_slice() {
        if row.0.0 == dev.0 {
            return row.1;
        }
    }
    UNMARKED
}

fn is_hard_mark(mark: FreezeMark) -> bool
    ensures { result ≡ is_hard_mark mark }
{
    matches!(mark, FreezeMark::Hard)
}

fn is_soft_mark(mark: FreezeMark) -> bool
    ensures { result ≡ is_soft_mark mark }
{
    matches!(mark, FreezeMark::Soft { .. })
}

/// Whether a device carries a freeze mark on the thread, hard or soft.
pub fn is_frozen(part: &Part, dev: DevId) -> bool
    ensures { result ≡ is_frozen part.now dev }
{
    let frozen = marking_of(part, dev).frozen;
    is_hard_mark(frozen) || is_soft_mark(frozen)
}

/// Whether a device carries a removal mark on the thread.
pub fn is_removed(part: &Part, dev: DevId) -> bool
    ensures { result ≡ is_removed part.now dev }
{
    marking_of(part, dev).removed
}

// Whether this freeze mark of the device stops a request that is late for these devices.
fn freezes(frozen: FreezeMark, late: DevSet, dev: DevId) -> bool
    ensures { result ≡ freezes frozen late dev }
{
    is_hard_mark(frozen) || (is_soft_mark(frozen) && late.has(dev))
}

/// Whether the device's freeze mark on the thread stops a request that is late for these devices: a hard one does,
/// and a soft one where the request is late for the device.
pub fn freezes_here(part: &Part, late: DevSet, dev: DevId) -> bool
    ensures { result ≡ freezes_here part.now late dev }
{
    freezes(marking_of(part, dev).frozen, late, dev)
}

/// Whether a mark of the device on the thread stops a request that is late for these devices: its removal mark, or its
/// freeze mark.
pub fn stops_here(part: &Part, late: DevSet, dev: DevId) -> bool
    ensures { result ≡ stops_here part.now late dev }
{
    let marking = marking_of(part, dev);
    marking.removed || freezes(marking.frozen, late, dev)
}

// Whether a freeze mark, hard or soft, or a removal mark is set.
fn carries_any(marking: &Marking) -> bool
    ensures { result ≡ carries_any marking.now }
{
    matches!(marking.frozen, FreezeMark::Hard | FreezeMark::Soft { .. }) || marking.removed
}

// Whether some row carries a mark.
fn any_carries(rows: &[(DevId, Marking)]) -> bool
    ensures { result ≡ list_any carries_mark rows.now }
{
    for row in rows {
        if carries_any(&row.1) {
            return true;
        }
    }
    false
}

/// Whether a mark on the thread of the request's device, or of one below it, stops the request.
pub fn is_marked(setup: &Setup, part: &Part, r: &OpenRequest) -> bool
    ensures { result ≡ is_marked setup.now part.now r.now }
{
    if !any_carries(part.marked.as_slice()) {
        return false;
    }
    for d in below(setup, r.dev) {
        if stops_here(part, r.late, d) {
            return true;
        }
    }
    false
}

fn has_mark(part: &Part, dev: DevId) -> bool
    ensures { result ≡ has_mark part.now dev }
{
    carries_any(&marking_of(part, dev))
}

/// Whether the device or one below it carries a mark on the thread, of whatever kind.
pub fn has_any_mark(setup: &Setup, part: &Part, dev: DevId) -> bool
    ensures { result ≡ has_any_mark setup.now part.now dev }
{
    if !any_carries(part.marked.as_slice()) {
        return false;
    }
    for d in below(setup, dev) {
        if has_mark(part, d) {
            return true;
        }
    }
    false
}

/// Whether the device or one below it carries a removal mark on the thread.
pub fn is_removed_below(setup: &Setup, part: &Part, dev: DevId) -> bool
    ensures { result ≡ is_removed_below setup.now part.now dev }
{
    if !any_carries(part.marked.as_slice()) {
        return false;
    }
    for d in below(setup, dev) {
        if is_removed(part, d) {
            return true;
        }
    }
    false
}

/// The devices for which a request on this device is late if it is accepted now: those of it and below it that carry
/// a freeze mark on the thread, hard or soft.
pub fn late_of(setup: &Setup, part: &Part, dev: DevId) -> DevSet
    ensures { result ≡ late_of setup.now part.now dev }
{
    let mut late = DevSet::empty();
    if !any_carries(part.marked.as_slice()) {
        return late;
    }
    for d in below(setup, dev) {
        if is_frozen(part, d) {
            late = late.with(d);
        }
    }
    late
}
