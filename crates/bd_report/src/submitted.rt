//! The reads and writes that were submitted.
ghost use Rattle.std.specs.Prelude.{◌≡◌, ◌++◌, ◌+◌, ◌<◌, ◌≤◌, true, if◌then◌else◌, []};
ghost use Rattle.std.specs.List.{cons_option};
ghost use Rattle.std.specs.Vec.{vec_len, vec_capacity};
ghost use Rattle.bd_report.specs.Counts.{is_accept};
ghost use Rattle.bd_report.specs.Traffic.{way_of, submitted_in_act};

use bd_base::{Act, DevId, Op, ReqId, Way};

/// A read or a write that was accepted: its request, its device, and how many blocks it has.
#[derive(Clone, Copy)]
pub(crate) struct Submitted {
    pub(crate) request: ReqId,
    pub(crate) device: DevId,
    pub(crate) way: Way,
    pub(crate) blocks: u64,
}

/// Adds the read or write that an act accepts, where there is room for it: for each act
/// that accepts a request.
pub(crate) fn note_submitted(all: &mut Vec<Submitted>, act: &Act)
    requires { is_accept act.now ≡ true → vec_len all.old < vec_capacity all.old }
    ensures items { all.new.items ≡ all.old.items ++ cons_option (submitted_in_act act.now) [] }
    ensures len { vec_len all.new ≤ vec_len all.old + (if is_accept act.now then 1 else 0) }
    ensures capacity { vec_capacity all.old ≤ vec_capacity all.new }
{
    if let Some(submitted) = submitted_in(act) {
        match all.push(submitted) {
            Ok(()) => {}
            Err(_) => unreachable!(),
        }
    }
}

// The read or write that an act accepts.
fn submitted_in(act: &Act) -> Option<Submitted>
    ensures { result ≡ submitted_in_act act.now }
{
    match act {
        Act::Accept {
            req,
            dev,
            op,
            count,
            ..
        } => match way_of(*op) {
            None => None,
            Some(way) => Some(Submitted {
                request: *req,
                device: *dev,
                way,
                blocks: *count,
            }),
        },
        _ => None,
    }
}

// The way of a read or a write; no other request has one.
fn way_of(op: Op) -> Option<Way>
    ensures { result ≡ way_of op }
{
    match op {
        Op::Read => Some(Way::Read),
        Op::Write(_) => Some(Way::Write),
        _ => None,
    }
}
