//! The requests that completed with success.
ghost use Rattle.std.specs.Prelude.{◌≡◌, ℕ, ◌+◌, ◌<◌, ◌≤◌, true, false, [], length, nat_eq, slice_index_or, ◌||◌, ◌&&◌, if◌then◌else◌, IfOk, OnOk};
ghost use Rattle.std.specs.HashSet.{contains, spare};
ghost use Rattle.bd_base.specs.declared.id.ReqId.{ReqId};
ghost use Rattle.bd_base.specs.declared.request.Status.TheVariants.{Success};
ghost use Rattle.bd_report.specs.Counts.{is_end, is_status};
ghost use Rattle.bd_report.specs.Index.{same_pair, key_of, has_noted};
ghost use Rattle.bd_report.specs.Traffic.{is_success_of, same_request};

use bd_base::{Act, OutOfMemory, ReqId, Rows, Status};
use std::alloc::Global;
use std::collections::HashSet;

/// The requests that completed with success. The numbers of a thread's requests lie close
/// together, so most are kept by thread and number.
#[derive(Drop)]
pub(crate) struct Successes {
    // By thread and number there, for the first threads: whether the request succeeded.
    by_number: Rows<Rows<bool>>,
    // Those that don't fit there.
    others: OtherRequests,
}

// Requests, by thread and number there.
type OtherRequests = HashSet<(u32, u64)>;

impl Successes {
    /// No requests, with a row for each of the threads, for 16 of them at most. Out of memory is the
    /// only error.
    pub(crate) fn new(alloc: Global, threads: u32) -> Result<Successes, OutOfMemory>
        ensures { IfOk result (λ s. (request : ReqId) → has_noted s request ≡ false) }
    {
        Ok(Successes {
            by_number: no_rows(alloc, threads.min(16))?,
            others: HashSet::new(alloc),
        })
    }

    /// Makes room for more requests. Out of memory is the only error.
    pub(crate) fn reserve(&mut self, more: usize) -> Result<(), OutOfMemory>
        ensures same { (request : ReqId) → has_noted self.new request ≡ has_noted self.old request }
        ensures room { OnOk result (more ≤ spare self.new.others) }
    {
        self.others.reserve(more)?;
        Ok(())
    }

    /// Whether the request was noted.
    pub(crate) fn has(&self, request: ReqId) -> bool
        ensures { result ≡ has_noted self.now request }
    {
        self.has_number(request) || self.others.contains(&(request.thread, request.seq))
    }

    // Whether the request was marked in its thread's row.
    fn has_number(&self, request: ReqId) -> bool
        ensures { result ≡ slice_index_or (slice_index_or self.now.by_number request.thread []) request.seq false }
    {
        match self.by_number.as_slice().get(request.thread as usize) {
            Some(row) => is_marked(row, request.seq as usize),
            None => false,
        }
    }

    // Marks a request in its thread's row, if it fits there.
    fn mark(&mut self, req: ReqId) -> bool
        ensures told { (request : ReqId) → has_noted self.new request ≡ (has_noted self.old request || (result && same_request req request)) }
        ensures others { self.new.others ≡ self.old.others }
    {
        let thread = req.thread as usize;
        if self.by_number.len() <= thread {
            return false;
        }
        mark(self.by_number.at_mut(thread), req.seq as usize)
    }
}

// A row without marks for each thread.
fn no_rows(alloc: Global, threads: u32) -> Result<Rows<Rows<bool>>, OutOfMemory>
    ensures { IfOk result (λ rows. (thread : ℕ) → slice_index_or rows thread [] ≡ []) }
{
    let mut rows = Rows::new(alloc);
    for _thread in 0..threads {
        rows.push(Rows::new(alloc))?;
    }
    Ok(rows)
}

// Whether a number is marked.
fn is_marked(row: &Rows<bool>, at: usize) -> bool
    ensures { result ≡ slice_index_or row.now at false }
{
    let marks = row.as_slice();
    at < marks.len() && marks[at]
}

// Marks a number, unless it lies far past the last one in the row or memory runs out.
fn mark(row: &mut Rows<bool>, at: usize) -> bool
    ensures { (k : ℕ) → slice_index_or row.new k false ≡ (slice_index_or row.old k false || (result && nat_eq at k)) }
{
    if row.len().saturating_add(1024) <= at {
        return false;
    }
    let Ok(()) = lengthen(row, at + 1) else {
        return false;
    };
    row.set(at, true);
    true
}

// Lengthens a row by numbers that aren't marked, to this length at least. Out of memory is the only
// error.
fn lengthen(row: &mut Rows<bool>, len: usize) -> Result<(), OutOfMemory>
    ensures same { (k : ℕ) → slice_index_or row.new k false ≡ slice_index_or row.old k false }
    ensures long { OnOk result (len ≤ length row.new) }
{
    for _more in row.len()..len {
        row.push(false)?;
    }
    Ok(())
}

/// Notes the request that completed with success, if the act says so, where there is room for it.
pub(crate) fn note_success(successes: &mut Successes, act: &Act)
    requires { is_end Success act.now ≡ true → 0 < spare successes.old.others }
    ensures told { (request : ReqId) → has_noted successes.new request ≡
        (has_noted successes.old request || is_success_of request act.now) }
    ensures room { spare successes.old.others ≤ spare successes.new.others + (if is_end Success act.now then 1 else 0) }
{
    if let Act::Complete { req, status, .. } = act {
        put_success(successes, *req, *status);
    }
}

// Notes a request, if it ended with success.
fn put_success(successes: &mut Successes, req: ReqId, status: Status)
    requires { is_status Success status ≡ true → 0 < spare successes.old.others }
    ensures told { (request : ReqId) → has_noted successes.new request ≡
        (has_noted successes.old request || (is_status Success status && same_request req request)) }
    ensures room { spare successes.old.others ≤ spare successes.new.others + (if is_status Success status then 1 else 0) }
{
    if let Status::Success = status {
        if !successes.mark(req) {
            put_other(&mut successes.others, req);
        }
    }
}

// Notes a request among the others, where there is room for it.
fn put_other(others: &mut OtherRequests, req: ReqId)
    requires { 0 < spare others.old }
    ensures told { (request : ReqId) → contains same_pair others.new (key_of request) ≡
        (contains same_pair others.old (key_of request) || same_request req request) }
    ensures room { spare others.old ≤ spare others.new + 1 }
{
    let Ok(_) = others.insert((req.thread, req.seq)) else {
        unreachable!();
    };
}
