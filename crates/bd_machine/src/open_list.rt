//! The open requests of a thread, in order of acceptance.
ghost use Rattle.std.specs.Prelude.{◌≡◌, ◌<◌, ◌≤◌, ◌^◌, ◌++◌, ◌∷◌, [], List, ℕ, filter, length, not, option_copied, slice_get, slice_index_or, true, IfNone, IfOk, IfSome, IsTrue, OnOk, OnErr};
ghost use Rattle.std.specs.Iterator.Runs.{YieldsRefsInOrder};
ghost use Rattle.std.specs.List.{HoldsAt};
ghost use Rattle.std.specs.VecDeque.Iter.{deque_iter_rest, deque_iter_steps};
ghost use Rattle.bd_machine.specs.Opens.{is_work, open_of, CountsLess, CountsMore, CountsOneMore, CountsWork, IsRegular, TakenOut};
ghost use Rattle.bd_machine.specs.Same.{same_request};
ghost use Rattle.bd_machine.specs.declared.state.Open.{Open};

use crate::handle_counts::HandleCounts;
use crate::state::Open;
use bd_base::{DevId, HandleId, Op, OutOfMemory, ReqId};
use std::alloc::Global;
use std::collections::VecDeque;
use std::collections::vec_deque::Iter;
use std::marker::Model;

/// Open requests in order of acceptance, seen as their list. One of many is taken out without going
/// through them, and how many are on a device or of a handle is at hand, while the numbers of requests
/// rise.
#[derive(Drop)]
pub struct OpenList {
    items: VecDeque<Open>,
    // by the number of a device, how many are open on it but resets
    counts: Vec<usize>,
    // how many are open of each handle
    handles: HandleCounts,
    // a number above those of all, while they rise strictly and the counts are right
    next: Option<u64>,
}

impl Model for OpenList {
    ghost use Rattle.std.specs.Prelude.{List, IfSome};
    ghost use Rattle.bd_machine.specs.declared.state.Open.{Open};

    ghost Value = { List Open };

    ghost use Rattle.bd_machine.specs.Opens.{IsRegular};

    ghost view = { λ l. l.items.items };

    ghost invariant = { λ l. IfSome l.next (IsRegular l.items.items l.counts.items l.handles) };
}

// Whether a request of this type is more than a reset.
fn is_work(op: Op) -> bool
    ensures { result ≡ is_work op }
{
    !matches!(op, Op::Reset(_))
}

fn same_id(a: ReqId, b: ReqId) -> bool
    ensures { result ≡ same_request a b }
{
    a.thread == b.thread && a.seq == b.seq
}

// Makes a count for the device, and for each of a lesser number: 0 where there was none.
fn make_count(counts: &mut Vec<usize>, dev: DevId) -> Result<(), OutOfMemory>
    ensures same { (n : ℕ) → slice_index_or counts.new.items n 0 ≡ slice_index_or counts.old.items n 0 }
    ensures few { length counts.old.items ≤ 2 ^ 32 → length counts.new.items ≤ 2 ^ 32 }
{
    let place = dev.0 as usize;
    if counts.len() <= place {
        counts.resize(place + 1, 0)?;
    }
    Ok(())
}

// Counts a request. False, and nothing changed, where its device has no count, or one that is full.
fn count(counts: &mut Vec<usize>, request: Open) -> bool
    ensures more { IsTrue result → CountsMore counts.old.items counts.new.items request }
    ensures len { length counts.new.items ≡ length counts.old.items }
{
    if !is_work(request.op) {
        return true;
    }
    let place = request.dev.0 as usize;
    if counts.len() <= place {
        return false;
    }
    let Some(more) = counts[place].checked_add(1) else {
        return false;
    };
    counts[place] = more;
    true
}

// Counts a request no longer.
fn uncount(counts: &mut Vec<usize>, request: Open)
    ensures less { CountsLess counts.old.items counts.new.items request }
    ensures len { length counts.new.items ≡ length counts.old.items }
{
    let place = request.dev.0 as usize;
    if is_work(request.op) && place < counts.len() {
        counts[place] = counts[place].saturating_sub(1);
    }
}

// Counts a request on its device and of its handle. False where it can't be counted.
fn count_both(counts: &mut Vec<usize>, handles: &mut HandleCounts, request: Open) -> bool
    ensures more { IsTrue result → CountsMore counts.old.items counts.new.items request }
    ensures len { length counts.new.items ≡ length counts.old.items }
    ensures handles { IsTrue result → CountsOneMore handles.old handles.new request.handle }
{
    count(counts, request) && handles.add(request.handle)
}

// A request comes last: it is counted, and the number above all is the one after its own. None where
// its number isn't above the others', or it can't be counted.
fn next_after(
    counts: &mut Vec<usize>,
    handles: &mut HandleCounts,
    next: Option<u64>,
    request: Open,
) -> Option<u64>
    ensures { (os : List Open) → IfSome next (IsRegular os counts.old.items handles.old)
        → IfSome result (IsRegular (os ++ request ∷ []) counts.new.items handles.new) }
{
    let least = next?;
    let after = request.id.seq.checked_add(1)?;
    if request.id.seq < least || !count_both(counts, handles, request) {
        return None;
    }
    Some(after)
}

// Whether the request at this place has this id.
fn is_at(items: &VecDeque<Open>, place: usize, req: ReqId) -> bool
    ensures within { IsTrue result → place < length items.now.items }
    ensures same { IsTrue result → HoldsAt (λ o. same_request o.id req ≡ true) items.now.items place }
{
    match items.get(place) {
        Some(o) => same_id(o.id, req),
        None => false,
    }
}

// Takes out a request of this id, where numbers rise and it is where it belongs then. Else nothing
// changes.
fn take_out(items: &mut VecDeque<Open>, rises: bool, req: ReqId) -> Option<Open>
    ensures some { IfSome result (TakenOut req items.old.items items.new.items) }
    ensures rises { IfSome result (λ _. rises ≡ true) }
    ensures none { IfNone result (items.new.items ≡ items.old.items) }
{
    if !rises {
        return None;
    }
    if is_at(items, 0, req) {
        return items.pop_front();
    }
    let place = items.partition_point(|o| o.id.seq < req.seq);
    if is_at(items, place, req) {
        items.remove(place)
    } else {
        None
    }
}

// How many of the requests are of a handle.
fn count_all(items: &VecDeque<Open>, handle: HandleId) -> usize
    ensures { result ≡ open_of handle items.now.items }
{
    items.iter().filter(|r| r.handle.0 == handle.0).count()
}

impl OpenList {
    /// No requests. It takes no memory.
    pub fn new(alloc: Global) -> OpenList
        ensures { result ≡ [] }
    {
        OpenList {
            items: VecDeque::new(alloc),
            counts: Vec::new(alloc),
            handles: HandleCounts::new(alloc),
            next: Some(0),
        }
    }

    pub fn len(&self) -> usize
        ensures { result ≡ length self.now }
    {
        self.items.len()
    }

    /// The request at a place, in order of acceptance.
    pub fn get(&self, place: usize) -> Option<&Open>
        ensures { option_copied result ≡ slice_get self.now place }
    {
        self.items.get(place)
    }

    /// The requests one by one, in order of acceptance.
    pub fn iter(&self) -> Iter<'_, Open>
        ensures rest { deque_iter_rest result ≡ self.now }
        ensures runs { YieldsRefsInOrder (deque_iter_steps {X = Open}) deque_iter_rest }
    {
        self.items.iter()
    }

    /// By the number of each device, how many requests are on it that are no resets. None once a request
    /// came whose number wasn't above those before it, or one was to be taken out that wasn't there.
    pub fn counts(&self) -> Option<&[usize]>
        ensures counts { IfSome result (λ counts. CountsWork counts.now self.now) }
        ensures few { IfSome result (λ counts. length counts.now ≤ 2 ^ 32) }
    {
        match self.next {
            Some(_) => Some(self.counts.as_slice()),
            None => None,
        }
    }

    /// How many requests are of a handle. It goes through them only once a request came whose number wasn't
    /// above those before it, or one was to be taken out that wasn't there.
    pub fn count_of(&self, handle: HandleId) -> usize
        ensures { result ≡ open_of handle self.now }
    {
        match self.counted(handle) {
            Some(count) => count,
            None => count_all(&self.items, handle),
        }
    }

    // How many requests are of a handle, where they are counted.
    fn counted(&self, handle: HandleId) -> Option<usize>
        ensures { IfSome result (λ n. n ≡ open_of handle self.now) }
    {
        match self.next {
            Some(_) => self.handles.of(handle),
            None => None,
        }
    }

    /// Appends a request; out of memory, the requests stay as they were.
    pub fn push(&mut self, request: Open) -> Result<(), OutOfMemory>
        ensures ok { OnOk result (self.new ≡ self.old ++ request ∷ []) }
        ensures err { OnErr result (self.new ≡ self.old) }
    {
        make_count(&mut self.counts, request.dev)?;
        self.handles.reserve(request.handle)?;
        self.items.push_back(request)?;
        self.next = next_after(&mut self.counts, &mut self.handles, self.next, request);
        Ok(())
    }

    /// Takes out each request of this id. It takes no memory.
    pub fn remove(&mut self, req: ReqId)
        ensures { self.new ≡ filter (λ o. not (same_request o.id req)) self.old }
    {
        let Some(request) = take_out(&mut self.items, self.next.is_some(), req) else {
            self.next = None;
            self.items.retain(|o| !same_id(o.id, req));
            return;
        };
        uncount(&mut self.counts, request);
        self.handles.remove(request.handle);
    }

    /// Equal requests, or out of memory.
    pub fn copy(&self) -> Result<OpenList, OutOfMemory>
        ensures { IfOk result (λ copy. copy ≡ self.now) }
    {
        let alloc = *self.counts.allocator();
        let (first, rest) = self.items.as_slices();
        let mut items = Vec::from_slice(alloc, first)?;
        items.extend_from_slice(rest)?;
        let counts = Vec::from_slice(alloc, self.counts.as_slice())?;
        let handles = self.handles.copy()?;
        Ok(OpenList {
            items: VecDeque::from_vec(items),
            counts,
            handles,
            next: self.next,
        })
    }
}
