//! The walks that are on a thread: a list, as few are at once, and a thread goes over all of them.
ghost use Rattle.std.specs.Prelude.{◌≡◌, ◌+◌, ◌-◌, ◌^◌, ◌<◌, ◌≤◌, length, map, option_copied, position, vec_capacity, vec_len, IfNone, IsOk, OnErr, OnOk};
ghost use Rattle.std.specs.List.{slice_get};
ghost use Rattle.bd_machine.specs.Same.{same_walk};
ghost use Rattle.bd_machine.specs.Table.{look_up, without_first, write};
ghost use Rattle.bd_tokens.specs.Walks.{walk_of};

use bd_base::{OutOfMemory, WalkId};
use bd_machine::{Id, Kept};
use bd_rule_view::same_id;

/// The walk, if the token is one.
pub(crate) fn walk_of(id: Id) -> Option<WalkId>
    ensures { result ≡ walk_of id }
{
    match id {
        Id::Walk(walk) => Some(walk),
        _ => None,
    }
}

// The place of the walk in the list.
fn place_of(walks: &[(WalkId, Kept)], id: WalkId) -> Option<usize>
    ensures { result ≡ position (λ walk. same_walk walk.0 id) walks.now }
{
    walks
        .iter()
        .position(|walk| same_id(Id::Walk(walk.0), Id::Walk(id)))
}

/// What the list has of the walk.
pub(crate) fn get_walk(walks: &[(WalkId, Kept)], id: WalkId) -> Option<&Kept>
    ensures { option_copied result ≡ look_up same_walk walks.now id }
{
    match place_of(walks, id) {
        Some(place) => Some(&walks[place].1),
        None => None,
    }
}

/// The list has a walk, in place of what it had of it. It takes no memory where there is room; out of memory, nothing changed.
pub(crate) fn hold_walk(
    walks: &mut Vec<(WalkId, Kept)>,
    id: WalkId,
    kept: Kept,
) -> Result<(), OutOfMemory>
    ensures ok { OnOk result (walks.new.items ≡ write same_walk walks.old.items id kept) }
    ensures err { OnErr result (walks.new.items ≡ walks.old.items) }
    ensures room { vec_capacity walks.old - vec_len walks.old ≤ vec_capacity walks.new - vec_len walks.new + 1 }
    ensures holds { 0 < vec_capacity walks.old - vec_len walks.old → IsOk result }
{
    match place_of(walks.as_slice(), id) {
        Some(place) => {
            walks[place] = (id, kept);
            Ok(())
        }
        None => {
            walks.push((id, kept))?;
            Ok(())
        }
    }
}

/// Takes out what the list has of the walk. The others stay in their order.
pub(crate) fn take_walk(walks: &mut Vec<(WalkId, Kept)>, id: WalkId) -> Option<Kept>
    ensures kept { result ≡ look_up same_walk walks.old.items id }
    ensures rest { walks.new.items ≡ without_first (λ walk. same_walk walk.0 id) walks.old.items }
    ensures same { IfNone result (walks.new.items ≡ walks.old.items) }
    ensures room { vec_capacity walks.old - vec_len walks.old ≤ vec_capacity walks.new - vec_len walks.new }
{
    match place_of(walks.as_slice(), id) {
        Some(place) => Some(walks.remove(place).1),
        None => None,
    }
}

/// The list doesn't have the walk any more.
pub(crate) fn drop_walk(walks: &mut Vec<(WalkId, Kept)>, id: WalkId)
    ensures rest { walks.new.items ≡ without_first (λ walk. same_walk walk.0 id) walks.old.items }
    ensures room { vec_capacity walks.old - vec_len walks.old ≤ vec_capacity walks.new - vec_len walks.new }
{
    take_walk(walks, id);
}

/// How many walks the list has. They fill less than half of all memory, as each takes more than two bytes.
pub(crate) fn count_walks(walks: &[(WalkId, Kept)]) -> usize
    ensures value { result ≡ length walks.now }
    ensures small { result < 2 ^ 62 }
{
    walks.len()
}

/// The walk at a place of the list.
pub(crate) fn walk_at(walks: &[(WalkId, Kept)], place: usize) -> Option<WalkId>
    ensures { result ≡ slice_get (map (λ walk. walk.0) walks.now) place }
{
    match walks.get(place) {
        Some(walk) => Some(walk.0),
        None => None,
    }
}
