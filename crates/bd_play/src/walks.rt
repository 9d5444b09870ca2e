//! Visit, Grace and Due: the state with what each changes.
ghost use Rattle.std.specs.Prelude.{◌≡◌, IfOk, OnOk};
ghost use Rattle.bd_rule_effects.specs.Begun.{begun, walk_moved};
ghost use Rattle.bd_machine.specs.Grace.{change_due, change_grace};
ghost use Rattle.bd_machine.specs.Step.{moved};
ghost use Rattle.bd_machine.specs.Walks.{change_visit, marked_by, walked};
ghost use Rattle.bd_play.specs.Words.{changed, seen};

use crate::side::Side;
use bd_base::{DevId, OutOfMemory, Rows, WalkId, WalkKind};
use bd_clones::Duplicate;
use bd_machine::{Id, Kept, OpenWalk, Part, State, Tracked};
use bd_rule_effects::walk_on;
use bd_rule_faults::{harden, set_grace};
use bd_rule_requests::walk_here;
use bd_rule_view::Sees;
use bd_rule_walks::{Visiting, mark, time_of_walk, visited};
use bd_state::{begin, place_of_walk, put_in};
use std::alloc::Global;

// A walk that is on the thread stays there, or ends.
fn move_walk(
    tokens: &mut Rows<(Id, Tracked)>,
    thread: u32,
    id: WalkId,
    walk: OpenWalk,
) -> Result<(), OutOfMemory>
    ensures { OnOk result (tokens.new ≡ moved thread (walk_moved thread id walk) tokens.old) }
{
    let place = place_of_walk(thread, id, walk);
    let kept = Kept::Walk(walk);
    put_in(tokens, Id::Walk(id), Tracked { place, kept })
}

// A visit sets or takes its marks on this part of the thread. Out of memory leaves the part unspecified.
fn mark_on(
    side: &Side,
    part: &mut Part,
    walk: WalkId,
    dev: DevId,
    kind: WalkKind,
) -> Result<(), OutOfMemory>
    ensures { OnOk result (part.new ≡ marked_by side.now.setup.now side.now.thread (record (seen side.now) { part = part.old }) walk dev kind) }
{
    let time = time_of_walk(walk_here(side, walk));
    let visit = Visiting {
        walk,
        dev,
        kind,
        time,
    };
    mark(part, side.setup, side.thread, side.channels(dev), visit)
}

// A walk that is on the thread stays, or ends, and another may begin. Out of memory leaves both
// unspecified.
#[tactic(auto, using(crate::proofs::Moving::moved_append))]
fn go_on(
    part: &mut Part,
    tokens: &mut Rows<(Id, Tracked)>,
    thread: u32,
    id: WalkId,
    walk: OpenWalk,
) -> Result<(), OutOfMemory>
    ensures part { OnOk result (part.new ≡ (walked thread id walk part.old).part) }
    ensures tokens { OnOk result (tokens.new ≡ moved thread (walked thread id walk part.old).moves tokens.old) }
{
    let begun = walk_on(part, thread, id, walk)?;
    move_walk(tokens, thread, id, walk)?;
    begin(tokens, thread, begun)
}

/// The state with what a Visit changes.
pub fn visit(
    alloc: Global,
    side: &Side,
    id: WalkId,
    dev: DevId,
    kind: WalkKind,
) -> Result<State, OutOfMemory>
    ensures { IfOk result (λ s. s ≡ changed side.now (change_visit side.now.setup.now side.now.thread (seen side.now) id dev kind)) }
{
    let mut next = side.state.duplicate(alloc)?;
    let part = next.parts.at_mut(side.thread as usize);
    mark_on(side, part, id, dev, kind)?;
    let Some(walk) = walk_here(side, id) else {
        return Ok(next);
    };
    go_on(
        part,
        &mut next.tokens,
        side.thread,
        id,
        visited(side.thread, walk),
    )?;
    Ok(next)
}

/// The state with what a Grace changes.
pub fn grace(alloc: Global, side: &Side, walk: WalkId, until: u64) -> Result<State, OutOfMemory>
    ensures { IfOk result (λ s. s ≡ changed side.now (change_grace (seen side.now) walk until)) }
{
    let mut next = side.state.duplicate(alloc)?;
    set_grace(next.parts.at_mut(side.thread as usize), walk, until)?;
    Ok(next)
}

/// The state with what a Due changes.
pub fn due(alloc: Global, side: &Side, walk: WalkId, now: u64) -> Result<State, OutOfMemory>
    ensures { IfOk result (λ s. s ≡ changed side.now (change_due (seen side.now) walk now)) }
{
    let mut next = side.state.duplicate(alloc)?;
    harden(next.parts.at_mut(side.thread as usize), walk, now)?;
    Ok(next)
}
