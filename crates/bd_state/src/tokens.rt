//! The tokens of a state, by their ids.
ghost use Rattle.std.specs.Prelude.{◌≡◌, cond, OnOk, position};
ghost use Rattle.bd_rule_effects.specs.Begun.{begun};
ghost use Rattle.bd_machine.specs.Same.{same_id};
ghost use Rattle.bd_machine.specs.Step.{moved, place_after};
ghost use Rattle.bd_machine.specs.View.{Closed, Here};
ghost use Rattle.bd_machine.specs.Walks.{is_at_end};
ghost use Rattle.bd_machine.specs.Table.{write};

use bd_base::{OutOfMemory, Rows, WalkId};
use bd_machine::{Id, Kept, OpenWalk, Place, Tracked};
use bd_rule_effects::is_at_end;
use bd_rule_view::same_id;

fn place_of(tokens: &[(Id, Tracked)], id: Id) -> Option<usize>
    ensures { result ≡ position (λ entry. same_id entry.0 id) tokens.now }
{
    tokens.iter().position(|entry| same_id(entry.0, id))
}

/// Writes a token: in its place where the id has one, else at the end. Out of memory leaves the tokens
/// unspecified.
pub fn put_in(tokens: &mut Rows<(Id, Tracked)>, id: Id, token: Tracked) -> Result<(), OutOfMemory>
    ensures { OnOk result (tokens.new ≡ write same_id tokens.old id token) }
{
    match place_of(tokens.as_slice(), id) {
        Some(i) => {
            tokens.set(i, (id, token));
            Ok(())
        }
        None => {
            tokens.push((id, token))?;
            Ok(())
        }
    }
}

/// The walk, if one begins, is on the thread. Out of memory leaves the tokens unspecified.
pub fn begin(
    tokens: &mut Rows<(Id, Tracked)>,
    thread: u32,
    walk: Option<(WalkId, OpenWalk)>,
) -> Result<(), OutOfMemory>
    ensures { OnOk result (tokens.new ≡ moved thread (begun walk) tokens.old) }
{
    let Some((id, walk)) = walk else {
        return Ok(());
    };
    let place = Place::At(thread);
    let kept = Kept::Walk(walk);
    put_in(tokens, Id::Walk(id), Tracked { place, kept })
}

/// Where a walk that is on the thread is from then on: it stays, or ends.
pub fn place_of_walk(thread: u32, id: WalkId, walk: OpenWalk) -> Place
    ensures { result ≡ place_after thread (cond (is_at_end thread id walk) Closed Here) }
{
    if is_at_end(thread, id, walk) {
        Place::Nowhere
    } else {
        Place::At(thread)
    }
}
