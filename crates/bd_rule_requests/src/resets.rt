//! A thread's resets.
ghost use Rattle.std.specs.Prelude.{◌≡◌};
ghost use Rattle.bd_machine.specs.Requests.{is_walking, is_walking_stage};
ghost use Rattle.bd_machine.specs.Statuses.{is_finished};
ghost use Rattle.bd_machine.specs.Walks.{is_reset, is_reset_of, reset_of};

use bd_base::{Op, ReqId};
use bd_machine::{Part, Resetting, Stage};
use bd_rule_view::same_request;

/// Whether the type is a reset.
pub fn is_reset(op: Op) -> bool
    ensures { result ≡ is_reset op }
{
    matches!(op, Op::Reset(_))
}

/// Whether this is the reset of the request.
pub fn is_reset_of(req: ReqId, reset: &Resetting) -> bool
    ensures { result ≡ is_reset_of req reset.now }
{
    same_request(reset.req, req)
}

/// The thread's reset of a request, once it began.
pub fn reset_of(part: &Part, req: ReqId) -> Option<Resetting>
    ensures { result ≡ reset_of part.now req }
{
    part.resets
        .as_slice()
        .iter()
        .copied()
        .find(|r| is_reset_of(req, r))
}

fn is_walking_stage(stage: Stage) -> bool
    ensures { result ≡ is_walking_stage stage }
{
    match stage {
        Stage::Freezing => true,
        Stage::Draining => true,
        Stage::Thawing => true,
        _ => false,
    }
}

/// Whether a walk of the reset is under way.
pub fn is_walking(reset: Option<Resetting>) -> bool
    ensures { result ≡ is_walking reset }
{
    match reset {
        Some(r) => is_walking_stage(r.stage),
        None => false,
    }
}

/// Whether the reset was finished in the registry.
pub fn is_finished(reset: Option<Resetting>) -> bool
    ensures { result ≡ is_finished reset }
{
    match reset {
        Some(r) => matches!(r.stage, Stage::Finished),
        None => false,
    }
}
