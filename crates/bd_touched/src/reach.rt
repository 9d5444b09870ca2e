//! Which open requests of a thread an act reaches.
ghost use Rattle.std.specs.Prelude.{◌≡◌};
ghost use Rattle.bd_touched.specs.Reach.{reach_of, reach_of_event, reach_of_token, reach_of_visit};

use bd_base::{Act, DevId, RegEvent, ReqId, Token, WalkKind};

/// Which open requests an act reaches.
#[derive(Clone, Copy, PartialEq, Eq)]
pub enum Reach {
    Nobody,
    /// All.
    Everybody,
    /// This one.
    Named(ReqId),
    /// Those that have this device below and are no resets.
    Over(DevId),
    /// Those that have a device below that this one has below, and are no resets.
    Along(DevId),
}

// The request that moves, or whose piece does.
fn reach_of_token(what: &Token) -> Reach
    ensures { result ≡ reach_of_token what.now }
{
    match what {
        Token::Request(req) => Reach::Named(*req),
        Token::Piece(req, _) => Reach::Named(*req),
        _ => Reach::Nobody,
    }
}

// Which an event of the registry reaches.
fn reach_of_event(event: &RegEvent) -> Reach
    ensures { result ≡ reach_of_event event.now }
{
    match event {
        RegEvent::TakeInjection { req, .. } => Reach::Named(*req),
        RegEvent::GetChannel { dev } => Reach::Along(*dev),
        RegEvent::DropChannel { dev } => Reach::Over(*dev),
        _ => Reach::Nobody,
    }
}

// Which a visit reaches: a drain sets and takes no mark.
fn reach_of_visit(dev: DevId, kind: WalkKind) -> Reach
    ensures { result ≡ reach_of_visit dev kind }
{
    match kind {
        WalkKind::Drain => Reach::Nobody,
        WalkKind::Freeze | WalkKind::Thaw | WalkKind::Removal => Reach::Over(dev),
    }
}

/// Which open requests of its thread an act reaches.
pub(crate) fn reach_of(act: &Act) -> Reach
    ensures { result ≡ reach_of act.now }
{
    match act {
        Act::Put { what, .. } | Act::Took { what, .. } => reach_of_token(what),
        Act::Reg { event, .. } => reach_of_event(event),
        Act::Accept { req, .. }
        | Act::Inject { req, .. }
        | Act::Pend { req }
        | Act::Let { req, .. }
        | Act::Cut { req, .. }
        | Act::Apply { req, .. }
        | Act::NoMem { req, .. }
        | Act::Hold { req, .. }
        | Act::Release { req, .. }
        | Act::Abort { req, .. }
        | Act::Complete { req, .. } => Reach::Named(*req),
        Act::Visit { dev, kind, .. } => reach_of_visit(*dev, *kind),
        Act::Grace { .. } | Act::Due { .. } => Reach::Everybody,
        _ => Reach::Nobody,
    }
}
