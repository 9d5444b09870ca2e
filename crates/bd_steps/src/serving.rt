//! Which piece a home serves next on a device.
ghost use Rattle.std.specs.Prelude.{◌≡◌, IfSome, find};
ghost use Rattle.std.specs.Option.{option_map};
ghost use Rattle.bd_machine.specs.BlockMap.{size_of};
ghost use Rattle.bd_machine.specs.Homes.{is_base};
ghost use Rattle.bd_tokens.specs.Tokens.{here_in};
ghost use Rattle.bd_steps.specs.Serving.{first_in, id_of, next_in, next_on_disk, next_piece, IsFirst, IsNext, IsNextOnDisk, IsReady};

use bd_base::{DevId, ReqId, Setup};
use bd_blocks::{find_base, is_aio, is_home, size_of};
use bd_home::{can_serve, first_waiting};
use bd_machine::{Base, Id, OpenPiece};
use bd_rule_requests::may_hold;
use bd_rule_view::as_piece;
use bd_tokens::Tokens;

/// A piece that is served next, by its name, as it is kept here.
#[derive(Clone, Copy)]
pub struct Next<'t> {
    pub req: ReqId,
    pub k: u32,
    pub piece: &'t OpenPiece,
}

// The piece that waits first at the device, where it is here and the device can serve it.
fn next_in<'t>(bases: &[Base], tokens: &'t Tokens, setup: &Setup, dev: DevId) -> Option<Next<'t>>
    ensures ready { IfSome result (IsReady (size_of setup.now dev) dev (find (is_base dev) bases.now) tokens.now.items) }
    ensures due { option_map id_of result ≡ next_in (size_of setup.now dev) dev (here_in tokens.now.items) (find (is_base dev) bases.now) }
{
    let (req, k) = first_waiting(bases, dev)?;
    let piece = as_piece(tokens.get(Id::Piece(req, k)))?;
    if can_serve(bases, size_of(setup, dev), dev, piece) {
        Some(Next { req, k, piece })
    } else {
        None
    }
}

/// The piece that thread `me` serves next on a device: the one that waits first there, where the thread is
/// the device's home, the piece is here, and the device can serve it. Whether one waits is looked at first:
/// mostly none does, and the other questions walk over the setup.
pub fn next_due<'t>(
    bases: &[Base],
    tokens: &'t Tokens,
    setup: &Setup,
    me: u32,
    dev: DevId,
) -> Option<Next<'t>>
    ensures next { IfSome result (IsNext setup.now me dev (find (is_base dev) bases.now) tokens.now.items) }
    ensures due { option_map id_of result ≡ next_piece setup.now me (here_in tokens.now.items) dev (find (is_base dev) bases.now) }
{
    let next = next_in(bases, tokens, setup, dev)?;
    if is_home(setup, me, dev) && may_hold(setup, dev, find_base(bases, dev)) {
        Some(next)
    } else {
        None
    }
}

// The piece that waits first at the device, where it is here and on the device.
fn first_in<'t>(bases: &[Base], tokens: &'t Tokens, dev: DevId) -> Option<Next<'t>>
    ensures first { IfSome result (IsFirst dev (find (is_base dev) bases.now) tokens.now.items) }
    ensures due { option_map id_of result ≡ first_in dev (here_in tokens.now.items) (find (is_base dev) bases.now) }
{
    let (req, k) = first_waiting(bases, dev)?;
    let piece = as_piece(tokens.get(Id::Piece(req, k)))?;
    if piece.base.0 == dev.0 {
        Some(Next { req, k, piece })
    } else {
        None
    }
}

/// The piece that the disk of an aio device serves next for thread `me`: the one that waits first there,
/// where the thread is the device's home, and the piece is here. None on any other device.
pub fn next_on_disk<'t>(
    bases: &[Base],
    tokens: &'t Tokens,
    setup: &Setup,
    me: u32,
    dev: DevId,
) -> Option<Next<'t>>
    ensures next { IfSome result (IsNextOnDisk setup.now me dev (find (is_base dev) bases.now) tokens.now.items) }
    ensures due { option_map id_of result ≡ next_on_disk setup.now me (here_in tokens.now.items) dev (find (is_base dev) bases.now) }
{
    let next = first_in(bases, tokens, dev)?;
    if is_home(setup, me, dev)
        && is_aio(setup, dev)
        && may_hold(setup, dev, find_base(bases, dev))
    {
        Some(next)
    } else {
        None
    }
}
