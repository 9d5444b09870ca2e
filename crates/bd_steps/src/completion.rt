//! When a request completes, and how.
ghost use Rattle.std.specs.Prelude.{◌≡◌, IfOk, Some};
ghost use Rattle.std.specs.List.{range_with_len};
ghost use Rattle.bd_machine.specs.Kept.{request_here};
ghost use Rattle.bd_tokens.specs.Tokens.{here_in};
ghost use Rattle.bd_steps.specs.Completions.{ended, ending_in, ending_of, ends_as, gone, read_as, shown_by, showing_of, Shows};

use bd_base::{Op, OutOfMemory, ReqId, Setup, Shown, Status, digest_of};
use bd_flight::end_due;
use bd_machine::{Id, OpenRequest, ReadBytes};
use bd_rule_requests::{data_read, request_here};
use bd_rule_view::Sees;
use bd_tokens::Tokens;
use std::alloc::Global;

/// What a completion shows.
#[derive(Clone, Copy, PartialEq, Eq)]
pub enum Showing {
    /// Nothing: it isn't that of a read with success.
    Nothing,
    /// The first 8 bytes and the digest of the data.
    Data(Shown),
    /// Those of data that isn't told, as its disk gave it.
    Untold,
}

/// How a request with this number of pieces completes; a read with success shows its data.
#[derive(Clone, Copy)]
pub struct Ending {
    pub pieces: u32,
    pub status: Status,
    pub showing: Showing,
}

// The first 8 bytes and the digest, where there are as many.
fn shown_by(bytes: &[u8]) -> Option<Shown>
    ensures { result ≡ shown_by bytes.now }
{
    if bytes.len() < 8 {
        return None;
    }
    let mut first = [0u8; 8];
    first.copy_from_slice(&bytes[..8]);
    Some(Shown {
        first,
        digest: digest_of(bytes),
    })
}

// The first 8 bytes, of which those that are missing are 0, and the digest.
fn first_and_digest(bytes: &[u8]) -> Shown {
    let mut first = [0u8; 8];
    let count = bytes.len().min(8);
    first[..count].copy_from_slice(&bytes[..count]);
    Shown {
        first,
        digest: digest_of(bytes),
    }
}

// What is shown of data; of data that is told, only where it has 8 bytes.
fn showing_of(bytes: &ReadBytes) -> Option<Showing>
    ensures { result ≡ showing_of bytes.now }
{
    match bytes.as_told() {
        Some(told) => Some(Showing::Data(shown_by(told)?)),
        None => Some(Showing::Untold),
    }
}

fn read_as(pieces: u32, status: Status, showing: Option<Showing>) -> Option<Ending>
    ensures { result ≡ read_as pieces status showing }
{
    match showing {
        Some(showing) => Some(Ending {
            pieces,
            status,
            showing,
        }),
        None => None,
    }
}

// How a request completes with this status.
fn ends_as<S: Sees>(
    alloc: Global,
    seen: &S,
    req: ReqId,
    r: OpenRequest,
    n: u32,
    status: Status,
) -> Result<Option<Ending>, OutOfMemory>
    ensures { IfOk result (λ e. e ≡ ends_as (S.view_of seen.now) req r n (Some status)) }
{
    if !(matches!(r.op, Op::Read) && matches!(status, Status::Success)) {
        return Ok(Some(Ending {
            pieces: n,
            status,
            showing: Showing::Nothing,
        }));
    }
    let data = data_read(alloc, seen, req, r)?;
    Ok(read_as(n, status, showing_of(&data)))
}

// How this request, which is here, completes.
fn ending_in<S: Sees>(
    alloc: Global,
    seen: &S,
    setup: &Setup,
    me: u32,
    req: ReqId,
    r: OpenRequest,
) -> Result<Option<Ending>, OutOfMemory>
    requires { request_here (S.view_of seen.now) req ≡ Some r }
    ensures { IfOk result (λ e. e ≡ ending_in setup.now me (S.view_of seen.now) req (Some r)) }
{
    match end_due(seen, setup, me, req, r) {
        Some(status) => ends_as(alloc, seen, req, r, r.pieces.unwrap_or(0), status),
        None => Ok(None),
    }
}

/// How a request completes that is here, where the machine's rules let it complete with a status: none of its
/// pieces is out, and the request failed or was aborted, though pieces of it wait here unsent, or each was
/// served. A read that succeeds only where it has 8 bytes to show, or data that isn't told.
pub fn ending_of<S: Sees>(
    alloc: Global,
    seen: &S,
    setup: &Setup,
    me: u32,
    req: ReqId,
) -> Result<Option<Ending>, OutOfMemory>
    ensures { IfOk result (λ e. e ≡ ending_of setup.now me (S.view_of seen.now) req) }
{
    match request_here(seen, req) {
        Some(r) => ending_in(alloc, seen, setup, me, req, r),
        None => Ok(None),
    }
}

// The first 8 bytes and the digest of the data of a request that isn't told; bytes that are missing are 0.
fn untold_shown<S: Sees>(alloc: Global, seen: &S, req: ReqId) -> Result<Shown, OutOfMemory> {
    let Some(r) = request_here(seen, req) else {
        return Ok(first_and_digest(&[]));
    };
    let data = data_read(alloc, seen, req, r)?;
    Ok(first_and_digest(data.given()))
}

/// What the completion of a request shows: nothing, the data that is due, or data that isn't told, which is what
/// its disk gave.
pub fn shown_now<S: Sees>(
    alloc: Global,
    seen: &S,
    req: ReqId,
    showing: Showing,
) -> Result<Option<Shown>, OutOfMemory>
    ensures { IfOk result (Shows showing) }
{
    match showing {
        Showing::Nothing => Ok(None),
        Showing::Data(shown) => Ok(Some(shown)),
        Showing::Untold => Ok(Some(untold_shown(alloc, seen, req)?)),
    }
}

// Lets the first n pieces of a request go.
#[tactic(auto, using(crate::proofs::Left::left_from))]
fn drop_pieces(tokens: &mut Tokens, req: ReqId, n: u32)
    ensures { here_in tokens.new.items ≡ gone req (range_with_len 0 n) (here_in tokens.old.items) }
{
    for k in 0..n {
        tokens.let_go(Id::Piece(req, k));
    }
}

/// Lets a request and its first n pieces go.
pub fn drop_request(tokens: &mut Tokens, req: ReqId, n: u32)
    ensures { here_in tokens.new.items ≡ ended req n (here_in tokens.old.items) }
{
    tokens.let_go(Id::Request(req));
    drop_pieces(tokens, req, n);
}
