//! The machine played by hand: a whole trace, and entries that it refuses. Digests are by python's
//! hashlib.
use crate::tests::deeds::{Ask, Deed, What, answer_to, answer_with, is_complete};
use crate::tests::setups::{PLAIN, WRITE, Word, setup};
use bd_base::{ApplyEnd, ClaimKind, Errno, Op, OutOfMemory, Outcome, ReqId, Setup, Shown, Status};
use bd_play::StepError;
use std::alloc::Global;
use std::process::Abort;
use std::test::Fail;

// The block that the script writes and reads: its first bytes and its digest.
const SHOWN: Shown = Shown {
    first: [5, 12, 19, 26, 33, 40, 47, 54],
    digest: [
        195, 113, 124, 245, 73, 221, 243, 114, 130, 104, 32, 204, 100, 74, 50, 144, 235, 147, 78,
        81, 239, 239, 67, 119, 100, 232, 22, 130, 93, 191, 215, 214,
    ],
};

// The digest of that block and 63 blocks of zeros.
const CONTENT: [u8; 32] = [
    134, 205, 44, 154, 202, 197, 126, 168, 11, 184, 155, 136, 123, 98, 165, 104, 170, 253, 227,
    251, 136, 153, 208, 34, 149, 94, 112, 182, 217, 127, 87, 198,
];

const SCRIPT: [Word; 8] = [
    Word::Open("h", "Malloc0", true),
    Word::Submit("h", WRITE, 0, 1),
    Word::Wait,
    Word::Submit("h", Op::Read, 0, 1),
    Word::Wait,
    // the first block past the end
    Word::Submit("h", Op::Read, 64, 1),
    Word::Claim("h", ClaimKind::Exclusive),
    Word::Close("h"),
];

const ZERO: ReqId = ReqId { thread: 0, seq: 0 };

const ONE: ReqId = ReqId { thread: 0, seq: 1 };

const TWO: ReqId = ReqId { thread: 0, seq: 2 };

// The whole history of the script, with the stamps 1, 2, 3 and so on.
const TRACE: [Deed; 39] = [
    Deed::Reg(Ask::Open(0, 64)),
    Deed::Reg(Ask::Get(true)),
    Deed::Script(1, Outcome::Done),
    Deed::Accept(ZERO, 0, WRITE, 0, 1),
    Deed::Script(2, Outcome::Accepted(ZERO)),
    Deed::Cut(0, 1),
    Deed::Put(0, What::Piece(0, 0)),
    Deed::Took(0, What::Piece(0, 0)),
    Deed::Apply(0, 0, ApplyEnd::Done),
    Deed::Put(1, What::Piece(0, 0)),
    Deed::Took(1, What::Piece(0, 0)),
    Deed::Complete(0, Status::Success, None),
    Deed::Script(3, Outcome::Done),
    Deed::Accept(ONE, 0, Op::Read, 0, 1),
    Deed::Script(4, Outcome::Accepted(ONE)),
    Deed::Cut(1, 1),
    Deed::Put(2, What::Piece(1, 0)),
    Deed::Took(2, What::Piece(1, 0)),
    Deed::Apply(1, 0, ApplyEnd::Done),
    Deed::Put(3, What::Piece(1, 0)),
    Deed::Took(3, What::Piece(1, 0)),
    Deed::Complete(1, Status::Success, Some(SHOWN)),
    Deed::Script(5, Outcome::Done),
    Deed::Refuse(Op::Read, 64),
    Deed::Script(6, Outcome::Errno(Errno::Inval)),
    Deed::Reg(Ask::Claim),
    Deed::Script(7, Outcome::Done),
    Deed::Reg(Ask::Put),
    Deed::Reg(Ask::Close),
    Deed::Script(8, Outcome::Done),
    Deed::Put(4, What::Channel),
    Deed::Took(4, What::Channel),
    Deed::Reg(Ask::Drop),
    Deed::Shutdown,
    Deed::Reg(Ask::Remove),
    Deed::Put(5, What::Device),
    Deed::Took(5, What::Device),
    Deed::Destruct(0, Some(CONTENT)),
    Deed::Reg(Ask::Destructed),
];

// A guard, and an act that it refuses after the first entries of the trace.
const REFUSED: [(u32, usize, Deed); 52] = [
    // a pend of a request that isn't there, a reset that the line doesn't ask for
    (13, 0, Deed::Pend),
    (8, 3, Deed::Accept(ZERO, 0, Op::Reset(0), 0, 1)),
    // a put with the wrong number; of a piece that there isn't; of one that is out; of one that
    // wasn't served; of a channel that has a reference; a take before its put; a take of what was
    // taken; of a channel that wasn't put
    (2, 6, Deed::Put(7, What::Piece(0, 0))),
    (3, 6, Deed::Put(0, What::Piece(0, 5))),
    (3, 7, Deed::Put(1, What::Piece(0, 0))),
    (4, 8, Deed::Put(1, What::Piece(0, 0))),
    (4, 27, Deed::Put(4, What::Channel)),
    (5, 6, Deed::Took(0, What::Piece(0, 0))),
    (5, 8, Deed::Took(0, What::Piece(0, 0))),
    (5, 30, Deed::Took(4, What::Channel)),
    // a handle number that isn't the next one, a channel that isn't there yet, a removal that
    // sees no handle, a second claim of a handle, an open that its own claim refuses
    (6, 0, Deed::Reg(Ask::Open(7, 64))),
    (6, 1, Deed::Reg(Ask::Get(false))),
    (6, 3, Deed::Reg(Ask::Remove)),
    (6, 26, Deed::Reg(Ask::Claim)),
    (6, 26, Deed::Reg(Ask::Open(1, 64))),
    // an open, a close and a claim that no line asks
    (7, 3, Deed::Reg(Ask::Open(1, 64))),
    (7, 5, Deed::Reg(Ask::Close)),
    (7, 5, Deed::Reg(Ask::Claim)),
    // between an open and its channel another open, a close; a second channel
    (7, 1, Deed::Reg(Ask::Open(1, 64))),
    (7, 1, Deed::Reg(Ask::Close)),
    (7, 2, Deed::Reg(Ask::Get(false))),
    // a close before its put, a get and a drop between the two, a drop before its message
    (7, 27, Deed::Reg(Ask::Close)),
    (7, 28, Deed::Reg(Ask::Get(false))),
    (7, 28, Deed::Reg(Ask::Drop)),
    (7, 31, Deed::Reg(Ask::Drop)),
    // a block that the line doesn't name, a device that isn't the handle's, a block past the end, an
    // id of another thread, an id that is used, a refusal without a cause
    (8, 3, Deed::Accept(ZERO, 0, WRITE, 1, 1)),
    (8, 3, Deed::Accept(ZERO, 1, WRITE, 0, 1)),
    (9, 23, Deed::Accept(TWO, 0, Op::Read, 64, 1)),
    (
        10,
        3,
        Deed::Accept(ReqId { thread: 1, seq: 0 }, 0, WRITE, 0, 1),
    ),
    (10, 13, Deed::Accept(ZERO, 0, Op::Read, 0, 1)),
    (11, 3, Deed::Refuse(WRITE, 0)),
    // cut twice, cut into two, served twice, a fault of memory
    (17, 6, Deed::Cut(0, 1)),
    (18, 5, Deed::Cut(0, 2)),
    (19, 9, Deed::Apply(0, 0, ApplyEnd::Done)),
    (20, 8, Deed::Apply(0, 0, ApplyEnd::Fault)),
    // completed without an accept, with a piece out, before the cut, as failed, without its data
    (26, 3, Deed::Complete(0, Status::Success, None)),
    (26, 9, Deed::Complete(0, Status::Success, None)),
    (27, 4, Deed::Complete(0, Status::Success, None)),
    (27, 11, Deed::Complete(0, Status::Failed, None)),
    (28, 21, Deed::Complete(1, Status::Success, None)),
    // destructed with a handle open, before its message came, twice, a device that there isn't, without
    // its digest
    (31, 25, Deed::Destruct(0, Some(CONTENT))),
    (31, 36, Deed::Destruct(0, Some(CONTENT))),
    (31, 39, Deed::Destruct(0, Some(CONTENT))),
    (31, 37, Deed::Destruct(1, None)),
    (32, 37, Deed::Destruct(0, None)),
    // a line out of order, another outcome
    (33, 2, Deed::Script(2, Outcome::Done)),
    (34, 2, Deed::Script(1, Outcome::Errno(Errno::Exists))),
    // a Shutdown with a request open, with a channel that is due, on its way, to be dropped; with a
    // line to do
    (35, 6, Deed::Shutdown),
    (35, 30, Deed::Shutdown),
    (35, 31, Deed::Shutdown),
    (35, 32, Deed::Shutdown),
    (36, 0, Deed::Shutdown),
];

fn one_script(alloc: Global) -> Result<Setup, OutOfMemory> {
    setup(alloc, 1, PLAIN, &[&SCRIPT])
}

#[test]
fn first_path_is_a_complete_run(rt: HostRuntime) -> Result<(), Fail> {
    let alloc = rt.alloc();
    let setup = one_script(alloc)?;
    for row in &[(38, false), (39, true)] {
        let (n, complete) = *row;
        let answer = is_complete(alloc, &setup, TRACE.get(..n).unwrap_or(&[]));
        assert!(rt; answer == Ok(complete), "after {n} entries");
    }
    Ok(())
}

fn each_refuses(rt: &impl Abort, alloc: Global, setup: &Setup) {
    for row in &REFUSED {
        let (guard, after, deed) = *row;
        let refused = Err(StepError::Illegal { guard, stamp: 100 });
        let answer = answer_to(alloc, setup, TRACE.get(..after).unwrap_or(&[]), deed);
        assert!(rt; answer == refused, "guard {guard} after {after} entries");
    }
}

#[test]
fn each_guard_refuses(rt: HostRuntime) -> Result<(), Fail> {
    let setup = one_script(rt.alloc())?;
    each_refuses(&rt, rt.alloc(), &setup);
    Ok(())
}

#[test]
fn stamps_and_threads_are_in_order(rt: HostRuntime) -> Result<(), Fail> {
    let setup = one_script(rt.alloc())?;
    for row in &[(2, 0), (0, 0), (100, 1)] {
        let (stamp, thread) = *row;
        let refused = Err(StepError::Illegal { guard: 1, stamp });
        let answer = answer_with(rt.alloc(), &setup, &TRACE[..2], *row, Deed::Shutdown);
        assert!(rt; answer == refused, "stamp {stamp}, thread {thread}");
    }
    Ok(())
}
