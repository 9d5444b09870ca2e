//! A request that is cut in two by the device's boundary, played by hand: its pieces go, are served and
//! come back in the other order. Data and digests are by python.
use crate::tests::deeds::{Ask, Deed, What, answer_to};
use crate::tests::setups::{Shape, WRITE, Word, setup};
use bd_base::{ApplyEnd, Op, OutOfMemory, Outcome, ReqId, Setup, Shown, Status};
use bd_machine::guard::{ALL_PIECES_BACK, HEAD_OF_QUEUE, PIECE_COUNT, SHOWN_DATA};
use bd_play::StepError;
use std::alloc::Global;
use std::test::Fail;

// Blocks 4 to 11, in their order, and with blocks 8 to 11 first, as their piece comes back.
const IN_ORDER: Shown = Shown {
    first: [129, 136, 143, 150, 157, 164, 171, 178],
    digest: [
        221, 89, 172, 59, 189, 5, 64, 171, 142, 234, 162, 113, 251, 64, 95, 221, 14, 237, 52, 6,
        54, 84, 175, 115, 209, 233, 239, 206, 185, 253, 30, 98,
    ],
};

const AS_THEY_CAME: Shown = Shown {
    first: [253, 4, 11, 18, 25, 32, 39, 46],
    digest: [
        154, 147, 162, 14, 150, 198, 6, 119, 70, 79, 22, 110, 183, 235, 68, 181, 51, 237, 204, 145,
        73, 73, 6, 36, 155, 64, 135, 97, 77, 113, 5, 227,
    ],
};

// Request 0 is the write, and request 1 the read.
const ZERO: ReqId = ReqId { thread: 0, seq: 0 };

const ONE: ReqId = ReqId { thread: 0, seq: 1 };

const TRACE: [Deed; 32] = [
    Deed::Reg(Ask::Open(0, 16)),
    Deed::Reg(Ask::Get(true)),
    Deed::Script(1, Outcome::Done),
    Deed::Accept(ZERO, 0, WRITE, 4, 8),
    Deed::Script(2, Outcome::Accepted(ZERO)),
    Deed::Cut(0, 2),
    Deed::Put(0, What::Piece(0, 1)),
    Deed::Put(1, What::Piece(0, 0)),
    Deed::Took(0, What::Piece(0, 1)),
    Deed::Took(1, What::Piece(0, 0)),
    Deed::Apply(0, 1, ApplyEnd::Done),
    Deed::Put(2, What::Piece(0, 1)),
    Deed::Apply(0, 0, ApplyEnd::Done),
    Deed::Put(3, What::Piece(0, 0)),
    Deed::Took(2, What::Piece(0, 1)),
    Deed::Took(3, What::Piece(0, 0)),
    Deed::Complete(0, Status::Success, None),
    Deed::Script(3, Outcome::Done),
    Deed::Accept(ONE, 0, Op::Read, 4, 8),
    Deed::Script(4, Outcome::Accepted(ONE)),
    Deed::Cut(1, 2),
    Deed::Put(4, What::Piece(1, 1)),
    Deed::Put(5, What::Piece(1, 0)),
    Deed::Took(4, What::Piece(1, 1)),
    Deed::Took(5, What::Piece(1, 0)),
    Deed::Apply(1, 1, ApplyEnd::Done),
    Deed::Apply(1, 0, ApplyEnd::Done),
    Deed::Put(6, What::Piece(1, 1)),
    Deed::Put(7, What::Piece(1, 0)),
    Deed::Took(6, What::Piece(1, 1)),
    Deed::Took(7, What::Piece(1, 0)),
    Deed::Complete(1, Status::Success, Some(IN_ORDER)),
];

// A guard, and an act that it refuses after the first entries of the trace: one piece for two, the
// piece that came second, a completion at the first piece's return, the data in the order of coming.
const REFUSED: [(u32, usize, Deed); 4] = [
    (PIECE_COUNT, 5, Deed::Cut(0, 1)),
    (HEAD_OF_QUEUE, 10, Deed::Apply(0, 0, ApplyEnd::Done)),
    (
        ALL_PIECES_BACK,
        15,
        Deed::Complete(0, Status::Success, None),
    ),
    (
        SHOWN_DATA,
        31,
        Deed::Complete(1, Status::Success, Some(AS_THEY_CAME)),
    ),
];

// A device of 16 blocks with a boundary at block 8, and a script that writes and reads blocks 4 to 11.
const SHAPE: Shape = Shape {
    blocks: 16,
    boundary: 8,
};

const SCRIPT: [Word; 4] = [
    Word::Open("h", "Malloc0", true),
    Word::Submit("h", WRITE, 4, 8),
    Word::Wait,
    Word::Submit("h", Op::Read, 4, 8),
];

fn one_script(alloc: Global) -> Result<Setup, OutOfMemory> {
    setup(alloc, 1, SHAPE, &[&SCRIPT])
}

#[test]
fn pieces_come_back_in_another_order(rt: HostRuntime) -> Result<(), Fail> {
    let setup = one_script(rt.alloc())?;
    let answer = answer_to(rt.alloc(), &setup, &TRACE[..31], TRACE[31]);
    assert!(rt; answer == Ok(()), "{answer:?}");
    Ok(())
}

#[test]
fn each_mistake_with_pieces_is_refused(rt: HostRuntime) -> Result<(), Fail> {
    let setup = one_script(rt.alloc())?;
    for row in &REFUSED {
        let (guard, after, deed) = *row;
        let refused = Err(StepError::Illegal { guard, stamp: 100 });
        let answer = answer_to(rt.alloc(), &setup, &TRACE[..after], deed);
        assert!(rt;
            answer == refused,
            "guard {guard} after {after} entries: {answer:?}"
        );
    }
    Ok(())
}
