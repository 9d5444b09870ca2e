//! Acts in words, which the tests give the machine by hand.
use crate::tests::setups::name;
use bd_base::{
    Act, Answer, ApplyEnd, Boxed, ClaimKind, DevId, Dropped, Entry, Errno, HandleId, Op,
    OutOfMemory, Outcome, RegEvent, ReqId, Rows, Setup, Shown, Status, ThreadSet, Token,
};
use bd_play::{Machine, StepError};
use std::alloc::Global;

const DEV: DevId = DevId(0);

const HANDLE: HandleId = HandleId(0);

/// What thread 0 asks of the registry, with the answer, by what differs.
#[derive(Clone, Copy)]
pub(crate) enum Ask {
    // The number of the handle, and how many blocks the device has.
    Open(u128, u64),
    // Whether the channel is made by this get.
    Get(bool),
    Claim,
    Put,
    Close,
    Drop,
    Remove,
    Destructed,
}

/// What a message carries: a piece, the channel that is to be dropped, or the device that is to be destructed.
#[derive(Clone, Copy)]
pub(crate) enum What {
    Piece(u64, u32),
    Channel,
    Device,
}

/// An act of thread 0, by what differs.
#[derive(Clone, Copy)]
pub(crate) enum Deed {
    Reg(Ask),
    // The request, its device, its first block and its number of blocks.
    Accept(ReqId, u32, Op, u64, u64),
    Refuse(Op, u64),
    Cut(u64, u32),
    Put(u128, What),
    Took(u128, What),
    Apply(u64, u32, ApplyEnd),
    Complete(u64, Status, Option<Shown>),
    Script(u32, Outcome),
    Shutdown,
    Destruct(u32, Option<[u8; 32]>),
    Pend,
}

fn req(seq: u64) -> ReqId {
    ReqId { thread: 0, seq }
}

fn event(alloc: Global, ask: Ask) -> Result<RegEvent, OutOfMemory> {
    let name = name(alloc, "Malloc0")?;
    match ask {
        Ask::Open(..) => Ok(RegEvent::Open { name, write: true }),
        Ask::Get(_) => Ok(RegEvent::GetChannel { dev: DEV }),
        Ask::Claim => Ok(RegEvent::Claim {
            handle: HANDLE,
            kind: ClaimKind::Exclusive,
        }),
        Ask::Put => Ok(RegEvent::PutChannel {
            dev: DEV,
            closing: true,
        }),
        Ask::Close => Ok(RegEvent::Close { handle: HANDLE }),
        Ask::Drop => Ok(RegEvent::DropChannel { dev: DEV }),
        Ask::Remove => Ok(RegEvent::BeginRemove { name }),
        Ask::Destructed => Ok(RegEvent::Destructed { dev: DEV }),
    }
}

fn answer(alloc: Global, ask: Ask) -> Answer {
    match ask {
        Ask::Open(handle, blocks) => Answer::Opened {
            handle: HandleId(handle),
            dev: DEV,
            blocks,
        },
        Ask::Get(fresh) => Answer::Got {
            fresh,
            frozen: Rows::new(alloc),
        },
        Ask::Claim => Answer::Claimed,
        Ask::Put => Answer::PutDown { left: 0 },
        Ask::Close => Answer::Closed { destruct: None },
        Ask::Drop => Answer::Dropped {
            what: Dropped::Last,
            zero: None,
            destruct: None,
        },
        Ask::Remove => Answer::Removing {
            dev: DEV,
            threads: ThreadSet::empty(),
            handles: Rows::new(alloc),
            destruct: Some(DEV),
        },
        Ask::Destructed => Answer::Freed { close: None },
    }
}

fn token(what: What) -> Token {
    match what {
        What::Piece(seq, k) => Token::Piece(req(seq), k),
        What::Channel => Token::Channel(DEV),
        What::Device => Token::Device(DEV),
    }
}

fn accepted(req: ReqId, dev: DevId, op: Op, lba: u64, count: u64) -> Act {
    Act::Accept {
        req,
        dev,
        handle: HANDLE,
        op,
        lba,
        count,
    }
}

fn refused(op: Op, lba: u64) -> Act {
    Act::Refuse {
        handle: Some(HANDLE),
        op,
        lba,
        count: 1,
        errno: Errno::Inval,
    }
}

fn applied(req: ReqId, k: u32, end: ApplyEnd) -> Act {
    Act::Apply {
        req,
        k,
        dev: DEV,
        end,
    }
}

fn act(alloc: Global, deed: Deed) -> Result<Act, OutOfMemory> {
    match deed {
        Deed::Reg(ask) => Ok(Act::Reg {
            event: event(alloc, ask)?,
            answer: Boxed::new(alloc, answer(alloc, ask))?,
        }),
        Deed::Accept(req, dev, op, lba, count) => { Ok(accepted(req, DevId(dev), op, lba, count)) }
        Deed::Refuse(op, lba) => Ok(refused(op, lba)),
        Deed::Cut(seq, pieces) => Ok(Act::Cut {
            req: req(seq),
            pieces,
        }),
        Deed::Put(number, what) => Ok(Act::Put {
            to: 0,
            number,
            what: token(what),
        }),
        Deed::Took(number, what) => Ok(Act::Took {
            source: 0,
            number,
            what: token(what),
        }),
        Deed::Apply(seq, k, end) => Ok(applied(req(seq), k, end)),
        Deed::Complete(seq, status, shown) => Ok(Act::Complete {
            req: req(seq),
            status,
            shown,
        }),
        Deed::Script(line, outcome) => Ok(Act::Script { line, outcome }),
        Deed::Shutdown => Ok(Act::Shutdown),
        Deed::Destruct(dev, digest) => Ok(Act::Destruct {
            dev: DevId(dev),
            digest,
        }),
        Deed::Pend => Ok(Act::Pend { req: req(0) }),
    }
}

// The machine takes an act.
fn step(
    alloc: Global,
    machine: &mut Machine,
    stamp: u128,
    thread: u32,
    deed: Deed,
) -> Result<(), StepError> {
    let act = act(alloc, deed)?;
    let entry = Entry { stamp, thread, act };
    machine.step(&entry)
}

/// The machine takes these acts of thread 0, with the stamps 1, 2, 3 and so on.
pub(crate) fn play(alloc: Global, machine: &mut Machine, deeds: &[Deed]) -> Result<(), StepError> {
    let mut stamp: u128 = 0;
    for deed in deeds {
        stamp = stamp.saturating_add(1);
        step(alloc, machine, stamp, 0, *deed)?;
    }
    Ok(())
}

/// How the machine takes an act of thread 0 with the stamp 100 after these.
pub(crate) fn answer_to(
    alloc: Global,
    setup: &Setup,
    deeds: &[Deed],
    last: Deed,
) -> Result<(), StepError> {
    answer_with(alloc, setup, deeds, (100, 0), last)
}

/// How it takes an act with this stamp and thread after these.
pub(crate) fn answer_with(
    alloc: Global,
    setup: &Setup,
    deeds: &[Deed],
    (stamp, thread): (u128, u32),
    last: Deed,
) -> Result<(), StepError> {
    let mut machine = Machine::start(alloc, setup)?;
    play(alloc, &mut machine, deeds)?;
    step(alloc, &mut machine, stamp, thread, last)
}

/// Whether the run of these acts is complete.
pub(crate) fn is_complete(alloc: Global, setup: &Setup, deeds: &[Deed]) -> Result<bool, StepError> {
    let mut machine = Machine::start(alloc, setup)?;
    play(alloc, &mut machine, deeds)?;
    Ok(machine.is_complete()?)
}
