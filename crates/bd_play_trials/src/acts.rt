//! Acts in words: what thread 0 does with the one device and its one handle.
use crate::words::{digest, great, number, op, request, shown, small};
use bd_base::{
    Act, Answer, ApplyEnd, Boxed, ClaimKind, DevId, Dropped, Errno, HandleId, Name, OutOfMemory,
    Outcome, RegEvent, ReqId, Rows, Status, ThreadSet, Token,
};
use std::alloc::Global;

const DEV: DevId = DevId(0);

const HANDLE: HandleId = HandleId(0);

// A request of thread 0.
fn own(seq: &str) -> ReqId {
    request("0", seq)
}

// What thread 0 asks of the registry.
fn event(alloc: Global, ask: &str) -> Result<RegEvent, OutOfMemory> {
    let name = Name::from_slice(alloc, b"Malloc0")?;
    Ok(match ask {
        "open" => RegEvent::Open { name, write: true },
        "get" => RegEvent::GetChannel { dev: DEV },
        "claim" => RegEvent::Claim {
            handle: HANDLE,
            kind: ClaimKind::Exclusive,
        },
        "put" => RegEvent::PutChannel {
            dev: DEV,
            closing: true,
        },
        "close" => RegEvent::Close { handle: HANDLE },
        "drop" => RegEvent::DropChannel { dev: DEV },
        "remove" => RegEvent::BeginRemove { name },
        _ => RegEvent::Destructed { dev: DEV },
    })
}

fn removing(alloc: Global) -> Answer {
    Answer::Removing {
        dev: DEV,
        threads: ThreadSet::empty(),
        handles: Rows::new(alloc),
        destruct: Some(DEV),
    }
}

fn dropped() -> Answer {
    Answer::Dropped {
        what: Dropped::Last,
        zero: None,
        destruct: None,
    }
}

fn opened(handle: &str, blocks: u64) -> Answer {
    Answer::Opened {
        handle: HandleId(great(handle)),
        dev: DEV,
        blocks,
    }
}

// How the registry answers; an open has the number of its handle, and of blocks where these aren't 64; a get is the
// first or a later one.
fn answer(alloc: Global, ask: &[&str]) -> Answer {
    match ask {
        ["open", handle] => opened(handle, 64),
        ["open", handle, blocks] => opened(handle, number(blocks)),
        ["get", which] => Answer::Got {
            fresh: *which == "first",
            frozen: Rows::new(alloc),
        },
        ["claim"] => Answer::Claimed,
        ["put"] => Answer::PutDown { left: 0 },
        ["close"] => Answer::Closed { destruct: None },
        ["drop"] => dropped(),
        ["remove"] => removing(alloc),
        _ => Answer::Freed { close: None },
    }
}

fn reg(alloc: Global, ask: &[&str]) -> Result<Act, OutOfMemory> {
    let verb = ask.first().copied().unwrap_or("");
    let event = event(alloc, verb)?;
    let answer = Boxed::new(alloc, answer(alloc, ask))?;
    Ok(Act::Reg { event, answer })
}

// What a message carries: a piece, the channel that is to be dropped, or the device that is to be destructed.
fn token(what: &[&str]) -> Token {
    match what {
        ["piece", seq, k] => Token::Piece(own(seq), small(k)),
        ["channel"] => Token::Channel(DEV),
        _ => Token::Device(DEV),
    }
}

fn outcome(words: &[&str]) -> Outcome {
    match words {
        ["accepted", seq] => Outcome::Accepted(own(seq)),
        ["inval"] => Outcome::Errno(Errno::Inval),
        ["exists"] => Outcome::Errno(Errno::Exists),
        _ => Outcome::Done,
    }
}

fn status(word: &str) -> Status {
    match word {
        "failed" => Status::Failed,
        "aborted" => Status::Aborted,
        _ => Status::Success,
    }
}

fn end(word: &str) -> ApplyEnd {
    match word {
        "fault" => ApplyEnd::Fault,
        _ => ApplyEnd::Done,
    }
}

// What a request is, and what becomes of it.
fn of_request(words: &[&str]) -> Option<Act> {
    Some(match words {
        ["accept", thread, seq, dev, type_, lba, count] => Act::Accept {
            req: request(thread, seq),
            dev: DevId(small(dev)),
            handle: HANDLE,
            op: op(type_),
            lba: number(lba),
            count: number(count),
        },
        ["refuse", type_, lba] => Act::Refuse {
            handle: Some(HANDLE),
            op: op(type_),
            lba: number(lba),
            count: 1,
            errno: Errno::Inval,
        },
        ["cut", seq, pieces] => Act::Cut {
            req: own(seq),
            pieces: small(pieces),
        },
        ["apply", seq, k, word] => Act::Apply {
            req: own(seq),
            k: small(k),
            dev: DEV,
            end: end(word),
        },
        ["complete", seq, word] => Act::Complete {
            req: own(seq),
            status: status(word),
            shown: None,
        },
        ["complete", seq, word, first, all] => Act::Complete {
            req: own(seq),
            status: status(word),
            shown: Some(shown(first, all)),
        },
        ["pend", seq] => Act::Pend { req: own(seq) },
        _ => return None,
    })
}

// All else that a thread does but ask the registry.
fn of_thread(words: &[&str]) -> Option<Act> {
    Some(match words {
        ["put", count, what @ ..] => Act::Put {
            to: 0,
            number: great(count),
            what: token(what),
        },
        ["took", count, what @ ..] => Act::Took {
            source: 0,
            number: great(count),
            what: token(what),
        },
        ["script", line, outcomes @ ..] => Act::Script {
            line: small(line),
            outcome: outcome(outcomes),
        },
        ["destruct", dev, "none"] => Act::Destruct {
            dev: DevId(small(dev)),
            digest: None,
        },
        ["destruct", dev, all] => Act::Destruct {
            dev: DevId(small(dev)),
            digest: Some(digest(all)),
        },
        ["shutdown"] => Act::Shutdown,
        _ => return None,
    })
}

/// The act that these words name; none where they name none.
pub(crate) fn act(alloc: Global, words: &[&str]) -> Result<Option<Act>, OutOfMemory> {
    match words {
        ["reg", ask @ ..] => Ok(Some(reg(alloc, ask)?)),
        _ => match of_request(words) {
            Some(act) => Ok(Some(act)),
            None => Ok(of_thread(words)),
        },
    }
}
