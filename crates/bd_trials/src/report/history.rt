//! A history in words.
use crate::words::{first_word, number, small};
use bd_base::{
    Act, DevId, Entry, Errno, Fill, HandleId, Op, OutOfMemory, Outcome, ReqId, Shown, Status,
};
use std::alloc::Global;

/// The entries of acts that semicolons part; each begins with its thread. Words that are no act give
/// none.
pub(crate) fn entries(alloc: Global, acts: &str) -> Result<Vec<Entry>, OutOfMemory> {
    let mut entries = Vec::new(alloc);
    for act_words in acts.split("; ") {
        let (thread, rest) = first_word(act_words);
        let words: Vec<&str> = rest.split_whitespace().collect(alloc)?;
        if let Some(act) = act(words.as_slice()) {
            entries.push(Entry {
                stamp: 1,
                thread: small(thread),
                act,
            })?;
        }
    }
    Ok(entries)
}

fn act(words: &[&str]) -> Option<Act> {
    Some(match words {
        ["line", line, outcome @ ..] => Act::Script {
            line: small(line),
            outcome: outcome_of(outcome)?,
        },
        ["accept", thread, seq] => Act::Accept {
            req: request(thread, seq),
            dev: DevId(0),
            handle: HandleId(0),
            op: Op::Read,
            lba: 0,
            count: 8,
        },
        ["complete", thread, seq, end] => complete(request(thread, seq), end),
        ["refuse"] => REFUSAL,
        ["destruct", byte] => Act::Destruct {
            dev: DevId(0),
            digest: digest(byte),
        },
        _ => return None,
    })
}

fn outcome_of(words: &[&str]) -> Option<Outcome> {
    match words {
        ["accepted", thread, seq] => Some(Outcome::Accepted(request(thread, seq))),
        ["refused"] => Some(Outcome::Errno(Errno::BadDesc)),
        ["done"] => Some(Outcome::Done),
        _ => None,
    }
}

// A digest of one byte, again and again; none for a word that is no byte.
fn digest(byte: &str) -> Option<[u8; 32]> {
    let byte: u8 = byte.parse().ok()?;
    Some([byte; 32])
}

// A write of the first eight blocks is refused.
const REFUSAL: Act = Act::Refuse {
    handle: Some(HandleId(0)),
    op: Op::Write(Fill {
        seed: 5,
        flip: false,
    }),
    lba: 0,
    count: 8,
    errno: Errno::BadDesc,
};

fn request(thread: &str, seq: &str) -> ReqId {
    ReqId {
        thread: small(thread),
        seq: number(seq),
    }
}

// A request ends with a status by its word; `shown` ends it well, with data to be shown.
fn complete(req: ReqId, end: &str) -> Act {
    let (status, shown) = match end {
        "shown" => (Status::Success, Some(SHOWN)),
        "success" => (Status::Success, None),
        "aborted" => (Status::Aborted, None),
        _ => (Status::Failed, None),
    };
    Act::Complete { req, status, shown }
}

const SHOWN: Shown = Shown {
    first: [0, 1, 2, 3, 4, 5, 6, 7],
    digest: [0xab; 32],
};
