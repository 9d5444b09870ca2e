//! Events in words.
use bd_base::{ClaimKind, DevId, HandleId, Name, Op, OutOfMemory, RegEvent, ReqId};
use std::alloc::Global;

// A number in decimal digits; 0 where it is none.
fn number(word: &str) -> u64 {
    word.parse().unwrap_or(0)
}

/// A small number in decimal digits; 0 where it is none.
pub(crate) fn small(word: &str) -> u32 {
    word.parse().unwrap_or(0)
}

fn dev(word: &str) -> DevId {
    DevId(small(word))
}

fn handle(word: &str) -> HandleId {
    HandleId(small(word) as u128)
}

fn name(alloc: Global, word: &str) -> Result<Name, OutOfMemory> {
    Name::from_slice(alloc, word.as_bytes())
}

fn kind(words: &[&str]) -> Option<ClaimKind> {
    Some(match words {
        ["exclusive"] => ClaimKind::Exclusive,
        ["one"] => ClaimKind::WriteOne,
        ["none"] => ClaimKind::WriteNone,
        ["shared", key] => ClaimKind::Shared(small(key) as u64),
        _ => return None,
    })
}

fn claim(word: &str, words: &[&str]) -> Option<RegEvent> {
    let handle = handle(word);
    let kind = kind(words)?;
    Some(RegEvent::Claim { handle, kind })
}

// A request of the thread, by its number.
fn request(thread: u32, word: &str) -> ReqId {
    ReqId {
        thread,
        seq: small(word) as u64,
    }
}

/// The event of a thread that has these words; none where there is no such event.
pub(crate) fn event(
    alloc: Global,
    thread: u32,
    words: &[&str],
) -> Result<Option<RegEvent>, OutOfMemory> {
    Ok(match words {
        ["open", word, access] => Some(RegEvent::Open {
            name: name(alloc, word)?,
            write: *access == "w",
        }),
        ["close", word] => Some(RegEvent::Close {
            handle: handle(word),
        }),
        ["claim", word, kind @ ..] => claim(word, kind),
        ["get", word] => Some(RegEvent::GetChannel { dev: dev(word) }),
        ["put", word] => Some(RegEvent::PutChannel {
            dev: dev(word),
            closing: false,
        }),
        ["drop", word] => Some(RegEvent::DropChannel { dev: dev(word) }),
        ["remove", word] => Some(RegEvent::BeginRemove {
            name: name(alloc, word)?,
        }),
        ["reset", word, number] => Some(RegEvent::BeginReset {
            dev: dev(word),
            req: request(thread, number),
        }),
        ["end", word] => Some(RegEvent::EndReset { dev: dev(word) }),
        ["finish", word] => Some(RegEvent::FinishReset { dev: dev(word) }),
        ["inject", word] => Some(RegEvent::TakeInjection {
            dev: dev(word),
            req: request(thread, "0"),
            op: Op::Read,
        }),
        ["grow", word, blocks] => Some(RegEvent::BeginResize {
            name: name(alloc, word)?,
            blocks: number(blocks),
        }),
        ["grown", word] => Some(RegEvent::EndResize { dev: dev(word) }),
        ["report", word] => Some(RegEvent::Destructed { dev: dev(word) }),
        _ => None,
    })
}
