//! The words of a case.
use bd_base::{Fill, Op, OutOfMemory, ReqId, Shown};
use std::alloc::Global;

/// What comes before the first mark, and what comes after it.
pub(crate) fn split<'a>(text: &'a str, mark: &str) -> (&'a str, &'a str) {
    text.split_once(mark).unwrap_or((text, ""))
}

/// The words of a text.
pub(crate) fn words(alloc: Global, text: &str) -> Result<Vec<&str>, OutOfMemory> {
    Ok(text.split_whitespace().collect(alloc)?)
}

/// A number in decimal digits; 0 where it is none.
pub(crate) fn number(word: &str) -> u64 {
    word.parse().unwrap_or(0)
}

/// A small number in decimal digits; 0 where it is none.
pub(crate) fn small(word: &str) -> u32 {
    word.parse().unwrap_or(0)
}

/// A great number in decimal digits; 0 where it is none.
pub(crate) fn great(word: &str) -> u128 {
    word.parse().unwrap_or(0)
}

/// A request of a thread.
pub(crate) fn request(thread: &str, seq: &str) -> ReqId {
    ReqId {
        thread: small(thread),
        seq: number(seq),
    }
}

/// A type of request. A write has the pattern of seed 5.
pub(crate) fn op(word: &str) -> Op {
    match word {
        "read" => Op::Read,
        "reset" => Op::Reset(0),
        _ => Op::Write(Fill {
            seed: 5,
            flip: false,
        }),
    }
}

// The value of a hexadecimal digit; 0 where it is none.
fn digit(digit: u8) -> u8 {
    match digit {
        b'0'..=b'9' => digit - b'0',
        b'a'..=b'f' => digit - b'a' + 10,
        _ => 0,
    }
}

// The byte of two digits at a place; 0 where there are none.
fn byte(text: &[u8], place: usize) -> u8 {
    let high = text.get(place.saturating_mul(2)).copied().unwrap_or(0);
    let low = text
        .get(place.saturating_mul(2).saturating_add(1))
        .copied()
        .unwrap_or(0);
    digit(high).wrapping_mul(16) | digit(low)
}

/// The digest with these digits.
pub(crate) fn digest(text: &str) -> [u8; 32] {
    let mut digest = [0u8; 32];
    for place in 0..32 {
        digest[place] = byte(text.as_bytes(), place);
    }
    digest
}

// The eight bytes with these digits.
fn eight(text: &str) -> [u8; 8] {
    let mut bytes = [0u8; 8];
    for place in 0..8 {
        bytes[place] = byte(text.as_bytes(), place);
    }
    bytes
}

/// What a read shows: its first bytes and its digest.
pub(crate) fn shown(first: &str, all: &str) -> Shown {
    Shown {
        first: eight(first),
        digest: digest(all),
    }
}
