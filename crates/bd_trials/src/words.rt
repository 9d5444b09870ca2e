//! The words of a case: numbers, types of request, and bytes as it writes them.
use bd_base::{Fill, Op, OutOfMemory, ReqId};
use std::alloc::Global;

/// The first word, and what comes after the space that ends it.
pub(crate) fn first_word(text: &str) -> (&str, &str) {
    text.split_once(' ').unwrap_or((text, ""))
}

/// A number in decimal digits; 0 where it is none.
pub(crate) fn number(word: &str) -> u64 {
    word.parse().unwrap_or(0)
}

/// A small number in decimal digits; 0 where it is none.
pub(crate) fn small(word: &str) -> u32 {
    word.parse().unwrap_or(0)
}

/// A request of thread 0 by its number.
pub(crate) fn request(seq: &str) -> ReqId {
    ReqId {
        thread: 0,
        seq: number(seq),
    }
}

/// A type of request by its command's word. A write's seed is 5, an abort's line 3.
pub(crate) fn op(word: &str) -> Option<Op> {
    Some(match word {
        "read" => Op::Read,
        "write" => Op::Write(Fill {
            seed: 5,
            flip: false,
        }),
        "zeroes" => Op::Zeroes,
        "unmap" => Op::Unmap,
        "flush" => Op::Flush,
        "reset" => Op::Reset(0),
        "abort" => Op::Abort(3),
        _ => return None,
    })
}

/// The bytes that a text stands for: `\n`, `\r` and `\t` as in Rust, `\x` and two digits for a byte.
pub(crate) fn decoded(alloc: Global, text: &str) -> Result<Vec<u8>, OutOfMemory> {
    let mut bytes = Vec::new(alloc);
    for (at, part) in text.split('\\').enumerate() {
        if at == 0 {
            bytes.extend_from_slice(part.as_bytes())?;
        } else {
            let (byte, plain) = unescaped(part.as_bytes());
            bytes.push(byte)?;
            bytes.extend_from_slice(plain)?;
        }
    }
    Ok(bytes)
}

// The byte that an escape stands for, and the text after it.
fn unescaped(escape: &[u8]) -> (u8, &[u8]) {
    match escape {
        [b'n', plain @ ..] => (b'\n', plain),
        [b'r', plain @ ..] => (b'\r', plain),
        [b't', plain @ ..] => (b'\t', plain),
        [b'x', high, low, plain @ ..] => (digit(*high).wrapping_mul(16) | digit(*low), plain),
        _ => (b'?', escape),
    }
}

// The value of a hexadecimal digit.
fn digit(digit: u8) -> u8 {
    match digit {
        b'0'..=b'9' => digit - b'0',
        b'a'..=b'f' => digit - b'a' + 10,
        _ => 0,
    }
}

/// Bytes as a case writes them, or `nothing`.
pub(crate) fn escaped(alloc: Global, bytes: &[u8]) -> Result<String, OutOfMemory> {
    if bytes.is_empty() {
        return Ok(String::from_str(alloc, "nothing")?);
    }
    let mut text = String::new(alloc);
    for byte in bytes {
        match byte {
            b'\n' => text.push_str("\\n")?,
            b' '..=b'[' | b']'..=b'~' => text.push(char::from(*byte))?,
            _ => write!(text, "\\x{byte:02x}")?,
        }
    }
    Ok(text)
}
