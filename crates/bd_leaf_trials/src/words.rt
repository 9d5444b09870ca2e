//! The words of a case: numbers and requests.
use bd_base::ReqId;

/// The first word, and what comes after the space that ends it.
pub(crate) fn first_word(text: &str) -> (&str, &str) {
    text.split_once(' ').unwrap_or((text, ""))
}

/// A number in decimal digits; 0 where it is none.
pub(crate) fn number(word: &str) -> u64 {
    word.parse().unwrap_or(0)
}

/// A small number in decimal digits; 0 where it is none.
pub(crate) fn small(word: &str) -> u32 {
    word.parse().unwrap_or(0)
}

/// A request: its thread, a full stop, its number.
pub(crate) fn request(word: &str) -> ReqId {
    let (thread, seq) = word.split_once('.').unwrap_or(("0", word));
    ReqId {
        thread: small(thread),
        seq: number(seq),
    }
}
