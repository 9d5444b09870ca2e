//! The words of a case.

/// A number in decimal digits; 0 where it is none.
pub(crate) fn number(word: &str) -> u64 {
    word.parse().unwrap_or(0)
}

/// A small number in decimal digits; 0 where it is none.
pub(crate) fn small(word: &str) -> u32 {
    word.parse().unwrap_or(0)
}

/// The first word, and what comes after the space that ends it.
pub(crate) fn first_word(text: &str) -> (&str, &str) {
    text.split_once(' ').unwrap_or((text, ""))
}
