//! The words of a case.
use bd_base::{DevId, OutOfMemory};
use std::alloc::Global;

/// What comes before the first mark, and what comes after it.
pub(crate) fn split<'a>(text: &'a str, mark: &str) -> (&'a str, &'a str) {
    text.split_once(mark).unwrap_or((text, ""))
}

/// The words of a text.
pub(crate) fn words(alloc: Global, text: &str) -> Result<Vec<&str>, OutOfMemory> {
    Ok(text.split_whitespace().collect(alloc)?)
}

/// A number in decimal digits; 0 where it is none.
pub(crate) fn number(word: &str) -> u64 {
    word.parse().unwrap_or(0)
}

/// A small number in decimal digits; 0 where it is none.
pub(crate) fn small(word: &str) -> u32 {
    word.parse().unwrap_or(0)
}

/// A great number in decimal digits; 0 where it is none.
pub(crate) fn great(word: &str) -> u128 {
    word.parse().unwrap_or(0)
}

/// The device of this number.
pub(crate) fn device(word: &str) -> DevId {
    DevId(small(word))
}

/// An answer that is always the same.
pub(crate) fn said(alloc: Global, text: &str) -> Result<String, OutOfMemory> {
    Ok(String::from_str(alloc, text)?)
}

/// A number that may be none.
pub(crate) fn maybe(alloc: Global, found: Option<u128>) -> Result<String, OutOfMemory> {
    match found {
        Some(found) => Ok(format!(in alloc; "{found}")?),
        None => said(alloc, "none"),
    }
}

/// The numbers of devices.
pub(crate) fn devices(alloc: Global, devs: &[DevId]) -> Result<String, OutOfMemory> {
    let mut text = String::from_str(alloc, "devices")?;
    for dev in devs {
        let number = dev.0;
        write!(text, " {number}")?;
    }
    Ok(text)
}
