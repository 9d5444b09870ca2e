//! The digest, the pattern of a fill, and the lists.
use crate::steps::said;
use crate::words::{decoded, escaped, first_word, number};
use bd_base::{Bytes, DevId, DevList, Name, NameList, OutOfMemory, digest_of, fill_pattern};
use std::alloc::Global;

pub(crate) fn answer(alloc: Global, case: &str) -> Result<String, OutOfMemory> {
    let (form, rest) = first_word(case);
    match form {
        "digest" => {
            let digest = digest_of(decoded(alloc, rest)?.as_slice());
            Ok(hex::encode(alloc, digest.as_slice())?)
        },
        "fill" => filled(alloc, rest),
        "bytes" => bytes(alloc),
        "lists" => lists(alloc),
        _ => said(alloc, "no such step"),
    }
}

// The first four bytes of a block's pattern, by its seed and its number.
fn filled(alloc: Global, words: &str) -> Result<String, OutOfMemory> {
    let (seed, block) = first_word(words);
    let mut bytes = [0u8; 4];
    fill_pattern(number(seed), number(block), &mut bytes);
    Ok(hex::encode(alloc, bytes.as_slice())?)
}

// The copy of two zeros with more bytes after them.
fn bytes(alloc: Global) -> Result<String, OutOfMemory> {
    let mut bytes = Bytes::zeros(alloc, 2)?;
    bytes.append(b"ab")?;
    bytes.push(b'c')?;
    escaped(alloc, bytes.copy()?.as_slice())
}

// A name that grows by a byte, its copy, and lists of it and of a device.
fn lists(alloc: Global) -> Result<String, OutOfMemory> {
    let mut name = Name::from_slice(alloc, b"Malloc")?;
    name.push(b'0')?;
    let is = name.copy()?.is(&name);
    let mut devices = DevList::new(alloc);
    devices.push(DevId(7))?;
    let length = devices.copy()?.len();
    let mut names = NameList::new(alloc);
    names.push(name.copy()?)?;
    let (has, has_empty) = (names.has(&name), names.has(&Name::new(alloc)));
    Ok(format!(in alloc; "{name} {is} {length} {has} {has_empty}")?)
}
