//! The words of a script's line: numbers and names.
ghost use Rattle.std.specs.Prelude.{◌≡◌, ◌<◌, ◌^◌, map, nat_lt, Some, None, if◌then◌else◌, IfOk, true};
ghost use Rattle.std.specs.List.{list_all};
ghost use Rattle.bd_jobs.specs.Words.{words_of, is_blank, is_digit, is_number, value_from, number_of, is_handle_byte, is_handle, is_device_byte, is_device};

use bd_base::OutOfMemory;
use std::alloc::Global;

// Space and tab.
fn is_blank(b: u8) -> bool
    ensures { result ≡ is_blank b }
{
    b == b' ' || b == b'\t'
}

/// Whether a line has only blanks.
pub(crate) fn is_all_blank(line: &[u8]) -> bool
    ensures { result ≡ list_all is_blank line.now }
{
    line.iter().all(|b| is_blank(*b))
}

/// The words of a line.
pub(crate) fn words(alloc: Global, line: &[u8]) -> Result<Vec<&[u8]>, OutOfMemory>
    ensures { IfOk result (λ v. map (λ w. w.now) v.items ≡ words_of line.now) }
{
    let words = line
        .split(|b| is_blank(*b))
        .filter(|w| !w.is_empty())
        .collect(alloc)?;
    Ok(words)
}

fn are_digits(word: &[u8]) -> bool
    ensures { result ≡ list_all is_digit word.now }
{
    word.iter().all(|b| b'0' <= *b && *b <= b'9')
}

// Digits without a leading zero, or the one digit 0.
fn is_number(word: &[u8]) -> bool
    ensures { result ≡ is_number word.now }
{
    match word {
        [] => false,
        [_] => are_digits(word),
        [first, ..] => *first != b'0' && are_digits(word),
    }
}

// The value of digits; none where it is above 2^64 - 1.
fn value(digits: &[u8]) -> Option<u64>
    requires { list_all is_digit digits.now ≡ true }
    ensures { result ≡ (if nat_lt (value_from 0 digits.now) (2 ^ 64) then Some (value_from 0 digits.now) else None) }
{
    let mut n = 0u64;
    for b in digits {
        n = n.checked_mul(10)?.checked_add(u64::from(*b - b'0'))?;
    }
    Some(n)
}

/// The number that a word is: `0`, or digits without a leading zero, up to 2^64 - 1.
pub fn number(word: &[u8]) -> Option<u64>
    ensures { result ≡ number_of word.now }
{
    if is_number(word) { value(word) } else { None }
}

fn are_handle_bytes(word: &[u8]) -> bool
    ensures { result ≡ list_all is_handle_byte word.now }
{
    word.iter().all(|b| {
        (65 <= *b && *b <= 90)
            || (97 <= *b && *b <= 122)
            || (48 <= *b && *b <= 57)
            || *b == b'_'
            || *b == b'-'
    })
}

/// Whether a word is a handle's name: 1 to 32 letters, digits, `_` and `-`.
pub(crate) fn is_handle(word: &[u8]) -> bool
    ensures { result ≡ is_handle word.now }
{
    1 <= word.len() && word.len() <= 32 && are_handle_bytes(word)
}

fn are_device_bytes(word: &[u8]) -> bool
    ensures { result ≡ list_all is_device_byte word.now }
{
    word.iter().all(|b| 33 <= *b && *b <= 126)
}

/// Whether a word is a device's name: 1 to 255 letters from `!` to `~`.
pub(crate) fn is_device(word: &[u8]) -> bool
    ensures { result ≡ is_device word.now }
{
    1 <= word.len() && word.len() <= 255 && are_device_bytes(word)
}
