//! The pages of a device in order: their bytes, read and written over several pages.
ghost use Rattle.std.specs.Prelude.{◌≡◌, ◌+◌, ◌*◌, ◌/◌, ◌%◌, ◌-◌, ◌^◌, ◌<◌, ◌≤◌, ◌++◌, ℕ, Bool, true, false, min, length, replicate, take, drop, IfOk, OnOk, OnErr, slice_index_or, count_by};
ghost use Rattle.sha2.specs.Sha256.{sha256};
ghost use Rattle.bd_base.specs.Pattern.{pattern, pattern_byte};
ghost use Rattle.bd_pages.specs.Bytes.{written};
ghost use Rattle.bd_pages.specs.Fills.{bytes_filled, patterns};
ghost use Rattle.bd_pages.specs.Leaf.{Leaf};
ghost use Rattle.bd_pages.specs.Table.{AreReady, AreTaken, IsPaged, SameContents, flat, marks, pages_of, pieces, touched, untaken};

use crate::page::{Page, Span};
use bd_base::{Fill, OutOfMemory};
use sha2::{Digest, Sha256};
use std::alloc::Global;

/// How many bytes a page has.
pub(crate) const PAGE: usize = 65_536;

// How many of `n` bytes from a place on are on that place's page.
fn reach(at: usize, n: usize) -> usize
    ensures { result ≡ min n (65536 - at % 65536) }
{
    let left = PAGE - at % PAGE;
    if n < left { n } else { left }
}

// The page after that of a range's last byte; for no bytes that of its place.
fn end_of(at: usize, n: usize) -> usize
    requires { at + n < 2 ^ 64 }
    ensures { result ≡ at / 65536 + pages_of at n }
{
    if n == 0 {
        at / PAGE
    } else {
        (at + n - 1) / PAGE + 1
    }
}

/// So many zeros, on pages that take no memory. The table of the pages takes some.
pub(crate) fn blank(alloc: Global, len: usize) -> Result<Vec<Page>, OutOfMemory>
    ensures bytes { IfOk result (λ pages. flat pages.items ≡ replicate len 0) }
    ensures paged { IfOk result (λ pages. IsPaged pages.items) }
    ensures taken { IfOk result (λ pages. marks pages.items ≡ replicate (pages_of 0 len) false) }
{
    let mut pages = Vec::with_capacity(alloc, end_of(0, len))?;
    let mut left = len;
    while left > 0 {
        let count = reach(0, left);
        pages.push(Page::blank(count))?;
        left -= count;
    }
    Ok(pages)
}

/// Appends the `n` bytes from a place on. Out of memory leaves what is appended unspecified.
pub(crate) fn read(pages: &[Page], at: usize, n: usize, to: &mut Vec<u8>) -> Result<(), OutOfMemory>
    requires paged { IsPaged pages.now }
    requires inside { at + n ≤ length (flat pages.now) }
    requires small { at + n < 2 ^ 64 }
    ensures { OnOk result (to.new.items ≡ to.old.items ++ take n (drop at (flat pages.now))) }
{
    let mut done = 0;
    while done < n {
        let place = at + done;
        let count = reach(place, n - done);
        pages[place / PAGE].read(place % PAGE, count, to)?;
        done += count;
    }
    Ok(())
}

// Writes bytes from a place on, on pages that are taken.
fn put(pages: &mut [Page], at: usize, bytes: &[u8])
    requires paged { IsPaged pages.old }
    requires inside { at + length bytes.now ≤ length (flat pages.old) }
    requires small { at + length bytes.now < 2 ^ 64 }
    requires ready { AreTaken (at / 65536) (at / 65536 + pages_of at (length bytes.now)) pages.old }
    ensures bytes { flat pages.new ≡ written at bytes.now (flat pages.old) }
    ensures paged { IsPaged pages.new }
    ensures taken { marks pages.new ≡ marks pages.old }
{
    let mut done = 0;
    while done < bytes.len() {
        let place = at + done;
        let count = reach(place, bytes.len() - done);
        pages[place / PAGE].put(place % PAGE, &bytes[done..done + count]);
        done += count;
    }
}

/// Makes the `n` bytes from a place on 0.
pub(crate) fn clear(pages: &mut [Page], at: usize, n: usize)
    requires paged { IsPaged pages.old }
    requires inside { at + n ≤ length (flat pages.old) }
    requires small { at + n < 2 ^ 64 }
    ensures bytes { flat pages.new ≡ written at (replicate n 0) (flat pages.old) }
    ensures paged { IsPaged pages.new }
    ensures taken { marks pages.new ≡ marks pages.old }
{
    let mut done = 0;
    while done < n {
        let place = at + done;
        let count = reach(place, n - done);
        pages[place / PAGE].clear(place % PAGE, count);
        done += count;
    }
}

// Takes memory for the pages from `first` to before `end`.
fn prepare(alloc: Global, pages: &mut [Page], first: usize, end: usize) -> Result<(), OutOfMemory>
    requires { end ≤ length pages.old }
    ensures same { SameContents pages.old pages.new }
    ensures ready { OnOk result (AreReady first end pages.new) }
{
    for k in first..end {
        pages[k].prepare(alloc)?;
    }
    Ok(())
}

// Gives back the memory of these pages that no write touched.
fn release(pages: &mut [Page], first: usize, end: usize)
    requires { end ≤ length pages.old }
    ensures { SameContents pages.old pages.new }
{
    for k in first..end {
        pages[k].release();
    }
}

// From now on writes have touched these pages.
fn mark(pages: &mut [Page], first: usize, end: usize)
    requires order { first ≤ end }
    requires inside { end ≤ length pages.old }
    requires ready { AreReady first end pages.old }
    ensures bytes { pieces pages.new ≡ pieces pages.old }
    ensures marks { marks pages.new ≡ written first (replicate (end - first) true) (marks pages.old) }
    ensures taken { AreTaken first end pages.new }
{
    for k in first..end {
        pages[k].mark();
    }
}

// Takes every page that has one of the `n` bytes from a place on, and changes no byte. Out of memory,
// the pages taken are as they were, and memory that was got is given back.
fn take(alloc: Global, pages: &mut [Page], at: usize, n: usize) -> Result<(), OutOfMemory>
    requires paged { IsPaged pages.old }
    requires inside { at + n ≤ length (flat pages.old) }
    requires small { at + n < 2 ^ 64 }
    ensures bytes { pieces pages.new ≡ pieces pages.old }
    ensures ok { OnOk result (marks pages.new ≡ touched at n (marks pages.old)) }
    ensures taken { OnOk result (AreTaken (at / 65536) (at / 65536 + pages_of at n) pages.new) }
    ensures err { OnErr result (marks pages.new ≡ marks pages.old) }
{
    let first = at / PAGE;
    let end = end_of(at, n);
    if let Err(e) = prepare(alloc, pages, first, end) {
        release(pages, first, end);
        return Err(e);
    }
    mark(pages, first, end);
    Ok(())
}

/// Writes bytes from a place on. Every page that they need is taken before anything changes; out of
/// memory, the bytes and the pages taken are as they were, and memory that was taken is given back.
pub(crate) fn write(
    alloc: Global,
    pages: &mut [Page],
    at: usize,
    bytes: &[u8],
) -> Result<(), OutOfMemory>
    requires paged { IsPaged pages.old }
    requires inside { at + length bytes.now ≤ length (flat pages.old) }
    requires small { at + length bytes.now < 2 ^ 64 }
    ensures paged { IsPaged pages.new }
    ensures len { length (flat pages.new) ≡ length (flat pages.old) }
    ensures bytes { OnOk result (flat pages.new ≡ written at bytes.now (flat pages.old)) }
    ensures taken { OnOk result (marks pages.new ≡ touched at (length bytes.now) (marks pages.old)) }
    ensures err { OnErr result (SameContents pages.old pages.new) }
{
    take(alloc, pages, at, bytes.len())?;
    put(pages, at, bytes);
    Ok(())
}

// A seed whose pattern is this one's from byte `from` on.
fn shifted(seed: u64, from: usize) -> u64
    ensures { result ≡ seed % 256 + 7 * (from % 256) }
{
    seed % 256 + 7 * (from % 256) as u64
}

// Puts the pattern of a seed into the block of `n` bytes from a place on, on pages that are taken.
fn fill_block(pages: &mut [Page], at: usize, n: usize, seed: u64, block: u64)
    requires paged { IsPaged pages.old }
    requires inside { at + n ≤ length (flat pages.old) }
    requires small { at + n < 2 ^ 64 }
    requires ready { AreTaken (at / 65536) (at / 65536 + pages_of at n) pages.old }
    ensures bytes { flat pages.new ≡ written at (pattern seed block n) (flat pages.old) }
    ensures paged { IsPaged pages.new }
    ensures taken { marks pages.new ≡ marks pages.old }
{
    let mut done = 0;
    while done < n {
        let place = at + done;
        let count = reach(place, n - done);
        pages[place / PAGE].fill(place % PAGE, count, shifted(seed, done), block);
        done += count;
    }
}

// How many whole blocks, at most `count`, lie on a place's page from there on; none where a block has no byte.
fn whole_blocks(at: usize, size: usize, count: usize) -> usize
    ensures most { result ≤ count }
    ensures near { result * size ≤ 65536 - at % 65536 }
    ensures some { 0 < result → 0 < result * size }
{
    if size == 0 {
        return 0;
    }
    let fit = (PAGE - at % PAGE) / size;
    if fit < count { fit } else { count }
}

// Puts the pattern of a seed into the first of some blocks, on pages that are taken, and says into how many: those
// that lie on the first one's page, or the first alone, where that lies on several.
fn fill_some(pages: &mut [Page], span: Span, seed: u64, number: u64) -> usize
    requires paged { IsPaged pages.old }
    requires inside { span.at + span.count * span.size ≤ length (flat pages.old) }
    requires small { span.at + span.count * span.size < 2 ^ 64 }
    requires numbered { number + span.count < 2 ^ 64 }
    requires ready { AreTaken (span.at / 65536) (span.at / 65536 + pages_of span.at (span.count * span.size)) pages.old }
    requires some { 0 < span.count }
    ensures some { 0 < result }
    ensures most { result ≤ span.count }
    ensures bytes { flat pages.new ≡ written span.at (patterns seed number span.size result) (flat pages.old) }
    ensures paged { IsPaged pages.new }
    ensures taken { marks pages.new ≡ marks pages.old }
{
    let count = whole_blocks(span.at, span.size, span.count);
    if count == 0 {
        fill_block(pages, span.at, span.size, seed, number);
        return 1;
    }
    let on_page = Span {
        at: span.at % PAGE,
        size: span.size,
        count,
    };
    pages[span.at / PAGE].fill_blocks(on_page, seed, number);
    count
}

// Puts the pattern of a seed into blocks, of which the first has this number, on pages that are taken.
fn fill_blocks(pages: &mut [Page], span: Span, seed: u64, number: u64)
    requires paged { IsPaged pages.old }
    requires inside { span.at + span.count * span.size ≤ length (flat pages.old) }
    requires small { span.at + span.count * span.size < 2 ^ 64 }
    requires numbered { number + span.count < 2 ^ 64 }
    requires ready { AreTaken (span.at / 65536) (span.at / 65536 + pages_of span.at (span.count * span.size)) pages.old }
    ensures bytes { flat pages.new ≡ written span.at (patterns seed number span.size span.count) (flat pages.old) }
    ensures paged { IsPaged pages.new }
    ensures taken { marks pages.new ≡ marks pages.old }
{
    let mut done = 0;
    while done < span.count {
        let left = Span {
            at: span.at + done * span.size,
            size: span.size,
            count: span.count - done,
        };
        done += fill_some(pages, left, seed, number + done as u64);
    }
}

// Byte 0 of a block of the pattern of a seed, complemented.
fn first_turned(seed: u64, block: u64) -> u8
    ensures { result ≡ 255 - pattern_byte seed block 0 }
{
    255 - ((seed % 256 + 31 * (block % 256)) % 256) as u8
}

/// Puts what a write brings into blocks, of which the first has this number. Every page that they need
/// is taken before anything changes; out of memory, the bytes and the pages taken are as they were.
pub(crate) fn fill(
    alloc: Global,
    pages: &mut [Page],
    span: Span,
    fill: Fill,
    number: u64,
) -> Result<(), OutOfMemory>
    requires paged { IsPaged pages.old }
    requires inside { span.at + span.count * span.size ≤ length (flat pages.old) }
    requires small { span.at + span.count * span.size < 2 ^ 64 }
    requires numbered { number + span.count < 2 ^ 64 }
    ensures paged { IsPaged pages.new }
    ensures len { length (flat pages.new) ≡ length (flat pages.old) }
    ensures bytes { OnOk result (flat pages.new ≡ written span.at (bytes_filled fill number span.size span.count) (flat pages.old)) }
    ensures taken { OnOk result (marks pages.new ≡ touched span.at (span.count * span.size) (marks pages.old)) }
    ensures err { OnErr result (SameContents pages.old pages.new) }
{
    let len = span.count * span.size;
    take(alloc, pages, span.at, len)?;
    fill_blocks(pages, span, fill.seed, number);
    if fill.flip && len > 0 {
        put(pages, span.at, &[first_turned(fill.seed, number)]);
    }
    Ok(())
}

// How many of `more` bytes after that many others lie on the last page of those.
fn fit(len: usize, more: usize) -> usize
    ensures { result ≡ min more ((65536 - len % 65536) % 65536) }
{
    let left = (PAGE - len % PAGE) % PAGE;
    if more < left { more } else { left }
}

/// Puts this number of zeros after the `len` bytes, and takes no page. Out of memory, the pages are as they
/// were.
pub(crate) fn grow(
    alloc: Global,
    pages: &mut Vec<Page>,
    len: usize,
    more: usize,
) -> Result<(), OutOfMemory>
    requires paged { IsPaged pages.old.items }
    requires all { length (flat pages.old.items) ≡ len }
    requires small { len + more < 2 ^ 64 }
    ensures bytes { OnOk result (flat pages.new.items ≡ flat pages.old.items ++ replicate more 0) }
    ensures paged { OnOk result (IsPaged pages.new.items) }
    ensures taken { OnOk result (marks pages.new.items ≡ untaken (pages_of 0 (len + more)) (marks pages.old.items)) }
    ensures err { OnErr result (pages.new.items ≡ pages.old.items) }
{
    let end = pages.len();
    let fit = fit(len, more);
    let mut behind = blank(alloc, more - fit)?;
    pages.append(&mut behind)?;
    if end == 0 {
        return Ok(());
    }
    match pages[end - 1].widen(fit) {
        Ok(()) => Ok(()),
        Err(e) => {
            pages.truncate(end);
            Err(e)
        }
    }
}

/// The SHA-256 of all bytes. It takes no memory.
pub(crate) fn digest(pages: &[Page]) -> [u8; 32]
    ensures { result ≡ sha256 (flat pages.now) }
{
    let mut hasher = Sha256::new();
    for page in pages {
        page.feed(&mut hasher);
    }
    hasher.finalize()
}

/// How many pages are taken.
pub(crate) fn count(pages: &[Page]) -> u64
    ensures { result ≡ count_by (λ page. page.taken) pages.now }
{
    let mut count = 0;
    for page in pages {
        if page.is_taken() {
            count += 1;
        }
    }
    count
}

/// Equal pages.
pub(crate) fn copy(alloc: Global, pages: &[Page]) -> Result<Vec<Page>, OutOfMemory>
    ensures { IfOk result (λ copies. copies.items ≡ pages.now) }
{
    let mut copies = Vec::with_capacity(alloc, pages.len())?;
    for page in pages {
        let copy = page.copy(alloc)?;
        copies.push(copy)?;
    }
    Ok(copies)
}
