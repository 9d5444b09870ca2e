//! When a lock stops a range.
ghost use Rattle.std.specs.Prelude.{◌≡◌};
ghost use Rattle.bd_range.specs.Locks.{is_rival, overlaps};

use bd_base::ReqId;

// Whether n blocks from a on and m blocks from b on have a block in common.
fn overlaps(a: u64, n: u64, b: u64, m: u64) -> bool
    ensures { result ≡ overlaps a n b m }
{
    u128::from(a) < u128::from(b) + u128::from(m) && u128::from(b) < u128::from(a) + u128::from(n)
}

/// A lock's first block, and the thread and the number of its request.
pub(crate) type Key = (u64, u32, u64);

/// Whether a lock of this key and number of blocks is another request's, and overlaps a range.
pub(crate) fn is_rival(req: ReqId, first: u64, count: u64, key: Key, blocks: u64) -> bool
    ensures { result ≡ is_rival req first count (key, blocks) }
{
    !(key.1 == req.thread && key.2 == req.seq) && overlaps(first, count, key.0, blocks)
}
