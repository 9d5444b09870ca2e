//! The arithmetic of both layouts, over numbers alone.
ghost use Rattle.std.specs.Prelude.{◌≡◌, ◌≤◌, ◌<◌, ◌^◌, ◌↔◌, length, Any, IsTrue};
ghost use Rattle.bd_raid.specs.Raid.{joined_from, least_of, left_in_strip, striped_at, used_of, used_of_all};

/// The blocks of a member that a set uses: its whole strips.
pub fn used(size: u64, strip: u64) -> u64
    requires { 1 ≤ strip }
    ensures { result ≡ used_of size strip }
{
    size / strip * strip
}

/// Where a block of a striped set lies: the member, by its number, and the block of it.
pub fn striped_at(strip: u64, members: u32, block: u64) -> (u32, u64)
    requires strips { 1 ≤ strip }
    requires some { 1 ≤ members }
    ensures { result ≡ striped_at strip members block }
{
    let number = block / strip;
    let members = u64::from(members);
    (
        (number % members) as u32,
        number / members * strip + block % strip,
    )
}

/// The blocks from this one on to the end of its strip.
pub fn left_in_strip(strip: u64, block: u64) -> u64
    requires { 1 ≤ strip }
    ensures { result ≡ left_in_strip strip block }
{
    strip - block % strip
}

/// Where a block lies when the used blocks of members stand one after the other: the member, by its
/// number, and the block of it. Past the end it is the number after the last.
pub(crate) fn joined_at(strip: u64, sizes: &[u64], block: u64) -> (u32, u64)
    requires strips { 1 ≤ strip }
    requires few { length sizes.now ≤ 16 }
    ensures { result ≡ joined_from strip 0 sizes.now block }
{
    let mut left = block;
    for (member, size) in sizes.iter().enumerate() {
        let blocks = used(*size, strip);
        if left < blocks {
            return (member as u32, left);
        }
        left -= blocks;
    }
    (sizes.len() as u32, left)
}

/// The used blocks of members.
pub(crate) fn used_of_all(strip: u64, sizes: &[u64]) -> u64
    requires strips { 1 ≤ strip }
    requires fits { used_of_all strip sizes.now < 2 ^ 64 }
    ensures { result ≡ used_of_all strip sizes.now }
{
    sizes.iter().map(|size| used(*size, strip)).sum()
}

/// The least size; with no member the greatest number.
pub(crate) fn least(sizes: &[u64]) -> u64
    ensures { result ≡ least_of sizes.now }
{
    let mut least = u64::MAX;
    for size in sizes {
        least = least.min(*size);
    }
    least
}

/// Whether a member has no whole strip.
pub(crate) fn has_small(strip: u64, sizes: &[u64]) -> bool
    ensures { IsTrue result ↔ Any (λ size. size < strip) sizes.now }
{
    sizes.iter().any(|size| *size < strip)
}
