//! The data of a write.
ghost use Rattle.std.specs.Prelude.{◌≡◌, length};
ghost use Rattle.bd_base.specs.Pattern.{pattern};

/// Fills one block with the pattern of a seed (this project's choice): byte i of block b is
/// (seed + 31 * b + 7 * i) mod 256, where b is the block's number in the device that the write
/// was submitted on.
pub fn fill_pattern(seed: u64, block: u64, to: &mut [u8])
    ensures { to.new ≡ pattern seed block (length to.old) }
{
    let start = (seed % 256) as u8;
    let row = (block % 256) as u8;
    let mut value = start.wrapping_add(row.wrapping_mul(31));
    for x in to.iter_mut() {
        *x = value;
        value = value.wrapping_add(7);
    }
}
