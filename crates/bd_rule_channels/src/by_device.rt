//! Tables with a row for each device.
ghost use Rattle.std.specs.Prelude.{◌≡◌, ◌<◌};
ghost use Rattle.bd_rule_channels.specs.ByDevice.{place_of};

use bd_base::DevId;

/// The place of the row of a device among so many rows. What is of a device without a row of its own is
/// in the last row.
pub fn place_of(rows: usize, dev: DevId) -> usize
    requires { 0 < rows }
    ensures at { result ≡ place_of rows dev }
    ensures within { result < rows }
{
    (dev.0 as usize).min(rows - 1)
}
