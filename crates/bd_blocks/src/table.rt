//! Tables by device.
ghost use Rattle.std.specs.Prelude.{◌≡◌, position, OnOk};
ghost use Rattle.bd_machine.specs.Same.{same_dev};
ghost use Rattle.bd_machine.specs.Table.{write};

use bd_base::{DevId, OutOfMemory, Rows};

fn place_of<V>(table: &[(DevId, V)], dev: DevId) -> Option<usize>
    ensures { result ≡ position (λ row. same_dev row.0 dev) table.now }
{
    table.iter().position(|row| row.0.0 == dev.0)
}

/// Writes a device's row: in its place where it has one, else at the end. Out of memory leaves the table
/// unspecified.
pub fn write_row<V: Copy>(
    table: &mut Rows<(DevId, V)>,
    dev: DevId,
    value: V,
) -> Result<(), OutOfMemory>
    ensures { OnOk result (table.new ≡ write same_dev table.old dev value) }
{
    match place_of(table.as_slice(), dev) {
        Some(i) => {
            table.set(i, (dev, value));
            Ok(())
        }
        None => {
            table.push((dev, value))?;
            Ok(())
        }
    }
}
