//! The base devices of a home.
ghost use Rattle.std.specs.Prelude.{◌≡◌, find, option_copied};
ghost use Rattle.std.specs.List.{position};
ghost use Rattle.bd_machine.specs.Homes.{is_base};

use bd_base::DevId;
use bd_machine::Base;

/// The place of a base device among these.
pub fn base_place(bases: &[Base], dev: DevId) -> Option<usize>
    ensures { result ≡ position (is_base dev) bases.now }
{
    bases.iter().position(|b| b.dev.0 == dev.0)
}

/// The base device of this number among these.
pub fn find_base(bases: &[Base], dev: DevId) -> Option<&Base>
    ensures { option_copied result ≡ find (is_base dev) bases.now }
{
    bases.iter().find(|b| b.dev.0 == dev.0)
}
