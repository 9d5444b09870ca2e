//! What an act leaves for the one that follows.
ghost use Rattle.std.specs.Prelude.{◌≡◌};
ghost use Rattle.bd_machine.specs.Events.{alone};
ghost use Rattle.bd_machine.specs.Guards.{noted};

use bd_machine::{Part, Prior};

/// What an act was is kept for the act that follows, where that one may have to follow it directly. So does
/// every act.
pub fn note(part: &mut Part, prior: Option<Prior>)
    ensures { part.new ≡ (noted prior (alone part.old)).part }
{
    part.prior = prior;
}
