//! A device's row of the map.
ghost use Rattle.std.specs.Prelude.{◌≡◌};

use crate::pairs::Pairs;
use bd_base::DevId;
use std::alloc::AllocError;

/// A device, and the pairs of its places and their clusters.
#[derive(Drop)]
pub(crate) struct Row {
    pub(crate) dev: DevId,
    pub(crate) pairs: Pairs,
}

impl Clone for Row {
    ghost is_clone = { λ r s. s ≡ r };

    fn clone(&self) -> Result<Row, AllocError> {
        let Ok(pairs) = self.pairs.copy() else {
            return Err(AllocError);
        };
        Ok(Row {
            dev: self.dev,
            pairs,
        })
    }
}
