//! What a write to a place has to do before the place has its cluster.

/// What a write to a place has to do. Clusters are named by their numbers, from 0.
#[derive(Clone, Copy, Debug, PartialEq, Eq)]
pub enum Ready {
    /// It writes this cluster, which the place has and no other place shares.
    InPlace(u32),
    /// It takes this free cluster, since the place has none: what it doesn't write is zeros.
    Fresh(u32),
    /// It copies the cluster `from`, which another place shares, to the free cluster `to`.
    Copy { from: u32, to: u32 },
}

/// A write needs a free cluster, and there is none.
#[derive(Clone, Copy, Debug, PartialEq, Eq)]
pub struct NoSpace;

/// What a piece needs of its place.
#[derive(Clone, Copy, Debug, PartialEq, Eq)]
pub enum Need {
    /// Nothing: it leaves the place as it is.
    Nothing,
    /// That the place has no cluster any more.
    Forget,
    /// That the place has the cluster that was made ready.
    Use(Ready),
    /// A free cluster, and there is none.
    Full,
}
