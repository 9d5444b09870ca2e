//! The map of a pool's clusters.
ghost use Rattle.std.specs.Prelude.{◌≡◌, ◌<◌, None, Ok, position, IfOk, OnErr, OnOk};
ghost use Rattle.bd_thin_map.specs.Map.{changed, drop_device, drop_place, is_of, look, no_pairs, prepare, put, share, users_of};
ghost use Rattle.bd_thin_map.specs.Pairs.{with_cluster};

use crate::pairs::Pairs;
use crate::ready::{NoSpace, Ready};
use crate::row::Row;
use crate::users::Users;
use bd_base::{DevId, OutOfMemory};
use std::alloc::Global;
use std::marker::Model;

/// Which cluster of a pool each place of each device has. A cluster that places of several devices have is
/// shared; one that none has is free.
#[derive(Drop)]
pub struct ThinMap {
    rows: Vec<Row>,
    users: Users,
}

impl Model for ThinMap {
    ghost use Rattle.std.specs.Prelude.{length};
    ghost use Rattle.bd_thin_map.specs.Map.{IsCounted, MapRows};

    ghost Value = { MapRows };

    ghost view = { λ m. record { clusters = length m.users; rows = m.rows.items } };

    ghost invariant = { λ m. IsCounted m.users m.rows.items };
}

// The place of a device's row.
fn place_of(rows: &[Row], dev: DevId) -> Option<usize>
    ensures { result ≡ position (is_of dev) rows.now }
{
    rows.iter().position(|row| row.dev == dev)
}

impl ThinMap {
    /// No place of these devices has a cluster, and all clusters are free.
    pub fn new(alloc: Global, clusters: u32, devices: &[DevId]) -> Result<ThinMap, OutOfMemory>
        ensures { IfOk result (λ m. m ≡ no_pairs clusters devices.now) }
    {
        let rows = devices
            .iter()
            .map(|dev| Row {
                dev: *dev,
                pairs: Pairs::new(alloc),
            })
            .collect(alloc)?;
        Ok(ThinMap {
            rows,
            users: Users::new(alloc, clusters)?,
        })
    }

    /// The cluster of a device's place; none where it has none. It takes no memory.
    pub fn look(&self, dev: DevId, place: u64) -> Option<u32>
        ensures { result ≡ look self.now dev place }
    {
        let at = place_of(self.rows.as_slice(), dev)?;
        self.rows[at].pairs.at(place)
    }

    /// What a write to a device's place has to do. NoSpace where it needs a free cluster and there is none. It
    /// takes no memory.
    pub fn prepare(&self, dev: DevId, place: u64) -> Result<Ready, NoSpace>
        ensures { result ≡ prepare self.now dev place }
    {
        let free = self.users.first_free();
        match (self.look(dev, place), free) {
            (Some(from), _) if self.users.of(from) <= 1 => Ok(Ready::InPlace(from)),
            (Some(from), Some(to)) => Ok(Ready::Copy { from, to }),
            (None, Some(to)) => Ok(Ready::Fresh(to)),
            (_, None) => Err(NoSpace),
        }
    }

    // A place has this free cluster from now on, in place of any that it had.
    fn take(&mut self, dev: DevId, place: u64, to: u32) -> Result<(), OutOfMemory>
        requires there { to < self.old.clusters }
        requires free { users_of self.old.rows to ≡ 0 }
        ensures ok { OnOk result (self.new ≡ changed self.old dev (with_cluster place to)) }
        ensures err { OnErr result (self.new ≡ self.old) }
        ensures absent { OnErr result (look self.old dev place ≡ None) }
    {
        let Some(at) = place_of(self.rows.as_slice(), dev) else {
            return Ok(());
        };
        let row = &mut self.rows[at];
        let had = row.pairs.put(place, to)?;
        self.users.raise(to);
        if let Some(from) = had {
            self.users.lower(from);
        }
        Ok(())
    }

    /// The place has the cluster that was made ready, by the present answer of `prepare`. After out of memory,
    /// which only a place without a cluster meets, nothing changed.
    pub fn put(&mut self, dev: DevId, place: u64, ready: Ready) -> Result<(), OutOfMemory>
        requires { prepare self.old dev place ≡ Ok ready }
        ensures ok { OnOk result (self.new ≡ put self.old dev place ready) }
        ensures err { OnErr result (self.new ≡ self.old) }
        ensures absent { OnErr result (look self.old dev place ≡ None) }
    {
        match ready {
            Ready::InPlace(_) => Ok(()),
            Ready::Fresh(to) => self.take(dev, place, to),
            Ready::Copy { from: _, to } => self.take(dev, place, to),
        }
    }

    /// The place has no cluster any more. It takes no memory.
    pub fn drop_place(&mut self, dev: DevId, place: u64)
        ensures { self.new ≡ drop_place self.old dev place }
    {
        let Some(at) = place_of(self.rows.as_slice(), dev) else {
            return;
        };
        let row = &mut self.rows[at];
        if let Some(cluster) = row.pairs.take(place) {
            self.users.lower(cluster);
        }
    }

    /// No place of the device has a cluster any more. It takes no memory.
    pub fn drop_device(&mut self, dev: DevId)
        ensures { self.new ≡ drop_device self.old dev }
    {
        let Some(at) = place_of(self.rows.as_slice(), dev) else {
            return;
        };
        let row = &mut self.rows[at];
        row.pairs.leave(&mut self.users);
        row.pairs.clear();
    }

    /// The places of the device `to` have the clusters that those of `from` have, and none besides. After out
    /// of memory nothing changed.
    pub fn share(&mut self, from: DevId, to: DevId) -> Result<(), OutOfMemory>
        ensures ok { OnOk result (self.new ≡ share self.old from to) }
        ensures err { OnErr result (self.new ≡ self.old) }
    {
        let Some(source) = place_of(self.rows.as_slice(), from) else {
            self.drop_device(to);
            return Ok(());
        };
        let Some(at) = place_of(self.rows.as_slice(), to) else {
            return Ok(());
        };
        let pairs = self.rows[source].pairs.copy()?;
        let row = &mut self.rows[at];
        row.pairs.leave(&mut self.users);
        pairs.join(&mut self.users);
        row.pairs = pairs;
        Ok(())
    }

    /// Equal pairs, or out of memory.
    pub fn copy(&self) -> Result<ThinMap, OutOfMemory>
        ensures { IfOk result (λ m. m ≡ self.now) }
    {
        Ok(ThinMap {
            rows: self.rows.clone()?,
            users: self.users.copy()?,
        })
    }
}
