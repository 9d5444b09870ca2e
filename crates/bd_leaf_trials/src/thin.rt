//! Maps of a pool's clusters. A case begins with how many clusters there are, and the devices.
use crate::steps::{Subject, said, told};
use crate::words::{number, small};
use bd_base::{DevId, OutOfMemory};
use bd_thin_map::{NoSpace, Ready, ThinMap};
use std::alloc::Global;

pub(crate) fn answer(alloc: Global, case: &str) -> Result<String, OutOfMemory> {
    let (beginning, steps) = case.split_once("; ").unwrap_or((case, ""));
    let words: Vec<&str> = beginning.split_whitespace().collect(alloc)?;
    let [clusters, numbers @ ..] = words.as_slice() else {
        return said(alloc, "no such map");
    };
    let mut devices = Vec::new(alloc);
    for number in numbers {
        devices.push(device(number))?;
    }
    let mut map = ThinMap::new(alloc, small(clusters), devices.as_slice())?;
    told(alloc, &mut map, steps)
}

fn device(word: &str) -> DevId {
    DevId(small(word))
}

// What a write has to do.
fn ready(alloc: Global, ready: Result<Ready, NoSpace>) -> Result<String, OutOfMemory> {
    match ready {
        Ok(Ready::InPlace(cluster)) => Ok(format!(in alloc; "in place {cluster}")?),
        Ok(Ready::Fresh(to)) => Ok(format!(in alloc; "fresh {to}")?),
        Ok(Ready::Copy { from, to }) => Ok(format!(in alloc; "copy {from} to {to}")?),
        Err(NoSpace) => said(alloc, "no space"),
    }
}

// The place takes what was made ready for it.
fn put(map: &mut ThinMap, alloc: Global, dev: DevId, place: u64) -> Result<String, OutOfMemory> {
    let answer = map.prepare(dev, place);
    if let Ok(ready) = answer {
        map.put(dev, place, ready)?;
    }
    ready(alloc, answer)
}

impl Subject for ThinMap {
    fn step(&mut self, alloc: Global, words: &[&str]) -> Result<String, OutOfMemory> {
        match words {
            ["look", dev, place] => match self.look(device(dev), number(place)) {
                Some(cluster) => Ok(format!(in alloc; "{cluster}")?),
                None => said(alloc, "none"),
            },
            ["prepare", dev, place] => ready(alloc, self.prepare(device(dev), number(place))),
            ["put", dev, place] => put(self, alloc, device(dev), number(place)),
            ["drop", dev, place] => {
                self.drop_place(device(dev), number(place));
                said(alloc, "done")
            }
            ["drop", dev] => {
                self.drop_device(device(dev));
                said(alloc, "done")
            }
            ["share", from, to] => {
                self.share(device(from), device(to))?;
                said(alloc, "done")
            }
            ["copy"] => {
                *self = self.copy()?;
                said(alloc, "done")
            }
            _ => said(alloc, "no such step"),
        }
    }
}
