//! Copies of what the state and the setup hold.
ghost use Rattle.std.specs.Prelude.{◌≡◌, IfOk};

use bd_base::{Bytes, DevRow, Job, Line, Name, OutOfMemory, Rows, Script, Setup, Waiting};
use bd_blocks::copy_of_piece;
use bd_machine::{
    Base, Binding, Content, Device, Due, Id, Kept, Limited, News, OpenPiece, Part, Registry, State,
    Tracked,
};
use std::alloc::Global;

/// A value that can be copied where there is memory.
pub trait Duplicate: Drop {
    fn duplicate(&self, alloc: Global) -> Result<Self, OutOfMemory>
        ensures { IfOk result (λ r. r ≡ self.now) };
}

/// Copies each row.
pub fn duplicate_rows<T: Duplicate>(alloc: Global, rows: &Rows<T>) -> Result<Rows<T>, OutOfMemory>
    ensures { IfOk result (λ r. r ≡ rows.now) }
{
    let mut copies = Rows::new(alloc);
    for row in rows.as_slice() {
        let copy = row.duplicate(alloc)?;
        copies.push(copy)?;
    }
    Ok(copies)
}

impl Duplicate for Name {
    fn duplicate(&self, alloc: Global) -> Result<Name, OutOfMemory> {
        self.copy()
    }
}

impl Duplicate for Bytes {
    fn duplicate(&self, alloc: Global) -> Result<Bytes, OutOfMemory> {
        self.copy()
    }
}

fn duplicate_name(name: &Option<Name>) -> Result<Option<Name>, OutOfMemory>
    ensures { IfOk result (λ n. n ≡ name.now) }
{
    match name {
        Some(n) => {
            let copied = n.copy()?;
            Ok(Some(copied))
        }
        None => Ok(None),
    }
}

impl Duplicate for OpenPiece {
    fn duplicate(&self, alloc: Global) -> Result<OpenPiece, OutOfMemory> {
        copy_of_piece(self)
    }
}

impl Duplicate for News {
    fn duplicate(&self, alloc: Global) -> Result<News, OutOfMemory> {
        match self {
            News::Mark(mark) => {
                let mark = mark.copy()?;
                Ok(News::Mark(mark))
            }
            News::Gone(handle) => Ok(News::Gone(*handle)),
            News::Channel(dev) => Ok(News::Channel(*dev)),
            News::Device(dev) => Ok(News::Device(*dev)),
            News::Go(req, threads) => Ok(News::Go(*req, *threads)),
            News::Grow(dev, blocks) => Ok(News::Grow(*dev, *blocks)),
            News::Sized(handle, blocks) => Ok(News::Sized(*handle, *blocks)),
        }
    }
}

impl Duplicate for Kept {
    fn duplicate(&self, alloc: Global) -> Result<Kept, OutOfMemory> {
        match self {
            Kept::Request(r) => Ok(Kept::Request(*r)),
            Kept::Piece(p) => {
                let p = p.duplicate(alloc)?;
                Ok(Kept::Piece(p))
            }
            Kept::Walk(w) => Ok(Kept::Walk(*w)),
            Kept::Notice(n) => {
                let n = n.duplicate(alloc)?;
                Ok(Kept::Notice(n))
            }
        }
    }
}

impl Duplicate for (Id, Tracked) {
    fn duplicate(&self, alloc: Global) -> Result<(Id, Tracked), OutOfMemory> {
        let kept = self.1.kept.duplicate(alloc)?;
        let place = self.1.place;
        Ok((self.0, Tracked { place, kept }))
    }
}

impl Duplicate for Content {
    fn duplicate(&self, alloc: Global) -> Result<Content, OutOfMemory> {
        match self {
            Content::Blocks(blocks) => {
                let blocks = blocks.copy(alloc)?;
                Ok(Content::Blocks(blocks))
            }
            Content::Zeros => Ok(Content::Zeros),
            Content::Untold => Ok(Content::Untold),
        }
    }
}

impl Duplicate for Base {
    fn duplicate(&self, alloc: Global) -> Result<Base, OutOfMemory> {
        let content = self.content.duplicate(alloc)?;
        let queue = self.queue.copy()?;
        Ok(Base {
            dev: self.dev,
            content,
            queue,
        })
    }
}

impl Duplicate for Binding {
    fn duplicate(&self, alloc: Global) -> Result<Binding, OutOfMemory> {
        let name = self.name.copy()?;
        Ok(Binding {
            name,
            handle: self.handle,
        })
    }
}

impl Duplicate for Due {
    fn duplicate(&self, alloc: Global) -> Result<Due, OutOfMemory> {
        let news = self.news.duplicate(alloc)?;
        Ok(Due {
            receiver: self.receiver,
            news,
        })
    }
}

impl Duplicate for Limited {
    fn duplicate(&self, alloc: Global) -> Result<Limited, OutOfMemory> {
        let waiting = self.waiting.copy()?;
        Ok(Limited {
            dev: self.dev,
            left: self.left,
            slices: self.slices,
            starts: self.starts,
            waiting,
        })
    }
}

impl Duplicate for Part {
    fn duplicate(&self, alloc: Global) -> Result<Part, OutOfMemory> {
        Ok(Part {
            next: self.next,
            decided: self.decided,
            bound: duplicate_rows(alloc, &self.bound)?,
            marks: duplicate_rows(alloc, &self.marks)?,
            gone: self.gone.copy()?,
            submitted: self.submitted.copy()?,
            put: self.put.copy()?,
            taken: self.taken.copy()?,
            next_request: self.next_request,
            next_walk: self.next_walk,
            due: duplicate_rows(alloc, &self.due)?,
            owed: self.owed.copy()?,
            requests: self.requests.copy()?,
            marked: self.marked.copy()?,
            resets: self.resets.copy()?,
            moments: self.moments,
            prior: self.prior,
            bases: duplicate_rows(alloc, &self.bases)?,
            limited: duplicate_rows(alloc, &self.limited)?,
            destructed: self.destructed.copy()?,
            delayed: self.delayed.copy()?,
            sized: self.sized.copy()?,
        })
    }
}

impl Duplicate for Device {
    fn duplicate(&self, alloc: Global) -> Result<Device, OutOfMemory> {
        let waiting = self.waiting.copy()?;
        Ok(Device {
            standing: self.standing,
            reset: self.reset,
            waiting,
            injections: self.injections,
            blocks: self.blocks,
            growing: self.growing,
        })
    }
}

impl Duplicate for Registry {
    fn duplicate(&self, alloc: Global) -> Result<Registry, OutOfMemory> {
        Ok(Registry {
            handles: self.handles.copy()?,
            next: self.next,
            devices: duplicate_rows(alloc, &self.devices)?,
            channels: self.channels.copy()?,
            between: self.between,
        })
    }
}

impl Duplicate for State {
    fn duplicate(&self, alloc: Global) -> Result<State, OutOfMemory> {
        let registry = self.registry.duplicate(alloc)?;
        let parts = duplicate_rows(alloc, &self.parts)?;
        let tokens = duplicate_rows(alloc, &self.tokens)?;
        Ok(State {
            stamp: self.stamp,
            thread: self.thread,
            shut: self.shut,
            registry,
            parts,
            tokens,
        })
    }
}

impl Duplicate for DevRow {
    fn duplicate(&self, alloc: Global) -> Result<DevRow, OutOfMemory> {
        let name = self.name.copy()?;
        let file = duplicate_name(&self.file)?;
        Ok(DevRow {
            name,
            kind: self.kind,
            base: self.base,
            blocks: self.blocks,
            size: self.size,
            boundary: self.boundary,
            depth: self.depth,
            file,
            group: self.group,
        })
    }
}

impl Duplicate for Waiting {
    fn duplicate(&self, alloc: Global) -> Result<Waiting, OutOfMemory> {
        let method = self.method.copy()?;
        let base = self.base.copy()?;
        Ok(Waiting {
            index: self.index,
            method,
            base,
        })
    }
}

impl Duplicate for Job {
    fn duplicate(&self, alloc: Global) -> Result<Job, OutOfMemory> {
        match self {
            Job::Open { handle, dev, write } => Ok(Job::Open {
                handle: handle.copy()?,
                dev: dev.copy()?,
                write: *write,
            }),
            Job::Close { handle } => Ok(Job::Close {
                handle: handle.copy()?,
            }),
            Job::Claim { handle, kind } => Ok(Job::Claim {
                handle: handle.copy()?,
                kind: *kind,
            }),
            Job::Submit {
                handle,
                op,
                lba,
                count,
            } => Ok(Job::Submit {
                handle: handle.copy()?,
                op: *op,
                lba: *lba,
                count: *count,
            }),
            Job::Remove { dev } => Ok(Job::Remove { dev: dev.copy()? }),
            Job::Wait => Ok(Job::Wait),
            Job::Sleep(micros) => Ok(Job::Sleep(*micros)),
            Job::Post(mark) => Ok(Job::Post(mark.copy()?)),
            Job::Await(mark) => Ok(Job::Await(mark.copy()?)),
            Job::Gone { handle } => Ok(Job::Gone {
                handle: handle.copy()?,
            }),
            Job::Resize { dev, blocks } => Ok(Job::Resize {
                dev: dev.copy()?,
                blocks: *blocks,
            }),
            Job::Sized { handle, blocks } => Ok(Job::Sized {
                handle: handle.copy()?,
                blocks: *blocks,
            }),
        }
    }
}

impl Duplicate for Line {
    fn duplicate(&self, alloc: Global) -> Result<Line, OutOfMemory> {
        let job = self.job.duplicate(alloc)?;
        Ok(Line {
            number: self.number,
            job,
        })
    }
}

impl Duplicate for Script {
    fn duplicate(&self, alloc: Global) -> Result<Script, OutOfMemory> {
        let lines = duplicate_rows(alloc, &self.lines)?;
        Ok(Script {
            thread: self.thread,
            lines,
        })
    }
}

impl Duplicate for Setup {
    fn duplicate(&self, alloc: Global) -> Result<Setup, OutOfMemory> {
        let devices = duplicate_rows(alloc, &self.devices)?;
        let rates = self.rates.copy()?;
        let injections = self.injections.copy()?;
        let waiting = duplicate_rows(alloc, &self.waiting)?;
        let scripts = duplicate_rows(alloc, &self.scripts)?;
        Ok(Setup {
            threads: self.threads,
            devices,
            rates,
            injections,
            waiting,
            scripts,
        })
    }
}
