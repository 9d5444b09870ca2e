//! Walks over the threads, as they visit this one.
ghost use Rattle.std.specs.Prelude.{◌≡◌, ◌<◌, vec_len, IfOk, OnOk, Some};
ghost use Rattle.bd_base.specs.declared.act.Act.TheVariants as acts;
ghost use Rattle.bd_machine.specs.Guards.{prior_by};
ghost use Rattle.bd_thread.specs.Acted.{Acted};
ghost use Rattle.bd_thread.specs.Requests.{KeepsTickets};
ghost use Rattle.bd_thread.specs.Seen.{view_of};
ghost use Rattle.bd_thread.specs.Waits.{Idles};
ghost use Rattle.bd_thread.specs.Walking.{visit_due, IsVisited, NoVisit, NoVisitOf, StopsFor, Visits, Walks};
ghost use Rattle.bd_thread.specs.Work.{AsksNothing};

use crate::links::Links;
use crate::thread::Thread;
use bd_base::{AbortCause, Act, DevId, OutOfMemory, WalkId, WalkKind};
use bd_machine::{OpenWalk, Prior};
use bd_rule_effects::walk_on;
use bd_rule_view::Sees;
use bd_rule_walks::{Visiting, mark, softens, visited};
use bd_steps::{begin_walk, send_on, visitor};

impl<'a> Thread<'a> {
    // What a visit of the walk is to the thread's next entry: the one that set its soft mark, where it sets one.
    fn softening(&self, links: &Links, walk: WalkId, dev: DevId, kind: WalkKind) -> Option<Prior>
        ensures { result ≡ prior_by (view_of self.now links.now) (acts.Visit walk dev kind) }
    {
        if softens(&self.seen(links), walk, dev, kind) {
            Some(Prior::Softening { walk, dev })
        } else {
            None
        }
    }

    // The walk visits this thread: the marks of its device are set or taken, and it ends, or is to be put to
    // where it goes next.
    fn pass(&mut self, links: &mut Links, id: WalkId, walk: OpenWalk) -> Result<(), OutOfMemory>
        requires { visit_due self.old links.old id ≡ Some walk }
        ensures acted { OnOk result (Acted self.old links.old self.new links.new) }
        ensures tickets { OnOk result (KeepsTickets self.old → KeepsTickets self.new) }
        ensures visited { OnOk result (IsVisited id walk self.old links.old self.new links.new) }
    {
        let OpenWalk {
            dev,
            kind,
            time,
            ..
        } = walk;
        let visit = Visiting {
            walk: id,
            dev,
            kind,
            time,
        };
        let channel = self.seen(links).channels(dev);
        let prior = self.softening(links, id, dev, kind);
        let after = visited(self.me, walk);
        mark(&mut self.part, self.setup, self.me, channel, visit)?;
        let next = walk_on(&mut self.part, self.me, id, after)?;
        self.held.hold_walk(self.me, id, after)?;
        begin_walk(&mut self.held, &mut self.outbox, next)?;
        send_on(&mut self.outbox, self.me, id, after)?;
        let act = Act::Visit {
            walk: id,
            dev,
            kind,
        };
        self.note_as(links, act, prior)?;
        Ok(())
    }

    // Where a walk of this kind set the mark of a removal or of a reset, what waits here is aborted.
    fn stop_for(&mut self, links: &mut Links, kind: WalkKind, dev: DevId) -> Result<(), OutOfMemory>
        requires { self.old.me < vec_len links.old.queues }
        ensures acted { OnOk result (Acted self.old links.old self.new links.new) }
        ensures tickets { OnOk result (KeepsTickets self.old → KeepsTickets self.new) }
        ensures stops { OnOk result (StopsFor kind dev self.old links.old self.new links.new) }
    {
        match kind {
            WalkKind::Removal => self.stop_all(links, dev, AbortCause::Removed(dev)),
            WalkKind::Freeze => self.stop_all(links, dev, AbortCause::Frozen(dev)),
            WalkKind::Drain | WalkKind::Thaw => Ok(()),
        }
    }

    /// A walk that is here visits this thread, where that is the next one it visits and, for a drain, no
    /// request stands against it: true, the marks of its device are set or taken, it ends, or is to be put
    /// to where it goes next, a soft mark lasts until the turn's moment with the reset's drain time, and what the mark of
    /// a removal or of a reset stops is aborted. Else nothing changes.
    pub(crate) fn visit(&mut self, links: &mut Links, id: WalkId) -> Result<bool, OutOfMemory>
        requires { self.old.me < vec_len links.old.queues }
        ensures acted { OnOk result (Acted self.old links.old self.new links.new) }
        ensures tickets { OnOk result (KeepsTickets self.old → KeepsTickets self.new) }
        ensures visits { IfOk result (Visits id self.old links.old self.new links.new) }
    {
        let Some(walk) = visitor(&self.seen(links), self.setup, self.me, id) else {
            return Ok(false);
        };
        self.pass(links, id, walk)?;
        self.grace(links, id, walk.time)?;
        self.stop_for(links, walk.kind, walk.dev)?;
        Ok(true)
    }

    // A walk that is here visits this thread, where it may: then the resets that ask the registry for something next
    // are noted. Else nothing changes.
    fn walk(&mut self, links: &mut Links, id: WalkId) -> Result<(), OutOfMemory>
        requires { self.old.me < vec_len links.old.queues }
        ensures acted { OnOk result (Acted self.old links.old self.new links.new) }
        ensures tickets { OnOk result (KeepsTickets self.old → KeepsTickets self.new) }
        ensures quiet { OnOk result (Idles (NoVisitOf id) self.old links.old self.new links.new) }
        ensures walks { OnOk result (Walks id self.old links.old self.new links.new) }
        ensures alone { OnOk result (AsksNothing links.old links.new) }
    {
        let visited = self.visit(links, id)?;
        if !visited {
            return Ok(());
        }
        self.note_resets()?;
        Ok(())
    }

    /// Each walk that is here and waits visits this thread, where it may: a drain does once no request stands against
    /// it any more.
    pub(crate) fn walk_all(&mut self, links: &mut Links) -> Result<(), OutOfMemory>
        requires { self.old.me < vec_len links.old.queues }
        ensures acted { OnOk result (Acted self.old links.old self.new links.new) }
        ensures tickets { OnOk result (KeepsTickets self.old → KeepsTickets self.new) }
        ensures quiet { OnOk result (Idles NoVisit self.old links.old self.new links.new) }
        ensures alone { OnOk result (AsksNothing links.old links.new) }
    {
        for place in 0..self.held.walk_count() {
            let Some(id) = self.held.walk_at(place) else {
                return Ok(());
            };
            self.walk(links, id)?;
        }
        Ok(())
    }
}
