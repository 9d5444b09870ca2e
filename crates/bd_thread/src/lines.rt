//! The lines of a thread's script: opens with their channels, closes with their puts, claims, removals and resizes of
//! devices, and each line's end.
ghost use Rattle.std.specs.Prelude.{◌≡◌, ◌<◌, true, vec_len, IfOk, IfSome, OnOk};
ghost use Rattle.std.specs.Option.{option_copied};
ghost use Rattle.bd_rule_effects.specs.Begun.{with_walk};
ghost use Rattle.bd_machine.specs.Events.{change_reg};
ghost use Rattle.bd_steps.specs.Resetting.{is_asked_alone};
ghost use Rattle.bd_machine.specs.View.{Came, View};
ghost use Rattle.bd_registry.specs.State.{rows_of};
ghost use Rattle.bd_rule_view.specs.Came.{came_shut};
ghost use Rattle.bd_steps.specs.Following.{close_due};
ghost use Rattle.bd_thread.specs.Acted.{Acted};
ghost use Rattle.bd_thread.specs.Lines.{change_of, close_asked, is_of_device, is_of_reset, made_by, may_ask, may_ask_after, may_close, ChangesDevice, Claims, Closes, EndsLine, Follows, IsAnswered, IsFollowed, Opens};
ghost use Rattle.bd_thread.specs.Requests.{KeepsTickets};
ghost use Rattle.bd_base.specs.declared.event.RegEvent.TheVariants as events;

use crate::links::Links;
use crate::thread::Thread;
use bd_base::{Act, Answer, Boxed, DevId, Job, OutOfMemory, RegEvent, WalkId};
use bd_links::next_stamp;
use bd_machine::{Between, Handle, OpenWalk};
use bd_rule_effects::{closed, decide, line_done};
use bd_rule_events::{
    dropped, freed, got, put_down, reset_begun, reset_finishes, reset_thaws, resized, resizing,
};
use bd_rule_script::{asks_event, bound_to, next_line, outcome_of, undecided_job};
use bd_rule_view::{Records, Sees};
use bd_steps::{begin_walk, close_due, get_due, made_by, removal_answered};

// The event by which a line changes a device: that it is removed, or that it grows.
fn change_of(job: Option<&Job>) -> Result<Option<RegEvent>, OutOfMemory>
    ensures { IfOk result (λ event. event ≡ change_of (option_copied job.entry)) }
{
    match job {
        Some(Job::Remove { dev }) => Ok(Some(RegEvent::BeginRemove { name: dev.copy()? })),
        Some(Job::Resize { dev, blocks }) => Ok(Some(RegEvent::BeginResize {
            name: dev.copy()?,
            blocks: *blocks,
        })),
        _ => Ok(None),
    }
}

impl<'a> Thread<'a> {
    /// Ends the next line, where it goes on: true, and the line after it is met in this turn. Else, as while it
    /// sleeps, or after Shutdown, nothing changes. More open requests of a handle than 32 bits count answer out of
    /// memory.
    pub(crate) fn end_line(&mut self, links: &mut Links) -> Result<bool, OutOfMemory>
        requires me { self.old.me < vec_len links.old.queues }
        ensures acted { OnOk result (Acted self.old links.old self.new links.new) }
        ensures tickets { OnOk result (KeepsTickets self.old → KeepsTickets self.new) }
        ensures ended { IfOk result (EndsLine self.old links.old self.new links.new) }
    {
        if links.shut {
            return Ok(false);
        }
        let setup = self.setup;
        let Some(line) = next_line(setup, self.me, &self.part) else {
            return Ok(false);
        };
        if self.time.is_asleep(&line.job) {
            return Ok(false);
        }
        let Some(outcome) = outcome_of(&self.seen(links), &line.job)? else {
            return Ok(false);
        };
        line_done(self.alloc, &mut self.part, setup, Some(&line.job))?;
        self.time.line_ended();
        let number = line.number;
        self.note(
            links,
            Act::Script {
                line: number,
                outcome,
            },
        )?;
        Ok(true)
    }

    // Whether the rules let the thread ask the event.
    pub(crate) fn may_ask(&self, links: &Links, event: &RegEvent) -> bool
        ensures { result ≡ may_ask self.now links.now event.now }
    {
        self.may_ask_after(links, links.registry.between(), event)
    }

    // Whether the rules let the thread ask the event, where this has to follow at the registry.
    pub(crate) fn may_ask_after(
        &self,
        links: &Links,
        between: Option<Between>,
        event: &RegEvent,
    ) -> bool
        ensures { result ≡ may_ask_after self.now links.now between event.now }
    {
        asks_event(
            &self.seen(links),
            self.setup,
            self.me,
            links.shut,
            between,
            event,
        )
    }

    // The part is as this answer to an event of a reset leaves it; the walk that begins by it, if one does.
    fn reset_answered(
        &mut self,
        event: &RegEvent,
        answer: &Answer,
    ) -> Result<Option<(WalkId, OpenWalk)>, OutOfMemory>
        requires { is_of_reset event.now ≡ true }
        ensures thread { OnOk result (self.new ≡ record self.old { part = self.new.part }) }
        ensures change { IfOk result (λ walk. (v : View) → (came : Came) → v.part ≡ self.old.part
            → with_walk self.new.part walk ≡ change_reg self.old.setup.now self.old.me v came event.now answer.now) }
    {
        let me = self.me;
        match event {
            RegEvent::BeginReset { dev, req } => {
                reset_begun(&mut self.part, me, *dev, *req, answer)
            }
            RegEvent::EndReset { dev } => reset_thaws(&mut self.part, me, *dev, answer),
            RegEvent::FinishReset { dev } => {
                reset_finishes(&mut self.part, *dev, answer)?;
                Ok(None)
            }
            _ => unreachable!(),
        }
    }

    // The part is as this answer to an event that changes a device leaves it; the walk that begins by it, if one does.
    fn device_answered(
        &mut self,
        shut: bool,
        event: &RegEvent,
        answer: &Answer,
    ) -> Result<Option<(WalkId, OpenWalk)>, OutOfMemory>
        requires { is_of_device event.now ≡ true }
        ensures thread { OnOk result (self.new ≡ record self.old { part = self.new.part }) }
        ensures change { IfOk result (λ walk. (v : View) → v.part ≡ self.old.part
            → with_walk self.new.part walk ≡ change_reg self.old.setup.now self.old.me v (came_shut shut) event.now answer.now) }
    {
        let setup = self.setup;
        match event {
            RegEvent::BeginRemove { name } => {
                removal_answered(&mut self.part, setup, self.me, shut, name, answer)
            }
            RegEvent::Destructed { dev } => {
                freed(&mut self.part, *dev, answer)?;
                Ok(None)
            }
            RegEvent::BeginResize { blocks, .. } => {
                resizing(&mut self.part, shut, *blocks, answer)?;
                Ok(None)
            }
            RegEvent::EndResize { dev } => {
                resized(&mut self.part, setup, *dev, answer)?;
                Ok(None)
            }
            _ => unreachable!(),
        }
    }

    // The part is as this answer to an event leaves it, which makes these channels where it is a get; the
    // walk that begins by it, if one does.
    fn answered(
        &mut self,
        shut: bool,
        made: &[DevId],
        event: &RegEvent,
        answer: &Answer,
    ) -> Result<Option<(WalkId, OpenWalk)>, OutOfMemory>
        requires { is_asked_alone event.now ≡ true }
        ensures thread { OnOk result (self.new ≡ record self.old { part = self.new.part }) }
        ensures change { IfOk result (λ walk. (v : View) → v.part ≡ self.old.part → made.now ≡ made_by self.old.setup.now v event.now
            → with_walk self.new.part walk ≡ change_reg self.old.setup.now self.old.me v (came_shut shut) event.now answer.now) }
    {
        let setup = self.setup;
        let me = self.me;
        match event {
            RegEvent::Open { .. } | RegEvent::Claim { .. } => {
                decide(&mut self.part, shut, answer);
                Ok(None)
            }
            RegEvent::Close { handle } => {
                closed(&mut self.part, setup, shut, *handle, answer)?;
                Ok(None)
            }
            RegEvent::GetChannel { .. } => match answer {
                Answer::Got { frozen, .. } => {
                    got(&mut self.part, frozen.as_slice(), made)?;
                    Ok(None)
                }
                _ => Ok(None),
            },
            RegEvent::PutChannel { dev, closing } => {
                put_down(&mut self.part, me, *dev, *closing, answer)?;
                Ok(None)
            }
            RegEvent::DropChannel { dev } => {
                dropped(&mut self.part, setup, me, *dev, answer)?;
                Ok(None)
            }
            RegEvent::BeginReset { .. }
            | RegEvent::EndReset { .. }
            | RegEvent::FinishReset { .. } => self.reset_answered(event, answer),
            RegEvent::BeginRemove { .. }
            | RegEvent::Destructed { .. }
            | RegEvent::BeginResize { .. }
            | RegEvent::EndResize { .. } => self.device_answered(shut, event, answer),
            RegEvent::TakeInjection { .. } => unreachable!(),
        }
    }

    // The registry answers an event, and the part is as the answer leaves it; a walk that begins by it is
    // here, and to be put. Where stamps run out it answers out of memory.
    pub(crate) fn ask(&mut self, links: &mut Links, event: RegEvent) -> Result<(), OutOfMemory>
        requires built { is_asked_alone event ≡ true }
        requires asked { may_ask self.old links.old event ≡ true }
        requires rows { links.old.registry.setup ≡ rows_of self.old.setup.now }
        ensures acted { OnOk result (Acted self.old links.old self.new links.new) }
        ensures tickets { OnOk result (KeepsTickets self.old → KeepsTickets self.new) }
        ensures answered { OnOk result (IsAnswered event self.old links.old self.new links.new) }
    {
        let Some(stamp) = next_stamp(&links.entries, links.registry.last_stamp()) else {
            return Err(OutOfMemory);
        };
        let made = made_by(self.alloc, self.setup, &links.registry, self.me, &event)?;
        let answer = links.registry.event(self.alloc, self.me, stamp, &event)?;
        let walk = self.answered(links.shut, made.as_slice(), &event, &answer)?;
        begin_walk(&mut self.held, &mut self.outbox, walk)?;
        let boxed = Boxed::new(self.alloc, answer)?;
        self.note(
            links,
            Act::Reg {
                event,
                answer: boxed,
            },
        )?;
        Ok(())
    }

    // Asks at once for what has to follow, where anything has.
    fn follow(&mut self, links: &mut Links, due: Option<RegEvent>) -> Result<(), OutOfMemory>
        requires built { IfSome due (λ event. is_asked_alone event ≡ true) }
        requires asked { IfSome due (λ event. may_ask self.old links.old event ≡ true) }
        requires rows { links.old.registry.setup ≡ rows_of self.old.setup.now }
        ensures acted { OnOk result (Acted self.old links.old self.new links.new) }
        ensures tickets { OnOk result (KeepsTickets self.old → KeepsTickets self.new) }
        ensures follows { OnOk result (Follows self.old links.old self.new links.new due) }
    {
        if let Some(event) = due {
            self.ask(links, event)?;
        }
        Ok(())
    }

    /// Opens the device that the next line names, where it asks for that and the rules let it: true,
    /// the registry's answer decides the line, and a device that was opened gives the thread its
    /// channel at once. Else, or after Shutdown, nothing changes.
    pub(crate) fn open(&mut self, links: &mut Links) -> Result<bool, OutOfMemory>
        requires me { self.old.me < vec_len links.old.queues }
        requires rows { links.old.registry.setup ≡ rows_of self.old.setup.now }
        ensures acted { OnOk result (Acted self.old links.old self.new links.new) }
        ensures tickets { OnOk result (KeepsTickets self.old → KeepsTickets self.new) }
        ensures opened { IfOk result (Opens self.old links.old self.new links.new) }
    {
        if links.shut {
            return Ok(false);
        }
        let Some(Job::Open { dev, write, .. }) = undecided_job(self.setup, self.me, &self.part)
        else {
            return Ok(false);
        };
        let event = RegEvent::Open {
            name: dev.copy()?,
            write: *write,
        };
        if !self.may_ask(links, &event) {
            return Ok(false);
        }
        self.ask(links, event)?;
        let due = get_due(self.me, links.registry.between());
        self.follow(links, due)?;
        Ok(true)
    }

    // Whether the rules let the thread put the handle's channel, and close it then.
    pub(crate) fn may_close(&self, links: &Links, handle: Handle) -> bool
        ensures { result ≡ may_close self.now links.now handle }
    {
        let dev = handle.dev;
        let after = Some(Between::Closing {
            thread: self.me,
            dev,
        });
        self.may_ask(links, &RegEvent::PutChannel { dev, closing: true })
            && self.may_ask_after(links, after, &RegEvent::Close { handle: handle.id })
    }

    // Puts the channel of a handle, and where that was granted closes the handle at once.
    pub(crate) fn put_and_close(
        &mut self,
        links: &mut Links,
        handle: Handle,
    ) -> Result<(), OutOfMemory>
        requires may { may_close self.old links.old handle ≡ true }
        requires rows { links.old.registry.setup ≡ rows_of self.old.setup.now }
        ensures acted { OnOk result (Acted self.old links.old self.new links.new) }
        ensures tickets { OnOk result (KeepsTickets self.old → KeepsTickets self.new) }
        ensures closed { OnOk result (IsFollowed (events.PutChannel handle.dev true) (close_due handle.id) self.old links.old self.new links.new) }
    {
        let dev = handle.dev;
        self.ask(links, RegEvent::PutChannel { dev, closing: true })?;
        let due = close_due(handle.id, self.me, links.registry.between());
        self.follow(links, due)
    }

    // The handle that the next line closes, where it asks for that, the name is bound to a handle that
    // is open here, and the thread may close it. None after Shutdown.
    fn closing(&self, links: &Links) -> Option<Handle>
        ensures { result ≡ close_asked self.now links.now }
    {
        if links.shut {
            return None;
        }
        let Job::Close { handle } = undecided_job(self.setup, self.me, &self.part)? else {
            return None;
        };
        let handle = self.seen(links).handle(bound_to(&self.part, handle)?)?;
        if self.may_close(links, handle) {
            Some(handle)
        } else {
            None
        }
    }

    /// Closes the handle that the next line names, where it asks for that, the name is bound and the
    /// rules let it (no request is open on the handle): true, its channel is put, and the registry's
    /// answer to the close that follows at once decides the line. Else, or after Shutdown, nothing
    /// changes.
    pub(crate) fn close(&mut self, links: &mut Links) -> Result<bool, OutOfMemory>
        requires me { self.old.me < vec_len links.old.queues }
        requires rows { links.old.registry.setup ≡ rows_of self.old.setup.now }
        ensures acted { OnOk result (Acted self.old links.old self.new links.new) }
        ensures tickets { OnOk result (KeepsTickets self.old → KeepsTickets self.new) }
        ensures closed { IfOk result (Closes self.old links.old self.new links.new) }
    {
        let Some(handle) = self.closing(links) else {
            return Ok(false);
        };
        self.put_and_close(links, handle)?;
        Ok(true)
    }

    /// Claims the handle that the next line names, where it asks for that, the name is bound and the
    /// rules let it: true, and the registry's answer decides the line. Else, or after Shutdown, nothing
    /// changes.
    pub(crate) fn claim(&mut self, links: &mut Links) -> Result<bool, OutOfMemory>
        requires me { self.old.me < vec_len links.old.queues }
        requires rows { links.old.registry.setup ≡ rows_of self.old.setup.now }
        ensures acted { OnOk result (Acted self.old links.old self.new links.new) }
        ensures tickets { OnOk result (KeepsTickets self.old → KeepsTickets self.new) }
        ensures claimed { IfOk result (Claims self.old links.old self.new links.new) }
    {
        if links.shut {
            return Ok(false);
        }
        let Some(Job::Claim { handle, kind }) = undecided_job(self.setup, self.me, &self.part)
        else {
            return Ok(false);
        };
        let Some(id) = bound_to(&self.part, handle) else {
            return Ok(false);
        };
        let event = RegEvent::Claim {
            handle: id,
            kind: *kind,
        };
        if !self.may_ask(links, &event) {
            return Ok(false);
        }
        self.ask(links, event)?;
        Ok(true)
    }

    /// Asks for the change of a device that the next line names, where it names one and the rules let it: that the
    /// device is removed, or that it grows. True, and the registry's answer decides the line; where a removal was
    /// granted, each handle's thread is to be told, and a walk over the threads that have a channel begins; where a
    /// resize was, the device's home is to be told. Else, or after Shutdown, nothing changes.
    pub(crate) fn change_device(&mut self, links: &mut Links) -> Result<bool, OutOfMemory>
        requires me { self.old.me < vec_len links.old.queues }
        requires rows { links.old.registry.setup ≡ rows_of self.old.setup.now }
        ensures acted { OnOk result (Acted self.old links.old self.new links.new) }
        ensures tickets { OnOk result (KeepsTickets self.old → KeepsTickets self.new) }
        ensures changed { IfOk result (ChangesDevice self.old links.old self.new links.new) }
    {
        if links.shut {
            return Ok(false);
        }
        let Some(event) = change_of(undecided_job(self.setup, self.me, &self.part))? else {
            return Ok(false);
        };
        if !self.may_ask(links, &event) {
            return Ok(false);
        }
        self.ask(links, event)?;
        Ok(true)
    }
}
