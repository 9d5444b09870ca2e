//! The open requests that a thread still has to look at.
ghost use Rattle.std.specs.Prelude.{◌≡◌, ℕ, ◌∷◌, ◌++◌, [], false, true, cond, length, slice_get, IfSome, OnOk};
ghost use Rattle.std.specs.Iterator.Runs.{YieldsRefsInOrder};
ghost use Rattle.std.specs.List.{AllByRecursion};
ghost use Rattle.std.specs.VecDeque.Iter.{deque_iter_rest, deque_iter_steps};
ghost use Rattle.bd_base.specs.declared.id.ReqId.{ReqId};
ghost use Rattle.bd_machine.specs.declared.state.Open.{Open};
ghost use Rattle.bd_held.specs.Holds.{has_due, with_hold};
ghost use Rattle.bd_touched.specs.Reach.{holds_on, is_touched, reach_of, reaches, Covers, KeepsHolds, TakesIn};

use crate::reach::{Reach, reach_of};
use bd_base::{Act, DevId, Entry, OutOfMemory, ReqId, Setup};
use bd_blocks::below;
use bd_held::Held;
use bd_machine::{Hold, Open, OpenList};
use bd_rule_view::same_request;
use bd_rule_walks::any_waits;
use std::alloc::Global;
use std::collections::VecDeque;
use std::collections::vec_deque::Iter;
use std::marker::Model;

/// How many requests are kept at most, before all are to be looked at.
const MOST: usize = 1024;

/// How many holds are kept at most, before all are to be looked at.
const MOST_HOLDS: usize = 4096;

/// The open requests that a thread still has to look at: all of them, or those that acts reached since it did.
#[derive(Drop)]
pub struct Touched {
    all: bool,
    reqs: VecDeque<ReqId>,
    // the holds of those that may rest meanwhile; such as ended before their moment are among them until it
    holds: Held,
}

impl Model for Touched {
    ghost use Rattle.bd_touched.specs.Reach.{Touches};

    ghost Value = { Touches };

    ghost view = { λ t. record { all = t.all; reqs = t.reqs.items; holds = t.holds } };
}

impl Touched {
    /// None. It takes no memory.
    pub fn new(alloc: Global) -> Touched
        ensures all { result.all ≡ false }
        ensures reqs { result.reqs ≡ [] }
    {
        Touched {
            all: false,
            reqs: VecDeque::new(alloc),
            holds: Held::new(alloc),
        }
    }

    /// How many are named.
    pub fn len(&self) -> usize
        ensures { result ≡ length self.now.reqs }
    {
        self.reqs.len()
    }

    /// The one at this place, from 0, of those that are named.
    pub fn get(&self, place: usize) -> Option<ReqId>
        ensures { result ≡ slice_get self.now.reqs place }
    {
        self.reqs.get(place).copied()
    }

    /// Those that are named, in their order.
    pub fn iter(&self) -> Iter<'_, ReqId>
        ensures rest { deque_iter_rest result ≡ self.now.reqs }
        ensures runs { YieldsRefsInOrder (deque_iter_steps {X = ReqId}) deque_iter_rest }
    {
        self.reqs.iter()
    }

    /// Whether all open requests are to be looked at, whichever are named.
    pub fn is_all(&self) -> bool
        ensures { result ≡ self.now.all }
    {
        self.all
    }

    // All of them.
    fn set_all(&mut self)
        ensures all { self.new.all ≡ true }
        ensures holds { self.new.holds ≡ self.old.holds }
    {
        self.all = true;
        self.reqs.clear();
    }

    // Whether the request was named last, or all are to be looked at.
    fn is_last(&self, req: ReqId) -> bool
        ensures { result ≡ true → is_touched self.now req ≡ true }
    {
        if self.all {
            return true;
        }
        match self.reqs.back() {
            Some(last) => same_request(*last, req),
            None => false,
        }
    }

    /// One more. Where there is no room for it, all of them.
    pub fn add(&mut self, req: ReqId)
        ensures covers { Covers self.old self.new }
        ensures named { is_touched self.new req ≡ true }
        ensures holds { self.new.holds ≡ self.old.holds }
    {
        if self.is_last(req) {
            return;
        }
        if self.reqs.len() >= MOST || self.reqs.push_back(req).is_err() {
            self.set_all();
        }
    }

    // Those that have the device below and are no resets, among these open ones: all, where there is one.
    fn add_over(&mut self, setup: &Setup, requests: &OpenList, dev: DevId)
        ensures covers { Covers self.old self.new }
        ensures over { AllByRecursion (λ (o : Open). reaches setup.now (Reach.Over dev) o ≡ true → is_touched self.new o.id ≡ true) requests.now }
        ensures holds { self.new.holds ≡ self.old.holds }
    {
        if any_waits(setup, requests, dev) {
            self.set_all();
        }
    }

    // Those that have a device below which this one has below and are no resets, among these open ones: all, where there
    // is one.
    fn add_along(&mut self, setup: &Setup, requests: &OpenList, dev: DevId)
        ensures covers { Covers self.old self.new }
        ensures along { AllByRecursion (λ (o : Open). reaches setup.now (Reach.Along dev) o ≡ true → is_touched self.new o.id ≡ true) requests.now }
        ensures holds { self.new.holds ≡ self.old.holds }
    {
        for lower in below(setup, dev) {
            self.add_over(setup, requests, lower);
        }
    }

    // What an act reaches, of these open requests, as far as they are this thread's own.
    fn take_in_act(&mut self, setup: &Setup, me: u32, requests: &OpenList, act: &Act)
        ensures covers { Covers self.old self.new }
        ensures reached { AllByRecursion (λ (o : Open). o.id.thread ≡ me → reaches setup.now (reach_of act.now) o ≡ true → is_touched self.new o.id ≡ true) requests.now }
        ensures holds { self.new.holds ≡ self.old.holds }
    {
        match reach_of(act) {
            Reach::Nobody => {}
            Reach::Everybody => self.set_all(),
            Reach::Named(req) => {
                if req.thread == me {
                    self.add(req);
                }
            }
            Reach::Over(dev) => self.add_over(setup, requests, dev),
            Reach::Along(dev) => self.add_along(setup, requests, dev),
        }
    }

    // Where there are too many holds, none of them is kept, and all requests are to be looked at.
    fn bound_holds(&mut self)
        ensures covers { Covers self.old self.new }
        ensures keeps { KeepsHolds self.old self.new }
    {
        if self.holds.len() >= MOST_HOLDS {
            self.set_all();
            self.holds.clear();
        }
    }

    // The request may rest until this moment.
    fn insert_hold(&mut self, req: ReqId, until: u64) -> Result<(), OutOfMemory>
        ensures { OnOk result (self.new ≡ record self.old { holds = with_hold self.old.holds req until }) }
    {
        self.holds.insert(req, until)?;
        Ok(())
    }

    // A hold that an act begins.
    fn take_hold(&mut self, act: &Act) -> Result<(), OutOfMemory>
        ensures covers { OnOk result (Covers self.old self.new) }
        ensures keeps { OnOk result (KeepsHolds self.old self.new) }
    {
        if let Act::Hold { req, until } = act {
            self.insert_hold(*req, *until)?;
        }
        Ok(())
    }

    // The holds that these entries begin.
    fn take_holds(&mut self, entries: &[Entry]) -> Result<(), OutOfMemory>
        ensures covers { OnOk result (Covers self.old self.new) }
        ensures keeps { OnOk result (KeepsHolds self.old self.new) }
    {
        for entry in entries {
            self.bound_holds();
            self.take_hold(&entry.act)?;
        }
        Ok(())
    }

    // There is room to look at all of them by their names, and at those whose holds end.
    fn make_room(&mut self, requests: &OpenList) -> Result<(), OutOfMemory>
        ensures { OnOk result (self.new ≡ self.old) }
    {
        self.reqs.reserve(requests.len())?;
        self.reqs.reserve(self.holds.len())?;
        Ok(())
    }

    /// What these entries reach, of these open requests, is to be looked at too, as far as they are this thread's own.
    /// There is room for all of them then, and for those that are held: it takes memory for that.
    pub fn take_in(
        &mut self,
        setup: &Setup,
        me: u32,
        requests: &OpenList,
        entries: &[Entry],
    ) -> Result<(), OutOfMemory>
        ensures taken { OnOk result (TakesIn setup.now me requests.now entries.now self.old self.new) }
        ensures keeps { OnOk result (KeepsHolds self.old self.new) }
    {
        if entries.is_empty() {
            return Ok(());
        }
        self.take_holds(entries)?;
        for entry in entries {
            self.take_in_act(setup, me, requests, &entry.act);
        }
        self.make_room(requests)?;
        Ok(())
    }

    // One more by its name.
    fn name_one(&mut self, request: &Open) -> Result<(), OutOfMemory>
        ensures { OnOk result (self.new ≡ record self.old { reqs = self.old.reqs ++ request.now.id ∷ [] }) }
    {
        self.reqs.push_back(request.id)?;
        Ok(())
    }

    /// Each of these open requests by its name, where all of them are to be looked at.
    pub fn name_all(&mut self, requests: &OpenList) -> Result<(), OutOfMemory>
        ensures named { OnOk result (self.new.all ≡ false) }
        ensures holds { OnOk result (self.new.holds ≡ self.old.holds) }
        ensures same { OnOk result (AllByRecursion (λ (o : Open). is_touched self.old o.id ≡ true → is_touched self.new o.id ≡ true) requests.now) }
    {
        if !self.all {
            return Ok(());
        }
        self.reqs.clear();
        for place in 0..requests.len() {
            let Some(open) = requests.get(place) else {
                break;
            };
            self.name_one(open)?;
        }
        self.all = false;
        Ok(())
    }

    /// The first of those that are named is no longer to be looked at for that.
    pub fn take_first(&mut self) -> Option<ReqId>
        ensures all { self.new.all ≡ self.old.all }
        ensures first { IfSome result (λ req. self.old.reqs ≡ req ∷ self.new.reqs) }
        ensures none { result ≡ None → self.new.reqs ≡ self.old.reqs }
        ensures holds { self.new.holds ≡ self.old.holds }
    {
        self.reqs.pop_front()
    }

    /// Whether the request isn't held, or may rest while it is.
    pub fn holds_on(&self, req: ReqId, hold: Hold) -> bool
        ensures { result ≡ holds_on self.now.holds req hold }
    {
        match hold {
            Hold::Until { moment, .. } => self.holds.has(req, moment),
            Hold::Before | Hold::Over => true,
        }
    }

    // The one whose hold ends first is to be looked at.
    fn end_first(&mut self)
        ensures covers { Covers self.old self.new }
        ensures keeps { KeepsHolds self.old self.new }
    {
        let Some(first) = self.holds.pop_first() else {
            return;
        };
        self.add(first.req);
    }

    /// Those are to be looked at whose holds have ended at this moment (microseconds).
    pub fn expire(&mut self, now: u64)
        ensures covers { Covers self.old self.new }
        ensures keeps { KeepsHolds self.old self.new }
        ensures none { has_due now self.new.holds ≡ false }
    {
        for _round in 0..self.holds.len() {
            if !self.holds.is_due(now) {
                return;
            }
            self.end_first();
        }
        if self.holds.is_due(now) {
            self.set_all();
            self.holds.clear();
        }
    }
}
