//! A script as one thread goes through it.
ghost use Rattle.std.specs.Prelude.{◌≡◌, drop, option_copied, slice_get};
ghost use Rattle.bd_rule_lines.specs.Moves.{IsNextMove, waits_for};

use crate::known::Knows;
use crate::moves::{Move, Why};
use crate::room::has_room;
use bd_base::{Job, Line};
use std::marker::Model;

/// What a line with this command waits for, where it waits:
///
/// - A submission waits for `Room` while 1,024 requests are open, whatever it submits.
/// - `wait` waits for `Requests` while any is open.
/// - `sleep` waits for `Time` until it is over.
/// - `await` waits for its `Mark` until the thread took it.
/// - `gone` waits for `Gone` until the thread took the handle's remove event; on a name that
///   isn't bound it doesn't wait.
/// - `sized` waits for `Size` while the thread knows of fewer blocks of the handle's device; on a name that isn't
///   bound, and on one whose handle its thread closed by itself, it doesn't wait.
/// - Nothing else waits.
pub fn waits_for<K: Knows>(known: &K, job: &Job) -> Option<Why>
    ensures { result ≡ waits_for (K.known_of known.now) job.now }
{
    match job {
        Job::Submit { .. } => (!has_room(known.requests())).then_some(Why::Room),
        Job::Wait => (known.requests() > 0).then_some(Why::Requests),
        Job::Sleep(micros) => (!known.has_slept(*micros)).then_some(Why::Time),
        Job::Await(mark) => (!known.has_mark(mark)).then_some(Why::Mark),
        Job::Gone { handle } => known.awaits_removal(handle).then_some(Why::Gone),
        Job::Sized { handle, blocks } => { known.awaits_size(handle, *blocks).then_some(Why::Size) }
        Job::Open { .. }
        | Job::Close { .. }
        | Job::Claim { .. }
        | Job::Remove { .. }
        | Job::Resize { .. }
        | Job::Post(_) => None,
    }
}

/// What a script may do now whose next line this is: `End` exactly where there is none, `Blocked` exactly
/// where it waits, with what it waits for, and else `Do` with its command.
pub fn next_move<'a, K: Knows>(known: &K, line: Option<&'a Line>) -> Move<'a>
    ensures { IsNextMove (option_copied line.entry) (K.known_of known.entry.now) result }
{
    match line {
        None => Move::End,
        Some(line) => match waits_for(known, &line.job) {
            None => Move::Do(&line.job),
            Some(why) => Move::Blocked(why),
        },
    }
}

/// The lines of a script that are left, seen as their list.
#[derive(Drop)]
pub struct User<'a> {
    left: &'a [Line],
}

impl<'a> Model for User<'a> {
    ghost use Rattle.std.specs.Prelude.{List};
    ghost use Rattle.bd_base.specs.declared.job.Line.{Line};

    ghost Value = { List Line };

    ghost view = { λ u. u.left.now };
}

impl<'a> User<'a> {
    /// A script of which these lines are left.
    pub fn new(lines: &'a [Line]) -> User<'a>
        ensures { result ≡ lines.now }
    {
        User { left: lines }
    }

    /// What the script may do now, by its first line that is left.
    pub fn next<K: Knows>(&self, known: &K) -> Move<'a>
        ensures { IsNextMove (slice_get self.now 0) (K.known_of known.entry.now) result }
    {
        next_move(known, self.left.get(0))
    }

    /// The next line was done: goes to the one after it. At the end it stays there.
    pub fn did(&mut self)
        ensures { self.new ≡ drop 1 self.old }
    {
        if let [_, rest @ ..] = self.left {
            self.left = rest;
        }
    }
}
