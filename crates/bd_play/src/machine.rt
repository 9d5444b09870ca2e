//! The machine.
ghost use Rattle.std.specs.Prelude.{◌≡◌, [], IfErr, IfOk, OnErr, OnOk};
ghost use Rattle.bd_machine.specs.Run.{is_finished};
ghost use Rattle.bd_machine.specs.Start.{start};
ghost use Rattle.bd_machine.specs.Step.{IsStep};
ghost use Rattle.bd_play.specs.Refusals.{Refuses};

use crate::step::{after, refusal};
use bd_base::{Entry, OutOfMemory, Setup};
use bd_clones::Duplicate;
use bd_machine::State;
use bd_state::{is_finished, state_at_start};
use std::alloc::Global;
use std::error::Error;
use std::fmt;
use std::marker::Model;

/// Why a step wasn't done. The machine is then as before.
#[derive(Clone, Copy, Debug, PartialEq, Eq)]
pub enum StepError {
    /// There was no memory for the state after it.
    OutOfMemory,
    /// The entry isn't allowed: the least guard that fails, by its number in `bd_machine::guard`,
    /// and the entry's stamp.
    Illegal { guard: u32, stamp: u128 },
}

impl fmt::Display for StepError {
    fn fmt<W: fmt::Write>(&self, f: &mut fmt::Formatter<W>) -> fmt::Result {
        match self {
            StepError::OutOfMemory => write!(f, "out of memory"),
            StepError::Illegal { guard, stamp } => {
                write!(
                    f,
                    "the entry with stamp {stamp} isn't allowed: guard {guard}"
                )
            }
        }
    }
}

impl Error for StepError {}

impl From<OutOfMemory> for StepError {
    fn from(_e: OutOfMemory) -> StepError {
        StepError::OutOfMemory
    }
}

/// The sequential device machine: a setup, and the state that the entries so far left. Contracts
/// see both.
#[derive(Drop)]
pub struct Machine {
    alloc: Global,
    setup: Setup,
    state: State,
}

impl Model for Machine {
    ghost use Rattle.bd_play.specs.Play.{Play};

    ghost Value = { Play };

    ghost view = { λ m. record { setup = m.setup; state = m.state } };
}

impl Machine {
    /// The machine before any entry, with every disk's content untold.
    pub fn start(alloc: Global, setup: &Setup) -> Result<Machine, OutOfMemory>
        ensures setup { IfOk result (λ m. m.setup ≡ setup.now) }
        ensures state { IfOk result (λ m. m.state ≡ start setup.now []) }
    {
        let state = state_at_start(alloc, setup)?;
        let setup = setup.duplicate(alloc)?;
        Ok(Machine {
            alloc,
            setup,
            state,
        })
    }

    /// The state that the entries so far left.
    pub fn state(&self) -> &State
        ensures { result.now ≡ self.now.state }
    {
        &self.state
    }

    /// Whether the entries so far are a complete run: the Shutdown came, every device is destructed,
    /// no request is open, every message was taken, every walk ended, and nothing is left to do.
    pub fn is_complete(&self) -> Result<bool, OutOfMemory>
        ensures { IfOk result (λ b. b ≡ is_finished self.now.setup self.now.state) }
    {
        is_finished(&self.setup, &self.state)
    }

    /// Takes one entry: Ok exactly where every guard of it holds, with the state after it. Else the
    /// machine is as before.
    pub fn step(&mut self, entry: &Entry) -> Result<(), StepError>
        ensures ok { OnOk result (IsStep self.old.setup self.old.state entry.now self.new.state) }
        ensures setup { self.new.setup ≡ self.old.setup }
        ensures refused { IfErr result (λ error. Refuses self.old entry.now error) }
        ensures as_before { OnErr result (self.new ≡ self.old) }
    {
        let Ok(refused) = refusal(self.alloc, &self.setup, &self.state, entry) else {
            return Err(StepError::OutOfMemory);
        };
        if let Some(guard) = refused {
            let stamp = entry.stamp;
            return Err(StepError::Illegal { guard, stamp });
        }
        let Ok(next) = after(self.alloc, &self.setup, &self.state, entry) else {
            return Err(StepError::OutOfMemory);
        };
        self.state = next;
        Ok(())
    }
}
