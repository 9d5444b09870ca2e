//! The stages of a thread's resets.
ghost use Rattle.std.specs.Prelude.{◌≡◌, map, cond};
ghost use Rattle.bd_machine.specs.Asked.{is_reset_at};
ghost use Rattle.bd_machine.specs.Messages.{freezes, freezing};
ghost use Rattle.bd_machine.specs.Walks.{at_stage, staged};
ghost use Rattle.bd_machine.specs.Events.{advanced};

use bd_base::{DevId, ReqId, Rows, ThreadSet};
use bd_machine::{Part, Resetting, Stage};
use bd_rule_requests::is_reset_of;
use bd_rule_view::same_stage;

fn stage_one(reset: &mut Resetting, req: ReqId, stage: Stage)
    ensures { reset.new ≡ at_stage req stage reset.old }
{
    if is_reset_of(req, reset) {
        reset.stage = stage;
    }
}

#[tactic(auto, using(crate::proofs::Each::each_next, crate::proofs::Each::each_end, crate::proofs::Each::each_length))]
fn stage_each(resets: &mut Rows<Resetting>, req: ReqId, stage: Stage)
    ensures { resets.new ≡ map (at_stage req stage) resets.old }
{
    for i in 0..resets.len() {
        stage_one(resets.at_mut(i), req, stage);
    }
}

/// The thread's reset of the request, if it is one's, is at this stage.
pub fn stage(part: &mut Part, req: Option<ReqId>, stage: Stage)
    ensures { part.new ≡ staged req stage part.old }
{
    if let Some(id) = req {
        stage_each(&mut part.resets, id, stage);
    }
}

fn freeze_one(reset: &mut Resetting, req: ReqId, threads: ThreadSet)
    ensures { reset.new ≡ freezing req threads reset.old }
{
    if is_reset_of(req, reset) {
        reset.stage = Stage::Freezing;
        reset.threads = threads;
    }
}

#[tactic(auto, using(crate::proofs::Each::each_next, crate::proofs::Each::each_end, crate::proofs::Each::each_length))]
fn freeze_each(resets: &mut Rows<Resetting>, req: ReqId, threads: ThreadSet)
    ensures { resets.new ≡ map (freezing req threads) resets.old }
{
    for i in 0..resets.len() {
        freeze_one(resets.at_mut(i), req, threads);
    }
}

/// The thread's reset of a request begins over these threads.
pub fn freeze(part: &mut Part, req: ReqId, threads: ThreadSet)
    ensures { part.new ≡ freezes req threads part.old }
{
    freeze_each(&mut part.resets, req, threads);
}

fn advance_one(reset: &mut Resetting, dev: DevId, old: Stage, new: Stage)
    ensures { reset.new ≡ cond (is_reset_at dev old reset.old) (record reset.old { stage = new }) reset.old }
{
    if reset.dev.0 == dev.0 && same_stage(reset.stage, old) {
        reset.stage = new;
    }
}

#[tactic(auto, using(crate::proofs::Each::each_next, crate::proofs::Each::each_end, crate::proofs::Each::each_length))]
fn advance_each(resets: &mut Rows<Resetting>, dev: DevId, old: Stage, new: Stage)
    ensures { resets.new ≡ map (λ r. cond (is_reset_at dev old r) (record r { stage = new }) r) resets.old }
{
    for i in 0..resets.len() {
        advance_one(resets.at_mut(i), dev, old, new);
    }
}

/// The thread's resets of a device that are at one stage are at another.
pub fn advance(part: &mut Part, dev: DevId, old: Stage, new: Stage)
    ensures { part.new ≡ advanced dev old new part.old }
{
    advance_each(&mut part.resets, dev, old, new);
}
