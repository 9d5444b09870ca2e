//! The state before any entry.
ghost use Rattle.std.specs.Prelude.{◌≡◌, [], map, IfOk};
ghost use Rattle.std.specs.List.{range_with_len};
ghost use Rattle.bd_machine.specs.Start.{part_at_start, start};

use bd_base::{OutOfMemory, Rows, Setup};
use bd_blocks::{part_at_start, registry_at_start};
use bd_machine::{Part, State};
use std::alloc::Global;

#[tactic(auto, using(bd_rule_effects::proofs::Left::left_from))]
fn parts_at_start(alloc: Global, setup: &Setup) -> Result<Rows<Part>, OutOfMemory>
    ensures { IfOk result (λ ps. ps ≡ map (part_at_start setup.now []) (range_with_len 0 setup.now.threads)) }
{
    let mut parts = Rows::new(alloc);
    for t in 0..setup.threads {
        let part = part_at_start(alloc, setup, t)?;
        parts.push(part)?;
    }
    Ok(parts)
}

/// The state before any entry, with every disk untold.
pub fn state_at_start(alloc: Global, setup: &Setup) -> Result<State, OutOfMemory>
    ensures { IfOk result (λ s. s ≡ start setup.now []) }
{
    let parts = parts_at_start(alloc, setup)?;
    let registry = registry_at_start(alloc, setup)?;
    Ok(State {
        stamp: 0,
        thread: 0,
        shut: false,
        registry,
        parts,
        tokens: Rows::new(alloc),
    })
}
