//! The rings and the slot, from their making to their end.
ghost use Rattle.std.specs.Prelude.{◌≡◌, ◌<◌, [], ◌∷◌, map, vec_len, IfOk};
ghost use Rattle.bd_registry.specs.State.{start_of};
ghost use Rattle.bd_ring.specs.Rings.{AreSendersOf};
ghost use Rattle.bd_wires.specs.Rows.{AreDrained, AreNewRows, AreRows, IsDrained};
ghost use Rattle.bd_wires.specs.Wires.{AreDelivered, AreLinked, AreNew, HasJournalOf};

use crate::transposing::transpose;
use bd_base::OutOfMemory;
use bd_registry::Registry;
use bd_ring::{Ring, SendPass, Slot, SlotPass, TakePass};
use std::alloc::Global;
use std::sync::Wait;

/// How many posts a ring holds.
const CAPACITY: u32 = 1024;

/// What the threads of a node share: the ring to each thread, by its number, and the registry in its
/// slot.
#[derive(Drop)]
pub struct Wires {
    pub rings: Vec<Ring>,
    pub slot: Slot<Registry>,
}

/// A thread's passes: it takes posts from its own ring, puts posts into the ring of each thread, and
/// borrows the registry.
#[derive(Drop)]
pub struct Passes {
    pub take: TakePass,
    pub sends: Vec<SendPass>,
    pub slot: SlotPass<Registry>,
}

// A ring for each pass of the slot, and with that pass all passes of the ring.
fn make_rings(
    alloc: Global,
    threads: u32,
    slots: Vec<SlotPass<Registry>>,
) -> Result<(Vec<Ring>, Vec<Passes>), OutOfMemory>
    ensures rings { IfOk result (λ r. vec_len r.0 ≡ vec_len slots) }
    ensures slots { IfOk result (λ r. map (λ q. q.slot) r.1.items ≡ slots.items) }
    ensures rows { IfOk result (λ r. AreNewRows threads r.0.items r.1.items) }
{
    let mut rings = Vec::new(alloc);
    let mut rows = Vec::new(alloc);
    for slot in slots {
        let (ring, sends, take) = Ring::new(alloc, CAPACITY, threads)?;
        rings.push(ring)?;
        rows.push(Passes { take, sends, slot })?;
    }
    Ok((rings, rows))
}

/// Rings and a slot for this number of threads, with the registry in the slot, and the passes of each
/// thread, by its number. Out of memory, the registry is dropped.
pub fn connect<W: Wait>(
    rt: &W,
    alloc: Global,
    registry: Registry,
    threads: u32,
) -> Result<(Wires, Vec<Passes>), OutOfMemory>
    requires some { 0 < threads }
    requires empty { registry.journal ≡ [] }
    ensures new { IfOk result (λ r. AreNew threads (start_of registry.setup) r.0 r.1.items) }
{
    let (slot, slots) = Slot::new(rt, alloc, registry, threads)?;
    let (rings, mut passes) = make_rings(alloc, threads, slots)?;
    transpose(passes.as_mut_slice());
    Ok((Wires { rings, slot }, passes))
}

// Ends a ring, whose receiver took of each sender, in order, what it put, up to some post.
fn end_ring(ring: Ring, take: TakePass, sends: Vec<SendPass>)
    requires take { take.ring ≡ ring.ring }
    requires all { vec_len sends ≡ take.senders }
    requires each { AreSendersOf ring.ring sends.items }
    ensures { IsDrained take.taken sends.items }
{
    let _settled = ring.settle(take, sends);
}

// The first, and the others.
fn first_and_rest<T>(mut list: Vec<T>) -> (T, Vec<T>)
    requires { 0 < vec_len list }
    ensures { list.items ≡ result.0 ∷ result.1.items }
{
    let first = list.remove(0);
    (first, list)
}

// Ends the rings and the slot, of each ring with its own passes.
fn end_rows<W: Wait>(rt: &W, wires: Wires, rows: Vec<Passes>) -> Registry
    requires some { 0 < vec_len rows }
    requires rows { AreRows wires rows.items }
    ensures drained { AreDrained rows.items }
    ensures journal { HasJournalOf rows.items result }
{
    let (ring, rings) = first_and_rest(wires.rings);
    let (first, rest) = first_and_rest(rows);
    end_ring(ring, first.take, first.sends);
    let mut settling = wires.slot.close(first.slot);
    for (ring, row) in rings.into_iter().zip(rest) {
        end_ring(ring, row.take, row.sends);
        settling.absorb(row.slot);
    }
    settling.finish(rt)
}

/// Ends all passes, and gives the registry. It takes no memory.
pub fn disconnect<W: Wait>(rt: &W, wires: Wires, mut passes: Vec<Passes>) -> Registry
    requires some { 0 < vec_len passes }
    requires linked { AreLinked (vec_len passes) wires passes.items }
    ensures delivered { AreDelivered passes.items }
    ensures journal { HasJournalOf passes.items result }
{
    transpose(passes.as_mut_slice());
    end_rows(rt, wires, passes)
}
