//! Two threads by hand, in several orders of their turns, and driven by reactors and schedules. Bytes
//! and digests are by python.
ghost use Rattle.std.specs.Prelude.{◌≡◌, ◌<◌, ◌≤◌, length, IfOk, OnOk};
ghost use Rattle.bd_node.specs.Whole.{IsNode};
ghost use Rattle.bd_outside.specs.Memory.{memory_state};

use crate::tests::setups::{PLAIN, WRITE, WRITE_9, Word, count_of, long_setup, setup};
use bd_base::{Act, Entry, Op, OutOfMemory, Setup, Shown, Status};
use bd_disks::{Disks, Shelf};
use bd_node::{Drive, History, Node, NodeState, Outside, Played, play};
use bd_outside::{Gate, MemDisk, OpenGate, StillClock};
use bd_seat::SeatError;
use bd_thread::Turned;
use std::alloc::Global;
use std::process::Abort;
use std::sync::Wait;
use std::sync::atomic::{AtomicU64, Ordering};
use std::test::Fail;
use std::thread;
use std::thread::Threads;
use std::time::{Clock, Duration};

// Each thread writes a block and reads it.
const FIRST: [Word; 6] = [
    Word::Open("a", "Malloc0", true),
    Word::Submit("a", WRITE, 0, 1),
    Word::Wait,
    Word::Submit("a", Op::Read, 0, 1),
    Word::Wait,
    Word::Close("a"),
];

const SECOND: [Word; 6] = [
    Word::Open("b", "Malloc0", true),
    Word::Submit("b", WRITE_9, 1, 1),
    Word::Wait,
    Word::Submit("b", Op::Read, 1, 1),
    Word::Wait,
    Word::Close("b"),
];

// What the reads of thread 0 and of thread 1 show.
const SHOWN: [Shown; 2] = [
    Shown {
        first: [0x05, 0x0c, 0x13, 0x1a, 0x21, 0x28, 0x2f, 0x36],
        digest: [
            195, 113, 124, 245, 73, 221, 243, 114, 130, 104, 32, 204, 100, 74, 50, 144, 235, 147,
            78, 81, 239, 239, 67, 119, 100, 232, 22, 130, 93, 191, 215, 214,
        ],
    },
    Shown {
        first: [0x28, 0x2f, 0x36, 0x3d, 0x44, 0x4b, 0x52, 0x59],
        digest: [
            92, 251, 2, 9, 85, 57, 242, 136, 224, 17, 129, 10, 253, 13, 14, 72, 106, 184, 202, 155,
            178, 35, 52, 255, 49, 244, 152, 158, 202, 164, 155, 105,
        ],
    },
];

// Orders in which the two threads have their turns, over and over.
const ORDERS: [[u32; 4]; 6] = [
    [0, 1, 0, 1],
    [1, 0, 1, 0],
    [0, 0, 1, 1],
    [0, 0, 0, 1],
    [1, 1, 1, 0],
    [0, 1, 1, 0],
];

// Who drives them.
const DRIVES: [Drive; 7] = [
    Drive::Schedule(0),
    Drive::Schedule(1),
    Drive::Schedule(7),
    Drive::Schedule(u64::MAX),
    Drive::Reactors(1),
    Drive::Reactors(2),
    Drive::Reactors(8),
];

// More rounds than any order needs.
const ROUNDS: u32 = 100;

// This number of threads, of which the first two write and read.
fn two_writers(alloc: Global, threads: u32) -> Result<Setup, OutOfMemory>
    ensures { IfOk result (λ setup. 0 < setup.threads) }
{
    setup(alloc, threads, PLAIN, &[&FIRST, &SECOND])
}

// ---- nodes without disks

// The disks of threads of which none has any.
fn no_disks(alloc: Global, threads: u32) -> Result<Shelf<MemDisk>, OutOfMemory>
    ensures many { IfOk result (λ shelf. length shelf.items ≡ threads) }
    ensures room { IfOk result (λ shelf. threads ≤ shelf.capacity) }
{
    let mut shelf = Shelf::with_room(alloc, threads as usize)?;
    for _ in 0..threads {
        shelf.put(Disks::new(alloc));
    }
    Ok(shelf)
}

pub(crate) fn drop_disks(shelf: Shelf<MemDisk>) {
    let mut left = shelf;
    while let Some(disks) = left.take() {
        disks.finish();
    }
    left.end();
}

pub(crate) fn node_of<'a, R: Wait>(
    rt: &R,
    alloc: Global,
    setup: &'a Setup,
) -> Result<Node<'a, MemDisk>, OutOfMemory>
    requires { 0 < setup.now.threads }
    ensures { IfOk result (IsNode memory_state) }
{
    let shelf = no_disks(alloc, setup.threads)?;
    match Node::build(rt, alloc, setup, shelf, 0) {
        Ok(node) => Ok(node),
        Err((error, shelf)) => {
            drop_disks(shelf);
            Err(error)
        }
    }
}

fn played<R: Threads + Wait + Sync, G: Gate + Sync>(
    rt: &R,
    alloc: Global,
    setup: &Setup,
    drive: Drive,
    gate: &G,
) -> Result<History, OutOfMemory>
    requires { 0 < setup.now.threads }
{
    let shelf = no_disks(alloc, setup.threads)?;
    let clock = StillClock::new(0);
    let outside = Outside {
        clock: &clock,
        gate,
    };
    let (played, shelf) = play(rt, alloc, setup, shelf, drive, &outside);
    drop_disks(shelf);
    let Played { history, stats: _ } = played?;
    Ok(history)
}

// ---- what they did

// How many requests completed with success.
fn succeeded(entries: &[Entry]) -> usize {
    entries.iter().filter(|entry| succeeds(&entry.act)).count()
}

fn succeeds(act: &Act) -> bool {
    match act {
        Act::Complete { status, .. } => *status == Status::Success,
        _ => false,
    }
}

// Whether a read of the thread showed this.
fn shows(entries: &[Entry], thread: u32, expected: &Shown) -> bool {
    entries.iter().any(|entry| entry.thread == thread && is_shown(&entry.act, expected))
}

fn is_shown(act: &Act, expected: &Shown) -> bool {
    match act {
        Act::Complete {
            shown: Some(shown),
            ..
        } => *shown == *expected,
        _ => false,
    }
}

// Whether both wrote and read what their scripts say.
fn are_both_done(entries: &[Entry]) -> bool {
    succeeded(entries) == 4 && shows(entries, 0, &SHOWN[0]) && shows(entries, 1, &SHOWN[1])
}

// ---- turns in an order

fn turns<R: Wait>(rt: &R, node: &mut Node<MemDisk>, order: &[u32]) -> Result<(), SeatError>
    requires { IsNode memory_state node.old }
    ensures { OnOk result (IsNode memory_state node.new) }
{
    for thread in order {
        node.turn_of(rt, *thread, &StillClock::new(0))?;
    }
    Ok(())
}

// Turns in this order, over and over, with a Shutdown once the scripts are blocked, until all is over, if the
// order brings it so far.
fn play_by<R: Wait>(rt: &R, node: &mut Node<MemDisk>, order: &[u32]) -> Result<(), SeatError>
    requires { IsNode memory_state node.old }
    ensures { OnOk result (IsNode memory_state node.new) }
{
    for _ in 0..ROUNDS {
        if node.state() == NodeState::Idle {
            node.shut(rt)?;
        }
        turns(rt, node, order)?;
    }
    Ok(())
}

fn history_by<R: Wait>(
    rt: &R,
    alloc: Global,
    setup: &Setup,
    order: &[u32],
) -> Result<Option<History>, OutOfMemory>
    requires { 0 < setup.now.threads }
{
    let mut node = node_of(rt, alloc, setup)?;
    let played = play_by(rt, &mut node, order).is_ok();
    if !played || node.state() != NodeState::Done {
        drop_disks(node.abandon());
        return Ok(None);
    }
    let (settled, shelf) = node.settle(rt);
    drop_disks(shelf);
    let Played { history, stats: _ } = settled?;
    Ok(Some(history))
}

// Whether both are done, by this order.
fn are_done_by<R: Wait>(
    rt: &R,
    alloc: Global,
    setup: &Setup,
    order: &[u32],
) -> Result<bool, OutOfMemory>
    requires { 0 < setup.now.threads }
{
    let history = history_by(rt, alloc, setup, order)?;
    match &history {
        Some(history) => Ok(are_both_done(history.entries())),
        None => Ok(false),
    }
}

#[test]
fn two_threads_write_and_read_in_any_order(rt: HostRuntime) -> Result<(), Fail> {
    let setup = two_writers(rt.alloc(), 2)?;
    for order in &ORDERS {
        let done = are_done_by(&rt, rt.alloc(), &setup, order)?;
        assert!(rt; done, "order {order:?}");
    }
    Ok(())
}

#[test]
fn however_driven_they_come_to_the_end(rt: HostRuntime) -> Result<(), Fail> {
    let setup = two_writers(rt.alloc(), 2)?;
    for drive in &DRIVES {
        let history = played(&rt, rt.alloc(), &setup, *drive, &OpenGate)?;
        assert!(rt; are_both_done(history.entries()), "drive {drive:?}");
    }
    Ok(())
}

// ---- the generator of schedules

// Which threads the first twelve turns of a schedule are, by python: its seed, its threads, and those of the turns.
const TURNS: [(u64, &[u32], [u32; 12]); 2] = [
    (1, &[0, 1], [0, 1, 0, 0, 0, 1, 0, 0, 1, 0, 1, 0]),
    (0, &[0, 1, 2], [2, 0, 1, 1, 2, 2, 2, 2, 0, 0, 1, 0]),
];

// The threads of the registry's events, in their order.
fn askers(alloc: Global, entries: &[Entry]) -> Result<Vec<u32>, OutOfMemory> {
    let mut threads = Vec::new(alloc);
    for entry in entries {
        if matches!(entry.act, Act::Reg { .. }) {
            threads.push(entry.thread)?;
        }
    }
    Ok(threads)
}

// Whether the first events of the registry are of these turns, eight in each.
fn are_asked_by(rt: &impl Abort, askers: &[u32], turns: &[u32]) {
    assert!(rt; askers.len() >= 96);
    for (number, asker) in askers.iter().enumerate() {
        if let Some(thread) = turns.get(number / 8) {
            assert!(rt; asker == thread, "event {number}");
        }
    }
}

fn history_of_askers<R: Threads + Wait + Sync>(
    rt: &R,
    alloc: Global,
    seed: u64,
    threads: &[u32],
) -> Result<History, OutOfMemory> {
    let word = Word::Open("h", "Nobody", false);
    let setup = long_setup(alloc, count_of(threads.len()), threads, word, word, 99)?;
    played(rt, alloc, &setup, Drive::Schedule(seed), &OpenGate)
}

// Each thread opens devices that there aren't, for which it asks the registry once a line, eight lines in a turn.
#[test]
fn schedule_is_the_generators(rt: HostRuntime) -> Result<(), Fail> {
    for (seed, threads, turns) in &TURNS {
        let history = history_of_askers(&rt, rt.alloc(), *seed, threads)?;
        let askers = askers(rt.alloc(), history.entries())?;
        are_asked_by(&rt, askers.as_slice(), turns);
    }
    Ok(())
}

// ---- reactors beside each other

// A gate at which all reactors wait for each other before their first turns of the first round, for ten seconds
// at most.
#[derive(Drop)]
struct MeetGate<'a, R> {
    rt: &'a R,
    // how many reactors there are, and how many of them came
    reactors: u64,
    came: AtomicU64,
    // how many of them saw all there
    met: AtomicU64,
}

impl<'a, R: Clock> Gate for MeetGate<'a, R> {
    fn pass(&self, _reactor: u32, round: u64, turn: u32) {
        if round != 1 || turn != 1 {
            return;
        }
        self.came.fetch_add(1, Ordering::SeqCst);
        for _ in 0..10_000 {
            if self.came.load(Ordering::SeqCst) == self.reactors {
                self.met.fetch_add(1, Ordering::SeqCst);
                return;
            }
            thread::sleep(self.rt, Duration::from_millis(1));
        }
    }
}

// Numbers of threads, of reactors that are asked for, and of those that have threads.
const CREWS: [(u32, u32, u64); 5] = [(2, 2, 2), (4, 2, 2), (5, 4, 3), (7, 3, 3), (2, 8, 2)];

// The first turns of reactors are of the threads 0, 1 and on. Where one thread of the system had two of these,
// the second would wait until the first had gone on, which waits for the second.
#[test]
fn reactors_meet(rt: HostRuntime) -> Result<(), Fail> {
    for (threads, asked, reactors) in &CREWS {
        let setup = two_writers(rt.alloc(), *threads)?;
        let gate = MeetGate {
            rt: &rt,
            reactors: *reactors,
            came: AtomicU64::new(0),
            met: AtomicU64::new(0),
        };
        let history = played(&rt, rt.alloc(), &setup, Drive::Reactors(*asked), &gate)?;
        let met = gate.met.load(Ordering::SeqCst);
        assert_eq!(rt; met, *reactors, "{asked} reactors, {threads} threads");
        assert!(rt; are_both_done(history.entries()));
    }
    Ok(())
}

// ---- queues that are full

/// How many entries a turn added.
pub(crate) fn added(turned: Turned) -> usize {
    match turned {
        Turned::Moved(count) => count,
        Turned::Quiet => 0,
    }
}

// `count` turns of thread 1: how many entries they added in all.
fn turns_alone<R: Wait>(rt: &R, node: &mut Node<MemDisk>, count: u32) -> Result<usize, SeatError>
    requires { IsNode memory_state node.old }
    ensures { OnOk result (IsNode memory_state node.new) }
{
    let mut entries: usize = 0;
    for _ in 0..count {
        let turned = node.turn_of(rt, 1, &StillClock::new(0))?;
        entries = entries.saturating_add(added(turned));
    }
    Ok(entries)
}

// Turns of thread 1 alone, and how many entries they added; then a last one, one of thread 0, and two of thread 1
// again.
fn flood<R: Wait>(rt: &R, node: &mut Node<MemDisk>) -> Result<(usize, [Turned; 4]), SeatError>
    requires { IsNode memory_state node.old }
{
    let entries = turns_alone(rt, node, ROUNDS * 3)?;
    let clock = StillClock::new(0);
    let stuck = node.turn_of(rt, 1, &clock)?;
    let taken = node.turn_of(rt, 0, &clock)?;
    let moved = node.turn_of(rt, 1, &clock)?;
    let put = node.turn_of(rt, 1, &clock)?;
    Ok((entries, [stuck, taken, moved, put]))
}

fn flooded<R: Wait>(rt: &R, alloc: Global, setup: &Setup) -> Result<(usize, [Turned; 4]), SeatError>
    requires { 0 < setup.now.threads }
{
    let mut node = node_of(rt, alloc, setup)?;
    let found = flood(rt, &mut node);
    drop_disks(node.abandon());
    found
}

// Thread 1 posts a mark in each of 2,100 lines. 2,048 marks to thread 0 have room, in its ring and in thread 1's
// queue to it: 2,100 lines are done, and 2,048 marks put to thread 0, put to thread 1 itself, and taken there.
// Thread 0 takes all that is in its ring, and does eight of them; then what is in the queue goes into the ring, and
// in the turn after that the last 52 are put, and with each the one to thread 1 itself.
#[test]
fn what_is_to_be_put_waits_for_room(rt: HostRuntime) -> Result<(), Fail> {
    let post = Word::Post("m");
    let setup = long_setup(rt.alloc(), 2, &[1], post, post, 2099)?;
    let (entries, turns) = flooded(&rt, rt.alloc(), &setup)?;
    assert_eq!(rt; entries, 2100 + 3 * 2048);
    let [stuck, taken, moved, put] = turns;
    assert!(rt; stuck == Turned::Quiet);
    assert!(rt; taken == Turned::Moved(8));
    assert!(rt; moved == Turned::Quiet);
    assert!(rt; put == Turned::Moved(104));
    Ok(())
}

// ---- requests that wait for room

// Turns of thread 1 alone: how many entries they added, and the answer of a last one.
fn crowd<R: Wait>(rt: &R, node: &mut Node<MemDisk>) -> Result<(usize, Turned), SeatError>
    requires { IsNode memory_state node.old }
{
    let entries = turns_alone(rt, node, ROUNDS * 2)?;
    let last = node.turn_of(rt, 1, &StillClock::new(0))?;
    Ok((entries, last))
}

fn crowded<R: Wait>(rt: &R, alloc: Global, setup: &Setup) -> Result<(usize, Turned), SeatError>
    requires { 0 < setup.now.threads }
{
    let mut node = node_of(rt, alloc, setup)?;
    let found = crowd(rt, &mut node);
    drop_disks(node.abandon());
    found
}

// Thread 1 opens the device, whose home is thread 0, which is two events of the registry and the line's end; and
// reads a block in each of 1,030 lines. Of each read that has room there are four entries: it is accepted, its line
// ends, it is cut, and its piece is put.
#[test]
fn a_thread_has_1024_open_requests_at_most(rt: HostRuntime) -> Result<(), Fail> {
    let open = Word::Open("a", "Malloc0", true);
    let read = Word::Submit("a", Op::Read, 0, 1);
    let setup = long_setup(rt.alloc(), 2, &[1], open, read, 1030)?;
    let (entries, last) = crowded(&rt, rt.alloc(), &setup)?;
    assert_eq!(rt; entries, 3 + 4 * 1024);
    assert!(rt; last == Turned::Quiet);
    let history = played(&rt, rt.alloc(), &setup, Drive::Reactors(2), &OpenGate)?;
    assert_eq!(rt; succeeded(history.entries()), 1030);
    Ok(())
}
