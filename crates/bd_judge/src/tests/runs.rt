//! The histories of whole runs over files in memory, judged. Guards are worked out by hand from the
//! machine's table.
use crate::judging::{Verdict, judge};
use crate::tests::outside::{FIRST, ran};
use crate::tests::setups::{PLAIN, WRITE, WRITE_9, Word, count_of, setup};
use bd_base::{Act, ClaimKind, Entry, Fill, Op, OutOfMemory, RegEvent};
use bd_machine::guard::OUTCOME_DUE;
use bd_outside::MemSink;
use std::alloc::Global;
use std::sync::Wait;
use std::test::Fail;
use std::thread::Threads;

const FIRST_WORDS: [Word; 6] = [
    Word::Open("h", "Malloc0", true),
    Word::Submit("h", WRITE, 0, 1),
    Word::Wait,
    Word::Submit("h", Op::Read, 0, 1),
    Word::Wait,
    Word::Close("h"),
];

const WRITE_1: Op = Op::Write(Fill {
    seed: 1,
    flip: false,
});

// Refusals of every kind, and a handle that is left open.
const REFUSALS: &str =
    "0 open h Malloc0 r\n0 open h Malloc0 w\n0 open k Malloc1 r\n0 read k 0 1\n0 close k\n0 write h 0 1 1\n0 read h 64 1\n0 read h 63 1\n";

const REFUSALS_WORDS: [Word; 8] = [
    Word::Open("h", "Malloc0", false),
    Word::Open("h", "Malloc0", true),
    Word::Open("k", "Malloc1", false),
    Word::Submit("k", Op::Read, 0, 1),
    Word::Close("k"),
    Word::Submit("h", WRITE_1, 0, 1),
    Word::Submit("h", Op::Read, 64, 1),
    Word::Submit("h", Op::Read, 63, 1),
];

// Each thread writes a block and tells the other.
const BOTH: &str =
    "0 open h Malloc0 w\n0 write h 0 1 5\n0 wait\n0 post x\n0 await y\n1 open k Malloc0 w\n1 write k 1 1 9\n1 wait\n1 post y\n1 await x\n";

const BOTH_WORDS: [&[Word]; 2] = [
    &[
        Word::Open("h", "Malloc0", true),
        Word::Submit("h", WRITE, 0, 1),
        Word::Wait,
        Word::Post("x"),
        Word::Await("y"),
    ],
    &[
        Word::Open("k", "Malloc0", true),
        Word::Submit("k", WRITE_9, 1, 1),
        Word::Wait,
        Word::Post("y"),
        Word::Await("x"),
    ],
];

// Two readers share a claim, another key and a writer are refused, and one handle is left open.
const CLAIMS: &str =
    "0 open a Malloc0 r\n0 claim a shared 7\n0 post x\n0 await y\n0 open c Malloc0 w\n0 close a\n0 open a Malloc0 r\n0 close a\n1 await x\n1 open b Malloc0 r\n1 claim b shared 8\n1 claim b shared 7\n1 write b 1 1 9\n1 wait\n1 post y\n";

const CLAIMS_WORDS: [&[Word]; 2] = [
    &[
        Word::Open("a", "Malloc0", false),
        Word::Claim("a", ClaimKind::Shared(7)),
        Word::Post("x"),
        Word::Await("y"),
        Word::Open("c", "Malloc0", true),
        Word::Close("a"),
        Word::Open("a", "Malloc0", false),
        Word::Close("a"),
    ],
    &[
        Word::Await("x"),
        Word::Open("b", "Malloc0", false),
        Word::Claim("b", ClaimKind::Shared(8)),
        Word::Claim("b", ClaimKind::Shared(7)),
        Word::Submit("b", WRITE_9, 1, 1),
        Word::Wait,
        Word::Post("y"),
    ],
];

// The history of the run of a script with these options; empty where the run has a fault.
fn history<R: AllocGlobal + Threads + Wait + Sync>(
    rt: &R,
    script: &str,
    options: &[&str],
    out: &mut MemSink,
) -> Result<Vec<Entry>, Fail> {
    match ran(rt, options, script, &[], out)? {
        Ok(ran) => Ok(ran.trace.into_rows().into_vec()),
        Err(_) => Ok(Vec::new(rt.alloc())),
    }
}

// What is said of a history of these words, on as many threads.
fn verdict(alloc: Global, words: &[&[Word]], trace: &[Entry]) -> Result<Verdict, OutOfMemory> {
    let setup = setup(alloc, count_of(words.len()), PLAIN, words)?;
    judge(alloc, &setup, trace)
}

// A script, its words by thread, and the options of the run.
const COMPLETE: [(&str, &[&[Word]], &[&str]); 12] = [
    (FIRST, &[&FIRST_WORDS], &["c", "j"]),
    (FIRST, &[&FIRST_WORDS], &["c", "j", "--schedule", "0"]),
    (REFUSALS, &[&REFUSALS_WORDS], &["c", "j"]),
    ("", &[&[]], &["c", "j"]),
    (
        "",
        &[&[], &[], &[]],
        &["c", "j", "--threads", "3", "--reactors", "8"],
    ),
    (BOTH, &BOTH_WORDS, &["c", "j", "--threads", "2"]),
    (
        BOTH,
        &BOTH_WORDS,
        &["c", "j", "--reactors", "2", "--threads", "2"],
    ),
    (
        BOTH,
        &BOTH_WORDS,
        &["c", "j", "--threads", "2", "--schedule", "0"],
    ),
    (
        BOTH,
        &BOTH_WORDS,
        &["c", "j", "--schedule", "7", "--threads", "2"],
    ),
    (CLAIMS, &CLAIMS_WORDS, &["c", "j", "--threads", "2"]),
    (
        CLAIMS,
        &CLAIMS_WORDS,
        &["c", "j", "--threads", "2", "--reactors", "2"],
    ),
    (
        CLAIMS,
        &CLAIMS_WORDS,
        &["c", "j", "--schedule", "7", "--threads", "2"],
    ),
];

fn judged<R: AllocGlobal + Threads + Wait + Sync>(
    rt: &R,
    (script, words, options): (&str, &[&[Word]], &[&str]),
) -> Result<Verdict, Fail> {
    let mut out = MemSink::new(rt.alloc(), 10_000)?;
    let trace = history(rt, script, options, &mut out)?;
    Ok(verdict(rt.alloc(), words, trace.as_slice())?)
}

#[test]
fn histories_of_runs_are_complete(rt: HostRuntime) -> Result<(), Fail> {
    for row in &COMPLETE {
        let judged = judged(&rt, *row)?;
        assert!(rt; judged == Verdict::Complete, "{}: {judged:?}", row.0);
    }
    Ok(())
}

// The history of the first script's run.
fn first_history<R: AllocGlobal + Threads + Wait + Sync>(rt: &R) -> Result<Vec<Entry>, Fail> {
    let mut out = MemSink::new(rt.alloc(), 10_000)?;
    history(rt, FIRST, &["c", "j"], &mut out)
}

fn is_told(act: &Act) -> bool {
    matches!(
        act,
        Act::Reg {
            event: RegEvent::Destructed { .. },
            ..
        }
    )
}

// The last entry tells the registry that the device was destructed: without it the run isn't over.
#[test]
fn without_its_end_a_run_is_unfinished(rt: HostRuntime) -> Result<(), Fail> {
    let trace = first_history(&rt)?;
    let Some((last, others)) = trace.split_last() else {
        return Err("no history")?;
    };
    assert!(rt; is_told(&last.act));
    let judged = verdict(rt.alloc(), &[&FIRST_WORDS], others);
    assert!(rt; judged == Ok(Verdict::Unfinished), "{judged:?}");
    Ok(())
}

// Without the completion of the write, the wait of line 3 is done while a request is open.
#[test]
fn without_a_completion_a_wait_is_not_due(rt: HostRuntime) -> Result<(), Fail> {
    let mut trace = first_history(&rt)?;
    let completed = trace
        .iter()
        .find(|entry| matches!(entry.act, Act::Complete { .. }))
        .map_or(0, |entry| entry.stamp);
    let waited = trace
        .iter()
        .find(|entry| matches!(entry.act, Act::Script { line: 3, .. }))
        .map_or(0, |entry| entry.stamp);
    trace.retain(|entry| entry.stamp != completed);
    let judged = verdict(rt.alloc(), &[&FIRST_WORDS], trace.as_slice());
    let expected = Verdict::Illegal {
        guard: OUTCOME_DUE,
        stamp: waited,
    };
    assert!(rt; judged == Ok(expected), "{judged:?}");
    Ok(())
}
