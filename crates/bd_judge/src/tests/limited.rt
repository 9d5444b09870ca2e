//! Limited devices by a clock that goes on by 250 microseconds with each turn: which requests pass, at which moments
//! and in which order, and what a removal does to those that wait.
use crate::tests::clocked::{Case, REACTOR, history};
use bd_base::{Act, Entry, Status, Token};
use bd_outside::StepClock;
use std::alloc::Global;
use std::sync::Wait;
use std::test::Fail;
use std::thread::Threads;

const REQUESTS: &str =
    ",{\"method\":\"bdev_set_qos_limit\",\"params\":{\"name\":\"M\",\"rw_ios_per_sec\":1000}}";

const MEGABYTE: &str =
    ",{\"method\":\"bdev_set_qos_limit\",\"params\":{\"name\":\"M\",\"rw_mbytes_per_sec\":1}}";

const BOTH: &str =
    ",{\"method\":\"bdev_set_qos_limit\",\"params\":{\"name\":\"M\",\"rw_ios_per_sec\":1000}},{\"method\":\"bdev_passthru_create\",\"params\":{\"base_bdev_name\":\"M\",\"name\":\"P\"}},{\"method\":\"bdev_set_qos_limit\",\"params\":{\"name\":\"P\",\"w_mbytes_per_sec\":8}}";

// A request that passed the limits of a device at a moment (microseconds).
#[derive(Clone, Copy, PartialEq, Eq, Debug)]
struct Pass {
    now: u64,
    dev: u32,
    thread: u32,
    seq: u64,
}

// The history of these jobs on this number of threads of one reactor.
fn played<'x, R: AllocGlobal + Threads + Wait + Sync>(
    rt: &R,
    commands: &'x str,
    jobs: &'x str,
    threads: &'x str,
) -> Result<Vec<Entry>, Fail> {
    let case = Case {
        commands,
        jobs,
        threads,
        drive: REACTOR,
    };
    history(rt, case, &StepClock::new(0, 250))
}

fn passes_of(alloc: Global, trace: &[Entry]) -> Result<Vec<Pass>, Fail> {
    let mut found = Vec::new(alloc);
    for entry in trace {
        if let Act::Let { req, dev, now } = &entry.act {
            found.push(Pass {
                now: *now,
                dev: dev.0,
                thread: req.thread,
                seq: req.seq,
            })?;
        }
    }
    Ok(found)
}

// The requests of others that came to a thread, in order, with the number of each.
fn came(alloc: Global, trace: &[Entry], to: u32) -> Result<Vec<(u32, u64)>, Fail> {
    let mut found = Vec::new(alloc);
    for entry in trace {
        if let Act::Took {
            what: Token::Request(req),
            ..
        } = &entry.act
        {
            if entry.thread == to && req.thread != to {
                found.push((req.thread, req.seq))?;
            }
        }
    }
    Ok(found)
}

fn count(trace: &[Entry], wanted: Status) -> usize {
    trace
        .iter()
        .filter(|entry| matches!(&entry.act, Act::Complete { status, .. } if *status == wanted))
        .count()
}

#[test]
fn requests_pass_by_slices(rt: HostRuntime) -> Result<(), Fail> {
    let alloc = rt.alloc();
    let jobs =
        "0 open h M w\n0 write h 0 1 1\n0 write h 1 1 1\n0 write h 2 1 1\n0 write h 3 1 1\n0 write h 4 1 1\n0 wait\n0 close h\n";
    let trace = played(&rt, REQUESTS, jobs, "1")?;
    let found = passes_of(alloc, trace.as_slice())?;
    for (seq, now) in [250, 1000, 2000, 3000, 4000].iter().enumerate() {
        let wanted = Pass {
            now: *now,
            dev: 0,
            thread: 0,
            seq: seq as u64,
        };
        assert!(rt; found.get(seq) == Some(&wanted), "{found:?}");
    }
    assert!(rt; count(trace.as_slice(), Status::Success) == 5);
    Ok(())
}

#[test]
fn an_overrun_is_paid_by_later_slices(rt: HostRuntime) -> Result<(), Fail> {
    let alloc = rt.alloc();
    // a slice brings 1,048 bytes: of 262,144 bytes 261,096 are overrun, which 250 slices pay
    let jobs = "0 open h M w\n0 write h 0 64 1\n0 write h 64 1 1\n0 wait\n0 close h\n";
    let trace = played(&rt, MEGABYTE, jobs, "1")?;
    let found = passes_of(alloc, trace.as_slice())?;
    assert!(rt; found.len() == 2, "{found:?}");
    assert!(rt; found.get(0).map(|p| p.now) == Some(250), "{found:?}");
    assert!(rt; found.get(1).map(|p| p.now) == Some(250_000), "{found:?}");
    Ok(())
}

#[test]
fn requests_pass_in_order_of_arrival(rt: HostRuntime) -> Result<(), Fail> {
    let alloc = rt.alloc();
    let mut jobs = String::new(alloc);
    for t in 1..4u32 {
        write!(
            jobs,
            "{t} open h M w\n{t} write h {t} 1 1\n{t} write h 9 1 1\n{t} read h {t} 1\n{t} wait\n{t} close h\n"
        )?;
    }
    let trace = played(&rt, REQUESTS, jobs.as_str(), "4")?;
    let found = passes_of(alloc, trace.as_slice())?;
    let arrived = came(alloc, trace.as_slice(), 0)?;
    assert!(rt; found.len() == 9, "{found:?}");
    for (place, one) in found.iter().enumerate() {
        assert!(rt;
            arrived.get(place) == Some(&(one.thread, one.seq)),
            "{found:?} {arrived:?}"
        );
    }
    assert!(rt; count(trace.as_slice(), Status::Success) == 9);
    Ok(())
}

#[test]
fn each_device_of_a_stack_is_passed_from_the_top_down(rt: HostRuntime) -> Result<(), Fail> {
    let alloc = rt.alloc();
    let jobs = "2 open h P w\n2 write h 0 4 1\n2 write h 4 4 1\n2 read h 0 1\n2 wait\n2 close h\n";
    let trace = played(&rt, BOTH, jobs, "3")?;
    let found = passes_of(alloc, trace.as_slice())?;
    // the passthru device has number 1, and counts writes alone
    for seq in 0..3u64 {
        let mut devices = Vec::new(alloc);
        for one in found.as_slice() {
            if one.seq == seq {
                devices.push(one.dev)?;
            }
        }
        let wanted: &[u32] = if seq == 2 { &[0] } else { &[1, 0] };
        assert!(rt; devices.as_slice() == wanted, "{found:?}");
    }
    assert!(rt; count(trace.as_slice(), Status::Success) == 3);
    Ok(())
}

#[test]
fn a_removal_empties_a_line(rt: HostRuntime) -> Result<(), Fail> {
    let alloc = rt.alloc();
    // the device's home is thread 0; those of thread 1 wait there as it is removed
    let jobs =
        "0 open g M w\n0 write g 5 1 1\n0 await full\n0 remove M\n0 wait\n1 open h M w\n1 write h 0 1 1\n1 write h 1 1 1\n1 write h 2 1 1\n1 post full\n1 wait\n";
    let trace = played(&rt, REQUESTS, jobs, "2")?;
    let found = passes_of(alloc, trace.as_slice())?;
    let aborted = count(trace.as_slice(), Status::Aborted);
    let succeeded = count(trace.as_slice(), Status::Success);
    assert!(rt; aborted > 0, "{found:?}");
    assert!(rt; aborted.saturating_add(succeeded) == 4, "{found:?}");
    assert!(rt; found.len() >= succeeded, "{found:?}");
    Ok(())
}
