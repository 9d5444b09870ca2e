//! Sleeps, delays and drain times by a clock that goes on, or back, by a step with each turn.
use crate::tests::clocked::{Case, REACTOR, history};
use bd_base::{Act, Entry, Status};
use bd_outside::{Clock, StepClock};
use std::alloc::Global;
use std::sync::Wait;
use std::test::Fail;
use std::thread::Threads;

const DELAY: &str =
    ",{\"method\":\"bdev_delay_create\",\"params\":{\"base_bdev_name\":\"M\",\"name\":\"D\",\"avg_read_latency\":1000,\"p99_read_latency\":1000,\"avg_write_latency\":0,\"p99_write_latency\":0}}";

const NINETY_NINE: &str =
    ",{\"method\":\"bdev_delay_create\",\"params\":{\"base_bdev_name\":\"M\",\"name\":\"D\",\"avg_read_latency\":0,\"p99_read_latency\":1000000,\"avg_write_latency\":0,\"p99_write_latency\":0}}";

const HANGS: &str =
    ",{\"method\":\"bdev_error_create\",\"params\":{\"base_name\":\"M\"}},{\"method\":\"bdev_error_inject_error\",\"params\":{\"name\":\"EE_M\",\"io_type\":\"read\",\"error_type\":\"pending\"}}";

// How long a turn by this clock takes, in microseconds.
const STEP: u64 = 250;

// The moments until which requests were held, in order, and those at which they were released.
fn held(alloc: Global, trace: &[Entry]) -> Result<(Vec<u64>, Vec<u64>), Fail> {
    let mut until = Vec::new(alloc);
    let mut released = Vec::new(alloc);
    for entry in trace {
        match &entry.act {
            Act::Hold { until: moment, .. } => until.push(*moment)?,
            Act::Release { now, .. } => released.push(*now)?,
            _ => {}
        }
    }
    Ok((until, released))
}

// The moments until which soft marks lasted, in order, and those at which they became hard.
fn softened(alloc: Global, trace: &[Entry]) -> Result<(Vec<u64>, Vec<u64>), Fail> {
    let mut until = Vec::new(alloc);
    let mut hardened = Vec::new(alloc);
    for entry in trace {
        match &entry.act {
            Act::Grace { until: moment, .. } => until.push(*moment)?,
            Act::Due { now, .. } => hardened.push(*now)?,
            _ => {}
        }
    }
    Ok((until, hardened))
}

// How many requests ended with this status.
fn ended(trace: &[Entry], status: Status) -> usize {
    let mut count = 0usize;
    for entry in trace {
        if matches!(&entry.act, Act::Complete { status: with, .. } if *with == status) {
            count = count.saturating_add(1);
        }
    }
    count
}

// How many turns a run of these jobs takes on one thread of a reactor.
fn turns<R: AllocGlobal + Threads + Wait + Sync>(
    rt: &R,
    jobs: &str,
    drive: (&str, &str),
) -> Result<u64, Fail> {
    let clock = StepClock::new(0, STEP);
    let case = Case {
        commands: "",
        jobs,
        threads: "1",
        drive,
    };
    let _trace = history(rt, case, &clock)?;
    Ok(clock.now() / STEP)
}

#[test]
fn a_read_is_held_for_its_latency(rt: HostRuntime) -> Result<(), Fail> {
    let alloc = rt.alloc();
    // it is accepted at 0, served at 250, and back at 500
    let case = Case {
        commands: DELAY,
        jobs: "0 open h D w\n0 read h 0 1\n0 wait\n0 write h 0 1 1\n0 wait\n0 close h\n",
        threads: "1",
        drive: REACTOR,
    };
    let trace = history(&rt, case, &StepClock::new(0, STEP))?;
    let (until, released) = held(alloc, trace.as_slice())?;
    assert!(rt; until.as_slice().first() == Some(&1500), "{until:?}");
    assert!(rt; released.as_slice().first() == Some(&1500), "{released:?}");
    // a write of no latency is released in the turn in which it is held
    assert!(rt;
        until.len() == 2 && until.as_slice().last() == released.as_slice().last(),
        "{until:?} {released:?}"
    );
    Ok(())
}

#[test]
fn the_hundredth_read_waits_longer(rt: HostRuntime) -> Result<(), Fail> {
    let alloc = rt.alloc();
    let mut jobs = String::new(alloc);
    write!(jobs, "0 open h D r\n")?;
    for block in 0..101u32 {
        write!(jobs, "0 read h {block} 1\n")?;
    }
    write!(jobs, "0 wait\n0 close h\n")?;
    let case = Case {
        commands: NINETY_NINE,
        jobs: jobs.as_str(),
        threads: "1",
        drive: REACTOR,
    };
    let trace = history(&rt, case, &StepClock::new(0, STEP))?;
    let (until, _released) = held(alloc, trace.as_slice())?;
    assert!(rt; until.len() == 101, "{until:?}");
    for (place, moment) in until.iter().enumerate() {
        assert!(rt;
            (*moment >= 1_000_000) == (place == 99),
            "{place} {until:?}"
        );
    }
    Ok(())
}

#[test]
fn a_drain_time_lasts_from_the_visit_on(rt: HostRuntime) -> Result<(), Fail> {
    let alloc = rt.alloc();
    // the reset begins at 0, and its walk comes at 250
    let case = Case {
        commands: HANGS,
        jobs: "0 open h EE_M w\n0 read h 0 1\n0 reset h 1000\n0 wait\n0 close h\n",
        threads: "1",
        drive: REACTOR,
    };
    let trace = history(&rt, case, &StepClock::new(0, STEP))?;
    let (until, hardened) = softened(alloc, trace.as_slice())?;
    assert!(rt;
        until.len() == 1 && until.as_slice().first() == Some(&1250),
        "{until:?}"
    );
    assert!(rt;
        hardened.len() == 1 && hardened.as_slice().first() == Some(&1250),
        "{hardened:?}"
    );
    let aborted = ended(trace.as_slice(), Status::Aborted);
    let done = ended(trace.as_slice(), Status::Success);
    assert!(rt; aborted == 1 && done == 1, "{aborted} {done}");
    Ok(())
}

#[test]
fn what_ends_within_a_drain_time_is_not_aborted(rt: HostRuntime) -> Result<(), Fail> {
    let alloc = rt.alloc();
    // the read is held from 500 to 1500
    let case = Case {
        commands: DELAY,
        jobs: "0 open h D r\n0 read h 0 1\n0 reset h 5000\n0 wait\n0 close h\n",
        threads: "1",
        drive: REACTOR,
    };
    let trace = history(&rt, case, &StepClock::new(0, STEP))?;
    let (until, hardened) = softened(alloc, trace.as_slice())?;
    assert!(rt;
        until.len() == 1 && until.as_slice().first() == Some(&5250),
        "{until:?}"
    );
    assert!(rt; hardened.len() == 0, "{hardened:?}");
    let (_until, released) = held(alloc, trace.as_slice())?;
    assert!(rt; released.as_slice().first() == Some(&1500), "{released:?}");
    let done = ended(trace.as_slice(), Status::Success);
    assert!(rt; done == 2, "{done}");
    Ok(())
}

#[test]
fn a_sleep_lasts_until_its_moment(rt: HostRuntime) -> Result<(), Fail> {
    let none = turns(&rt, "0 post a\n", REACTOR)?;
    let zero = turns(&rt, "0 sleep 0\n0 post a\n", REACTOR)?;
    let one = turns(&rt, "0 sleep 1\n0 post a\n", REACTOR)?;
    let whole = turns(&rt, "0 sleep 1000\n0 post a\n", REACTOR)?;
    assert!(rt; zero == none, "{none} {zero}");
    assert!(rt; one > none, "{none} {one}");
    assert!(rt; whole >= one.saturating_add(3), "{one} {whole}");
    Ok(())
}

#[test]
fn the_clock_is_asked_once_a_turn(rt: HostRuntime) -> Result<(), Fail> {
    // a round by a schedule has 256 turns
    for seed in ["1", "2", "3"] {
        let turns = turns(&rt, "0 sleep 5000\n0 post a\n", ("--schedule", seed))?;
        assert!(rt; turns > 0 && turns % 256 == 0, "{turns}");
    }
    Ok(())
}

#[test]
fn a_clock_that_goes_back_stands_still(rt: HostRuntime) -> Result<(), Fail> {
    let alloc = rt.alloc();
    let case = Case {
        commands: DELAY,
        jobs: "0 open h D r\n0 read h 0 1\n0 wait\n0 close h\n",
        threads: "1",
        drive: REACTOR,
    };
    // 10,000 at first, and 100 less each time, until it would pass 0
    let trace = history(&rt, case, &StepClock::new(10_000, u64::MAX - 99))?;
    let (until, released) = held(alloc, trace.as_slice())?;
    assert!(rt;
        until.len() == 1 && until.as_slice().first() == Some(&11_000),
        "{until:?}"
    );
    assert!(rt; released.len() == 1, "{released:?}");
    for moment in released.as_slice() {
        assert!(rt; *moment >= 11_000, "{released:?}");
    }
    Ok(())
}
