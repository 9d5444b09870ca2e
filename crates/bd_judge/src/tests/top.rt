//! The whole call over files and output in memory: what the program's own tests can't bring about.
//! Expected digests, and which thread a schedule begins with, were computed by another program,
//! from the rules alone.
use crate::tests::outside::{FIRST, disk_host, ran, ran_on};
use bd_outside::{MemHost, MemSink};
use bd_top::Fault;
use std::alloc::Global;
use std::test::Fail;

const REPORT: &str =
    "job 1 0 open ok\njob 2 0 write success\njob 3 0 wait ok\njob 4 0 read success first 050c131a21282f36 sha256 c3717cf549ddf372826820cc644a3290eb934e51efef437764e816825dbfd7d6\njob 5 0 wait ok\njob 6 0 close ok\nthread 0 accepted 2 success 2 failed 0 aborted 0 refused 0\ndevice Malloc0 malloc blocks 64 size 512 reads 1 writes 1 read_bytes 512 write_bytes 512 sha256 86cd2c9acac57ea80bb89b887b62a568aafde3fb8899d022955e70b6d97f57c6\nend accepted 2 success 2 failed 0 aborted 0\n";

// Each of the two threads has something to do at its first turn.
const TWO_OPENS: &str = "0 open a Malloc0 w\n0 close a\n1 open b Malloc0 w\n1 close b\n";

// The outside's failures: the host's call that fails (0: none), the room of the output, the words
// after `run`, the fault's line and status, and what was written before.
const OUTSIDE: [(u64, u64, [&str; 2], &[u8], &[u8]); 8] = [
    (0, 10, ["c", "j"], b"write fault, status 3", b"job 1 0 op"),
    (0, 0, ["c", "j"], b"write fault, status 3", b""),
    (1, 100, ["c", "j"], b"read fault: c, status 3", b""),
    (2, 100, ["c", "j"], b"read fault: c, status 3", b""),
    (3, 100, ["c", "j"], b"read fault: j, status 3", b""),
    (1, 100, ["j", "x"], b"read fault: j, status 3", b""),
    (
        0,
        100,
        ["j", "x"],
        b"configuration is not JSON, status 1",
        b"",
    ),
    (0, 10, ["e", "n"], b"write fault, status 3", b"end accept"),
];

#[test]
fn faults_of_the_outside(rt: HostRuntime) -> Result<(), Fail> {
    let alloc = rt.alloc();
    for row in &OUTSIDE {
        let (call, room, words, line, text) = *row;
        let mut out = MemSink::new(alloc, room)?;
        let fault = match ran(&rt, &words, FIRST, &[call], &mut out)? {
            Ok(_) => String::new(alloc),
            Err(fault) => format!(in alloc; "{fault}, status {}", fault.status())?,
        };
        assert!(rt; fault.as_bytes() == line, "{fault}");
        assert!(rt; out.bytes() == text, "{fault}");
    }
    Ok(())
}

// With ample memory the report is written whole. Where one allocation fails (`rt try --test
// --fail-alloc N`), the run still ends with its whole report, or says that memory is missing and
// wrote nothing. A test that has no memory for its own files fails by `AllocFailed`, which says
// nothing of the run.
#[test]
fn first_path_or_out_of_memory(rt: HostRuntime) -> Result<(), Fail> {
    let alloc = rt.alloc();
    let mut out = MemSink::new(alloc, 10_000)?;
    match ran(&rt, &["c", "j"], FIRST, &[], &mut out)? {
        Ok(_) => assert!(rt; out.bytes() == REPORT.as_bytes()),
        Err(fault) => {
            assert!(rt; matches!(fault, Fault::OutOfMemory));
            assert!(rt; out.bytes().is_empty());
        }
    }
    Ok(())
}

// With x = (the seed * 6364136223846793005 + 1442695040888963407) mod 2^64, the first turn is that
// of thread (x >> 33) mod 2.
const FIRST_THREADS: [(&str, u32); 9] = [
    ("0", 1),
    ("1", 0),
    ("2", 0),
    ("3", 1),
    ("4", 0),
    ("6", 1),
    ("9", 1),
    ("11", 0),
    ("18446744073709551615", 0),
];

#[test]
fn a_schedule_says_who_begins(rt: HostRuntime) -> Result<(), Fail> {
    for (schedule, thread) in FIRST_THREADS {
        let words = ["c", "j", "--threads", "2", "--schedule", schedule];
        let mut out = MemSink::new(rt.alloc(), 10_000)?;
        let first = match ran(&rt, &words, TWO_OPENS, &[], &mut out)? {
            Ok(ran) => ran.trace.entries().first().map(|entry| entry.thread),
            Err(_) => None,
        };
        assert!(rt; first == Some(thread), "schedule {schedule}: {first:?}");
    }
    Ok(())
}

// Reads of four blocks of a disk, one after the other.
const READS: &str =
    "0 open h A r\n0 read h 0 1\n0 wait\n0 read h 1 1\n0 wait\n0 read h 2 1\n0 wait\n0 read h 3 1\n0 wait\n0 close h\n";

// How each of them ends where the disk's third call fails.
const ENDS: [(&str, &str); 4] = [
    ("job 2 ", "job 2 0 read success"),
    ("job 4 ", "job 4 0 read success"),
    ("job 6 ", "job 6 0 read failed"),
    ("job 8 ", "job 8 0 read success"),
];

// How often the one disk of a host was closed, and the faults that it had then.
fn closed(host: &MemHost) -> (usize, u64) {
    match host.openings() {
        [opening] => match &opening.closing {
            Some(closing) => (1, closing.faults),
            None => (0, 0),
        },
        _ => (0, 0),
    }
}

// A disk that fails at one call fails one request, and no more; and it is closed in the end.
#[test]
fn failing_disk(rt: HostRuntime) -> Result<(), Fail> {
    let alloc = rt.alloc();
    let mut host = disk_host(alloc, READS, &[3])?;
    let mut out = MemSink::new(alloc, 10_000)?;
    let ran = ran_on(&rt, &["c", "j"], &mut host, &mut out)?;
    assert!(rt; ran.is_ok());
    let report = String::from_utf8(Vec::from_slice(alloc, out.bytes())?)?;
    for (line, end) in ENDS {
        let ended = report
            .as_str()
            .lines()
            .any(|text| text.starts_with(line) && text.starts_with(end));
        assert!(rt; ended, "{report}");
    }
    assert!(rt; closed(&host) == (1, 1));
    Ok(())
}

// Where the script's file is missing the disk is closed too.
#[test]
fn a_disk_is_closed_after_a_fault(rt: HostRuntime) -> Result<(), Fail> {
    let alloc = rt.alloc();
    let mut host = disk_host(alloc, READS, &[])?;
    let mut out = MemSink::new(alloc, 10_000)?;
    let fault = match ran_on(&rt, &["c", "x"], &mut host, &mut out)? {
        Ok(_) => String::new(alloc),
        Err(fault) => format!(in alloc; "{fault}, status {}", fault.status())?,
    };
    assert!(rt;
        fault.as_bytes() == b"no file: x, status 3".as_slice(),
        "{fault}"
    );
    assert!(rt; closed(&host) == (1, 0));
    Ok(())
}
