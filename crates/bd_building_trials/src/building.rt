//! What commands make of devices. Each step of a case is a command in words; the answer has the devices
//! and the commands that still wait, or the refusal.
use crate::words::{number, small};
use bd_base::{
    DevRow, ErrKind, Injections, IoSet, Kind, Name, OutOfMemory, RateSet, Rates, Rows, Setup,
    Waiting,
};
use bd_building::{BuildError, Building};
use bd_config::Command;
use std::alloc::Global;

const READS: IoSet = IoSet {
    read: true,
    write: false,
    zeroes: false,
    unmap: false,
    flush: false,
};

fn named(alloc: Global, word: &str) -> Result<Name, OutOfMemory> {
    Name::from_slice(alloc, word.as_bytes())
}

// One limit: of requests, or of the megabytes of both ways, of reads or of writes; the others are absent.
fn rates(which: &str, limit: &str) -> RateSet {
    let limit = number(limit);
    RateSet {
        rw_ios_per_sec: (which == "requests").then_some(limit),
        rw_mbytes_per_sec: (which == "both").then_some(limit),
        r_mbytes_per_sec: (which == "reads").then_some(limit),
        w_mbytes_per_sec: (which == "writes").then_some(limit),
    }
}

// The command of a step; what is no command is ignored.
fn command(alloc: Global, words: &[&str]) -> Result<Command, OutOfMemory> {
    Ok(match words {
        ["malloc", name, blocks, size, boundary] => Command::Malloc {
            name: named(alloc, name)?,
            blocks: number(blocks),
            size: small(size),
            boundary: number(boundary),
            depth: 128,
        },
        ["null", name, blocks, size, boundary] => Command::Null {
            name: named(alloc, name)?,
            blocks: number(blocks),
            size: small(size),
            boundary: number(boundary),
            depth: 16,
        },
        ["aio", name, file, size] => Command::Aio {
            name: named(alloc, name)?,
            file: named(alloc, file)?,
            size: small(size),
            depth: 4,
        },
        ["passthru", base, name] => Command::Passthru {
            base: named(alloc, base)?,
            name: named(alloc, name)?,
        },
        ["split", base, count, megabytes] => Command::Split {
            base: named(alloc, base)?,
            count: small(count),
            megabytes: number(megabytes),
        },
        ["delay", base, name, average, p99] => Command::Delay {
            base: named(alloc, base)?,
            name: named(alloc, name)?,
            average_read: 1,
            p99_read: 1,
            average_write: number(average),
            p99_write: number(p99),
        },
        ["error", base] => Command::Error {
            base: named(alloc, base)?,
        },
        ["inject", name, count] => Command::InjectError {
            name: named(alloc, name)?,
            types: READS,
            kind: ErrKind::Failure,
            count: small(count),
        },
        ["limit", name, which, limit] => Command::SetLimits {
            name: named(alloc, name)?,
            rates: rates(which, limit),
        },
        _ => Command::PassedOver,
    })
}

fn commands(alloc: Global, steps: &str) -> Result<Vec<Command>, OutOfMemory> {
    let mut commands = Vec::new(alloc);
    for step in steps.split(';') {
        let words: Vec<&str> = step.split_whitespace().collect(alloc)?;
        commands.push(command(alloc, words.as_slice())?)?;
    }
    Ok(commands)
}

// What commands make one by one, where each file that is opened has this number of blocks.
fn made(alloc: Global, disk: u64, commands: Vec<Command>) -> Result<Building, BuildError> {
    let mut building = Building::new(alloc, 1);
    let mut index = 0u32;
    for command in commands {
        building = building.step(alloc, index, command, disk)?;
        index = index.saturating_add(1);
    }
    Ok(building)
}

/// The answer of a case: commands where no file has blocks (`all`), or each has so many (`disk`).
pub(crate) fn answer(alloc: Global, case: &str) -> Result<String, OutOfMemory> {
    let (form, rest) = crate::words::first_word(case);
    match form {
        "disk" => {
            let (disk, steps) = crate::words::first_word(rest);
            told(alloc, made(alloc, number(disk), commands(alloc, steps)?))
        }
        _ => told(alloc, made(alloc, 0, commands(alloc, rest)?)),
    }
}

fn told(alloc: Global, built: Result<Building, BuildError>) -> Result<String, OutOfMemory> {
    match built {
        Ok(building) => setup_told(alloc, &building.finish(alloc, Rows::new(alloc))?),
        Err(BuildError::OutOfMemory) => Err(OutOfMemory),
        Err(BuildError::Refused { index, errno }) => {
            let number = errno.number();
            Ok(format!(in alloc; "command {index} refused: -{number}")?)
        }
    }
}

fn setup_told(alloc: Global, setup: &Setup) -> Result<String, OutOfMemory> {
    let mut text = String::new(alloc);
    for (place, row) in setup.devices.as_slice().iter().enumerate() {
        device_told(&mut text, row)?;
        if let Some(rates) = setup.rates.as_slice().get(place) {
            rates_told(&mut text, rates)?;
        }
        if let Some(injections) = setup.injections.as_slice().get(place) {
            injections_told(&mut text, injections)?;
        }
        text.push_str("; ")?;
    }
    for waiting in setup.waiting.as_slice() {
        waiting_told(&mut text, waiting)?;
    }
    text.push_str("end")?;
    Ok(text)
}

// A device: its name, kind, blocks, bytes of each, boundary, depth, group; its base, and where it begins.
fn device_told(text: &mut String, row: &DevRow) -> Result<(), OutOfMemory> {
    let (name, kind, blocks, size) = (&row.name, row.kind.word(), row.blocks, row.size);
    let (boundary, depth, group) = (row.boundary, row.depth, row.group);
    write!(
        text,
        "{name} {kind} {blocks} {size} {boundary} {depth} {group}"
    )?;
    if let Some(base) = row.base {
        write!(text, " on {}", base.0)?;
    }
    if let Kind::Part { shift } = row.kind {
        write!(text, " from {shift}")?;
    }
    Ok(())
}

fn rates_told(text: &mut String, rates: &Rates) -> Result<(), OutOfMemory> {
    rate_told(text, "requests", rates.rw_ios_per_sec)?;
    rate_told(text, "both", rates.rw_mbytes_per_sec)?;
    rate_told(text, "reads", rates.r_mbytes_per_sec)?;
    rate_told(text, "writes", rates.w_mbytes_per_sec)
}

fn rate_told(text: &mut String, which: &str, limit: u64) -> Result<(), OutOfMemory> {
    if limit > 0 {
        write!(text, " limit {which} {limit}")?;
    }
    Ok(())
}

fn injections_told(text: &mut String, injections: &Injections) -> Result<(), OutOfMemory> {
    if injections.read.left > 0 {
        write!(text, " inject {}", injections.read.left)?;
    }
    Ok(())
}

fn waiting_told(text: &mut String, waiting: &Waiting) -> Result<(), OutOfMemory> {
    let (index, method, base) = (waiting.index, &waiting.method, &waiting.base);
    write!(text, "waiting {index} {method} {base}; ")?;
    Ok(())
}
