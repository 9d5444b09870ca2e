//! A command in words.
use bd_base::{IoSet, OutOfMemory};
use bd_config::Command;
use std::alloc::Global;

pub(crate) fn told(alloc: Global, command: &Command) -> Result<String, OutOfMemory> {
    match command {
        Command::InjectError {
            name,
            types,
            kind,
            count,
        } => {
            let types = types_word(alloc, types)?;
            Ok(format!(in alloc; "inject {name} {types} {kind:?} {count}")?)
        }
        Command::SetLimits { name, rates } => {
            let (requests, both) = (rates.rw_ios_per_sec, rates.rw_mbytes_per_sec);
            let (read, write) = (rates.r_mbytes_per_sec, rates.w_mbytes_per_sec);
            Ok(format!(in alloc; "limits {name} {requests:?} {both:?} {read:?} {write:?}")?)
        }
        _ => base_told(alloc, command),
    }
}

fn base_told(alloc: Global, command: &Command) -> Result<String, OutOfMemory> {
    Ok(match command {
        Command::Malloc {
            name,
            blocks,
            size,
            boundary,
            depth,
        } => format!(in alloc; "malloc {name} {blocks} {size} {boundary} {depth}")?,
        Command::Null {
            name,
            blocks,
            size,
            boundary,
            depth,
        } => format!(in alloc; "null {name} {blocks} {size} {boundary} {depth}")?,
        Command::Aio {
            name,
            file,
            size,
            depth,
        } => format!(in alloc; "aio {name} {file} {size} {depth}")?,
        _ => stacked_told(alloc, command)?,
    })
}

fn stacked_told(alloc: Global, command: &Command) -> Result<String, OutOfMemory> {
    Ok(match command {
        Command::Passthru { base, name } => format!(in alloc; "passthru {base} {name}")?,
        Command::Split {
            base,
            count,
            megabytes,
        } => format!(in alloc; "split {base} {count} {megabytes}")?,
        Command::Delay {
            base,
            name,
            average_read,
            p99_read,
            average_write,
            p99_write,
        } => format!(in alloc;
            "delay {base} {name} {average_read} {p99_read} {average_write} {p99_write}"
        )?,
        Command::Error { base } => format!(in alloc; "error {base}")?,
        _ => String::from_str(alloc, "passed over")?,
    })
}

// The types of request, a letter each.
fn types_word(alloc: Global, types: &IoSet) -> Result<String, OutOfMemory> {
    let mut word = String::new(alloc);
    if types.read {
        word.push('r')?;
    }
    if types.write {
        word.push('w')?;
    }
    if types.zeroes {
        word.push('z')?;
    }
    if types.unmap {
        word.push('u')?;
    }
    if types.flush {
        word.push('f')?;
    }
    Ok(word)
}
