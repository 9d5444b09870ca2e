//! The devices that a command asks for.
ghost use Rattle.std.specs.Prelude.{◌≡◌, [], ◌∷◌, length, IfOk};
ghost use Rattle.bd_building.specs.Rows.{base_named, devices_of, error_name, whole_over};

use crate::base::{Base, base_named};
use crate::parts::split_over;
use bd_base::{DevRow, Kind, Name, OutOfMemory, Setup};
use bd_config::Command;
use std::alloc::Global;

// The number of a group that no device has yet.
fn next_group(setup: &Setup) -> Result<u32, OutOfMemory>
    ensures { IfOk result (λ group. group ≡ length setup.now.devices) }
{
    match u32::try_from(setup.devices.len()) {
        Ok(group) => Ok(group),
        Err(_) => Err(OutOfMemory),
    }
}

fn error_name(alloc: Global, base: &Name) -> Result<Name, OutOfMemory>
    ensures { IfOk result (λ name. name ≡ error_name base.now) }
{
    let mut name = Vec::from_slice(alloc, b"EE_")?;
    name.extend_from_slice(base.as_slice())?;
    Ok(Name::from_vec(name))
}

// The one row.
fn one(alloc: Global, row: DevRow) -> Result<Vec<DevRow>, OutOfMemory>
    ensures { IfOk result (λ rows. rows.items ≡ row ∷ []) }
{
    let mut rows = Vec::new(alloc);
    rows.push(row)?;
    Ok(rows)
}

// A device over the whole of its base; none where that isn't there.
fn whole_over(
    alloc: Global,
    group: u32,
    kind: Kind,
    name: Name,
    base: Option<Base>,
) -> Result<Vec<DevRow>, OutOfMemory>
    ensures { IfOk result (λ rows. rows.items ≡ whole_over group kind name base) }
{
    let Some(base) = base else {
        return Ok(Vec::new(alloc));
    };
    let row = DevRow {
        name,
        kind,
        base: Some(base.dev),
        blocks: base.blocks,
        size: base.size,
        boundary: 0,
        depth: 0,
        file: None,
        group,
    };
    one(alloc, row)
}

/// The devices that a command asks for, in order, where the file that it opens has this number of blocks.
pub(crate) fn devices_of(
    alloc: Global,
    setup: &Setup,
    command: &Command,
    disk: u64,
) -> Result<Vec<DevRow>, OutOfMemory>
    ensures { IfOk result (λ rows. rows.items ≡ devices_of setup.now command.now disk) }
{
    let group = next_group(setup)?;
    match command {
        Command::Malloc {
            name,
            blocks,
            size,
            boundary,
            depth,
        } => one(
            alloc,
            DevRow {
                name: name.copy()?,
                kind: Kind::Malloc,
                base: None,
                blocks: *blocks,
                size: *size,
                boundary: *boundary,
                depth: *depth,
                file: None,
                group,
            },
        ),
        Command::Null {
            name,
            blocks,
            size,
            boundary,
            depth,
        } => one(
            alloc,
            DevRow {
                name: name.copy()?,
                kind: Kind::Null,
                base: None,
                blocks: *blocks,
                size: *size,
                boundary: *boundary,
                depth: *depth,
                file: None,
                group,
            },
        ),
        Command::Aio {
            name,
            file,
            size,
            depth,
        } => one(
            alloc,
            DevRow {
                name: name.copy()?,
                kind: Kind::Aio,
                base: None,
                blocks: disk,
                size: *size,
                boundary: 0,
                depth: *depth,
                file: Some(file.copy()?),
                group,
            },
        ),
        Command::Passthru { base, name } => whole_over(
            alloc,
            group,
            Kind::Passthru,
            name.copy()?,
            base_named(setup, base)?,
        ),
        Command::Split {
            base,
            count,
            megabytes,
        } => split_over(
            alloc,
            group,
            base,
            *count,
            *megabytes,
            base_named(setup, base)?,
        ),
        Command::Delay {
            base,
            name,
            average_read,
            p99_read,
            average_write,
            p99_write,
        } => whole_over(
            alloc,
            group,
            Kind::Delay {
                average_read: *average_read,
                p99_read: *p99_read,
                average_write: *average_write,
                p99_write: *p99_write,
            },
            name.copy()?,
            base_named(setup, base)?,
        ),
        Command::Error { base } => whole_over(
            alloc,
            group,
            Kind::Error,
            error_name(alloc, base)?,
            base_named(setup, base)?,
        ),
        _ => Ok(Vec::new(alloc)),
    }
}
