//! The commands of a configuration, or the first thing that is wrong with it.
ghost use Rattle.std.specs.Prelude.{◌≡◌, IfOk, IfErr, All};
ghost use Rattle.bd_base.specs.Errno.{number_of};
ghost use Rattle.bd_config.specs.Commands.{IsOpenable, minus};
ghost use Rattle.bd_config.specs.Config.{IsConfig};
ghost use Rattle.bd_top.specs.Configure.{CommandsCause};

use bd_base::Errno;
use bd_config::{Command, ConfigError, read_config};
use std::alloc::Global;

/// Why bytes configure no devices.
#[derive(Clone, Copy, PartialEq, Eq)]
pub(crate) enum ConfigureError {
    OutOfMemory,
    /// They are no JSON text.
    Text,
    /// The first subsystem of the wrong shape, counted from 1; 0 where there is no array of them.
    Shape(u32),
    /// The first command that is refused, counted from 0, and its code.
    Method { index: u32, code: i32 },
}

/// An errno as the code of a refusal: its number below zero.
pub(crate) fn code_of(errno: Errno) -> i32
    ensures { result ≡ minus (number_of errno) }
{
    match errno {
        Errno::Perm => -1,
        Errno::BadDesc => -9,
        Errno::Busy => -16,
        Errno::Exists => -17,
        Errno::NoDev => -19,
        Errno::Inval => -22,
        Errno::NotSup => -95,
    }
}

/// The commands of a configuration. What is wrong is looked for in this order: its text; its shape;
/// commands that can't be read.
pub(crate) fn commands_of(alloc: Global, bytes: &[u8]) -> Result<Vec<Command>, ConfigureError>
    ensures ok { IfOk result (λ commands. IsConfig bytes.now commands.items) }
    ensures openable { IfOk result (λ commands. All IsOpenable commands.items) }
    ensures cause { IfErr result (CommandsCause bytes.now) }
{
    match read_config(alloc, bytes) {
        Ok(commands) => Ok(commands),
        Err(ConfigError::OutOfMemory) => Err(ConfigureError::OutOfMemory),
        Err(ConfigError::Text) => Err(ConfigureError::Text),
        Err(ConfigError::Shape(place)) => Err(ConfigureError::Shape(place)),
        Err(ConfigError::Method { index, code }) => Err(ConfigureError::Method { index, code }),
    }
}
