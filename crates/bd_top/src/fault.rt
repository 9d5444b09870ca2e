//! Why a run isn't made.
ghost use Rattle.std.specs.Prelude.{◌≡◌};
ghost use Rattle.bd_top.specs.Fault.{status_of};

use bd_base::OutOfMemory;
use std::error::Error;
use std::fmt;

/// Why a run isn't made, or its report isn't written whole.
#[derive(Debug, Drop)]
pub enum Fault {
    /// The words are outside the command line's grammar.
    Usage,
    /// There is no file of this name.
    NoFile(String),
    /// This file has more than 8,388,608 bytes.
    TooLong(String),
    /// The host failed to read this file.
    ReadFault(String),
    /// The configuration is no JSON text.
    ConfigText,
    /// The configuration's subsystem of this number, from 1, is the first of the wrong shape; 0 where
    /// there is no array of them.
    ConfigShape(u32),
    /// The configuration's command of this index, from 0, is the first that is refused, with this code,
    /// which is below 0.
    Method { index: u32, code: i32 },
    /// The script's line of this number, from 1, is the first outside the grammar.
    JobText(u32),
    /// The output failed; what was written before is a prefix of the report or the generated script.
    WriteFault,
    OutOfMemory,
}

impl From<OutOfMemory> for Fault {
    ghost use Rattle.std.specs.Prelude.{◌≡◌};
    ghost use Rattle.bd_top.specs.declared.fault.Fault.TheVariants as faults;

    ghost from_gives = { λ _ fault. fault ≡ faults.OutOfMemory };

    fn from(_e: OutOfMemory) -> Fault {
        Fault::OutOfMemory
    }
}

impl Fault {
    /// The exit status: 1 for a file's content, 2 for the words, 3 for the outside, 4 for out
    /// of memory (this project's choice).
    pub fn status(&self) -> u8
        ensures { result ≡ status_of self.now }
    {
        match self {
            Fault::TooLong(_)
            | Fault::ConfigText
            | Fault::ConfigShape(_)
            | Fault::Method { .. }
            | Fault::JobText(_) => 1,
            Fault::Usage => 2,
            Fault::NoFile(_) | Fault::ReadFault(_) | Fault::WriteFault => 3,
            Fault::OutOfMemory => 4,
        }
    }
}

/// The line that the program prints on standard error, without its line feed.
impl fmt::Display for Fault {
    ghost use Rattle.std.specs.Prelude.{Some};
    ghost use Rattle.bd_top.specs.Fault.{fault_line};

    ghost output = { λ fault. Some (fault_line fault) };

    fn fmt<W: fmt::Write>(&self, f: &mut fmt::Formatter<W>) -> fmt::Result {
        match self {
            Fault::Usage => write!(
                f,
                "usage: bdevrun run CONFIG JOBS, exercise N or generate N; options --threads N --reactors N --schedule N"
            ),
            Fault::NoFile(name) => write!(f, "no file: {name}"),
            Fault::TooLong(name) => write!(f, "file too long: {name}"),
            Fault::ReadFault(name) => write!(f, "read fault: {name}"),
            Fault::ConfigText => write!(f, "configuration is not JSON"),
            Fault::ConfigShape(place) => write!(f, "configuration shape: {place}"),
            Fault::Method { index, code } => {
                write!(f, "configuration command {index} refused: {code}")
            }
            Fault::JobText(line) => write!(f, "script line {line}"),
            Fault::WriteFault => write!(f, "write fault"),
            Fault::OutOfMemory => write!(f, "out of memory"),
        }
    }
}

impl Error for Fault {}
