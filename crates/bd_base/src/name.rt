//! Names of devices, handles, marks and files.
ghost use Rattle.std.specs.Prelude.{◌≡◌, ◌++◌, ◌∷◌, [], List, ℕ, IfOk, OnOk, OnErr};
ghost use Rattle.bd_base.specs.Name.{same_name};

use crate::memory::OutOfMemory;
use std::alloc::Global;
use std::fmt;
use std::marker::Model;

/// How many bytes lie in a name itself.
const SHORT: usize = 7;

/// A name, seen as its list of bytes. One of at most 7 bytes lies in the value itself.
#[derive(Drop)]
pub struct Name {
    // how many bytes of the short part are the name's; where there is a long part, none is
    len: u8,
    short: [u8; 7],
    long: Vec<u8>,
}

impl Model for Name {
    ghost use Rattle.std.specs.Prelude.{List, ℕ};
    ghost use Rattle.bd_base.specs.Name.{bytes_of, IsOne};

    ghost Value = { List ℕ };

    ghost view = { λ n. bytes_of n.len n.short n.long.items };

    ghost invariant = { λ n. IsOne n.len n.long.items };
}

impl Name {
    /// The empty name. It takes no memory.
    pub fn new(alloc: Global) -> Name
        ensures { result ≡ [] }
    {
        Name {
            len: 0,
            short: [0; 7],
            long: Vec::new(alloc),
        }
    }

    /// The bytes of a slice as a name, or out of memory.
    pub fn from_slice(alloc: Global, bytes: &[u8]) -> Result<Name, OutOfMemory>
        ensures { IfOk result (λ n. n ≡ bytes.now) }
    {
        if bytes.len() > SHORT {
            return Ok(Name::from_vec(Vec::from_slice(alloc, bytes)?));
        }
        let mut short = [0; 7];
        short[..bytes.len()].copy_from_slice(bytes);
        Ok(Name {
            len: bytes.len() as u8,
            short,
            long: Vec::new(alloc),
        })
    }

    /// The bytes of a vector as a name. It takes no memory.
    pub fn from_vec(items: Vec<u8>) -> Name
        ensures { result ≡ items.items }
    {
        Name {
            len: 0,
            short: [0; 7],
            long: items,
        }
    }

    /// Adds a byte; out of memory, the name stays as it was.
    pub fn push(&mut self, byte: u8) -> Result<(), OutOfMemory>
        ensures ok { OnOk result (self.new ≡ self.old ++ byte ∷ []) }
        ensures err { OnErr result (self.new ≡ self.old) }
    {
        let mut items = Vec::from_slice(*self.long.allocator(), self.as_slice())?;
        items.push(byte)?;
        *self = Name::from_vec(items);
        Ok(())
    }

    pub fn as_slice(&self) -> &[u8]
        ensures { result.now ≡ self.now }
    {
        if self.len == 0 {
            self.long.as_slice()
        } else {
            &self.short[..self.len as usize]
        }
    }

    /// An equal name, or out of memory.
    pub fn copy(&self) -> Result<Name, OutOfMemory>
        ensures { IfOk result (λ n. n ≡ self.now) }
    {
        Name::from_slice(*self.long.allocator(), self.as_slice())
    }

    /// Whether the names are equal.
    pub fn is(&self, other: &Name) -> bool
        ensures { result ≡ same_name self.now other.now }
    {
        self.as_slice() == other.as_slice()
    }
}

/// A name as text; bytes that are no text are shown as `?`.
impl fmt::Display for Name {
    fn fmt<W: fmt::Write>(&self, f: &mut fmt::Formatter<W>) -> fmt::Result {
        match str::from_utf8(self.as_slice()) {
            Ok(text) => write!(f, "{text}"),
            Err(_) => write!(f, "?"),
        }
    }
}
