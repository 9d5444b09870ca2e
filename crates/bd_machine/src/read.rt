//! What a piece read.
ghost use Rattle.std.specs.Prelude.{◌≡◌, true, None, Some, IfOk, IfSome, OnOk, option_map};
ghost use Rattle.bd_machine.specs.Completion.{both_bytes, turned_if};

use bd_base::{Bytes, OutOfMemory};
use std::marker::Model;

/// What a piece read, or several pieces in order: nothing; bytes, which contracts see; or bytes of a content
/// that isn't told, as that of a file, of which contracts see nothing.
#[derive(Drop)]
pub struct ReadBytes {
    bytes: Option<Bytes>,
    told: bool,
}

impl Model for ReadBytes {
    ghost use Rattle.std.specs.Prelude.{List, ℕ, Option, None, cond};

    ghost Value = { Option (List ℕ) };

    ghost view = { λ r. cond r.told r.bytes None };
}

impl ReadBytes {
    /// Nothing. It takes no memory.
    pub fn none() -> ReadBytes
        ensures { result ≡ None }
    {
        ReadBytes {
            bytes: None,
            told: false,
        }
    }

    /// Bytes of a content that is told. It takes no memory.
    pub fn told(bytes: Bytes) -> ReadBytes
        ensures { result ≡ Some bytes }
    {
        ReadBytes {
            bytes: Some(bytes),
            told: true,
        }
    }

    /// Bytes of a content that isn't told. It takes no memory.
    pub fn untold(bytes: Bytes) -> ReadBytes
        ensures { result ≡ None }
    {
        ReadBytes {
            bytes: Some(bytes),
            told: false,
        }
    }

    /// The bytes, where they are told.
    pub fn as_told(&self) -> Option<&[u8]>
        ensures { option_map (λ bytes. bytes.now) result ≡ self.now }
    {
        if !self.told {
            return None;
        }
        match &self.bytes {
            Some(bytes) => Some(bytes.as_slice()),
            None => None,
        }
    }

    /// The bytes, told or not; none where there is nothing.
    pub fn given(&self) -> &[u8]
        ensures { IfSome self.now (λ bytes. result.now ≡ bytes) }
    {
        match &self.bytes {
            Some(bytes) => bytes.as_slice(),
            None => &[],
        }
    }

    /// The same; where it is nothing, these bytes, which aren't told. It takes no memory.
    pub fn or_untold(self, bytes: Bytes) -> ReadBytes
        ensures { result ≡ self }
    {
        if self.bytes.is_some() {
            self
        } else {
            ReadBytes::untold(bytes)
        }
    }

    /// Puts what was read after it, where both have bytes; else there is nothing. They are told where all of
    /// them are. Out of memory leaves what may be.
    pub fn append(&mut self, more: &ReadBytes) -> Result<(), OutOfMemory>
        ensures { OnOk result (self.new ≡ both_bytes self.old more.now) }
    {
        let Some(others) = &more.bytes else {
            *self = ReadBytes::none();
            return Ok(());
        };
        if let Some(bytes) = &mut self.bytes {
            bytes.append(others.as_slice())?;
            self.told = self.told && more.told;
        }
        Ok(())
    }

    /// The same, with byte 0 complemented where that is asked. It takes no memory.
    pub fn turned_if(self, turned: bool) -> ReadBytes
        ensures { result ≡ turned_if turned self }
    {
        let ReadBytes { bytes, told } = self;
        ReadBytes {
            bytes: if turned { turned_bytes(bytes) } else { bytes },
            told,
        }
    }

    /// The same, or out of memory.
    pub fn copy(&self) -> Result<ReadBytes, OutOfMemory>
        ensures { IfOk result (λ read. read ≡ self.now) }
    {
        let bytes = match &self.bytes {
            Some(bytes) => Some(bytes.copy()?),
            None => None,
        };
        Ok(ReadBytes {
            bytes,
            told: self.told,
        })
    }
}

// Bytes with byte 0 complemented.
fn turned_bytes(bytes: Option<Bytes>) -> Option<Bytes>
    ensures { result ≡ turned_if true bytes }
{
    let mut items = bytes?.into_vec();
    if let Some(first) = items.first_mut() {
        *first = 255 - *first;
    }
    Some(Bytes::from_vec(items))
}
