//! A text that is being written, field by field.
ghost use Rattle.std.specs.Prelude.{◌≡◌, ◌++◌, [], List, ℕ, OnOk, decimal};
ghost use Rattle.bd_trace.specs.Fields.{word_field, number_field, own_field, request_field, device_field, device_field_if, blocks_field, handle_field, handle_field_if, thread_field_if, thread_fields, hex_field, digest_field_if};

use bd_base::{DevId, HandleId, OutOfMemory, ReqId, ThreadId, ThreadSet};
use std::alloc::Global;
use std::marker::Model;

/// A text that is being written, seen as its bytes. Where one of its calls is out of memory, a part of
/// what the call writes may stand at its end.
#[derive(Drop)]
pub(crate) struct Text {
    bytes: Vec<u8>,
}

impl Model for Text {
    ghost use Rattle.std.specs.Prelude.{List, ℕ};

    ghost Value = { List ℕ };

    ghost view = { λ t. t.bytes.items };
}

impl Text {
    /// No text. It takes no memory.
    pub fn new(alloc: Global) -> Text
        ensures { result ≡ [] }
    {
        Text {
            bytes: Vec::new(alloc),
        }
    }

    /// The bytes. It takes no memory.
    pub fn into_vec(self) -> Vec<u8>
        ensures { result.items ≡ self }
    {
        self.bytes
    }

    /// Adds bytes as they are.
    pub fn add(&mut self, bytes: &[u8]) -> Result<(), OutOfMemory>
        ensures { OnOk result (self.new ≡ self.old ++ bytes.now) }
    {
        self.bytes.extend_from_slice(bytes)?;
        Ok(())
    }

    /// Adds a number in decimal.
    pub fn decimal(&mut self, number: u128) -> Result<(), OutOfMemory>
        ensures { OnOk result (self.new ≡ self.old ++ decimal number) }
    {
        let digits = format!(in *self.bytes.allocator(); "{number}")?;
        self.add(digits.as_bytes())
    }

    /// Adds a key with a word.
    #[tactic(auto, unfolding(crate::specs::Fields::word_field))]
    pub fn word(&mut self, key: &str, word: &[u8]) -> Result<(), OutOfMemory>
        ensures { OnOk result (self.new ≡ self.old ++ word_field key.now word.now) }
    {
        self.add(b" ")?;
        self.add(key.as_bytes())?;
        self.add(b" ")?;
        self.add(word)
    }

    /// Adds a key with a number.
    #[tactic(auto, unfolding(crate::specs::Fields::number_field))]
    pub fn number(&mut self, key: &str, number: u128) -> Result<(), OutOfMemory>
        ensures { OnOk result (self.new ≡ self.old ++ number_field key.now number) }
    {
        let digits = format!(in *self.bytes.allocator(); "{number}")?;
        self.word(key, digits.as_bytes())
    }

    /// Adds a key with what a thread numbers itself.
    #[tactic(auto, unfolding(crate::specs::Fields::own_field))]
    pub fn own(&mut self, key: &str, thread: u32, number: u128) -> Result<(), OutOfMemory>
        ensures { OnOk result (self.new ≡ self.old ++ own_field key.now thread number) }
    {
        let digits = format!(in *self.bytes.allocator(); "{thread}.{number}")?;
        self.word(key, digits.as_bytes())
    }

    /// Adds a key with a request.
    #[tactic(auto, unfolding(crate::specs::Fields::request_field))]
    pub fn request(&mut self, key: &str, req: ReqId) -> Result<(), OutOfMemory>
        ensures { OnOk result (self.new ≡ self.old ++ request_field key.now req) }
    {
        self.own(key, req.thread, u128::from(req.seq))
    }

    /// Adds a key with a device.
    #[tactic(auto, unfolding(crate::specs::Fields::device_field))]
    pub fn device(&mut self, key: &str, dev: DevId) -> Result<(), OutOfMemory>
        ensures { OnOk result (self.new ≡ self.old ++ device_field key.now dev) }
    {
        self.number(key, u128::from(dev.0))
    }

    /// Adds a key with a device, if there is one.
    #[tactic(auto, unfolding(crate::specs::Fields::device_field_if))]
    pub fn device_if(&mut self, key: &str, dev: Option<DevId>) -> Result<(), OutOfMemory>
        ensures { OnOk result (self.new ≡ self.old ++ device_field_if key.now dev) }
    {
        match dev {
            None => Ok(()),
            Some(dev) => self.device(key, dev),
        }
    }

    /// Adds a number of blocks.
    #[tactic(auto, unfolding(crate::specs::Fields::blocks_field))]
    pub fn blocks(&mut self, blocks: u64) -> Result<(), OutOfMemory>
        ensures { OnOk result (self.new ≡ self.old ++ blocks_field blocks) }
    {
        self.number("blocks", u128::from(blocks))
    }

    /// Adds a key with a handle.
    #[tactic(auto, unfolding(crate::specs::Fields::handle_field))]
    pub fn handle(&mut self, key: &str, handle: HandleId) -> Result<(), OutOfMemory>
        ensures { OnOk result (self.new ≡ self.old ++ handle_field key.now handle) }
    {
        self.number(key, handle.0)
    }

    /// Adds a key with a handle, if there is one.
    #[tactic(auto, unfolding(crate::specs::Fields::handle_field_if))]
    pub fn handle_if(&mut self, key: &str, handle: Option<HandleId>) -> Result<(), OutOfMemory>
        ensures { OnOk result (self.new ≡ self.old ++ handle_field_if key.now handle) }
    {
        match handle {
            None => Ok(()),
            Some(handle) => self.handle(key, handle),
        }
    }

    /// Adds the threads of a set, by rising number.
    #[tactic(auto, using(crate::proofs::FieldLemmas::fields_and_one), unfolding(crate::specs::Fields::thread_fields))]
    pub fn threads(&mut self, threads: ThreadSet) -> Result<(), OutOfMemory>
        ensures { OnOk result (self.new ≡ self.old ++ thread_fields threads.0) }
    {
        for thread in 0..16 {
            self.thread_if(threads, thread)?;
        }
        Ok(())
    }

    // Adds a thread, if the set has it.
    #[tactic(auto, unfolding(crate::specs::Fields::thread_field_if))]
    fn thread_if(&mut self, threads: ThreadSet, thread: u32) -> Result<(), OutOfMemory>
        ensures { OnOk result (self.new ≡ self.old ++ thread_field_if threads.0 thread) }
    {
        if threads.has(ThreadId(thread)) {
            self.number("thread", u128::from(thread))?;
        }
        Ok(())
    }

    /// Adds a key with bytes in lower-case hexadecimal.
    #[tactic(auto, unfolding(crate::specs::Fields::hex_field))]
    pub fn hex(&mut self, key: &str, bytes: &[u8]) -> Result<(), OutOfMemory>
        ensures { OnOk result (self.new ≡ self.old ++ hex_field key.now bytes.now) }
    {
        let digits = hex::encode(*self.bytes.allocator(), bytes)?;
        self.word(key, digits.as_bytes())
    }

    /// Adds a digest, if there is one.
    #[tactic(auto, unfolding(crate::specs::Fields::digest_field_if))]
    pub fn digest_if(&mut self, digest: Option<[u8; 32]>) -> Result<(), OutOfMemory>
        ensures { OnOk result (self.new ≡ self.old ++ digest_field_if digest) }
    {
        match digest {
            None => Ok(()),
            Some(digest) => self.hex("sha256", &digest),
        }
    }
}
