//! What the registry has, whoever keeps it.
use crate::handles::{handle_of, own_handle};
use bd_base::{DevId, HandleId, OutOfMemory, Rows};
use bd_blocks::references;
use bd_machine::{Between, Device, Handle, Registry};
use std::alloc::Global;

/// What one may ask of a registry. Contracts see it as the machine's own registry, however it is kept.
pub trait Records {
    ghost use Rattle.std.specs.Prelude.{◌≡◌, filter, slice_get, IfOk};
    ghost use Rattle.std.specs.Option.{option_copied};
    ghost use Rattle.bd_machine.specs.Registry.{handle_of, handles_on, is_on, references};
    ghost use Rattle.bd_machine.specs.View.{is_of};
    ghost use Rattle.bd_machine.specs.declared.state.Registry.{Registry};

    ghost registry_of: { Self → Registry };

    /// The number of the next handle.
    fn next(&self) -> u128
        ensures { result ≡ (registry_of self.now).next };

    /// What has to follow at once.
    fn between(&self) -> Option<Between>
        ensures { result ≡ (registry_of self.now).between };

    /// The handle of a number; none where no handle of that number is open.
    fn handle(&self, id: HandleId) -> Option<Handle>
        ensures { result ≡ handle_of (registry_of self.now).handles id };

    /// The handle of a number, where this thread has it open.
    fn own_handle(&self, thread: u32, id: HandleId) -> Option<Handle>
        ensures { result ≡ handle_of (filter (is_of thread) (registry_of self.now).handles) id };

    /// Handles that are open, among them all of the device, in order of opening.
    fn handles_of(&self, dev: DevId) -> &[Handle]
        ensures { filter (is_on dev) result.now ≡ handles_on (registry_of self.now) dev };

    /// All open handles, in order of opening, or out of memory.
    fn open_handles(&self, alloc: Global) -> Result<Rows<Handle>, OutOfMemory>
        ensures { IfOk result (λ hs. hs ≡ (registry_of self.now).handles) };

    /// How many references a thread has to a device; none where it has no channel.
    fn references(&self, thread: u32, dev: DevId) -> Option<u128>
        ensures { result ≡ references (registry_of self.now) thread dev };

    /// What the registry has of a device; none where there is no such device.
    fn device(&self, dev: DevId) -> Option<&Device>
        ensures { option_copied result ≡ slice_get (registry_of self.now).devices dev.0 };
}

impl Records for Registry {
    ghost registry_of = { λ r. r };

    fn next(&self) -> u128 {
        self.next
    }

    fn between(&self) -> Option<Between> {
        self.between
    }

    fn handle(&self, id: HandleId) -> Option<Handle> {
        handle_of(self.handles.as_slice(), id)
    }

    fn own_handle(&self, thread: u32, id: HandleId) -> Option<Handle> {
        own_handle(self.handles.as_slice(), thread, id)
    }

    fn handles_of(&self, _dev: DevId) -> &[Handle] {
        self.handles.as_slice()
    }

    fn open_handles(&self, _alloc: Global) -> Result<Rows<Handle>, OutOfMemory> {
        self.handles.copy()
    }

    fn references(&self, thread: u32, dev: DevId) -> Option<u128> {
        references(self, thread, dev)
    }

    fn device(&self, dev: DevId) -> Option<&Device> {
        self.devices.as_slice().get(dev.0 as usize)
    }
}
