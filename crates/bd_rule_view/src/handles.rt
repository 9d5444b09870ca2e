//! Handles of the registry.
ghost use Rattle.std.specs.Prelude.{◌≡◌, filter};
ghost use Rattle.bd_machine.specs.Registry.{handle_of};
ghost use Rattle.bd_machine.specs.View.{is_of};

use bd_base::HandleId;
use bd_machine::Handle;

/// The handle of a number.
pub fn handle_of(handles: &[Handle], id: HandleId) -> Option<Handle>
    ensures { result ≡ handle_of handles.now id }
{
    handles.iter().copied().find(|h| h.id.0 == id.0)
}

/// The handle of a number, where this thread has it open.
pub fn own_handle(handles: &[Handle], thread: u32, id: HandleId) -> Option<Handle>
    ensures { result ≡ handle_of (filter (is_of thread) handles.now) id }
{
    for h in handles {
        if h.thread.0 == thread && h.id.0 == id.0 {
            return Some(*h);
        }
    }
    None
}
