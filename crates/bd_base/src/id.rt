//! What names a thread, a device, a handle, a request and a walk.

/// A thread, by its number: 0 and on, below the number of threads of the run (at most 16).
#[derive(Clone, Copy, PartialEq, Eq)]
pub struct ThreadId(pub u32);

/// A device, by its place in the order of making: 0 and on, at most 256 devices.
#[derive(Clone, Copy, Debug, PartialEq, Eq)]
pub struct DevId(pub u32);

/// A handle, the descriptor that an open gives. Each new one has the next number.
#[derive(Clone, Copy, Debug, PartialEq, Eq)]
pub struct HandleId(pub u128);

/// A request: the thread that submitted it, and its number among that thread's requests.
#[derive(Clone, Copy, Debug, PartialEq, Eq)]
pub struct ReqId {
    pub thread: u32,
    pub seq: u64,
}

/// A walk over channels: the thread that began it, and its number among that thread's walks.
#[derive(Clone, Copy, Debug, PartialEq, Eq)]
pub struct WalkId {
    pub thread: u32,
    pub seq: u128,
}
