//! The plain types of the block device layer: what requests, acts, registry events, script lines
//! and setups are. Beside them the data pattern of a write, and the digest of bytes.
#![tactic(auto)]

mod act;
mod boxed;
mod bytes;
mod dev_set;
mod device;
mod digest;
mod event;
mod id;
mod job;
mod journal;
mod memory;
mod name;
mod pattern;
mod request;
mod rows;
mod setup;
mod thread_set;

pub use act::{Act, ApplyEnd, Entry, Outcome, Token};
pub use boxed::Boxed;
pub use bytes::Bytes;
pub use dev_set::DevSet;
pub use device::{DevRow, ErrKind, Injection, Injections, IoSet, Kind, RateSet, Rates};
pub use digest::digest_of;
pub use event::{Answer, ClaimKind, Dropped, RegEvent};
pub use id::{DevId, HandleId, ReqId, ThreadId, WalkId};
pub use job::{Job, Line, Script, View};
pub use journal::{Journaled, Start};
pub use memory::OutOfMemory;
pub use name::Name;
pub use pattern::fill_pattern;
pub use request::{AbortCause, Decision, Errno, Fill, Op, Shown, Status, WalkKind, Way};
pub use rows::{DevList, HandleList, NameList, Rows, SizeList};
pub use setup::{Setup, Waiting};
pub use thread_set::ThreadSet;
