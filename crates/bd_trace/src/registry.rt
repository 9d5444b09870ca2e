//! Events of the registry, and its answers.
ghost use Rattle.std.specs.Prelude.{◌≡◌, ◌++◌, OnOk, flat_map, codes};
ghost use Rattle.bd_trace.specs.Fields.{device_field, owned_fields};
ghost use Rattle.bd_trace.specs.Registry.{errno_field, drain_field, carried_fields, type_fields, claim_fields, event_field, device_event, handle_event, named_event, resize_event, event_fields, answer_field, next_fields, answer_fields};

use crate::text::Text;
use crate::words::{decision_word, drop_word, flag_word, mode_word, type_word};
use bd_base::{
    Answer, ClaimKind, DevId, Errno, HandleId, Name, Op, OutOfMemory, RegEvent, ReqId, ThreadId,
    ThreadSet,
};

/// Adds an errno by its number.
#[tactic(auto, unfolding(crate::specs::Registry::errno_field))]
pub(crate) fn add_errno(text: &mut Text, errno: Errno) -> Result<(), OutOfMemory>
    ensures { OnOk result (text.new ≡ text.old ++ errno_field errno) }
{
    text.number("errno", u128::from(errno.number()))
}

// Adds the drain time of a reset, if it has one.
#[tactic(auto, unfolding(crate::specs::Registry::drain_field))]
fn add_drain(text: &mut Text, time: u64) -> Result<(), OutOfMemory>
    ensures { OnOk result (text.new ≡ text.old ++ drain_field time) }
{
    if time == 0 {
        return Ok(());
    }
    text.number("drain", u128::from(time))
}

// Adds what a type of request carries.
#[tactic(auto, unfolding(crate::specs::Registry::carried_fields))]
fn add_carried(text: &mut Text, op: Op) -> Result<(), OutOfMemory>
    ensures { OnOk result (text.new ≡ text.old ++ carried_fields op) }
{
    match op {
        Op::Write(fill) => {
            text.number("seed", u128::from(fill.seed))?;
            text.word("flip", flag_word(fill.flip).as_bytes())
        }
        Op::Abort(seq) => text.number("names", u128::from(seq)),
        Op::Reset(time) => add_drain(text, time),
        Op::Read | Op::Zeroes | Op::Unmap | Op::Flush => Ok(()),
    }
}

/// Adds a type of request, with what it carries.
#[tactic(auto, unfolding(crate::specs::Registry::type_fields))]
pub(crate) fn add_type(text: &mut Text, op: Op) -> Result<(), OutOfMemory>
    ensures { OnOk result (text.new ≡ text.old ++ type_fields op) }
{
    text.word("type", type_word(op).as_bytes())?;
    add_carried(text, op)
}

// Adds what a claim lets others do.
#[tactic(auto, unfolding(crate::specs::Registry::claim_fields))]
fn add_claim(text: &mut Text, kind: ClaimKind) -> Result<(), OutOfMemory>
    ensures { OnOk result (text.new ≡ text.old ++ claim_fields kind) }
{
    match kind {
        ClaimKind::Exclusive => text.word("claim", b"exclusive"),
        ClaimKind::WriteOne => text.word("claim", b"one"),
        ClaimKind::WriteNone => text.word("claim", b"none"),
        ClaimKind::Shared(key) => {
            text.word("claim", b"shared")?;
            text.number("key", u128::from(key))
        }
    }
}

// Adds what kind of event it is.
#[tactic(auto, unfolding(crate::specs::Registry::event_field))]
fn add_kind(text: &mut Text, word: &str) -> Result<(), OutOfMemory>
    ensures { OnOk result (text.new ≡ text.old ++ event_field word.now) }
{
    text.word("event", word.as_bytes())
}

// Adds an event about a device.
#[tactic(auto, unfolding(crate::specs::Registry::device_event))]
fn add_device_event(text: &mut Text, word: &str, dev: DevId) -> Result<(), OutOfMemory>
    ensures { OnOk result (text.new ≡ text.old ++ device_event word.now dev) }
{
    add_kind(text, word)?;
    text.device("device", dev)
}

// Adds an event about a handle.
#[tactic(auto, unfolding(crate::specs::Registry::handle_event))]
fn add_handle_event(text: &mut Text, word: &str, handle: HandleId) -> Result<(), OutOfMemory>
    ensures { OnOk result (text.new ≡ text.old ++ handle_event word.now handle) }
{
    add_kind(text, word)?;
    text.handle("handle", handle)
}

// Adds an event about a name.
#[tactic(auto, unfolding(crate::specs::Registry::named_event))]
fn add_named_event(text: &mut Text, word: &str, name: &Name) -> Result<(), OutOfMemory>
    ensures { OnOk result (text.new ≡ text.old ++ named_event word.now name.now) }
{
    add_kind(text, word)?;
    text.word("name", name.as_slice())
}

// Adds the beginning of a resize of the device of a name, to this number of blocks.
#[tactic(auto, unfolding(crate::specs::Registry::resize_event))]
fn add_resize_event(text: &mut Text, name: &Name, blocks: u64) -> Result<(), OutOfMemory>
    ensures { OnOk result (text.new ≡ text.old ++ resize_event name.now blocks) }
{
    add_named_event(text, "begin-resize", name)?;
    text.blocks(blocks)
}

/// Adds an event of the registry.
#[tactic(auto, unfolding(crate::specs::Registry::event_fields))]
pub(crate) fn add_event(text: &mut Text, event: &RegEvent) -> Result<(), OutOfMemory>
    ensures { OnOk result (text.new ≡ text.old ++ event_fields event.now) }
{
    match event {
        RegEvent::Open { name, write } => {
            add_named_event(text, "open", name)?;
            text.word("mode", mode_word(*write).as_bytes())
        }
        RegEvent::Close { handle } => add_handle_event(text, "close", *handle),
        RegEvent::Claim { handle, kind } => {
            add_handle_event(text, "claim", *handle)?;
            add_claim(text, *kind)
        }
        RegEvent::GetChannel { dev } => add_device_event(text, "get-channel", *dev),
        RegEvent::PutChannel { dev, closing } => {
            add_device_event(text, "put-channel", *dev)?;
            text.word("closing", flag_word(*closing).as_bytes())
        }
        RegEvent::DropChannel { dev } => add_device_event(text, "drop-channel", *dev),
        RegEvent::BeginRemove { name } => add_named_event(text, "begin-remove", name),
        RegEvent::BeginReset { dev, req } => {
            add_device_event(text, "begin-reset", *dev)?;
            text.request("request", *req)
        }
        RegEvent::EndReset { dev } => add_device_event(text, "end-reset", *dev),
        RegEvent::FinishReset { dev } => add_device_event(text, "finish-reset", *dev),
        RegEvent::TakeInjection { dev, req, op } => {
            add_device_event(text, "take-injection", *dev)?;
            text.request("request", *req)?;
            add_type(text, *op)
        }
        RegEvent::Destructed { dev } => add_device_event(text, "destructed", *dev),
        RegEvent::BeginResize { name, blocks } => add_resize_event(text, name, *blocks),
        RegEvent::EndResize { dev } => add_device_event(text, "end-resize", *dev),
    }
}

// Adds what kind of answer it is.
#[tactic(auto, unfolding(crate::specs::Registry::answer_field))]
fn add_answer_kind(text: &mut Text, word: &str) -> Result<(), OutOfMemory>
    ensures { OnOk result (text.new ≡ text.old ++ answer_field word.now) }
{
    text.word("answer", word.as_bytes())
}

// Adds the devices that are being reset.
fn add_frozen(text: &mut Text, devices: &[DevId]) -> Result<(), OutOfMemory>
    ensures { OnOk result (text.new ≡ text.old ++ flat_map (device_field (codes "frozen")) devices.now) }
{
    for dev in devices {
        text.device("frozen", *dev)?;
    }
    Ok(())
}

// Adds a handle with its thread.
#[tactic(auto, unfolding(crate::specs::Fields::owned_fields))]
fn add_owned(text: &mut Text, owned: (HandleId, ThreadId)) -> Result<(), OutOfMemory>
    ensures { OnOk result (text.new ≡ text.old ++ owned_fields owned) }
{
    text.handle("handle", owned.0)?;
    text.number("owner", u128::from((owned.1).0))
}

// Adds handles with their threads.
fn add_handles(text: &mut Text, handles: &[(HandleId, ThreadId)]) -> Result<(), OutOfMemory>
    ensures { OnOk result (text.new ≡ text.old ++ flat_map owned_fields handles.now) }
{
    for owned in handles {
        add_owned(text, *owned)?;
    }
    Ok(())
}

// Adds the next reset that waited, if there is one.
#[tactic(auto, unfolding(crate::specs::Registry::next_fields))]
fn add_next(text: &mut Text, next: Option<(ReqId, ThreadSet)>) -> Result<(), OutOfMemory>
    ensures { OnOk result (text.new ≡ text.old ++ next_fields next) }
{
    match next {
        None => Ok(()),
        Some((req, threads)) => {
            text.request("next", req)?;
            text.threads(threads)
        }
    }
}

/// Adds what the registry answered.
#[tactic(auto, unfolding(crate::specs::Registry::answer_fields))]
pub(crate) fn add_answer(text: &mut Text, answer: &Answer) -> Result<(), OutOfMemory>
    ensures { OnOk result (text.new ≡ text.old ++ answer_fields answer.now) }
{
    match answer {
        Answer::Opened {
            handle,
            dev,
            blocks,
        } => {
            add_answer_kind(text, "opened")?;
            text.handle("handle", *handle)?;
            text.device("device", *dev)?;
            text.blocks(*blocks)
        }
        Answer::Closed { destruct } => {
            add_answer_kind(text, "closed")?;
            text.device_if("destruct", *destruct)
        }
        Answer::Claimed => add_answer_kind(text, "claimed"),
        Answer::Got { fresh, frozen } => {
            add_answer_kind(text, "got")?;
            text.word("fresh", flag_word(*fresh).as_bytes())?;
            add_frozen(text, frozen.as_slice())
        }
        Answer::PutDown { left } => {
            add_answer_kind(text, "put-down")?;
            text.number("left", *left)
        }
        Answer::Dropped {
            what,
            zero,
            destruct,
        } => {
            add_answer_kind(text, "dropped")?;
            text.word("channel", drop_word(*what).as_bytes())?;
            text.device_if("zero", *zero)?;
            text.device_if("destruct", *destruct)
        }
        Answer::Removing {
            dev,
            threads,
            handles,
            destruct,
        } => {
            add_answer_kind(text, "removing")?;
            text.device("device", *dev)?;
            text.threads(*threads)?;
            add_handles(text, handles.as_slice())?;
            text.device_if("destruct", *destruct)
        }
        Answer::ResetStarted { threads } => {
            add_answer_kind(text, "reset-started")?;
            text.threads(*threads)
        }
        Answer::ResetQueued => add_answer_kind(text, "reset-queued"),
        Answer::ResetEnded { threads } => {
            add_answer_kind(text, "reset-ended")?;
            text.threads(*threads)
        }
        Answer::ResetFinished { next } => {
            add_answer_kind(text, "reset-finished")?;
            add_next(text, *next)
        }
        Answer::Injected { decision } => {
            add_answer_kind(text, "injected")?;
            text.word("decision", decision_word(*decision).as_bytes())
        }
        Answer::Freed { close } => {
            add_answer_kind(text, "freed")?;
            text.handle_if("close", *close)
        }
        Answer::Resizing { dev, home } => {
            add_answer_kind(text, "resizing")?;
            text.device("device", *dev)?;
            text.number("home", u128::from(home.0))
        }
        Answer::Resized {
            handles,
            blocks,
            destruct,
        } => {
            add_answer_kind(text, "resized")?;
            text.blocks(*blocks)?;
            add_handles(text, handles.as_slice())?;
            text.device_if("destruct", *destruct)
        }
        Answer::Refused(errno) => {
            add_answer_kind(text, "refused")?;
            add_errno(text, *errno)
        }
    }
}
