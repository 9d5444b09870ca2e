//! What a line says of an act.
ghost use Rattle.std.specs.Prelude.{◌≡◌, ◌++◌, OnOk};
ghost use Rattle.bd_trace.specs.Acts.{of_request, of_device, of_piece, range_fields, cause_fields, shown_fields, outcome_fields, request_act, device_act, piece_act, walk_act, message_act, act_words};

use crate::messages::{add_token, add_walk};
use crate::registry::{add_answer, add_errno, add_event, add_type};
use crate::text::Text;
use crate::words::{decision_word, end_word, walk_word};
use bd_base::{AbortCause, Act, DevId, OutOfMemory, Outcome, ReqId, Shown, WalkId};

// Adds the request that an act is about.
#[tactic(auto, unfolding(crate::specs::Acts::of_request))]
fn add_request(text: &mut Text, req: ReqId) -> Result<(), OutOfMemory>
    ensures { OnOk result (text.new ≡ text.old ++ of_request req) }
{
    text.request("request", req)
}

// Adds the device that an act is about.
#[tactic(auto, unfolding(crate::specs::Acts::of_device))]
fn add_device(text: &mut Text, dev: DevId) -> Result<(), OutOfMemory>
    ensures { OnOk result (text.new ≡ text.old ++ of_device dev) }
{
    text.device("device", dev)
}

// Adds the request's piece that an act is about.
#[tactic(auto, unfolding(crate::specs::Acts::of_piece))]
fn add_piece(text: &mut Text, req: ReqId, k: u32, dev: DevId) -> Result<(), OutOfMemory>
    ensures { OnOk result (text.new ≡ text.old ++ of_piece req k dev) }
{
    add_request(text, req)?;
    text.number("piece", u128::from(k))?;
    add_device(text, dev)
}

// Adds a range in blocks.
#[tactic(auto, unfolding(crate::specs::Acts::range_fields))]
fn add_range(text: &mut Text, lba: u64, count: u64) -> Result<(), OutOfMemory>
    ensures { OnOk result (text.new ≡ text.old ++ range_fields lba count) }
{
    text.number("lba", u128::from(lba))?;
    text.number("count", u128::from(count))
}

// Adds why a request was aborted.
#[tactic(auto, unfolding(crate::specs::Acts::cause_fields))]
fn add_cause(text: &mut Text, cause: AbortCause) -> Result<(), OutOfMemory>
    ensures { OnOk result (text.new ≡ text.old ++ cause_fields cause) }
{
    match cause {
        AbortCause::Frozen(dev) => {
            text.word("cause", b"frozen")?;
            add_device(text, dev)
        }
        AbortCause::Removed(dev) => {
            text.word("cause", b"removed")?;
            add_device(text, dev)
        }
        AbortCause::Named(by) => {
            text.word("cause", b"named")?;
            text.request("by", by)
        }
    }
}

// Adds what a read showed, if it did.
#[tactic(auto, unfolding(crate::specs::Acts::shown_fields))]
fn add_shown(text: &mut Text, shown: Option<Shown>) -> Result<(), OutOfMemory>
    ensures { OnOk result (text.new ≡ text.old ++ shown_fields shown) }
{
    match shown {
        None => Ok(()),
        Some(shown) => {
            text.hex("first", &shown.first)?;
            text.hex("sha256", &shown.digest)
        }
    }
}

// Adds the outcome of a script's line.
#[tactic(auto, unfolding(crate::specs::Acts::outcome_fields))]
fn add_outcome(text: &mut Text, outcome: Outcome) -> Result<(), OutOfMemory>
    ensures { OnOk result (text.new ≡ text.old ++ outcome_fields outcome) }
{
    match outcome {
        Outcome::Done => text.word("outcome", b"ok"),
        Outcome::Errno(errno) => {
            text.word("outcome", b"refused")?;
            add_errno(text, errno)
        }
        Outcome::BusyOpen(open) => {
            text.word("outcome", b"busy")?;
            text.number("open", u128::from(open))
        }
        Outcome::Accepted(req) => {
            text.word("outcome", b"accepted")?;
            add_request(text, req)
        }
    }
}

// Adds the word of an act, and the request that it is about.
#[tactic(auto, unfolding(crate::specs::Acts::request_act))]
fn add_request_act(text: &mut Text, word: &str, req: ReqId) -> Result<(), OutOfMemory>
    ensures { OnOk result (text.new ≡ text.old ++ request_act word.now req) }
{
    text.add(word.as_bytes())?;
    add_request(text, req)
}

// Adds the word of an act, and the device that it is about.
#[tactic(auto, unfolding(crate::specs::Acts::device_act))]
fn add_device_act(text: &mut Text, word: &str, dev: DevId) -> Result<(), OutOfMemory>
    ensures { OnOk result (text.new ≡ text.old ++ device_act word.now dev) }
{
    text.add(word.as_bytes())?;
    add_device(text, dev)
}

// Adds the word of an act, and the piece that it is about.
#[tactic(auto, unfolding(crate::specs::Acts::piece_act))]
fn add_piece_act(
    text: &mut Text,
    word: &str,
    req: ReqId,
    k: u32,
    dev: DevId,
) -> Result<(), OutOfMemory>
    ensures { OnOk result (text.new ≡ text.old ++ piece_act word.now req k dev) }
{
    text.add(word.as_bytes())?;
    add_piece(text, req, k, dev)
}

// Adds the word of an act, and the walk that it is about.
#[tactic(auto, unfolding(crate::specs::Acts::walk_act))]
fn add_walk_act(text: &mut Text, word: &str, walk: WalkId) -> Result<(), OutOfMemory>
    ensures { OnOk result (text.new ≡ text.old ++ walk_act word.now walk) }
{
    text.add(word.as_bytes())?;
    add_walk(text, walk)
}

// Adds the word of a message, the other thread and its number.
#[tactic(auto, unfolding(crate::specs::Acts::message_act))]
fn add_message_act(
    text: &mut Text,
    word: &str,
    key: &str,
    other: u32,
    number: u128,
) -> Result<(), OutOfMemory>
    ensures { OnOk result (text.new ≡ text.old ++ message_act word.now key.now other number) }
{
    text.add(word.as_bytes())?;
    text.number(key, u128::from(other))?;
    text.number("number", number)
}

/// Adds what a line says of an act.
#[tactic(auto, unfolding(crate::specs::Acts::act_words))]
pub(crate) fn add_act(text: &mut Text, act: &Act) -> Result<(), OutOfMemory>
    ensures { OnOk result (text.new ≡ text.old ++ act_words act.now) }
{
    match act {
        Act::Put { to, number, what } => {
            add_message_act(text, "put", "to", *to, *number)?;
            add_token(text, what)
        }
        Act::Took {
            source,
            number,
            what,
        } => {
            add_message_act(text, "took", "from", *source, *number)?;
            add_token(text, what)
        }
        Act::Reg { event, answer } => {
            text.add(b"registry")?;
            add_event(text, event)?;
            add_answer(text, answer.get())
        }
        Act::Accept {
            dev,
            lba,
            handle,
            req,
            op,
            count,
        } => {
            add_request_act(text, "accept", *req)?;
            text.handle("handle", *handle)?;
            add_device(text, *dev)?;
            add_type(text, *op)?;
            add_range(text, *lba, *count)
        }
        Act::Refuse {
            errno,
            lba,
            handle,
            op,
            count,
        } => {
            text.add(b"refuse")?;
            add_errno(text, *errno)?;
            text.handle_if("handle", *handle)?;
            add_type(text, *op)?;
            add_range(text, *lba, *count)
        }
        Act::Inject { req, dev, decision } => {
            add_request_act(text, "inject", *req)?;
            add_device(text, *dev)?;
            text.word("decision", decision_word(*decision).as_bytes())
        }
        Act::Pend { req } => add_request_act(text, "pend", *req),
        Act::Let { req, dev, now } => {
            add_request_act(text, "let", *req)?;
            add_device(text, *dev)?;
            text.number("now", u128::from(*now))
        }
        Act::Cut { req, pieces } => {
            add_request_act(text, "cut", *req)?;
            text.number("pieces", u128::from(*pieces))
        }
        Act::Apply { req, k, dev, end } => {
            add_piece_act(text, "apply", *req, *k, *dev)?;
            text.word("end", end_word(*end).as_bytes())
        }
        Act::NoMem { req, k, dev } => add_piece_act(text, "nomem", *req, *k, *dev),
        Act::Hold { req, until } => {
            add_request_act(text, "hold", *req)?;
            text.number("until", u128::from(*until))
        }
        Act::Release { req, now } => {
            add_request_act(text, "release", *req)?;
            text.number("now", u128::from(*now))
        }
        Act::Abort { req, cause } => {
            add_request_act(text, "abort", *req)?;
            add_cause(text, *cause)
        }
        Act::Complete { req, status, shown } => {
            add_request_act(text, "complete", *req)?;
            text.word("status", status.word().as_bytes())?;
            add_shown(text, *shown)
        }
        Act::Visit { walk, dev, kind } => {
            add_walk_act(text, "visit", *walk)?;
            add_device(text, *dev)?;
            text.word("kind", walk_word(*kind).as_bytes())
        }
        Act::Tick { dev, now, slices } => {
            add_device_act(text, "tick", *dev)?;
            text.number("now", u128::from(*now))?;
            text.number("slices", u128::from(*slices))
        }
        Act::Destruct { dev, digest } => {
            add_device_act(text, "destruct", *dev)?;
            text.digest_if(*digest)
        }
        Act::Script { line, outcome } => {
            text.add(b"script")?;
            text.number("line", u128::from(*line))?;
            add_outcome(text, *outcome)
        }
        Act::Shutdown => text.add(b"shutdown"),
        Act::Grow { dev, blocks } => {
            add_device_act(text, "grow", *dev)?;
            text.blocks(*blocks)
        }
        Act::Grace { walk, until } => {
            add_walk_act(text, "grace", *walk)?;
            text.number("until", u128::from(*until))
        }
        Act::Due { walk, now } => {
            add_walk_act(text, "due", *walk)?;
            text.number("now", u128::from(*now))
        }
    }
}
