//! What a message brings.
ghost use Rattle.std.specs.Prelude.{◌≡◌, ◌++◌, OnOk};
ghost use Rattle.bd_trace.specs.Messages.{walk_field, message_field, token_fields};

use crate::text::Text;
use bd_base::{OutOfMemory, Token, WalkId};

// Adds what kind of message it is.
#[tactic(auto, unfolding(crate::specs::Messages::message_field))]
fn add_message(text: &mut Text, word: &str) -> Result<(), OutOfMemory>
    ensures { OnOk result (text.new ≡ text.old ++ message_field word.now) }
{
    text.word("message", word.as_bytes())
}

/// Adds a walk.
#[tactic(auto, unfolding(crate::specs::Messages::walk_field))]
pub(crate) fn add_walk(text: &mut Text, walk: WalkId) -> Result<(), OutOfMemory>
    ensures { OnOk result (text.new ≡ text.old ++ walk_field walk) }
{
    text.own("walk", walk.thread, walk.seq)
}

/// Adds what a message brings.
#[tactic(auto, unfolding(crate::specs::Messages::token_fields))]
pub(crate) fn add_token(text: &mut Text, token: &Token) -> Result<(), OutOfMemory>
    ensures { OnOk result (text.new ≡ text.old ++ token_fields token.now) }
{
    match token {
        Token::Request(req) => {
            add_message(text, "request")?;
            text.request("request", *req)
        }
        Token::Piece(req, k) => {
            add_message(text, "piece")?;
            text.request("request", *req)?;
            text.number("piece", u128::from(*k))
        }
        Token::Walk(walk) => {
            add_message(text, "walk")?;
            add_walk(text, *walk)
        }
        Token::Go(req, threads) => {
            add_message(text, "go")?;
            text.request("request", *req)?;
            text.threads(*threads)
        }
        Token::Gone(handle) => {
            add_message(text, "gone")?;
            text.handle("handle", *handle)
        }
        Token::Channel(dev) => {
            add_message(text, "channel")?;
            text.device("device", *dev)
        }
        Token::Device(dev) => {
            add_message(text, "device")?;
            text.device("device", *dev)
        }
        Token::Mark(mark) => {
            add_message(text, "mark")?;
            text.word("mark", mark.as_slice())
        }
        Token::Grow(dev, blocks) => {
            add_message(text, "grow")?;
            text.device("device", *dev)?;
            text.blocks(*blocks)
        }
        Token::Sized(handle, blocks) => {
            add_message(text, "sized")?;
            text.handle("handle", *handle)?;
            text.blocks(*blocks)
        }
    }
}
