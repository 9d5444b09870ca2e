//! The tokens that a thread holds.
use bd_base::{DevId, OutOfMemory, ReqId, WalkId};
use bd_machine::{Id, Kept, News};
use bd_tokens::Tokens;
use std::alloc::Global;

// Four ids that differ in one part from those of another number, or in their kind.
fn ids_of(number: u32) -> [Id; 4] {
    let thread = 3;
    let seq = u64::from(number);
    [
        Id::Request(ReqId { thread, seq }),
        Id::Piece(ReqId { thread, seq: 0 }, number),
        Id::Walk(WalkId {
            thread,
            seq: u128::from(number),
        }),
        Id::Notice {
            sender: 3,
            receiver: 0,
            number: u128::from(number),
        },
    ]
}

fn device_of(kept: Option<&Kept>) -> Option<u32> {
    match kept {
        Some(Kept::Notice(News::Device(dev))) => Some(dev.0),
        _ => None,
    }
}

// The device of a token that is taken out.
fn taken(tokens: &mut Tokens, id: Id) -> Result<Option<u32>, OutOfMemory> {
    match tokens.take_out(id)? {
        Some(parcel) => Ok(device_of(Some(parcel.get()))),
        None => Ok(None),
    }
}

// Each of 400 tokens is held with a device of its own.
fn hold_all(tokens: &mut Tokens) -> Result<(), OutOfMemory> {
    tokens.reserve(16)?;
    for number in 0..100u32 {
        for id in ids_of(number) {
            tokens.hold(id, Kept::Notice(News::Device(DevId(number))))?;
        }
    }
    Ok(())
}

// How many are found as they were held. Those of odd numbers are let go.
fn let_odd_go(tokens: &mut Tokens) -> u32 {
    let mut found = 0u32;
    for number in 0..100u32 {
        for id in ids_of(number) {
            if device_of(tokens.get(id)) == Some(number) {
                found = found.saturating_add(1);
            }
            if number % 2 == 1 {
                tokens.let_go(id);
            }
        }
    }
    found
}

// How many come out as they were held.
fn take_all_out(tokens: &mut Tokens) -> Result<u32, OutOfMemory> {
    let mut found = 0u32;
    for number in 0..100u32 {
        for id in ids_of(number) {
            if taken(tokens, id)? == Some(number) {
                found = found.saturating_add(1);
            }
        }
    }
    Ok(found)
}

/// 400 tokens are held; each is looked up, every second number is let go, and then all are taken out.
pub(crate) fn counted(alloc: Global) -> Result<String, OutOfMemory> {
    let mut tokens = Tokens::new(alloc);
    hold_all(&mut tokens)?;
    let held = tokens.len();
    let found = let_odd_go(&mut tokens);
    let out = take_all_out(&mut tokens)?;
    let left = tokens.len();
    Ok(format!(in alloc; "{held} held, {found} found, {out} taken out, {left} left")?)
}

// At how many places of the walks that are held this one is.
fn places_of(tokens: &Tokens, number: u32) -> u32 {
    let mut places = 0u32;
    for place in 0..tokens.walk_count() {
        if let Some(walk) = tokens.walk_at(place) {
            if walk.thread == 3 && walk.seq == u128::from(number) {
                places = places.saturating_add(1);
            }
        }
    }
    places
}

// How many walks are held, at how many places each of six is found, and whether none is past the last place.
fn tell_walks(text: &mut String, tokens: &Tokens) -> Result<(), OutOfMemory> {
    let count = tokens.walk_count();
    write!(text, "{count} walks, found at")?;
    for number in 0..6u32 {
        let places = places_of(tokens, number);
        write!(text, " {places}")?;
    }
    text.push_str(" places")?;
    if tokens.walk_at(count).is_some() {
        text.push_str(", and past the last")?;
    }
    Ok(())
}

/// Six walks are held, twice each, beside as many tokens of each other kind; then every second token is let go.
pub(crate) fn walks(alloc: Global) -> Result<String, OutOfMemory> {
    let mut tokens = Tokens::new(alloc);
    for number in 0..12u32 {
        for id in ids_of(number % 6) {
            tokens.hold(id, Kept::Notice(News::Device(DevId(number))))?;
        }
    }
    let mut text = String::new(alloc);
    tell_walks(&mut text, &tokens)?;
    for number in [1u32, 3, 5] {
        for id in ids_of(number) {
            tokens.let_go(id);
        }
    }
    text.push_str("; ")?;
    tell_walks(&mut text, &tokens)?;
    Ok(text)
}
