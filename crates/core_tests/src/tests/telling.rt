// How a step went, as a short text.
use dkv_base::{Answer, Entry, Frame, KeyFrame, Message, Run};
use std::alloc::Global;
use std::fmt::Write;
use std::test::Fail;

/// A word and numbers.
pub fn say(alloc: Global, word: &str, numbers: &[u64]) -> Result<String, Fail> {
    let mut text = String::from_str(alloc, word)?;
    for number in numbers {
        write!(text, " {number}")?;
    }
    Ok(text)
}

/// What stands under a key: a number, or the payload of a message that was not delivered, and the commit that stored it.
pub fn say_entry(
    text: &mut String,
    key: u8,
    is_payload: bool,
    number: u64,
    commit: u64,
) -> Result<(), Fail> {
    let key = char::from(key);
    let word = if is_payload { "payload " } else { "" };
    write!(text, ", {key} {word}{number} {commit}")?;
    Ok(())
}

/// A message that was taken: its id, its payload, when it was due and how often it failed.
pub fn say_leased(
    alloc: Global,
    id: (u64, u64),
    payload: u64,
    due: u64,
    fails: u64,
) -> Result<String, Fail> {
    let word = if fails > 0 { "leased again" } else { "leased" };
    say(alloc, word, &[id.0, id.1, payload, due, fails])
}

// The number of an LE64; the first byte of a payload.
fn number_of(entry: &Entry) -> u64 {
    let bytes = entry.bytes.as_slice();
    if let Some(eight) = bytes.first_chunk::<8>() {
        return u64::from_le_bytes(*eight);
    }
    bytes.first().map_or(0, |byte| u64::from(*byte))
}

fn say_found(text: &mut String, entry: &Entry) -> Result<(), Fail> {
    let key = entry.key.as_slice().first().copied().unwrap_or(b'?');
    say_entry(
        text,
        key,
        entry.encoding == 1,
        number_of(entry),
        entry.commit,
    )
}

/// The entries of all ranges.
pub fn say_entries(alloc: Global, ranges: &Run<Run<Entry>>) -> Result<String, Fail> {
    let mut text = String::from_str(alloc, "found")?;
    for entries in ranges.as_slice() {
        for entry in entries.as_slice() {
            say_found(&mut text, entry)?;
        }
    }
    Ok(text)
}

fn say_message(alloc: Global, message: &Message) -> Result<String, Fail> {
    let payload = message.payload.as_slice().first().copied().unwrap_or(0);
    let id = (message.id.commit, u64::from(message.id.index));
    say_leased(
        alloc,
        id,
        u64::from(payload),
        message.due,
        u64::from(message.fails),
    )
}

fn say_places(alloc: Global, places: &Run<u32>) -> Result<String, Fail> {
    let mut numbers = Vec::new(alloc);
    for place in places.as_slice() {
        numbers.push(u64::from(*place))?;
    }
    say(alloc, "fails", &numbers)
}

/// What a frame tells of a key that didn't change, or that is absent.
pub fn say_key(text: &mut String, changed: bool) -> Result<(), Fail> {
    text.push_str(if changed { ", absent" } else { ", same" })?;
    Ok(())
}

fn say_key_frame(text: &mut String, key: &KeyFrame) -> Result<(), Fail> {
    match &key.entry {
        Some(entry) => say_found(text, entry),
        None => say_key(text, key.changed),
    }
}

fn say_frame(alloc: Global, frame: &Frame) -> Result<String, Fail> {
    let mut text = String::from_str(alloc, "frame")?;
    for key in frame.keys.as_slice() {
        say_key_frame(&mut text, key)?;
    }
    Ok(text)
}

pub fn say_answer(alloc: Global, answer: &Answer) -> Result<String, Fail> {
    match answer {
        Answer::Written { n } => say(alloc, "written", &[*n]),
        Answer::Fails(places) => say_places(alloc, places),
        Answer::NotU64 { index } => say(alloc, "no number", &[u64::from(*index)]),
        Answer::Entries(ranges) => say_entries(alloc, ranges),
        Answer::Leased(message) => say_message(alloc, message),
        Answer::Nothing { next: Some(next) } => say(alloc, "nothing", &[*next]),
        Answer::Nothing { next: None } => say(alloc, "nothing", &[]),
        Answer::Settled { n } => say(alloc, "settled", &[*n]),
        Answer::NoLease => say(alloc, "not out", &[]),
        Answer::Limit(_) => say(alloc, "limit", &[]),
        Answer::Frame(Some(frame)) => say_frame(alloc, frame),
        Answer::Frame(None) => say(alloc, "no frame", &[]),
        Answer::NoWatch => say(alloc, "no watch", &[]),
    }
}
