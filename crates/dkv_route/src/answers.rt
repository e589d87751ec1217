//! The responses to reads, writes and watches.
ghost use Rattle.std.specs.Prelude.{◌≡◌, IfOk};
ghost use Rattle.dkv_msgs.specs.Outputs.{told_range, told, read_output};
ghost use Rattle.dkv_msgs.specs.Spellings.{spell_snapshot_read_output};
ghost use Rattle.dkv_route.specs.Answers.{IsForRequest, answer_response, message_response, unserved_text, ends_session, unserved_response};

use crate::frames::frame_chunk;
use crate::kinds::Unserved;
use crate::texts::{limit_text, not_u64_text, response, text_response};
use dkv_base::{Answer, Bytes, Entry, NoMemory, Run, TryCopy};
use dkv_heads::statuses::{BAD_REQUEST, OK, SERVICE_UNAVAILABLE};
use dkv_http::Kind;
use dkv_msgs::{fails_reply, read_reply, written_reply};
use std::alloc::Global;

/// The response whose body is this message of KV Connect, as `dkv_msgs::read_reply` spells one. It ends the session where it is
/// to close. Takes memory for it.
pub fn message_response(alloc: Global, body: &[u8], close: bool) -> Result<Bytes, NoMemory>
    ensures { IfOk result (λ bytes. bytes ≡ message_response close body.now) }
{
    response(alloc, OK, Kind::Protobuf, body, close)
}

// Where the entries of a range stand.
fn found_range(alloc: Global, entries: &[Entry]) -> Result<Run<&Entry>, NoMemory>
    ensures { IfOk result (λ found. told_range found ≡ entries.now) }
{
    let mut found = Run::new(alloc);
    for entry in entries {
        found.add(entry)?;
    }
    Ok(found)
}

// The same of each range.
fn found(alloc: Global, ranges: &[Run<Entry>]) -> Result<Run<Run<&Entry>>, NoMemory>
    ensures { IfOk result (λ found. told found ≡ ranges.now) }
{
    let mut found = Run::new(alloc);
    for range in ranges {
        found.add(found_range(alloc, range.as_slice())?)?;
    }
    Ok(found)
}

// The message that tells the entries of each range.
fn entries_message(alloc: Global, ranges: &[Run<Entry>]) -> Result<Bytes, NoMemory>
    ensures { IfOk result (λ body.
        body ≡ spell_snapshot_read_output (read_output ranges.now)) }
{
    let found = found(alloc, ranges)?;
    read_reply(alloc, found.as_slice())
}

/// The response to a request by what the database answers, and one chunk of the response for a frame. It ends the session where
/// it is to close. Takes memory for it.
pub fn answer(alloc: Global, answer: &Answer, close: bool) -> Result<Bytes, NoMemory>
    requires { IsForRequest answer.now }
    ensures { IfOk result (λ bytes. bytes ≡ answer_response close answer.now) }
{
    match answer {
        Answer::Entries(ranges) => {
            let body = entries_message(alloc, ranges.as_slice())?;
            message_response(alloc, body.as_slice(), close)
        }
        Answer::Written { n } => {
            let body = written_reply(alloc, *n)?;
            message_response(alloc, body.as_slice(), close)
        }
        Answer::Fails(places) => {
            let body = fails_reply(alloc, places.copy(alloc)?)?;
            message_response(alloc, body.as_slice(), close)
        }
        Answer::NotU64 { index } => {
            let words = not_u64_text(alloc, *index)?;
            text_response(alloc, BAD_REQUEST, words.as_slice(), close)
        }
        Answer::Limit(passed) => {
            let text = limit_text(alloc, *passed)?;
            text_response(alloc, BAD_REQUEST, text.as_slice(), close)
        }
        Answer::Frame(Some(frame)) => frame_chunk(alloc, frame),
        Answer::Frame(None) => unreachable!(),
        Answer::Leased(_) | Answer::Nothing { next: _ } => unreachable!(),
        Answer::Settled { n: _ } | Answer::NoLease | Answer::NoWatch => unreachable!(),
    }
}

fn unserved_text(what: Unserved) -> &'static [u8]
    ensures { result.now ≡ unserved_text what }
{
    match what {
        Unserved::Stopping => b"stopping",
        Unserved::Full => b"full",
        Unserved::DiskFault => b"disk fault, the write may or may not stand",
    }
}

fn ends_session(what: Unserved) -> bool
    ensures { result ≡ ends_session what }
{
    match what {
        Unserved::Stopping | Unserved::Full => true,
        Unserved::DiskFault => false,
    }
}

/// The response to a write that is not served. It ends the session where it is to close, and always where the server stops or
/// the term is full. Takes memory for it.
pub fn unserved(alloc: Global, what: Unserved, close: bool) -> Result<Bytes, NoMemory>
    ensures { IfOk result (λ bytes. bytes ≡ unserved_response what close) }
{
    let close = ends_session(what) || close;
    text_response(alloc, SERVICE_UNAVAILABLE, unserved_text(what), close)
}
