//! The responses byte by byte, each made with ample memory.
ghost use Rattle.std.specs.Prelude.{◌≡◌, ◌<◌, ◌^◌, ◌∷◌, [], pos, IfOk, length};
ghost use Rattle.dkv_route.specs.Answers.{frame_message};

use crate::{Unserved, answer, message_response, unserved, write_text};
use dkv_base::{Answer, Bytes, Entry, Frame, KeyFrame, Limit, NoMemory, Run};
use dkv_wire::Out;
use std::alloc::Global;
use std::test::Fail;

// The head before a message of KV Connect of so many bytes.
fn head(alloc: Global, length: usize) -> Result<String, Fail> {
    Ok(format!(in alloc;
        "HTTP/1.1 200 OK\r\ncontent-type: application/x-protobuf\r\ncontent-length: {length}\r\n\r\n"
    )?)
}

// Whether the response is the head and these bytes.
fn is_message(alloc: Global, response: &Bytes, message: &[u8]) -> Result<bool, Fail> {
    let head = head(alloc, message.len())?;
    let whole = Bytes::joined(alloc, head.as_bytes(), message)?;
    Ok(response.as_slice() == whole.as_slice())
}

#[test]
fn a_write_is_answered_with_its_stamp(rt: HostRuntime) -> Result<(), Fail> {
    let response = answer(rt.alloc(), &Answer::Written { n: 1 }, false)?;
    let message = [8, 1, 0x12, 10, 0, 0, 0, 0, 0, 0, 0, 1, 0, 0];
    assert!(rt; is_message(rt.alloc(), &response, &message)?);
    Ok(())
}

#[test]
fn failing_checks_are_answered_with_their_places(rt: HostRuntime) -> Result<(), Fail> {
    let mut places = Run::new(rt.alloc());
    places.add(0)?;
    let response = answer(rt.alloc(), &Answer::Fails(places), false)?;
    assert!(rt; is_message(rt.alloc(), &response, &[8, 2, 0x22, 1, 0])?);
    Ok(())
}

// The byte 78 under the text a, stored by commit 1.
fn entry(alloc: Global) -> Result<Entry, NoMemory>
    ensures { IfOk result (λ e. e ≡ record {
      key = 2 ∷ 97 ∷ 0 ∷ [];
      bytes = 120 ∷ [];
      encoding = pos 3;
      commit = 1;
      expire = 0;
    }) }
{
    Ok(Entry {
        key: Bytes::copy_of(alloc, &[2, b'a', 0])?,
        bytes: Bytes::copy_of(alloc, b"x")?,
        encoding: 3,
        commit: 1,
        expire: 0,
    })
}

// What a read of one range finds.
fn entries(alloc: Global, some: bool) -> Result<Run<Run<Entry>>, NoMemory> {
    let mut range = Run::new(alloc);
    if some {
        range.add(entry(alloc)?)?;
    }
    let mut ranges = Run::new(alloc);
    ranges.add(range)?;
    Ok(ranges)
}

#[test]
fn a_read_is_answered_with_its_entries(rt: HostRuntime) -> Result<(), Fail> {
    let none = answer(
        rt.alloc(),
        &Answer::Entries(entries(rt.alloc(), false)?),
        false,
    )?;
    assert!(rt; is_message(rt.alloc(), &none, &[0x0a, 0, 0x20, 1, 0x40, 1])?);
    let one = answer(
        rt.alloc(),
        &Answer::Entries(entries(rt.alloc(), true)?),
        false,
    )?;
    let message =
        b"\x0a\x18\x0a\x16\x0a\x03\x02a\0\x12\x01x\x18\x03\x22\x0a\0\0\0\0\0\0\0\x01\0\0\x20\x01\x40\x01";
    assert!(rt; is_message(rt.alloc(), &one, message)?);
    Ok(())
}

#[test]
fn a_spelled_message_is_answered_as_it_is(rt: HostRuntime) -> Result<(), Fail> {
    let response = message_response(rt.alloc(), b"abc", true)?;
    let whole =
        b"HTTP/1.1 200 OK\r\ncontent-type: application/x-protobuf\r\ncontent-length: 3\r\nconnection: close\r\n\r\nabc";
    assert_eq!(rt; response.as_slice(), whole.as_slice());
    Ok(())
}

// A frame of one key that changed and is absent.
#[tactic(auto, unfolding(dkv_base::specs::Protobuf::varint, dkv_base::specs::Protobuf::groups))]
fn absent_frame(alloc: Global) -> Result<Frame, NoMemory>
    ensures { IfOk result (λ f. length (frame_message f) < 2 ^ 32) }
{
    let mut keys = Run::new(alloc);
    keys.add(KeyFrame {
        changed: true,
        entry: None,
    })?;
    Ok(Frame { keys })
}

// A frame of one key that changed and has the entry above.
#[tactic(auto, unfolding(dkv_base::specs::Protobuf::varint, dkv_base::specs::Protobuf::groups))]
fn entry_frame(alloc: Global) -> Result<Frame, NoMemory>
    ensures { IfOk result (λ f. length (frame_message f) < 2 ^ 32) }
{
    let mut keys = Run::new(alloc);
    keys.add(KeyFrame {
        changed: true,
        entry: Some(entry(alloc)?),
    })?;
    Ok(Frame { keys })
}

#[test]
fn a_frame_is_one_chunk_with_its_length_in_front(rt: HostRuntime) -> Result<(), Fail> {
    let none = Answer::Frame(Some(absent_frame(rt.alloc())?));
    let chunk = answer(rt.alloc(), &none, true)?;
    assert_eq!(rt;
        chunk.as_slice(),
        b"a\r\n\x06\0\0\0\x08\x01\x12\x02\x08\x01\r\n".as_slice()
    );
    let one = Answer::Frame(Some(entry_frame(rt.alloc())?));
    let chunk = answer(rt.alloc(), &one, true)?;
    let whole =
        b"22\r\n\x1e\0\0\0\x08\x01\x12\x1a\x08\x01\x12\x16\x0a\x03\x02a\0\x12\x01x\x18\x03\x22\x0a\0\0\0\0\0\0\0\x01\0\0\r\n";
    assert_eq!(rt; chunk.as_slice(), whole.as_slice());
    Ok(())
}

// The whole response of a text.
fn text(alloc: Global, status: &str, text: &str, close: bool) -> Result<String, Fail> {
    let close = if close { "connection: close\r\n" } else { "" };
    let length = text.len() + 1;
    Ok(format!(in alloc;
        "HTTP/1.1 {status}\r\ncontent-type: text/plain\r\ncontent-length: {length}\r\n{close}\r\n{text}\n"
    )?)
}

#[test]
fn refused_writes_and_limits_are_told_in_words(rt: HostRuntime) -> Result<(), Fail> {
    let refused = answer(rt.alloc(), &Answer::NotU64 { index: 12 }, false)?;
    let whole = text(
        rt.alloc(),
        "400 Bad Request",
        "not a u64: mutation 12",
        false,
    )?;
    assert_eq!(rt; refused.as_slice(), whole.as_bytes());
    let limited = answer(rt.alloc(), &Answer::Limit(Limit::WatchKey), true)?;
    let whole = text(rt.alloc(), "400 Bad Request", "limit 25", true)?;
    assert_eq!(rt; limited.as_slice(), whole.as_bytes());
    Ok(())
}

#[test]
fn an_unserved_write_is_told_why(rt: HostRuntime) -> Result<(), Fail> {
    for (what, close, words, closes) in [
        (Unserved::Stopping, false, "stopping", true),
        (Unserved::Full, false, "full", true),
        (Unserved::Full, true, "full", true),
        (
            Unserved::DiskFault,
            false,
            "disk fault, the write may or may not stand",
            false,
        ),
        (
            Unserved::DiskFault,
            true,
            "disk fault, the write may or may not stand",
            true,
        ),
    ] {
        let response = unserved(rt.alloc(), what, close)?;
        let whole = text(rt.alloc(), "503 Service Unavailable", words, closes)?;
        assert_eq!(rt; response.as_slice(), whole.as_bytes());
    }
    Ok(())
}

#[test]
fn a_text_is_written_behind_what_stands_there(rt: HostRuntime) -> Result<(), Fail> {
    let mut out = Out::new(rt.alloc());
    out.reserve(700)?;
    out.put_raw(b"before");
    write_text(413, b"body too large", true, &mut out);
    let whole =
        b"beforeHTTP/1.1 413 Content Too Large\r\ncontent-type: text/plain\r\ncontent-length: 15\r\nconnection: close\r\n\r\nbody too large\n";
    assert_eq!(rt; out.finish().as_slice(), whole.as_slice());
    Ok(())
}
