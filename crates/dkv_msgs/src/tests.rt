// Bodies as protoc spells them are read and written again, and what is no message is refused.
use crate::{
    ReadError, fails_reply, read_atomic_write, read_atomic_write_output, read_reply,
    read_snapshot_read, read_snapshot_read_output, read_watch, read_watch_output,
    write_atomic_write, write_atomic_write_output, write_snapshot_read, write_snapshot_read_output,
    write_watch, write_watch_output, written_reply,
};

mod requests;

use dkv_base::{Bytes, NoMemory, Run};
use std::alloc::Global;
use std::test::Fail;

// ---- a body, read and written again

fn read_again(alloc: Global, body: &[u8]) -> Result<Bytes, ReadError> {
    let message = read_snapshot_read(alloc, body)?;
    Ok(write_snapshot_read(alloc, &message)?)
}

fn write_again(alloc: Global, body: &[u8]) -> Result<Bytes, ReadError> {
    let message = read_atomic_write(alloc, body)?;
    Ok(write_atomic_write(alloc, &message)?)
}

fn watch_again(alloc: Global, body: &[u8]) -> Result<Bytes, ReadError> {
    let message = read_watch(alloc, body)?;
    Ok(write_watch(alloc, &message)?)
}

fn read_output_again(alloc: Global, body: &[u8]) -> Result<Bytes, ReadError> {
    let message = read_snapshot_read_output(alloc, body)?;
    Ok(write_snapshot_read_output(alloc, &message)?)
}

fn write_output_again(alloc: Global, body: &[u8]) -> Result<Bytes, ReadError> {
    let message = read_atomic_write_output(alloc, body)?;
    Ok(write_atomic_write_output(alloc, &message)?)
}

fn watch_output_again(alloc: Global, body: &[u8]) -> Result<Bytes, ReadError> {
    let message = read_watch_output(alloc, body)?;
    Ok(write_watch_output(alloc, &message)?)
}

// Two ranges, of which the second has a limit of -1 in ten bytes.
#[test]
fn reads_are_written_as_protoc_does(rt: HostRuntime) -> Result<(), Fail> {
    let body: &[u8] = b"\x0a\x0b\x0a\x01a\x12\x01b\x18\xac\x02\x20\x01\
        \x0a\x0b\x18\xff\xff\xff\xff\xff\xff\xff\xff\xff\x01";
    let got = read_again(rt.alloc(), body)?;
    assert_eq!(rt; got.as_slice(), body);
    Ok(())
}

// A check, a value, a deletion, and an enqueue with its keys and packed intervals.
#[test]
fn writes_are_written_as_protoc_does(rt: HostRuntime) -> Result<(), Fail> {
    let body: &[u8] = b"\x0a\x07\x0a\x01k\x12\x02\x00\x02\
        \x12\x17\x0a\x01a\x12\x05\x0a\x01x\x10\x03\x18\x01\x20\xfb\xff\xff\xff\xff\xff\xff\xff\xff\x01\
        \x12\x05\x0a\x01d\x18\x02\
        \x1a\x11\x0a\x01p\x10\xe8\x07\x1a\x01u\x1a\x01v\x22\x03d\xac\x02";
    let got = write_again(rt.alloc(), body)?;
    assert_eq!(rt; got.as_slice(), body);
    Ok(())
}

// A key, and one that is empty.
#[test]
fn watches_are_written_as_protoc_does(rt: HostRuntime) -> Result<(), Fail> {
    let body: &[u8] = b"\x0a\x03\x0a\x01k\x0a\x00";
    let got = watch_again(rt.alloc(), body)?;
    assert_eq!(rt; got.as_slice(), body);
    Ok(())
}

// A range of one entry, and one of none.
#[test]
fn replies_to_reads_are_written_as_protoc_does(rt: HostRuntime) -> Result<(), Fail> {
    let body: &[u8] =
        b"\x0a\x0f\x0a\x0d\x0a\x01k\x12\x02vw\x18\x03\x22\x02\x00\x01\x0a\x00\x20\x01\x40\x01";
    let got = read_output_again(rt.alloc(), body)?;
    assert_eq!(rt; got.as_slice(), body);
    Ok(())
}

// A key that stayed, one with an entry, and one that has none any more.
#[test]
fn frames_are_written_as_protoc_does(rt: HostRuntime) -> Result<(), Fail> {
    let body: &[u8] = b"\x08\x01\x12\x00\
        \x12\x10\x08\x01\x12\x0c\x0a\x01k\x12\x01v\x18\x01\x22\x02\x00\x03\
        \x12\x02\x08\x01";
    let got = watch_output_again(rt.alloc(), body)?;
    assert_eq!(rt; got.as_slice(), body);
    Ok(())
}

// Packed numbers as they are; others are packed; the last of a field counts, and defaults are left out.
#[test]
fn replies_to_writes_are_written_in_one_spelling(rt: HostRuntime) -> Result<(), Fail> {
    let rows: [(&[u8], &[u8]); 5] = [
        (
            b"\x08\x02\x22\x03\x00\xc8\x01",
            b"\x08\x02\x22\x03\x00\xc8\x01",
        ),
        (b"\x08\x01\x12\x02\x00\x01", b"\x08\x01\x12\x02\x00\x01"),
        (b"\x20\x00\x20\x07", b"\x22\x02\x00\x07"),
        (b"\x08\x05\x0a\x01a\x38\x07\x08\x02", b"\x08\x02"),
        (b"\x08\x00\x12\x00\x22\x00", b""),
    ];
    for (body, want) in rows {
        let got = write_output_again(rt.alloc(), body)?;
        assert_eq!(rt; got.as_slice(), want);
    }
    Ok(())
}

// The same write, with its value in two pieces and in one.
#[test]
fn a_value_in_two_pieces_is_one_value(rt: HostRuntime) -> Result<(), Fail> {
    let pieces: &[u8] = b"\x12\x10\x0a\x03\x02a\x00\x12\x03\x0a\x01x\x12\x02\x10\x03\x18\x01";
    let got = write_again(rt.alloc(), pieces)?;
    let want: &[u8] = b"\x12\x0e\x0a\x03\x02a\x00\x12\x05\x0a\x01x\x10\x03\x18\x01";
    assert_eq!(rt; got.as_slice(), want);
    Ok(())
}

// ---- a body that is no message

// A tag alone, a length past the end, the same inside a range, and a group behind one.
#[test]
fn a_read_is_refused_at_its_first_bad_place(rt: HostRuntime) -> Result<(), Fail> {
    let rows: [(&[u8], u64); 4] = [
        (b"\x0a", 0),
        (b"\x0a\x02\x18", 0),
        (b"\x0a\x01\x18", 2),
        (b"\x0a\x02\x18\x05\x0b", 4),
    ];
    for (body, at) in rows {
        let refused = read_again(rt.alloc(), body).err();
        assert_eq!(rt; refused, Some(ReadError::Malformed { at }));
    }
    Ok(())
}

// An eleventh byte of a number, and a packed number that is cut short.
#[test]
fn numbers_are_refused_at_their_field(rt: HostRuntime) -> Result<(), Fail> {
    let rows: [(&[u8], u64); 2] = [
        (b"\x08\x80\x80\x80\x80\x80\x80\x80\x80\x80\x80\x01", 0),
        (b"\x08\x01\x22\x01\x80", 2),
    ];
    for (body, at) in rows {
        let refused = write_output_again(rt.alloc(), body).err();
        assert_eq!(rt; refused, Some(ReadError::Malformed { at }));
    }
    Ok(())
}

// ---- what the fields are

fn shown_write(alloc: Global, body: &[u8]) -> Result<String, Fail> {
    let message = read_atomic_write(alloc, body)?;
    Ok(format!(in alloc; "{message:?}")?)
}

#[test]
fn a_write_has_the_fields_that_protoc_shows(rt: HostRuntime) -> Result<(), Fail> {
    let body: &[u8] = b"\x0a\x07\x0a\x01k\x12\x02\x00\x02\x12\x09\x0a\x01a\x12\x02\x10\x03\x18\x01\
        \x1a\x08\x0a\x01p\x10\x07\x22\x01d";
    let want = "AtomicWrite { checks: Run { items: [Check { key: Bytes { items: [107] }, \
        versionstamp: Bytes { items: [0, 2] } }] }, mutations: Run { items: [Mutation { key: \
        Bytes { items: [97] }, value: Some(Value { bytes: Bytes { items: [] }, encoding: 3 }), \
        kind: 1, expire_at_ms: 0 }] }, enqueues: Run { items: [Enqueue { payload: Bytes { items: \
        [112] }, deadline_ms: 7, undelivered: Run { items: [] }, backoff: Run { items: [100] } }] } }";
    let shown = shown_write(rt.alloc(), body)?;
    assert_eq!(rt; shown.as_str(), want);
    Ok(())
}

fn shown_read(alloc: Global, body: &[u8]) -> Result<String, Fail> {
    let message = read_snapshot_read(alloc, body)?;
    Ok(format!(in alloc; "{message:?}")?)
}

#[test]
fn a_read_has_the_fields_that_protoc_shows(rt: HostRuntime) -> Result<(), Fail> {
    let body: &[u8] = b"\x0a\x0b\x0a\x01a\x12\x01b\x18\xac\x02\x20\x01";
    let want =
        "SnapshotRead { ranges: Run { items: [ReadRange { start: Bytes { items: [97] }, end: \
        Bytes { items: [98] }, limit: 300, reverse: true }] } }";
    let shown = shown_read(rt.alloc(), body)?;
    assert_eq!(rt; shown.as_str(), want);
    Ok(())
}

fn shown_read_output(alloc: Global, body: &[u8]) -> Result<String, Fail> {
    let message = read_snapshot_read_output(alloc, body)?;
    Ok(format!(in alloc; "{message:?}")?)
}

#[test]
fn a_reply_to_a_read_has_the_fields_that_protoc_shows(rt: HostRuntime) -> Result<(), Fail> {
    let body: &[u8] =
        b"\x0a\x0f\x0a\x0d\x0a\x01k\x12\x02vw\x18\x03\x22\x02\x00\x01\x0a\x00\x20\x01\x40\x01";
    let want = "SnapshotReadOutput { ranges: Run { items: [Run { items: [KvEntry { key: Bytes { \
        items: [107] }, value: Bytes { items: [118, 119] }, encoding: 3, versionstamp: Bytes { \
        items: [0, 1] } }] }, Run { items: [] }] }, read_disabled: false, strong: true, status: 1 }";
    let shown = shown_read_output(rt.alloc(), body)?;
    assert_eq!(rt; shown.as_str(), want);
    Ok(())
}

fn shown_write_output(alloc: Global, body: &[u8]) -> Result<String, Fail> {
    let message = read_atomic_write_output(alloc, body)?;
    Ok(format!(in alloc; "{message:?}")?)
}

#[test]
fn a_reply_to_a_write_has_the_fields_that_protoc_shows(rt: HostRuntime) -> Result<(), Fail> {
    let body: &[u8] = b"\x08\x02\x12\x02\x00\x01\x22\x03\x00\xc8\x01";
    let want = "AtomicWriteOutput { status: 2, versionstamp: Bytes { items: [0, 1] }, \
        failed_checks: Run { items: [0, 200] } }";
    let shown = shown_write_output(rt.alloc(), body)?;
    assert_eq!(rt; shown.as_str(), want);
    Ok(())
}

fn shown_frame(alloc: Global, body: &[u8]) -> Result<String, Fail> {
    let message = read_watch_output(alloc, body)?;
    Ok(format!(in alloc; "{message:?}")?)
}

#[test]
fn a_frame_has_the_fields_that_protoc_shows(rt: HostRuntime) -> Result<(), Fail> {
    let body: &[u8] = b"\x08\x01\x12\x10\x08\x01\x12\x0c\x0a\x01k\x12\x01v\x18\x01\x22\x02\x00\x03";
    let want = "WatchOutput { status: 1, keys: Run { items: [WatchKeyOutput { changed: true, \
        entry: Some(KvEntry { key: Bytes { items: [107] }, value: Bytes { items: [118] }, \
        encoding: 1, versionstamp: Bytes { items: [0, 3] } }) }] } }";
    let shown = shown_frame(rt.alloc(), body)?;
    assert_eq!(rt; shown.as_str(), want);
    Ok(())
}

// ---- what the database answers

fn one_empty_range(alloc: Global) -> Result<Bytes, NoMemory> {
    let mut ranges = Run::new(alloc);
    ranges.add(Run::new(alloc))?;
    read_reply(alloc, ranges.as_slice())
}

fn first_check_fails(alloc: Global) -> Result<Bytes, NoMemory> {
    let mut places = Run::new(alloc);
    places.add(0)?;
    fails_reply(alloc, places)
}

#[test]
fn an_empty_range_is_in_the_reply(rt: HostRuntime) -> Result<(), Fail> {
    let reply = one_empty_range(rt.alloc())?;
    let want: &[u8] = b"\x0a\x00\x20\x01\x40\x01";
    assert_eq!(rt; reply.as_slice(), want);
    Ok(())
}

#[test]
fn a_commit_is_told_by_its_stamp(rt: HostRuntime) -> Result<(), Fail> {
    let reply = written_reply(rt.alloc(), 1)?;
    let want: &[u8] = b"\x08\x01\x12\x0a\x00\x00\x00\x00\x00\x00\x00\x01\x00\x00";
    assert_eq!(rt; reply.as_slice(), want);
    Ok(())
}

#[test]
fn the_first_check_is_told_as_place_zero(rt: HostRuntime) -> Result<(), Fail> {
    let reply = first_check_fails(rt.alloc())?;
    let want: &[u8] = b"\x08\x02\x22\x01\x00";
    assert_eq!(rt; reply.as_slice(), want);
    Ok(())
}
