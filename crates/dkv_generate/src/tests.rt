// Whole workloads, against what a program of another language makes (bench/workload.py).
use crate::{GenerateEnd, generate};
use dkv_io::{Failed, MemorySink, Sink};
use std::alloc::Global;
use std::process::Abort;
use std::test::*;

// The bytes of a workload.
const WHOLE: usize = 1_068_516;

// The frames of the first group of the workload of 7.
const FIRST: [&[u8]; 6] = [
    b"`\0\0\0\x01\0\0\0\xe8\x03\0\0\0\0\0\0\x02\x12Q\x0a\x07\x02item\0\x14\x12D\x0a@\x8a\xfb}\x0f\xbc(C~\x91.\xa8\x8f\x7f\x1a\xa6\xf4\xcc\x9fv\xcdbZ\x15\xe8+\xccC\x80\"\xb7\xd2E\xde\xb9\xa2\xbe\xd2q1DUOmJ\x07\x92o#@\x9er\xaf\xd0\x7f#g\x8f\x12O\xc6(prR\x10\x03\x18\x01",
    b"'\0\0\0\x01\0\0\0\xe8\x03\0\0\0\0\0\0\x02\x12\x18\x0a\x06\x02sum\0\x14\x12\x0c\x0a\x08\x01\0\0\0\0\0\0\0\x10\x02\x18\x03",
    b"$\0\0\0\x01\0\0\0\xe8\x03\0\0\0\0\0\0\x01\x0a\x15\x0a\x07\x02item\0\x14\x12\x08\x02item\0\x14\0\x18\x01",
    b"\x1c\0\0\0\x01\0\0\0\xe8\x03\0\0\0\0\0\0\x02\x1a\x0d\x0a\x08r\xb5\xbdN\xb6\xe17\xfb\x10\xe8\x07",
    b"\x0d\0\0\0\x01\0\0\0\xe8\x03\0\0\0\0\0\0\x05",
    b"\x19\0\0\0\x01\0\0\0\xe8\x03\0\0\0\0\0\0\x06\x03\0\0\0\0\0\0\0\0\0\0\0",
];

// Its last two.
const LAST: &[u8] =
    b"\x0d\0\0\0\x03\0\0\0\x87\x13\0\0\0\0\0\0\x05\x19\0\0\0\x03\0\0\0\x87\x13\0\0\0\0\0\0\x06\x7f>\0\0\0\0\0\0\0\0\0\0";

// Numbers and the 64-bit FNV-1a hashes of their workloads.
const HASHES: [(u64, u64); 4] = [
    (0, 10_367_801_527_435_534_944),
    (7, 6_047_324_132_250_840_556),
    (8, 5_499_919_667_100_329_536),
    (u64::MAX, 11_537_586_264_488_682_142),
];

fn workload(alloc: Global, number: u64) -> Result<Vec<u8>, Fail> {
    let mut sink = MemorySink::new(alloc, Vec::new(alloc));
    generate(alloc, number, &mut sink)?;
    Ok(sink.bytes().to_vec(alloc)?)
}

fn hash_of(bytes: &[u8]) -> u64 {
    let mut hash = 0xcbf2_9ce4_8422_2325u64;
    for byte in bytes {
        hash = (hash ^ u64::from(*byte)).wrapping_mul(0x100_0000_01b3);
    }
    hash
}

#[test]
fn the_first_and_the_last_frames_are_the_stated_ones(rt: HostRuntime) -> Result<(), Fail> {
    let alloc = rt.alloc();
    let mut first = Vec::new(alloc);
    for frame in FIRST {
        first.extend_from_slice(frame)?;
    }
    let whole = workload(alloc, 7)?;
    assert!(rt; whole.starts_with(&first));
    assert!(rt; whole.ends_with(LAST));
    Ok(())
}

#[test]
fn each_byte_is_what_the_other_program_writes(rt: HostRuntime) -> Result<(), Fail> {
    for (number, hash) in HASHES {
        let whole = workload(rt.alloc(), number)?;
        assert_eq!(rt; whole.len(), WHOLE);
        assert_eq!(rt; hash_of(&whole), hash);
    }
    Ok(())
}

// Whether a place of a frame is in the value or the message that its numbers make: so many bytes long is the frame, and so many
// frames are before it.
fn is_drawn(before: u64, place: usize, len: usize) -> bool {
    match before % 6 {
        0 => len.saturating_sub(68) <= place && place < len.saturating_sub(4),
        3 => (21..29).contains(&place),
        _ => false,
    }
}

// How many frames there are, each shorter than 256 bytes, and how many places differ that may not.
fn compared(one: &[u8], other: &[u8]) -> (u64, u64) {
    let (mut frames, mut wrong) = (0u64, 0u64);
    let (mut place, mut len) = (0usize, 0usize);
    for (a, b) in one.iter().zip(other) {
        if place == len {
            (place, len) = (0, usize::from(*a) + 4);
            frames = frames.saturating_add(1);
        }
        if a != b && !is_drawn(frames.saturating_sub(1), place, len) {
            wrong = wrong.saturating_add(1);
        }
        place = place.saturating_add(1);
    }
    (frames, wrong)
}

#[test]
fn two_workloads_differ_in_values_and_messages_alone(rt: HostRuntime) -> Result<(), Fail> {
    let seven = workload(rt.alloc(), 7)?;
    let eight = workload(rt.alloc(), 8)?;
    assert_eq!(rt; seven.len(), eight.len());
    assert_eq!(rt; compared(&seven, &eight), (24_000, 0));
    Ok(())
}

// A sink with room for so many bytes: it takes what fits of a write, and then fails.
#[derive(Drop)]
struct NarrowSink {
    bytes: Vec<u8>,
    room: usize,
    faults: u64,
}

impl Sink for NarrowSink {
    ghost use Rattle.std.specs.Prelude.{Some};

    ghost held = { λ s. Some s.bytes.items };

    ghost faults = { λ s. s.faults };

    fn write(&mut self, bytes: &[u8]) -> Result<(), Failed> {
        let fits = bytes.len().min(self.room);
        let taken = self.bytes.extend_from_slice(&bytes[..fits]).is_ok();
        if taken && fits == bytes.len() {
            self.room -= fits;
            return Ok(());
        }
        self.faults = self.faults.saturating_add(1);
        Err(Failed)
    }
}

// Only so many bytes have room.
fn stops_at(rt: &impl Abort, alloc: Global, whole: &[u8], room: usize) {
    let mut sink = NarrowSink {
        bytes: Vec::new(alloc),
        room,
        faults: 0,
    };
    let end = generate(alloc, 7, &mut sink);
    assert_eq!(rt; end, Err(GenerateEnd::WriteFault));
    assert_eq!(rt; sink.faults, 1);
    assert_eq!(rt; sink.bytes.len(), room);
    assert!(rt; whole.starts_with(&sink.bytes));
}

#[test]
fn a_sink_that_fails_within_a_frame_has_a_front(rt: HostRuntime) -> Result<(), Fail> {
    let alloc = rt.alloc();
    let whole = workload(alloc, 7)?;
    for room in [0, 1, 16, 100, 101, 260, 261, 262, 500_000, WHOLE - 1] {
        stops_at(&rt, alloc, &whole, room);
    }
    Ok(())
}

#[test]
fn a_write_that_fails_ends_it(rt: HostRuntime) -> Result<(), Fail> {
    let alloc = rt.alloc();
    for (write, len) in [(0, 0), (1, 261), (2, 526)] {
        let mut sink = MemorySink::new(alloc, [write].to_vec(alloc)?);
        assert_eq!(rt; generate(alloc, 7, &mut sink), Err(GenerateEnd::WriteFault));
        assert_eq!(rt; sink.bytes().len(), len);
        assert_eq!(rt; sink.plan.calls, write + 1);
    }
    Ok(())
}
