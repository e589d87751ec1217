// The bodies of requests are refused by their counts, and before that at a bad place.
use crate::{RequestError, request_atomic_write, request_snapshot_read, request_watch};
use dkv_base::NoMemory;
use std::alloc::Global;
use std::test::Fail;

// A body of so many parts, and what stands behind them.
fn body_of(alloc: Global, part: &[u8], parts: usize, end: &[u8]) -> Result<Vec<u8>, NoMemory> {
    let mut body = Vec::new(alloc);
    for _ in 0..parts {
        body.extend_from_slice(part)?;
    }
    body.extend_from_slice(end)?;
    Ok(body)
}

// The bad place, or 10,000 and the code of the limit, or 20,000 where there is no memory.
fn refused(error: RequestError) -> u64 {
    match error {
        RequestError::Malformed { at } => at,
        RequestError::Limit(passed) => 10_000 + u64::from(passed.code()),
        RequestError::NoMemory => 20_000,
    }
}

// How many parts were read, behind 30,000, or why none were.
fn told(alloc: Global, kind: char, body: &[u8]) -> u64 {
    match kind {
        'r' => match request_snapshot_read(alloc, body) {
            Ok(read) => 30_000 + read.ranges.len() as u64 % 10_000,
            Err(error) => refused(error),
        },
        'w' => match request_atomic_write(alloc, body) {
            Ok(write) => 30_000 + write.enqueues.len() as u64 % 10_000,
            Err(error) => refused(error),
        },
        _ => match request_watch(alloc, body) {
            Ok(watch) => 30_000 + watch.keys.len() as u64 % 10_000,
            Err(error) => refused(error),
        },
    }
}

#[test]
fn a_count_is_refused_behind_a_bad_place_alone(rt: HostRuntime) -> Result<(), Fail> {
    let cases: [(char, &[u8], usize, &[u8], u64); 10] = [
        ('r', b"\x0a\x00", 10, b"", 30_010),
        ('r', b"\x0a\x00", 11, b"", 10_020),
        ('r', b"\x0a\x00", 11, b"\x0a", 22),
        ('w', b"\x1a\x00", 1000, b"", 31_000),
        ('w', b"\x1a\x00", 1000, b"\x12\x00", 10_002),
        ('w', b"\x0a\x00", 101, b"\x1a\x00", 10_001),
        ('w', b"\x1a\x00", 1001, b"\x00", 2002),
        ('k', b"\x0a\x00", 10, b"", 30_010),
        ('k', b"\x0a\x00", 11, b"", 10_024),
        ('k', b"", 0, b"", 10_024),
    ];
    for (kind, part, parts, end, want) in cases {
        let body = body_of(rt.alloc(), part, parts, end)?;
        assert_eq!(rt; told(rt.alloc(), kind, &body), want);
    }
    Ok(())
}
