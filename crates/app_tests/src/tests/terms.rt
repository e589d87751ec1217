// Terms that end, and what the next one begins with.
use super::files::run;
use super::running::{
    ACKNOWLEDGE, DONE, FOUND, KEY, NONE_FOUND, NOT_OUT, READ, SET, Said, TAKE, TERM, WRITE,
    WRITTEN, frame, talk,
};
use std::alloc::Global;
use std::test::*;

// The message (1, 0), alone and with the payload 70.
const FIRST: &[u8] = &[1, 0, 0, 0, 0, 0, 0, 0, 0, 0, 0, 0];

const LEASED: &[u8] = b"\x0e\0\0\0\0\x01\0\0\0\0\0\0\0\0\0\0\0\x70";

#[test]
fn a_term_forgets_what_is_out(rt: HostRuntime) -> Result<(), Fail> {
    let enqueue = b"\x1a\x03\x0a\x01\x70";
    let said: [Said<'_>; 6] = [
        (3, WRITE, enqueue, WRITTEN),
        (9, TAKE, b"", LEASED),
        (9, TERM, b"", DONE),
        (9, ACKNOWLEDGE, FIRST, NOT_OUT),
        (9, TAKE, b"", LEASED),
        (9, ACKNOWLEDGE, FIRST, b"\x09\0\0\0\0\x02\0\0\0\0\0\0\0"),
    ];
    talk(&rt, rt.alloc(), &said)
}

// A SET of the key 02 61 00 to 78, which ends at 100.
const AT_100: &[u8] = b"\x12\x10\x0a\x03\x02\x61\0\x12\x05\x0a\x01\x78\x10\x03\x18\x01\x20\x64";

#[test]
fn a_term_begins_at_the_moment_of_the_last_commit(rt: HostRuntime) -> Result<(), Fail> {
    let said: [Said<'_>; 6] = [
        (10, WRITE, AT_100, WRITTEN),
        (100, READ, KEY, NONE_FOUND),
        (50, READ, KEY, NONE_FOUND),
        (200, TERM, b"", DONE),
        (50, READ, KEY, FOUND),
        (100, READ, KEY, NONE_FOUND),
    ];
    talk(&rt, rt.alloc(), &said)
}

// The statuses of replies, which have at most 255 bytes behind their length.
fn statuses(alloc: Global, replies: &[u8]) -> Result<Vec<u8>, Fail> {
    let mut all = Vec::new(alloc);
    let (mut place, mut len) = (0usize, 0usize);
    for byte in replies {
        if place == len {
            (place, len) = (0, usize::from(*byte) + 4);
        }
        if place == 4 {
            all.push(*byte)?;
        }
        place = place.saturating_add(1);
    }
    Ok(all)
}

// The eleventh write finds the trail full, and one behind a term does not.
#[test]
fn a_term_begins_with_no_item(rt: HostRuntime) -> Result<(), Fail> {
    let alloc = rt.alloc();
    let mut input = Vec::new(alloc);
    for _ in 0..11 {
        input.extend_from_slice(&frame(alloc, 1, WRITE, SET)?)?;
    }
    input.extend_from_slice(&frame(alloc, 1, TERM, b"")?)?;
    input.extend_from_slice(&frame(alloc, 1, WRITE, SET)?)?;
    let left = run(alloc, "pipe --trail 1000", &input, b"", &[])?;
    assert_eq!(rt; left.exit, 0);
    let said = statuses(alloc, &left.out)?;
    let wanted: [u8; 13] = [0, 0, 0, 0, 0, 0, 0, 0, 0, 0, 5, 0, 0];
    assert_eq!(rt; said.as_slice(), wanted.as_slice());
    Ok(())
}

// A run over a folder goes on behind its terms, and all of its commits are there when it is checked.
#[test]
fn the_commits_of_all_terms_are_in_the_folder(rt: HostRuntime) -> Result<(), Fail> {
    let alloc = rt.alloc();
    let made = run(alloc, "create d", b"", b"", &[])?;
    let mut input = Vec::new(alloc);
    for kind in [WRITE, TERM, WRITE, TERM, TERM, WRITE] {
        let body = if kind == WRITE { SET } else { b"" };
        input.extend_from_slice(&frame(alloc, 1, kind, body)?)?;
    }
    let left = run(alloc, "pipe --folder d", &input, &made.a, &[])?;
    assert_eq!(rt; left.exit, 0);
    let checked = run(alloc, "check d", b"", &left.a, &[])?;
    assert_eq!(rt; checked.exit, 0);
    let lines = b"commits 3\nentries 1 messages 0\n";
    assert!(rt; checked.out.ends_with(lines.as_slice()));
    Ok(())
}
