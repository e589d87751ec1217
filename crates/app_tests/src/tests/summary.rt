// `pipe --summary`: three lines in place of the replies, behind the last frame alone.
use super::running::{KEY, READ, SET, TAKE, WRITE, frame, joined, run_into};
use dkv_io::MemorySink;
use std::alloc::Global;
use std::process::Abort;
use std::test::*;

// A SET that ends at moment 100, and a write that enqueues the payload 70, due at 50.
const ENDING: &[u8] = b"\x12\x10\x0a\x03\x02\x61\0\x12\x05\x0a\x01\x78\x10\x03\x18\x01\x20\x64";

const ENQUEUE: &[u8] = b"\x1a\x05\x0a\x01\x70\x10\x32";

// A SET of the key 02 61 00 where it is absent.
const ABSENT: &[u8] =
    b"\x0a\x05\x0a\x03\x02\x61\0\x12\x0e\x0a\x03\x02\x61\0\x12\x05\x0a\x01\x78\x10\x03\x18\x01";

// The moment, the kind and the body of two frames, and the lines over both.
type Summed<'a> = ((u64, u8, &'a [u8]), (u64, u8, &'a [u8]), &'a [u8]);

fn sums_to(rt: &impl Abort, alloc: Global, summed: Summed<'_>) -> Result<(), Fail> {
    let (first, second, lines) = summed;
    let input = joined(
        alloc,
        &[
            &frame(alloc, first.0, first.1, first.2)?,
            &frame(alloc, second.0, second.1, second.2)?,
        ],
    )?;
    let mut sink = MemorySink::new(alloc, Vec::new(alloc));
    let (exit, errors) = run_into(alloc, Ok("pipe --summary"), &input, &[], &mut sink)?;
    assert_eq!(rt; (exit, errors.len()), (0, 0));
    assert_eq!(rt; sink.bytes(), lines);
    Ok(())
}

#[test]
fn frames_commits_visible_entries_and_pending_messages_are_counted(
    rt: HostRuntime,
) -> Result<(), Fail> {
    let sums: [Summed<'_>; 6] = [
        (
            (5, WRITE, SET),
            (6, READ, KEY),
            b"frames 2\ncommits 1\nentries 1 messages 0\n",
        ),
        (
            (5, WRITE, SET),
            (6, WRITE, ABSENT),
            b"frames 2\ncommits 1\nentries 1 messages 0\n",
        ),
        (
            (5, WRITE, SET),
            (6, WRITE, b"\x12"),
            b"frames 2\ncommits 1\nentries 1 messages 0\n",
        ),
        (
            (10, WRITE, ENDING),
            (99, READ, KEY),
            b"frames 2\ncommits 1\nentries 1 messages 0\n",
        ),
        (
            (10, WRITE, ENDING),
            (100, READ, KEY),
            b"frames 2\ncommits 1\nentries 0 messages 0\n",
        ),
        (
            (10, WRITE, ENQUEUE),
            (50, TAKE, b""),
            b"frames 2\ncommits 1\nentries 0 messages 1\n",
        ),
    ];
    for summed in sums {
        sums_to(&rt, rt.alloc(), summed)?;
    }
    Ok(())
}

// The input, the calls at which the source and the sink fail, and what comes of it: the exit status, the output and
// the error output.
type End<'a> = (&'a [u8], &'a [u64], &'a [u64], u8, &'a [u8], &'a [u8]);

fn ends_so(rt: &impl Abort, alloc: Global, end: End<'_>) -> Result<(), Fail> {
    let (input, source_fails, sink_fails, status, out, line) = end;
    let mut sink = MemorySink::new(alloc, sink_fails.to_vec(alloc)?);
    let (exit, errors) = run_into(alloc, Ok("pipe --summary"), input, source_fails, &mut sink)?;
    assert_eq!(rt; exit, status);
    assert_eq!(rt; sink.bytes(), out);
    assert_eq!(rt; errors.as_slice(), line);
    Ok(())
}

#[test]
fn nothing_is_written_but_at_the_end_of_the_input(rt: HostRuntime) -> Result<(), Fail> {
    let alloc = rt.alloc();
    let set = frame(alloc, 5, WRITE, SET)?;
    let bad = joined(alloc, &[&set, b"\x0c\0\0\0"])?;
    let cut = joined(alloc, &[&set, b"\x0d\0\0\0\x01"])?;
    let unbuilt = joined(alloc, &[&set, &frame(alloc, 6, 8, b"")?])?;
    let ends: [End<'_>; 8] = [
        (
            b"",
            &[],
            &[],
            0,
            b"frames 0\ncommits 0\nentries 0 messages 0\n",
            b"",
        ),
        (
            &set,
            &[],
            &[],
            0,
            b"frames 1\ncommits 1\nentries 1 messages 0\n",
            b"",
        ),
        (&set, &[1], &[], 3, b"", b"read fault\n"),
        (&bad, &[], &[0], 8, b"", b"bad frame at 33\n"),
        (&cut, &[], &[0], 8, b"", b"bad frame at 33\n"),
        (&unbuilt, &[], &[0], 15, b"", b"not built at 33\n"),
        (&set, &[], &[0], 4, b"", b"write fault\n"),
        (&set, &[], &[2], 4, b"frames 1", b"write fault\n"),
    ];
    for end in ends {
        ends_so(&rt, alloc, end)?;
    }
    Ok(())
}
