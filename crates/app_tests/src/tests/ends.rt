// How runs end: at faults, at bad frames, at the end of the input, and by which exit status.
use super::running::{KEY, READ, SET, WRITE, WRITTEN, frame, joined, run_into};
use dkv_app::NoWords;
use dkv_io::{Failed, MemorySink, Sink};
use std::alloc::Global;
use std::process::Abort;
use std::test::*;

// The word, what stands behind a SET, the calls at which the source and the sink fail, and what comes of it: the exit
// status, the output and the error output.
type End<'a> = (
    Result<&'a str, NoWords>,
    &'a [u8],
    &'a [u64],
    &'a [u64],
    u8,
    &'a [u8],
    &'a [u8],
);

fn ends_so(rt: &impl Abort, alloc: Global, end: End<'_>) -> Result<(), Fail> {
    let (word, rest, source_fails, sink_fails, status, out, line) = end;
    let input = joined(alloc, &[&frame(alloc, 5, WRITE, SET)?, rest])?;
    let mut sink = MemorySink::new(alloc, sink_fails.to_vec(alloc)?);
    let (exit, errors) = run_into(alloc, word, &input, source_fails, &mut sink)?;
    assert_eq!(rt; exit, status);
    assert_eq!(rt; sink.bytes(), out);
    assert_eq!(rt; errors.as_slice(), line);
    Ok(())
}

fn front(bytes: &[u8], most: usize) -> &[u8] {
    &bytes[..bytes.len().min(most)]
}

#[test]
fn each_end_keeps_the_replies_before_it(rt: HostRuntime) -> Result<(), Fail> {
    let alloc = rt.alloc();
    let read = frame(alloc, 5, READ, KEY)?;
    let no_frame = b"bad frame at 33\n".as_slice();
    let ends: [End<'_>; 8] = [
        (Ok("pipe"), b"", &[], &[], 0, WRITTEN, b""),
        (Ok("serve"), b"", &[], &[], 2, b"", b"bad words\n"),
        (Err(NoWords::NotText), b"", &[], &[], 2, b"", b"bad words\n"),
        (Ok("pipe"), b"", &[1], &[], 3, WRITTEN, b"read fault\n"),
        (Ok("pipe"), &read, &[], &[1], 4, WRITTEN, b"write fault\n"),
        (Ok("pipe"), b"\x0c\0\0\0", &[], &[], 8, WRITTEN, no_frame),
        (Ok("pipe"), front(&read, 20), &[], &[], 8, WRITTEN, no_frame),
        (
            Err(NoWords::NoMemory),
            b"",
            &[],
            &[],
            14,
            b"",
            b"no memory\n",
        ),
    ];
    for end in ends {
        ends_so(&rt, alloc, end)?;
    }
    Ok(())
}

// The kind and the body of a frame, and the exit status.
const KINDS: [(u8, &[u8], u8); 13] = [
    (3, b"\x0a\x05\x0a\x03\x02\x61\0", 15),
    (4, b"", 15),
    (8, b"", 15),
    (5, b"\0", 8),
    (6, b"", 8),
    (6, &[0; 11], 8),
    (6, &[0; 13], 8),
    (7, &[0; 8], 8),
    (4, b"\0", 8),
    (8, b"\0", 8),
    (9, b"\0", 8),
    (0, b"", 8),
    (10, b"", 8),
];

#[test]
fn some_kinds_are_not_built_and_other_kinds_and_lengths_are_bad_frames(
    rt: HostRuntime,
) -> Result<(), Fail> {
    let alloc = rt.alloc();
    for (kind, body, status) in KINDS {
        let line = match status {
            15 => b"not built at 33\n".as_slice(),
            _ => b"bad frame at 33\n",
        };
        let last = frame(alloc, 6, kind, body)?;
        ends_so(
            &rt,
            alloc,
            (Ok("pipe"), &last, &[], &[], status, WRITTEN, line),
        )?;
    }
    Ok(())
}

// A sink with room for so many bytes: it takes what fits of a write, and then fails.
#[derive(Drop)]
struct NarrowSink {
    bytes: Vec<u8>,
    room: usize,
    faults: u64,
}

impl Sink for NarrowSink {
    ghost use Rattle.std.specs.Prelude.{Some};

    ghost held = { λ s. Some s.bytes.items };

    ghost faults = { λ s. s.faults };

    fn write(&mut self, bytes: &[u8]) -> Result<(), Failed> {
        let fits = bytes.len().min(self.room);
        let taken = self.bytes.extend_from_slice(&bytes[..fits]).is_ok();
        if taken && fits == bytes.len() {
            self.room -= fits;
            return Ok(());
        }
        self.faults = self.faults.saturating_add(1);
        Err(Failed)
    }
}

#[test]
fn a_sink_that_fails_in_mid_reply_has_a_front_of_it(rt: HostRuntime) -> Result<(), Fail> {
    let alloc = rt.alloc();
    let set = frame(alloc, 5, WRITE, SET)?;
    let input = joined(alloc, &[&set, &set])?;
    let mut sink = NarrowSink {
        bytes: Vec::new(alloc),
        room: WRITTEN.len() + 7,
        faults: 0,
    };
    let (exit, errors) = run_into(alloc, Ok("pipe"), &input, &[], &mut sink)?;
    assert_eq!(rt; exit, 4);
    assert_eq!(rt;
        sink.bytes.as_slice(),
        joined(alloc, &[WRITTEN, &WRITTEN[..7]])?.as_slice()
    );
    assert_eq!(rt; errors.as_slice(), b"write fault\n".as_slice());
    Ok(())
}
