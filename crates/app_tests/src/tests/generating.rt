// `generate`, and `pipe` over what it writes.
use super::running::run_into;
use dkv_app::run_program;
use dkv_files::Pair;
use dkv_io::{ListRandom, MemorySink, MemorySource, Sink, VoidDisk};
use std::alloc::Global;
use std::process::Abort;
use std::test::*;

// Runs `generate` and this number. Gives the exit status and what the error output got.
fn generated<K: Sink>(alloc: Global, number: &str, sink: &mut K) -> Result<(u8, Vec<u8>), Fail> {
    let mut words = Vec::new(alloc);
    words.push(String::from_str(alloc, "generate")?)?;
    words.push(String::from_str(alloc, number)?)?;
    let mut source = MemorySource::new(Vec::new(alloc), Vec::new(alloc));
    let mut errors = MemorySink::new(alloc, Vec::new(alloc));
    let mut random = ListRandom::new(Vec::new(alloc), Vec::new(alloc));
    let files: Option<Pair<VoidDisk>> = None;
    let (exit, _files) = run_program(
        alloc,
        Ok(words),
        &mut source,
        sink,
        &mut errors,
        files,
        &mut random,
    );
    Ok((exit, errors.bytes().to_vec(alloc)?))
}

// How many replies there are, each shorter than 256 bytes, and how many have another status than 0.
fn replies_of(bytes: &[u8]) -> (u64, u64) {
    let (mut replies, mut others) = (0u64, 0u64);
    let (mut place, mut len) = (0usize, 0usize);
    for byte in bytes {
        if place == len {
            (place, len) = (0, usize::from(*byte) + 4);
            replies = replies.saturating_add(1);
        }
        if place == 4 && *byte != 0 {
            others = others.saturating_add(1);
        }
        place = place.saturating_add(1);
    }
    (replies, others)
}

#[test]
fn each_frame_of_a_workload_is_answered_as_done(rt: HostRuntime) -> Result<(), Fail> {
    let alloc = rt.alloc();
    for number in ["7", "18446744073709551615"] {
        let mut frames = MemorySink::new(alloc, Vec::new(alloc));
        let (exit, errors) = generated(alloc, number, &mut frames)?;
        assert_eq!(rt; (exit, errors.len()), (0, 0));
        assert_eq!(rt; frames.bytes().len(), 1_068_516);
        let mut replies = MemorySink::new(alloc, Vec::new(alloc));
        let (exit, errors) = run_into(alloc, Ok("pipe"), frames.bytes(), &[], &mut replies)?;
        assert_eq!(rt; (exit, errors.len()), (0, 0));
        assert_eq!(rt; replies_of(replies.bytes()), (24_000, 0));
    }
    Ok(())
}

#[test]
fn a_workload_is_summed(rt: HostRuntime) -> Result<(), Fail> {
    let alloc = rt.alloc();
    let mut frames = MemorySink::new(alloc, Vec::new(alloc));
    let (exit, errors) = generated(alloc, "7", &mut frames)?;
    assert_eq!(rt; (exit, errors.len()), (0, 0));
    let mut lines = MemorySink::new(alloc, Vec::new(alloc));
    let (exit, errors) = run_into(alloc, Ok("pipe --summary"), frames.bytes(), &[], &mut lines)?;
    assert_eq!(rt; (exit, errors.len()), (0, 0));
    assert_eq!(rt;
        lines.bytes(),
        b"frames 24000\ncommits 16000\nentries 1010 messages 0\n".as_slice()
    );
    Ok(())
}

// The number, the write that fails, and what comes of it: the exit status, the bytes that were written and the error output.
type End<'a> = (&'a str, u64, u8, usize, &'a [u8]);

fn ends_so(rt: &impl Abort, alloc: Global, end: End<'_>) -> Result<(), Fail> {
    let (number, write, status, len, line) = end;
    let mut sink = MemorySink::new(alloc, [write].to_vec(alloc)?);
    let (exit, errors) = generated(alloc, number, &mut sink)?;
    assert_eq!(rt; exit, status);
    assert_eq!(rt; sink.bytes().len(), len);
    assert_eq!(rt; errors.as_slice(), line);
    Ok(())
}

#[test]
fn a_failed_write_and_bad_words_are_told(rt: HostRuntime) -> Result<(), Fail> {
    let ends: [End<'_>; 5] = [
        ("7", 0, 4, 0, b"write fault\n"),
        ("7", 2, 4, 526, b"write fault\n"),
        ("7", 4000, 0, 1_068_516, b""),
        ("seven", 9, 2, 0, b"bad words\n"),
        ("18446744073709551616", 9, 2, 0, b"bad words\n"),
    ];
    for end in ends {
        ends_so(&rt, rt.alloc(), end)?;
    }
    Ok(())
}
