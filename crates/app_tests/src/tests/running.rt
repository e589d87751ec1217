// Runs of the program over bytes in memory.
use super::files::words;
use dkv_app::{NoWords, run_program};
use dkv_files::Pair;
use dkv_io::{ListRandom, MemorySink, MemorySource, Sink, VoidDisk};
use std::alloc::Global;
use std::process::Abort;
use std::test::*;

// Kinds of frames.
pub const READ: u8 = 1;

pub const WRITE: u8 = 2;

pub const TAKE: u8 = 5;

pub const ACKNOWLEDGE: u8 = 6;

pub const FAIL: u8 = 7;

pub const TERM: u8 = 9;

// The reply of status 0 to a frame that has nothing to tell.
pub const DONE: &[u8] = b"\x01\0\0\0\0";

// A read of the key 02 61 00 alone, and the replies where it has no entry, and 78 of commit 1.
pub const KEY: &[u8] = b"\x0a\x0d\x0a\x03\x02\x61\0\x12\x04\x02\x61\0\0\x18\x01";

pub const NONE_FOUND: &[u8] = b"\x07\0\0\0\0\x0a\0\x20\x01\x40\x01";

pub const FOUND: &[u8] =
    b"\x1f\0\0\0\0\x0a\x18\x0a\x16\x0a\x03\x02\x61\0\x12\x01\x78\x18\x03\x22\x0a\0\0\0\0\0\0\0\x01\0\0\x20\x01\x40\x01";

// A SET of that key to 78, and the replies to writes that are commits 1, 2 and 3.
pub const SET: &[u8] = b"\x12\x0e\x0a\x03\x02\x61\0\x12\x05\x0a\x01\x78\x10\x03\x18\x01";

pub const WRITTEN: &[u8] = b"\x0f\0\0\0\0\x08\x01\x12\x0a\0\0\0\0\0\0\0\x01\0\0";

pub const SECOND: &[u8] = b"\x0f\0\0\0\0\x08\x01\x12\x0a\0\0\0\0\0\0\0\x02\0\0";

pub const THIRD: &[u8] = b"\x0f\0\0\0\0\x08\x01\x12\x0a\0\0\0\0\0\0\0\x03\0\0";

// The replies to a take that has nothing ever due, and to a settlement of what isn't out.
pub const NOTHING: &[u8] = b"\x09\0\0\0\x06\xff\xff\xff\xff\xff\xff\xff\xff";

pub const NOT_OUT: &[u8] = b"\x01\0\0\0\x07";

/// Runs the program on words, parted by one space each, over this input, where the source fails at the calls of these numbers.
/// Gives the exit status and what the error output got.
pub fn run_into<K: Sink>(
    alloc: Global,
    line: Result<&str, NoWords>,
    input: &[u8],
    source_fails: &[u64],
    sink: &mut K,
) -> Result<(u8, Vec<u8>), Fail> {
    let mut source = MemorySource::new(input.to_vec(alloc)?, source_fails.to_vec(alloc)?);
    let mut errors = MemorySink::new(alloc, Vec::new(alloc));
    let mut random = ListRandom::new(Vec::new(alloc), Vec::new(alloc));
    let words = match line {
        Ok(line) => Ok(words(alloc, line)?),
        Err(why) => Err(why),
    };
    let files = Some(Pair {
        a: VoidDisk,
        b: VoidDisk,
    });
    let (exit, _files) = run_program(
        alloc,
        words,
        &mut source,
        sink,
        &mut errors,
        files,
        &mut random,
    );
    Ok((exit, errors.bytes().to_vec(alloc)?))
}

pub fn joined(alloc: Global, parts: &[&[u8]]) -> Result<Vec<u8>, Fail> {
    let mut all = Vec::new(alloc);
    for part in parts {
        all.extend_from_slice(part)?;
    }
    Ok(all)
}

/// A frame of caller 1.
pub fn frame(alloc: Global, at: u64, kind: u8, body: &[u8]) -> Result<Vec<u8>, Fail> {
    let [a, b, c, d, ..] = (body.len() as u64).saturating_add(13).to_le_bytes();
    joined(
        alloc,
        &[
            &[a, b, c, d],
            &[1, 0, 0, 0],
            &at.to_le_bytes(),
            &[kind],
            body,
        ],
    )
}

/// The moment, the kind and the body of a frame, and its reply.
pub type Said<'a> = (u64, u8, &'a [u8], &'a [u8]);

/// Runs frames of caller 1, which have to get these replies.
pub fn talk(rt: &impl Abort, alloc: Global, said: &[Said<'_>]) -> Result<(), Fail> {
    let mut input = Vec::new(alloc);
    let mut wanted = Vec::new(alloc);
    for (at, kind, body, reply) in said {
        input.extend_from_slice(&frame(alloc, *at, *kind, body)?)?;
        wanted.extend_from_slice(reply)?;
    }
    let mut sink = MemorySink::new(alloc, Vec::new(alloc));
    let (exit, errors) = run_into(alloc, Ok("pipe"), &input, &[], &mut sink)?;
    assert_eq!(rt; exit, 0);
    assert_eq!(rt; sink.bytes(), wanted.as_slice());
    assert_eq!(rt; errors.len(), 0);
    Ok(())
}
