// A database in two files: it is made, read, written, checked, damaged, and opened again after faults.
ghost use Rattle.std.specs.Prelude.{◌<◌, ◌^◌, length};

use super::running::{FOUND, KEY, READ, SECOND, SET, WRITE, WRITTEN, frame, joined};
use dkv_app::run_program;
use dkv_files::Pair;
use dkv_io::{ListRandom, MemoryDisk, MemorySink, MemorySource};
use std::alloc::Global;
use std::process::Abort;
use std::test::*;

// What a run leaves: its exit status, the output, the error output and the two files.
#[derive(Drop)]
pub(super) struct Left {
    pub(super) exit: u8,
    pub(super) out: Vec<u8>,
    line: Vec<u8>,
    pub(super) a: Vec<u8>,
    b: Vec<u8>,
}

// Words, parted by one space each.
pub(super) fn words(alloc: Global, line: &str) -> Result<Vec<String>, Fail> {
    let mut words = Vec::new(alloc);
    for word in line.split(' ') {
        words.push(String::from_str(alloc, word)?)?;
    }
    Ok(words)
}

fn disk(alloc: Global, bytes: &[u8], fails: &[u64]) -> Result<MemoryDisk, Fail>
    requires { length bytes.now < 2 ^ 63 }
{
    Ok(MemoryDisk::new(alloc, bytes.to_vec(alloc)?, fails.to_vec(alloc)?))
}

// Runs words over an input, a file a with these bytes and an empty file b, with so many random bytes of
// zero. The calls of these numbers fail on file a, and of the others on file b.
fn run_with(
    alloc: Global,
    line: &str,
    input: &[u8],
    file: &[u8],
    fails: &[u64],
    b_fails: &[u64],
    zeros: usize,
) -> Result<Left, Fail>
    requires { length file.now < 2 ^ 63 }
{
    let mut source = MemorySource::new(input.to_vec(alloc)?, Vec::new(alloc));
    let mut sink = MemorySink::new(alloc, Vec::new(alloc));
    let mut errors = MemorySink::new(alloc, Vec::new(alloc));
    let mut random = ListRandom::new(vec![in alloc; 0; zeros]?, Vec::new(alloc));
    let pair = Pair {
        a: disk(alloc, file, fails)?,
        b: disk(alloc, b"", b_fails)?,
    };
    let (exit, files) = run_program(
        alloc,
        Ok(words(alloc, line)?),
        &mut source,
        &mut sink,
        &mut errors,
        Some(pair),
        &mut random,
    );
    let (mut a, mut b) = (Vec::new(alloc), Vec::new(alloc));
    if let Some(pair) = files {
        a = pair.a.bytes().to_vec(alloc)?;
        b = pair.b.bytes().to_vec(alloc)?;
    }
    Ok(Left {
        exit,
        out: sink.bytes().to_vec(alloc)?,
        line: errors.bytes().to_vec(alloc)?,
        a,
        b,
    })
}

// The same with as many as are drawn, and no fault of file b.
pub(super) fn run(
    alloc: Global,
    line: &str,
    input: &[u8],
    file: &[u8],
    fails: &[u64],
) -> Result<Left, Fail>
    requires { length file.now < 2 ^ 63 }
{
    run_with(alloc, line, input, file, fails, &[], 48)
}

const CREATED: &[u8] = b"created 00000000-0000-4000-8000-000000000000\n";

const EMPTY: &[u8] =
    b"database 00000000-0000-4000-8000-000000000000\ncommits 0\nentries 0 messages 0\n";

const ONE: &[u8] =
    b"database 00000000-0000-4000-8000-000000000000\ncommits 1\nentries 1 messages 0\n";

const TWO: &[u8] =
    b"database 00000000-0000-4000-8000-000000000000\ncommits 2\nentries 1 messages 0\n";

// A reply that tells a fault of the disk.
const DISK_FAULT: &[u8] = b"\x01\0\0\0\x04";

// How many calls of file a an opening makes, where there is a record.
const OPENING: u64 = 7;

// File a of a new database, and of one with a SET.
fn new_file(alloc: Global) -> Result<Vec<u8>, Fail> {
    Ok(run(alloc, "create d", b"", b"", &[])?.a)
}

fn set_file(alloc: Global) -> Result<Vec<u8>, Fail> {
    let new = new_file(alloc)?;
    let set = frame(alloc, 5, WRITE, SET)?;
    Ok(run(alloc, "pipe --folder d", &set, &new, &[])?.a)
}

// Words, a frame's kind and body, and then the exit status, the output, the error output and how long
// file a is.
type Step<'a> = (&'a str, u8, &'a [u8], u8, &'a [u8], &'a [u8], usize);

const STEPS: [Step<'static>; 6] = [
    ("create d", READ, KEY, 0, CREATED, b"", 113),
    ("check d", READ, KEY, 0, EMPTY, b"", 113),
    ("pipe --folder d", WRITE, SET, 0, WRITTEN, b"", 147),
    ("check d", READ, KEY, 0, ONE, b"", 147),
    ("create d", READ, KEY, 9, b"", b"database exists\n", 147),
    ("pipe --folder d", READ, KEY, 0, FOUND, b"", 147),
];

#[test]
fn a_database_is_made_once_and_read_by_one_run_after_another(rt: HostRuntime) -> Result<(), Fail> {
    let alloc = rt.alloc();
    let mut file = Vec::new(alloc);
    for (line, kind, body, exit, out, error, len) in STEPS {
        let input = frame(alloc, 5, kind, body)?;
        let left = run(alloc, line, &input, &file, &[])?;
        assert_eq!(rt; left.exit, exit, "{line}");
        assert_eq!(rt; left.out.as_slice(), out, "{line}");
        assert_eq!(rt; left.line.as_slice(), error, "{line}");
        assert_eq!(rt; (left.a.len(), left.b.len()), (len, 0), "{line}");
        file = left.a;
    }
    Ok(())
}

#[test]
fn a_record_stands_byte_by_byte_behind_the_empty_image(rt: HostRuntime) -> Result<(), Fail> {
    let alloc = rt.alloc();
    let file = set_file(alloc)?;
    let head: &[u8] = b"\xa5\x1d\0\0\0\x01\x01\0\0\0\x05\0\0\0\0\0\0\0";
    let record = joined(alloc, &[head, SET, b"\0"])?;
    assert_eq!(rt; &file[file.len().min(112)..], record.as_slice());
    Ok(())
}

// How long file a is, its first byte, and what `check` ends with.
const DAMAGES: [(usize, u8, u8, &[u8]); 7] = [
    (147, 0xa5, 0, b""),
    (146, 0xa5, 7, b"damaged: file 0 at 146\n"),
    (130, 0xa5, 7, b"damaged: file 0 at 112\n"),
    (112, 0xa5, 7, b"damaged: file 0 at 72\n"),
    (147, 0, 6, b"no database\n"),
    (1, 0xa5, 6, b"no database\n"),
    (0, 0xa5, 6, b"no database\n"),
];

#[test]
fn a_damaged_file_is_refused_at_its_place(rt: HostRuntime) -> Result<(), Fail> {
    let alloc = rt.alloc();
    let file = set_file(alloc)?;
    for (len, first, exit, error) in DAMAGES {
        let mut cut = file.to_vec(alloc)?;
        cut.truncate(len);
        if !cut.is_empty() {
            cut[0] = first;
        }
        for line in ["check d", "pipe --folder d"] {
            let left = run(alloc, line, b"", &cut, &[])?;
            assert_eq!(rt;
                (left.exit, left.line.as_slice()),
                (exit, error),
                "{line} {len}"
            );
            assert_eq!(rt; left.a.as_slice(), cut.as_slice(), "{line} {len}");
        }
    }
    Ok(())
}

// A call of file a that fails while a database is made, and what `check` ends with then.
const CREATE_FAULTS: [(u64, u8); 12] = [
    (0, 6),
    (1, 6),
    (2, 6),
    (3, 6),
    (4, 6),
    (5, 6),
    (6, 6),
    (7, 6),
    (8, 6),
    (9, 6),
    (10, 6),
    (11, 0),
];

#[test]
fn a_fault_while_a_database_is_made_leaves_none_or_the_empty_one(
    rt: HostRuntime,
) -> Result<(), Fail> {
    let alloc = rt.alloc();
    for (call, exit) in CREATE_FAULTS {
        let left = run(alloc, "create d", b"", b"", &[call])?;
        assert_eq!(rt;
            (left.exit, left.line.as_slice()),
            (5, b"disk fault\n".as_slice()),
            "{call}"
        );
        assert_eq!(rt; left.out.len(), 0, "{call}");
        let again = run(alloc, "check d", b"", &left.a, &[])?;
        assert_eq!(rt; again.exit, exit, "{call}");
    }
    Ok(())
}

#[test]
fn a_fault_while_a_database_is_opened_leaves_it(rt: HostRuntime) -> Result<(), Fail> {
    let alloc = rt.alloc();
    let file = set_file(alloc)?;
    for call in 0..OPENING {
        for line in ["check d", "pipe --folder d"] {
            let left = run(alloc, line, b"", &file, &[call])?;
            assert_eq!(rt;
                (left.exit, left.line.as_slice()),
                (5, b"disk fault\n".as_slice()),
                "{line} {call}"
            );
            assert_eq!(rt; left.a.as_slice(), file.as_slice(), "{line} {call}");
        }
    }
    Ok(())
}

// Which call of file a behind its opening fails, and what `check` prints where the run ends with that.
const COMMIT_FAULTS: [(u64, &[u8]); 4] = [(0, ONE), (1, ONE), (2, ONE), (3, TWO)];

#[test]
fn a_fault_in_a_commit_is_told_and_the_commit_is_there_or_not(rt: HostRuntime) -> Result<(), Fail> {
    let alloc = rt.alloc();
    let file = set_file(alloc)?;
    let set = frame(alloc, 5, WRITE, SET)?;
    for (call, shown) in COMMIT_FAULTS {
        let left = run(alloc, "pipe --folder d", &set, &file, &[OPENING + call])?;
        assert_eq!(rt; (left.exit, left.out.as_slice()), (0, DISK_FAULT), "{call}");
        let again = run(alloc, "check d", b"", &left.a, &[])?;
        assert_eq!(rt; again.out.as_slice(), shown, "{call}");
    }
    Ok(())
}

#[test]
fn a_write_behind_a_fault_goes_as_the_next_number(rt: HostRuntime) -> Result<(), Fail> {
    let alloc = rt.alloc();
    let file = set_file(alloc)?;
    let set = frame(alloc, 5, WRITE, SET)?;
    let input = joined(alloc, &[&set, &set])?;
    let replies = joined(alloc, &[DISK_FAULT, SECOND])?;
    for call in 0..4 {
        let left = run(alloc, "pipe --folder d", &input, &file, &[OPENING + call])?;
        assert_eq!(rt;
            (left.exit, left.out.as_slice()),
            (0, replies.as_slice()),
            "{call}"
        );
        let again = run(alloc, "check d", b"", &left.a, &[])?;
        assert_eq!(rt; again.out.as_slice(), TWO, "{call}");
    }
    Ok(())
}

#[test]
fn a_fault_of_the_random_bytes_makes_nothing(rt: HostRuntime) -> Result<(), Fail> {
    let alloc = rt.alloc();
    let left = run_with(alloc, "create d", b"", b"", &[], &[], 47)?;
    assert_eq!(rt;
        (left.exit, left.line.as_slice()),
        (11, b"random fault\n".as_slice())
    );
    assert_eq!(rt; left.a.len(), 0);
    Ok(())
}

// The first call of file a behind an opening that fails is the write of a gate, and then one of the mend.
#[test]
fn a_fault_in_a_mend_is_told_and_the_next_write_goes(rt: HostRuntime) -> Result<(), Fail> {
    let alloc = rt.alloc();
    let file = set_file(alloc)?;
    let set = frame(alloc, 5, WRITE, SET)?;
    let input = joined(alloc, &[&set, &set, &set])?;
    let replies = joined(alloc, &[DISK_FAULT, DISK_FAULT, SECOND])?;
    for call in 3..5 {
        let fails = [OPENING + 2, OPENING + call];
        let left = run(alloc, "pipe --folder d", &input, &file, &fails)?;
        assert_eq!(rt;
            (left.exit, left.out.as_slice()),
            (0, replies.as_slice()),
            "{call}"
        );
        let again = run(alloc, "check d", b"", &left.a, &[])?;
        assert_eq!(rt; again.out.as_slice(), TWO, "{call}");
    }
    Ok(())
}

// Words, and how many calls of file b they make.
const B_CALLS: [(&str, u64); 3] = [("create d", 1), ("check d", 2), ("pipe --folder d", 2)];

#[test]
fn a_fault_of_the_other_file_is_told_and_nothing_is_written(rt: HostRuntime) -> Result<(), Fail> {
    let alloc = rt.alloc();
    let file = set_file(alloc)?;
    for (line, calls) in B_CALLS {
        for call in 0..calls {
            let left = run_with(alloc, line, b"", &file, &[], &[call], 48)?;
            assert_eq!(rt; left.exit, 5, "{line} {call}");
            assert_eq!(rt; left.line.as_slice(), b"disk fault\n".as_slice());
            assert_eq!(rt; left.a.as_slice(), file.as_slice(), "{line} {call}");
        }
    }
    Ok(())
}
