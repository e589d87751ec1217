// Words and the commands that they name.
use dkv_app::{Command, CommandError, read_command};
use std::alloc::Global;
use std::process::Abort;
use std::test::*;

// Words, parted by one space each.
fn read(alloc: Global, line: &str) -> Result<Result<Command, CommandError>, Fail> {
    let mut words = Vec::new(alloc);
    for word in line.split(' ') {
        words.push(String::from_str(alloc, word)?)?;
    }
    Ok(read_command(alloc, &words))
}

// A command as a letter, which is large where a summary is wanted, its folder, and its trail's weight or its number.
fn seen(command: &Result<Command, CommandError>) -> (u8, &[u8], u64) {
    match command {
        Ok(Command::Create { folder }) => (b'm', folder.as_slice(), 0),
        Ok(Command::Check { folder }) => (b'c', folder.as_slice(), 0),
        Ok(
            Command::Pipe {
                folder: Some(folder),
                trail,
                summary,
            },
        ) => (
            if *summary { b'F' } else { b'f' },
            folder.as_slice(),
            *trail,
        ),
        Ok(
            Command::Pipe {
                folder: None,
                trail,
                summary,
            },
        ) => (if *summary { b'P' } else { b'p' }, b"", *trail),
        Ok(Command::Generate { number }) => (b'g', b"", *number),
        Err(CommandError::BadWords) => (b'b', b"", 0),
        Err(CommandError::NoMemory) => (b'n', b"", 0),
    }
}

const LINES: [(&str, u8, &[u8], u64); 59] = [
    ("create d", b'm', b"d", 0),
    ("create --trail", b'm', b"--trail", 0),
    ("check d", b'c', b"d", 0),
    ("pipe", b'p', b"", 268_435_456),
    ("pipe --folder d", b'f', b"d", 268_435_456),
    ("pipe --trail 1000", b'p', b"", 1000),
    ("pipe --trail 268435456", b'p', b"", 268_435_456),
    ("pipe --trail 00000000000000001000", b'p', b"", 1000),
    ("pipe --folder d --trail 5000", b'f', b"d", 5000),
    ("pipe --trail 5000 --folder d", b'f', b"d", 5000),
    ("pipe --folder --trail", b'f', b"--trail", 268_435_456),
    ("pipe --trail 999", b'b', b"", 0),
    ("pipe --trail 268435457", b'b', b"", 0),
    ("pipe --trail 18446744073709552616", b'b', b"", 0),
    ("pipe --trail 000000000000000001000", b'b', b"", 0),
    ("pipe --trail +1000", b'b', b"", 0),
    ("pipe --trail 1e4", b'b', b"", 0),
    ("pipe --trail", b'b', b"", 0),
    ("pipe --trail=1000", b'b', b"", 0),
    ("pipe --trail 1000 --trail 1000", b'b', b"", 0),
    ("pipe --folder d --folder d", b'b', b"", 0),
    ("pipe --folder", b'b', b"", 0),
    ("pipe --summary", b'P', b"", 268_435_456),
    ("pipe --summary --folder d", b'F', b"d", 268_435_456),
    ("pipe --folder d --summary --trail 1000", b'F', b"d", 1000),
    ("pipe --trail 1000 --folder d --summary", b'F', b"d", 1000),
    ("pipe --folder --summary", b'f', b"--summary", 268_435_456),
    (
        "pipe --summary --folder --summary",
        b'F',
        b"--summary",
        268_435_456,
    ),
    (
        "pipe --folder --summary --summary",
        b'F',
        b"--summary",
        268_435_456,
    ),
    ("pipe --summary --summary", b'b', b"", 0),
    ("pipe --summary --folder d --summary", b'b', b"", 0),
    ("pipe --summary yes", b'b', b"", 0),
    ("pipe --summary=1", b'b', b"", 0),
    ("pipe --Summary", b'b', b"", 0),
    ("pipe --trail --summary", b'b', b"", 0),
    ("pipe --folder d --trail 1000 --summary --", b'b', b"", 0),
    (
        "pipe --folder d --trail 1000 --folder d --summary",
        b'b',
        b"",
        0,
    ),
    ("generate --summary", b'b', b"", 0),
    ("check --summary d", b'b', b"", 0),
    ("pipe -- --folder d", b'b', b"", 0),
    ("pipe d", b'b', b"", 0),
    ("create", b'b', b"", 0),
    ("create d e", b'b', b"", 0),
    ("check", b'b', b"", 0),
    ("generate 7", b'g', b"", 7),
    ("generate 0", b'g', b"", 0),
    ("generate 18446744073709551615", b'g', b"", u64::MAX),
    ("generate 00000000000000000007", b'g', b"", 7),
    ("generate 000000000000000000007", b'b', b"", 0),
    ("generate 18446744073709551616", b'b', b"", 0),
    ("generate +7", b'b', b"", 0),
    ("generate -7", b'b', b"", 0),
    ("generate 7x", b'b', b"", 0),
    ("generate ", b'b', b"", 0),
    ("generate", b'b', b"", 0),
    ("generate 7 8", b'b', b"", 0),
    ("serve d", b'b', b"", 0),
    ("Pipe", b'b', b"", 0),
    ("", b'b', b"", 0),
];

fn names(rt: &impl Abort, alloc: Global, case: (&str, u8, &[u8], u64)) -> Result<(), Fail> {
    let (line, kind, folder, trail) = case;
    let command = read(alloc, line)?;
    let (read_kind, read_folder, read_trail) = seen(&command);
    assert_eq!(rt; (read_kind, read_trail), (kind, trail), "{line}");
    assert_eq!(rt; read_folder, folder, "{line}");
    Ok(())
}

#[test]
fn words_name_a_command_or_are_bad(rt: HostRuntime) -> Result<(), Fail> {
    let alloc = rt.alloc();
    for case in LINES {
        names(&rt, alloc, case)?;
    }
    Ok(())
}
