// What a write is decided to do over three entries, and limits at their edges.
use super::numbers::number;
use super::*;
use dkv_base::encodings::{BYTES, LE64};
use dkv_base::kinds::{DELETE, MAX, MIN, SET, SET_STAMPED, SUM};
use dkv_base::{AtomicWrite, Bytes, Check, Entry, Mutation, Run, Value};
use dkv_key::stamp_of;
use dkv_table::{Plain, Table};
use std::alloc::Global;
use std::process::Abort;
use std::test::*;

fn put(alloc: Global, table: &mut Plain, key: &str, entry: Entry) -> Result<(), Fail> {
    table.reserve(1)?;
    let _ = table.put(Entry {
        key: Bytes::copy_of(alloc, key.as_bytes())?,
        ..entry
    });
    Ok(())
}

// Under "n" a number of all ones, of commit 3; under "b" bytes, of commit 4; under "e" a number that ends at 5, of commit 2.
fn stored(alloc: Global) -> Result<Plain, Fail> {
    let mut table = Plain::new(alloc);
    for (key, number, encoding, commit, expire) in [
        ("n", u64::MAX, LE64, 3, 0),
        ("b", 5, BYTES, 4, 0),
        ("e", 7, LE64, 2, 5),
    ] {
        let entry = Entry {
            key: Bytes::of(Vec::new(alloc)),
            bytes: Bytes::copy_of(alloc, &number.to_le_bytes())?,
            encoding,
            commit,
            expire,
        };
        put(alloc, &mut table, key, entry)?;
    }
    Ok(table)
}

// That the key has the commit, or for commit 0 that it is absent.
fn check(alloc: Global, key: &str, commit: u64) -> Result<Check, Fail> {
    let stamp = stamp_of(commit);
    let stamp = if commit == 0 { &[] } else { &stamp[..] };
    Ok(Check {
        key: Bytes::copy_of(alloc, key.as_bytes())?,
        versionstamp: Bytes::copy_of(alloc, stamp)?,
    })
}

// A mutation with a value, without an expiry.
fn mutation(kind: i32, key: Bytes, bytes: Bytes, encoding: i32) -> Mutation {
    Mutation {
        key,
        value: Some(Value { bytes, encoding }),
        kind,
        expire_at_ms: 0,
    }
}

fn change(alloc: Global, kind: i32, key: &str, number: u64) -> Result<Mutation, Fail> {
    let key = Bytes::copy_of(alloc, key.as_bytes())?;
    let bytes = Bytes::copy_of(alloc, &number.to_le_bytes())?;
    Ok(mutation(kind, key, bytes, LE64))
}

fn write_of(alloc: Global, checks: Vec<Check>, mutations: Vec<Mutation>) -> AtomicWrite {
    AtomicWrite {
        checks: Run::of(checks),
        mutations: Run::of(mutations),
        enqueues: Run::new(alloc),
    }
}

// The number that was put last, or how many keys were taken away.
fn effects_told(effects: &Effects) -> (&'static str, u64) {
    match effects.puts.as_slice().last() {
        Some(entry) => ("puts", number(entry.bytes.as_slice())),
        None => ("removes", effects.removed.len() as u64),
    }
}

// What is decided of the write as commit 9 at the moment 5.
fn told(alloc: Global, write: &AtomicWrite) -> Result<(&'static str, u64), Fail> {
    if let Some(limit) = limits(write) {
        return Ok(("limit", limit.code() as u64));
    }
    match decide(alloc, &stored(alloc)?, write, 5, 9)? {
        Decision::Fails(places) => Ok((
            "fails",
            places.as_slice().first().map_or(99, |place| *place as u64),
        )),
        Decision::NotU64 { index } => Ok(("no number", index as u64)),
        Decision::Goes(effects) => Ok(effects_told(&effects)),
    }
}

fn changed(
    alloc: Global,
    first: (i32, &str, u64),
    second: (i32, &str, u64),
) -> Result<(&'static str, u64), Fail> {
    let first = change(alloc, first.0, first.1, first.2)?;
    let second = change(alloc, second.0, second.1, second.2)?;
    let changes = vec![in alloc; first, second]?;
    told(alloc, &write_of(alloc, Vec::new(alloc), changes))
}

#[test]
fn each_kind_over_what_is_stored_and_what_came_before(rt: HostRuntime) -> Result<(), Fail> {
    let cases = [
        (SUM, "n", 1, SUM, "n", 0, "puts", 0),
        (SUM, "e", 1, SUM, "e", 1, "puts", 2),
        (MAX, "n", 3, MIN, "n", 258, "puts", 258),
        (SET, "c", 1, SUM, "b", 1, "no number", 1),
        (DELETE, "b", 0, SUM, "b", 1, "puts", 1),
        (SET, "n", 4, DELETE, "n", 0, "removes", 1),
        (DELETE, "n", 0, DELETE, "x", 0, "removes", 2),
    ];
    for (kind, key, operand, later, other, number, word, wanted) in cases {
        let found = changed(rt.alloc(), (kind, key, operand), (later, other, number))?;
        assert_eq!(rt; found, (word, wanted));
    }
    Ok(())
}

fn checked(
    alloc: Global,
    first: (&str, u64),
    second: (&str, u64),
) -> Result<(&'static str, u64), Fail> {
    let first = check(alloc, first.0, first.1)?;
    let second = check(alloc, second.0, second.1)?;
    let checks = vec![in alloc; first, second]?;
    let changes = vec![in alloc; change(alloc, SET, "c", 1)?]?;
    told(alloc, &write_of(alloc, checks, changes))
}

#[test]
fn a_second_check_that_fails_refuses_the_write(rt: HostRuntime) -> Result<(), Fail> {
    let cases = [
        ("n", 3, "b", 3, "fails", 1),
        ("n", 0, "b", 4, "fails", 0),
        ("n", 3, "e", 0, "puts", 1),
        ("n", 3, "e", 2, "fails", 1),
        ("c", 0, "x", 0, "puts", 1),
        ("c", 9, "x", 0, "fails", 0),
    ];
    for (key, commit, other, later, word, wanted) in cases {
        let found = checked(rt.alloc(), (key, commit), (other, later))?;
        assert_eq!(rt; found, (word, wanted));
    }
    Ok(())
}

fn filled(alloc: Global, len: usize, byte: u8) -> Result<Bytes, Fail> {
    let mut items = Vec::new(alloc);
    items.resize(len, byte)?;
    Ok(Bytes::of(items))
}

fn limit_code(write: &AtomicWrite) -> u8 {
    match limits(write) {
        Some(limit) => limit.code(),
        None => 0,
    }
}

fn length_code(alloc: Global, kind: i32, key: usize, value: usize) -> Result<u8, Fail> {
    let key = filled(alloc, key, 7)?;
    let value = filled(alloc, value, 7)?;
    let changes = vec![in alloc; mutation(kind, key, value, BYTES)]?;
    Ok(limit_code(&write_of(alloc, Vec::new(alloc), changes)))
}

#[test]
fn lengths_at_and_past_their_limits(rt: HostRuntime) -> Result<(), Fail> {
    let cases = [
        (SET, 2048, 65536, 0),
        (SET, 2049, 0, 6),
        (SET, 0, 0, 6),
        (SET, 1, 65537, 12),
        (DELETE, 1, 65537, 0),
        (SET_STAMPED, 2026, 1, 0),
        (SET_STAMPED, 2027, 1, 6),
        (SET_STAMPED, 0, 1, 0),
        (SUM, 1, 8, 11),
        (6, 1, 8, 5),
    ];
    for (kind, key, value, code) in cases {
        assert_eq!(rt; length_code(rt.alloc(), kind, key, value)?, code);
    }
    Ok(())
}

fn stamped_key(alloc: Global) -> Result<Bytes, Fail> {
    let changes = vec![in alloc; change(alloc, SET_STAMPED, "k", 1)?]?;
    let write = write_of(alloc, Vec::new(alloc), changes);
    if limits(&write).is_none()
        && let Decision::Goes(effects) = decide(alloc, &stored(alloc)?, &write, 5, 9)?
        && let Some(entry) = effects.puts.into_vec().pop()
    {
        return Ok(entry.key);
    }
    Ok(Bytes::of(Vec::new(alloc)))
}

#[test]
fn a_stamped_key_is_followed_by_the_suffix(rt: HostRuntime) -> Result<(), Fail> {
    let key = stamped_key(rt.alloc())?;
    assert_eq!(rt; key.as_slice(), b"k\x0200000000000000090000\0".as_slice());
    Ok(())
}

// The limit of so many DELETEs, each on a key of 2,048 bytes.
fn deletes_code(alloc: Global, count: u8) -> Result<u8, Fail> {
    let mut changes = Vec::new(alloc);
    for byte in 0..count {
        let key = filled(alloc, 2048, byte)?;
        changes.push(mutation(DELETE, key, Bytes::of(Vec::new(alloc)), BYTES))?;
    }
    Ok(limit_code(&write_of(alloc, Vec::new(alloc), changes)))
}

#[test]
fn forty_deletes_of_the_longest_keys_and_one_more(rt: HostRuntime) -> Result<(), Fail> {
    for (count, code) in [(40, 0), (41, 19)] {
        assert_eq!(rt; deletes_code(rt.alloc(), count)?, code);
    }
    Ok(())
}
