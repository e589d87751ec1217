// Blocks beside the plain table, walks, and a run of calls.
use super::*;
use dkv_base::{Bytes, Entry};
use std::alloc::Global;
use std::process::Abort;
use std::test::Fail;

fn entry(alloc: Global, key: &[u8], commit: u64) -> Result<Entry, Fail> {
    Ok(Entry {
        key: Bytes::copy_of(alloc, key)?,
        bytes: Bytes::of(Vec::new(alloc)),
        encoding: 1,
        commit,
        expire: 0,
    })
}

// The commit of the entry, or 0 where there is none.
fn commit_of(entry: Option<Entry>) -> u64 {
    match entry {
        Some(entry) => entry.commit,
        None => 0,
    }
}

// The commit of what was under the key.
fn put<T: Table>(alloc: Global, table: &mut T, key: &[u8], commit: u64) -> Result<u64, Fail> {
    table.reserve(1)?;
    Ok(commit_of(table.put(entry(alloc, key, commit)?)))
}

// Whether two walks give the same entries, at most so many.
fn agree(mut one: Cursor<'_>, mut other: Cursor<'_>, most: u32) -> bool {
    for _ in 0..most {
        match (one.next(), other.next()) {
            (Some(a), Some(b)) => {
                if a.commit != b.commit || a.key.as_slice() != b.key.as_slice() {
                    return false;
                }
            }
            (None, None) => return true,
            _ => return false,
        }
    }
    false
}

// Whether the tables have the same entries, up and down and from some key to some other.
fn are_alike(plain: &Plain, blocks: &Blocks) -> bool {
    let (first, last) = (&200u32.to_be_bytes(), &700u32.to_be_bytes());
    plain.len() == blocks.len()
        && agree(plain.all(), blocks.all(), 1001)
        && agree(
            plain.walk(b"", b"z", true),
            blocks.walk(b"", b"z", true),
            1001,
        )
        && agree(
            plain.walk(first, last, false),
            blocks.walk(first, last, false),
            1001,
        )
}

// Puts the keys from 0 on, or down to 0.
fn puts_agree(
    alloc: Global,
    plain: &mut Plain,
    blocks: &mut Blocks,
    falling: bool,
) -> Result<bool, Fail> {
    for i in 0..1000u32 {
        let number = if falling { 999 - i } else { i };
        let was = put(alloc, plain, &number.to_be_bytes(), i as u64)?;
        if put(alloc, blocks, &number.to_be_bytes(), i as u64)? != was {
            return Ok(false);
        }
        if i % 100 == 99 && !are_alike(plain, blocks) {
            return Ok(false);
        }
    }
    Ok(true)
}

// Takes the keys out from the middle outwards.
fn removals_agree(plain: &mut Plain, blocks: &mut Blocks) -> bool {
    for i in 0..1000u32 {
        let number = if i % 2 == 0 { 500 + i / 2 } else { 499 - i / 2 };
        let was = commit_of(plain.remove(&number.to_be_bytes()));
        if commit_of(blocks.remove(&number.to_be_bytes())) != was {
            return false;
        }
        if i % 100 == 99 && !are_alike(plain, blocks) {
            return false;
        }
    }
    true
}

#[test]
fn a_thousand_keys_come_and_go_as_in_the_plain_table(rt: HostRuntime) -> Result<(), Fail> {
    for falling in [false, true] {
        let mut plain = Plain::new(rt.alloc());
        let mut blocks = Blocks::new(rt.alloc());
        assert!(rt; puts_agree(rt.alloc(), &mut plain, &mut blocks, falling)?);
        assert!(rt; puts_agree(rt.alloc(), &mut plain, &mut blocks, !falling)?);
        assert!(rt; removals_agree(&mut plain, &mut blocks));
        assert_eq!(rt; blocks.len(), 0);
    }
    Ok(())
}

// A table of five keys, of which some begin others.
fn five(alloc: Global) -> Result<Blocks, Fail> {
    let mut table = Blocks::new(alloc);
    for (key, commit) in [("ab", 1), ("c", 2), ("a", 3), ("ba", 4), ("b", 5)] {
        put(alloc, &mut table, key.as_bytes(), commit)?;
    }
    Ok(table)
}

// The keys of a walk, each with a space behind it.
fn keys(
    alloc: Global,
    table: &Blocks,
    start: &str,
    end: &str,
    reverse: bool,
) -> Result<Vec<u8>, Fail> {
    let mut cursor = table.walk(start.as_bytes(), end.as_bytes(), reverse);
    let mut keys = Vec::new(alloc);
    for _ in 0..10 {
        if let Some(entry) = cursor.next() {
            keys.extend_from_slice(entry.key.as_slice())?;
            keys.push(b' ')?;
        }
    }
    Ok(keys)
}

#[test]
fn a_walk_gives_the_keys_of_its_range(rt: HostRuntime) -> Result<(), Fail> {
    let table = five(rt.alloc())?;
    let cases = [
        ("", "z", false, "a ab b ba c "),
        ("", "z", true, "c ba b ab a "),
        ("a", "b", false, "a ab "),
        ("ab", "ba", true, "b ab "),
        ("b", "b", false, ""),
        ("c", "a", false, ""),
        ("", "a", true, ""),
        ("aa", "ab", false, ""),
        ("d", "z", true, ""),
    ];
    for (start, end, reverse, wanted) in cases {
        let found = keys(rt.alloc(), &table, start, end, reverse)?;
        assert_eq!(rt; found.as_slice(), wanted.as_bytes());
    }
    Ok(())
}

fn found(table: &Blocks, key: &str) -> u64 {
    match table.get(key.as_bytes()) {
        Some(entry) => entry.commit,
        None => 0,
    }
}

#[test]
fn a_key_that_begins_another_is_another(rt: HostRuntime) -> Result<(), Fail> {
    let mut table = five(rt.alloc())?;
    for (key, commit) in [("a", 3), ("ab", 1), ("abc", 0), ("", 0), ("ba", 4)] {
        assert_eq!(rt; found(&table, key), commit);
    }
    assert_eq!(rt; put(rt.alloc(), &mut table, b"a", 6)?, 3);
    assert_eq!(rt; commit_of(table.remove(b"a")), 6);
    assert_eq!(rt; table.len(), 4);
    Ok(())
}

fn call(alloc: Global, word: &str, commit: u64) -> Result<TableCall, Fail> {
    let key = Bytes::copy_of(alloc, b"a")?;
    match word {
        "reserve" => Ok(TableCall::Reserve(2)),
        "put" => Ok(TableCall::Put(entry(alloc, b"a", commit)?)),
        "get" => Ok(TableCall::Get(key)),
        "remove" => Ok(TableCall::Remove(key)),
        "walk" => Ok(TableCall::Walk {
            start: key,
            end: Bytes::copy_of(alloc, b"b")?,
            reverse: true,
        }),
        _ => Ok(TableCall::Len),
    }
}

#[test]
fn each_call_of_a_run_is_answered(rt: HostRuntime) -> Result<(), Fail> {
    let mut calls = Vec::new(rt.alloc());
    for (word, commit) in [
        ("reserve", 0),
        ("put", 1),
        ("remove", 0),
        ("put", 2),
        ("get", 0),
        ("walk", 0),
        ("len", 0),
    ] {
        calls.push(call(rt.alloc(), word, commit)?)?;
    }
    let mut table = Blocks::new(rt.alloc());
    let answers = run_calls(rt.alloc(), &mut table, calls)?;
    assert_eq!(rt; answers.len(), 7);
    assert!(rt; matches!(answers.as_slice().last(), Some(TableAnswer::Counted(1))));
    assert_eq!(rt; found(&table, "a"), 2);
    Ok(())
}
