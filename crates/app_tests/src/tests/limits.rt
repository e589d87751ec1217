// Requests at their limits and past them.
use super::running::{FOUND, KEY, NONE_FOUND, READ, SET, Said, WRITE, WRITTEN, joined, talk};
use std::alloc::Global;
use std::test::*;

// A field of bytes: its tag, their length in groups of seven bits, and they.
fn field(alloc: Global, tag: u8, bytes: &[u8]) -> Result<Vec<u8>, Fail> {
    let mut out = Vec::new(alloc);
    out.push(tag)?;
    let mut length = bytes.len();
    for _ in 0..9 {
        if length < 128 {
            break;
        }
        out.push((length % 128) as u8 + 128)?;
        length /= 128;
    }
    out.push((length % 128) as u8)?;
    out.extend_from_slice(bytes)?;
    Ok(out)
}

// A SET of this key to this value.
fn set(alloc: Global, key: &[u8], value: &[u8]) -> Result<Vec<u8>, Fail> {
    let key = field(alloc, 0x0a, key)?;
    let bytes = field(alloc, 0x0a, value)?;
    let value = field(alloc, 0x12, &joined(alloc, &[&bytes, b"\x10\x03"])?)?;
    field(alloc, 0x12, &joined(alloc, &[&key, &value, b"\x18\x01"])?)
}

#[test]
fn limits_of_keys_and_values(rt: HostRuntime) -> Result<(), Fail> {
    let alloc = rt.alloc();
    let cases = [
        (1, 0, WRITTEN),
        (2048, 65536, WRITTEN),
        (0, 1, b"\x02\0\0\0\x02\x06"),
        (2049, 1, b"\x02\0\0\0\x02\x06"),
        (1, 65537, b"\x02\0\0\0\x02\x0c"),
    ];
    for (key, value, reply) in cases {
        let key = vec![in alloc; 1; key]?;
        let value = vec![in alloc; 0; value]?;
        talk(&rt, alloc, &[(5, WRITE, &set(alloc, &key, &value)?, reply)])?;
    }
    Ok(())
}

#[test]
fn limits_of_ranges(rt: HostRuntime) -> Result<(), Fail> {
    // Ranges of all keys of texts, with limits of 1,000, of 500 twice, of 0, of 1,001, and of 500 and 501.
    let two: &[u8] = b"\x09\0\0\0\0\x0a\0\x0a\0\x20\x01\x40\x01";
    let said: [Said<'_>; 5] = [
        (
            5,
            READ,
            b"\x0a\x09\x0a\x01\x02\x12\x01\x03\x18\xe8\x07",
            NONE_FOUND,
        ),
        (
            5,
            READ,
            b"\x0a\x09\x0a\x01\x02\x12\x01\x03\x18\xf4\x03\x0a\x09\x0a\x01\x02\x12\x01\x03\x18\xf4\x03",
            two,
        ),
        (
            5,
            READ,
            b"\x0a\x06\x0a\x01\x02\x12\x01\x03",
            b"\x02\0\0\0\x02\x16",
        ),
        (
            5,
            READ,
            b"\x0a\x09\x0a\x01\x02\x12\x01\x03\x18\xe9\x07",
            b"\x02\0\0\0\x02\x17",
        ),
        (
            5,
            READ,
            b"\x0a\x09\x0a\x01\x02\x12\x01\x03\x18\xf4\x03\x0a\x09\x0a\x01\x02\x12\x01\x03\x18\xf5\x03",
            b"\x02\0\0\0\x02\x17",
        ),
    ];
    talk(&rt, rt.alloc(), &said)
}

#[test]
fn limits_of_a_whole_write_leave_the_commit_number(rt: HostRuntime) -> Result<(), Fail> {
    let alloc = rt.alloc();
    let large = vec![in alloc; 7; 65536]?;
    let mut twelve = Vec::new(alloc);
    for letter in 0..12u8 {
        twelve.extend_from_slice(&set(alloc, &[2, letter, 0], &large)?)?;
    }
    let most = set(alloc, &[2, 12, 0], &large[..32729])?;
    let more = set(alloc, &[2, 12, 0], &large[..32730])?;
    let mut many = Vec::new(alloc);
    for _ in 0..1001 {
        many.extend_from_slice(SET)?;
    }
    let within = joined(alloc, &[&twelve, &most])?;
    let past = joined(alloc, &[&twelve, &more])?;
    talk(&rt, alloc, &[(5, WRITE, &within, WRITTEN)])?;
    let said: [Said<'_>; 4] = [
        (5, WRITE, &past, b"\x02\0\0\0\x02\x12"),
        (5, WRITE, &many, b"\x02\0\0\0\x02\x02"),
        (5, WRITE, SET, WRITTEN),
        (5, READ, KEY, FOUND),
    ];
    talk(&rt, alloc, &said)
}
