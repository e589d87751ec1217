//! Keys and their parts, in bytes that FoundationDB's tuple layer spells.
use crate::{KeyError, Part, decode, encode, prefix_range, stamp_hex, stamp_of, suffix};
use std::alloc::Global;
use std::process::Abort;
use std::test::Fail;

// A word and bytes, these as hexadecimal digits.
fn worded(alloc: Global, word: &str, bytes: &[u8]) -> Result<String, Fail> {
    let digits = hex::encode(alloc, bytes)?;
    Ok(format!(in alloc; "{word}{digits}")?)
}

// A part in words.
fn words_of(alloc: Global, part: &Part) -> Result<String, Fail> {
    match part {
        Part::Bytes(bytes) => worded(alloc, "bytes ", bytes.as_slice()),
        Part::Text(text) => worded(alloc, "text ", text.as_slice()),
        Part::Int {
            negative: true,
            magnitude,
        } => worded(alloc, "-", magnitude.as_slice()),
        Part::Int {
            negative: false,
            magnitude,
        } => worded(alloc, "+", magnitude.as_slice()),
        Part::Double(pattern) => worded(alloc, "double ", &pattern.to_be_bytes()),
        Part::Bool(true) => worded(alloc, "true", &[]),
        Part::Bool(false) => worded(alloc, "false", &[]),
    }
}

// The parts in words, a point behind each.
fn all_words(alloc: Global, parts: &[Part]) -> Result<String, Fail> {
    let mut words = String::new(alloc);
    for part in parts {
        words.push_str(words_of(alloc, part)?.as_str())?;
        words.push_str(".")?;
    }
    Ok(words)
}

// The key with these digits reads as the parts in these words, and is written again.
fn check_key(rt: &impl Abort, alloc: Global, digits: &str, words: &str) -> Result<(), Fail> {
    let key = hex::decode(alloc, digits)?;
    let parts = decode(alloc, key.as_slice())?;
    assert_eq!(rt;
        all_words(alloc, parts.as_slice())?.as_str(),
        words,
        "{digits}"
    );
    let again = encode(alloc, parts.as_slice())?;
    assert_eq!(rt; again.as_slice(), key.as_slice(), "{digits}");
    Ok(())
}

// By rising value; the digits of keys compare as their bytes do.
#[test]
fn a_key_is_the_spellings_of_its_parts_and_keeps_their_order(rt: HostRuntime) -> Result<(), Fail> {
    let mut before = b"".as_slice();
    for (digits, words) in [
        ("", ""),
        ("0100", "bytes ."),
        ("01000100ff0014", "bytes .bytes 00.+."),
        ("010026", "bytes .false."),
        ("0100ff00", "bytes 00."),
        ("0100ff0100", "bytes 0001."),
        ("0100ffff00", "bytes 00ff."),
        ("010100", "bytes 01."),
        ("016100ff6200ff00ff00", "bytes 6100620000."),
        ("01ff00", "bytes ff."),
        ("0200", "text ."),
        ("0200ffc3a900", "text 00c3a9."),
        ("026100", "text 61."),
        ("0261000100", "text 61.bytes ."),
        ("02610027", "text 61.true."),
        ("026100ff00", "text 6100."),
        ("02616200", "text 6162."),
        ("0275736572730027", "text 7573657273.true."),
        ("0bf6fefdfcfbfaf9f8f7f6", "-010203040506070809."),
        ("0cfefdfcfbfaf9f8f7", "-0102030405060708."),
        ("12feff", "-0100."),
        ("1300", "-ff."),
        ("13fe", "-01."),
        ("14", "+."),
        ("1501", "+01."),
        ("1502", "+02."),
        ("15ff", "+ff."),
        ("160100", "+0100."),
        ("1c0102030405060708", "+0102030405060708."),
        ("1d09010203040506070809", "+010203040506070809."),
        ("210007fffffffffffe", "double fff8000000000001."),
        ("21000fffffffffffff", "double fff0000000000000."),
        ("217fffffffffffffff", "double 8000000000000000."),
        ("218000000000000000", "double 0000000000000000."),
        ("21fff0000000000000", "double 7ff0000000000000."),
        ("21fff8000000000000", "double 7ff8000000000000."),
        ("26", "false."),
        ("27", "true."),
    ] {
        check_key(&rt, rt.alloc(), digits, words)?;
        assert!(rt; digits.is_empty() || before < digits.as_bytes(), "{digits}");
        before = digits.as_bytes();
    }
    Ok(())
}

// The key of an integer: its head in digits, its first byte and each other one, and how many bytes there are.
fn integer_key(
    alloc: Global,
    head: &str,
    first: u8,
    other: u8,
    count: usize,
) -> Result<Vec<u8>, Fail> {
    let mut key = hex::decode(alloc, head)?;
    key.push(first)?;
    for _ in 1..count {
        key.push(other)?;
    }
    Ok(key)
}

// Of a key of one integer: whether it is negative, how many bytes it has, the first and the last of them.
fn integer_of(alloc: Global, key: &[u8]) -> Result<(bool, usize, u8, u8), Fail> {
    let parts = decode(alloc, key)?;
    let [
        Part::Int {
            negative,
            magnitude,
        },
    ] = parts.as_slice()
    else {
        return Ok((false, 0, 0, 0));
    };
    let bytes = magnitude.as_slice();
    let first = bytes.first().copied().unwrap_or(0);
    let last = bytes.last().copied().unwrap_or(0);
    Ok((*negative, bytes.len(), first, last))
}

// By rising value: what is before the bytes, the first spelled byte, each other one, and the integer.
#[test]
fn integers_of_each_size_are_read_and_keep_their_order(rt: HostRuntime) -> Result<(), Fail> {
    let mut before = Vec::new(rt.alloc());
    for (head, first, other, integer) in [
        ("0b00", 0x00, 0x00, (true, 255, 255, 255)),
        ("0b00", 0xfe, 0xff, (true, 255, 1, 0)),
        ("0b01", 0x00, 0x00, (true, 254, 255, 255)),
        ("0bf5", 0xfe, 0xff, (true, 10, 1, 0)),
        ("0bf6", 0x00, 0x00, (true, 9, 255, 255)),
        ("0bf6", 0xfe, 0xff, (true, 9, 1, 0)),
        ("0c", 0x00, 0x00, (true, 8, 255, 255)),
        ("0c", 0xfe, 0xff, (true, 8, 1, 0)),
        ("0d", 0x00, 0x00, (true, 7, 255, 255)),
        ("13", 0xfe, 0xff, (true, 1, 1, 1)),
        ("15", 0x01, 0x00, (false, 1, 1, 1)),
        ("1b", 0xff, 0xff, (false, 7, 255, 255)),
        ("1c", 0x01, 0x00, (false, 8, 1, 0)),
        ("1c", 0xff, 0xff, (false, 8, 255, 255)),
        ("1d09", 0x01, 0x00, (false, 9, 1, 0)),
        ("1d09", 0xff, 0xff, (false, 9, 255, 255)),
        ("1d0a", 0x01, 0x00, (false, 10, 1, 0)),
        ("1dfe", 0xff, 0xff, (false, 254, 255, 255)),
        ("1dff", 0x01, 0x00, (false, 255, 1, 0)),
        ("1dff", 0xff, 0xff, (false, 255, 255, 255)),
    ] {
        let key = integer_key(rt.alloc(), head, first, other, integer.1)?;
        assert_eq!(rt; integer_of(rt.alloc(), key.as_slice())?, integer, "{head}");
        assert!(rt; before.as_slice() < key.as_slice(), "{head}");
        before = key;
    }
    Ok(())
}

// The place where the bytes with these digits are no key, and none where they are one.
fn fault_of(alloc: Global, digits: &str) -> Result<Option<u64>, Fail> {
    let bytes = hex::decode(alloc, digits)?;
    match decode(alloc, bytes.as_slice()) {
        Ok(_) => Ok(None),
        Err(KeyError::NotAKey { at }) => Ok(Some(at)),
        Err(KeyError::NoMemory) => Err(KeyError::NoMemory.into()),
    }
}

#[test]
fn what_is_no_key_is_refused_where_no_part_begins(rt: HostRuntime) -> Result<(), Fail> {
    for (digits, at) in [
        ("0261", 0),
        ("1500", 0),
        ("03", 0),
        ("00", 0),
        ("25", 0),
        ("28", 0),
        ("ff", 0),
        ("01", 0),
        ("016100ff", 0),
        ("016100ff62", 0),
        ("02c300", 0),
        ("026100ffff00", 0),
        ("15", 0),
        ("1601", 0),
        ("160001", 0),
        ("13ff", 0),
        ("12ff00", 0),
        ("1d", 0),
        ("1d080102030405060708", 0),
        ("1d090102030405060708", 0),
        ("1d09000203040506070809", 0),
        ("0b", 0),
        ("0bf70102030405060708", 0),
        ("0bf6ff0203040506070809", 0),
        ("2101020304050607", 0),
        ("026100270261", 4),
        ("140100ff002100", 5),
        ("27ff", 1),
        ("150100", 2),
    ] {
        let fault = fault_of(rt.alloc(), digits)?;
        assert_eq!(rt; fault, Some(at), "{digits}");
    }
    Ok(())
}

#[test]
fn a_refusal_names_its_place(rt: HostRuntime) -> Result<(), Fail> {
    let words = format!(in rt.alloc(); "{}", KeyError::NotAKey { at: 5 })?;
    assert_eq!(rt; words.as_str(), "no part of a key begins at byte 5");
    Ok(())
}

#[test]
fn ranges_and_versionstamps_are_spelled(rt: HostRuntime) -> Result<(), Fail> {
    let (start, end) = prefix_range(rt.alloc(), b"\x02a\0")?;
    assert_eq!(rt; start.as_slice(), b"\x02a\0\0".as_slice());
    assert_eq!(rt; end.as_slice(), b"\x02a\0\xff".as_slice());
    let n = 0x0123_4567_89ab_cdef;
    assert_eq!(rt; &stamp_of(n), b"\x01\x23\x45\x67\x89\xab\xcd\xef\0\0");
    assert_eq!(rt; &stamp_hex(n), b"0123456789abcdef0000");
    assert_eq!(rt; &suffix(n), b"\x020123456789abcdef0000\0");
    Ok(())
}
