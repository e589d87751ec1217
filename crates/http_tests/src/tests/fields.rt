//! The fields of a request, as they are given.
use dkv_base::{NoMemory, Profile};
use dkv_http::{Conn, Feed};
use std::alloc::Global;
use std::test::Fail;

// A session's request, as a client sends it.
const TEXT: &str = "POST /kv/snapshot_read HTTP/1.1\r\nHost: a\r\nAuthorization: \t Bearer x y \r\n\
    X-Denokv-Version: 3\r\nx-denokv-version: 2\r\nempty:\r\ncontent-length: 3\r\n\r\nabc";

// How many fields the request has, and of this name the first value.
fn field(alloc: Global, name: &str) -> Result<Option<(usize, Vec<u8>)>, NoMemory> {
    let mut conn = Conn::new(alloc, [1, 2], Profile::Narrow)?;
    match conn.feed(TEXT.as_bytes()) {
        Feed::Request { taken: _ } => {
            let request = conn.request()?;
            match request.headers.get(name) {
                Some(value) => {
                    let mut bytes = Vec::new(alloc);
                    bytes.extend_from_slice(value.as_bytes())?;
                    Ok(Some((request.headers.len(), bytes)))
                }
                None => Ok(None),
            }
        }
        Feed::More => Ok(None),
        Feed::Bad {
            status: _,
            taken: _,
        } => Ok(None),
    }
}

#[test]
fn a_whole_head_gives_its_fields(rt: HostRuntime) -> Result<(), Fail> {
    for (name, value) in [
        ("host", "a"),
        ("AUTHORIZATION", "Bearer x y"),
        ("x-denokv-version", "3"),
        ("empty", ""),
        ("content-length", "3"),
    ] {
        match field(rt.alloc(), name)? {
            Some((count, bytes)) => {
                assert_eq!(rt; count, 6);
                assert!(rt; bytes.as_slice() == value.as_bytes(), "{name}");
            }
            None => assert!(rt; false, "{name}"),
        }
    }
    Ok(())
}

// The value of the field `a` in a request that has this line, or nothing where the head is refused.
fn value_of(alloc: Global, line: &[u8], name: &str) -> Result<Option<Vec<u8>>, NoMemory> {
    let mut conn = Conn::new(alloc, [1, 2], Profile::Narrow)?;
    for piece in [
        b"GET / HTTP/1.1\r\nhost: h\r\n".as_slice(),
        line,
        b"\r\n\r\n",
    ] {
        match conn.feed(piece) {
            Feed::More => {}
            Feed::Bad {
                status: _,
                taken: _,
            } => return Ok(None),
            Feed::Request { taken: _ } => {
                let request = conn.request()?;
                let mut bytes = Vec::new(alloc);
                if let Some(value) = request.headers.get(name) {
                    bytes.extend_from_slice(value.as_bytes())?;
                }
                return Ok(Some(bytes));
            }
        }
    }
    Ok(None)
}

// RFC 9110, section 5.5: HTAB, SP, VCHAR and obs-text.
fn may_stand_in_a_value(byte: u8) -> bool {
    byte == 9 || (byte >= 0x20 && byte != 0x7f)
}

// RFC 9110, section 5.6.2: a character of a token; a colon ends the name.
fn may_stand_in_a_name(byte: u8) -> bool {
    byte.is_ascii_alphanumeric() || b"!#$%&'*+-.^_`|~:".contains(&byte)
}

#[test]
fn each_byte_of_a_field_is_refused_or_given(rt: HostRuntime) -> Result<(), Fail> {
    let alloc = rt.alloc();
    for byte in 0..=255u8 {
        let given = value_of(alloc, &[b'a', b':', b'x', byte, b'y'], "a")?;
        let is_given = match given {
            Some(bytes) => bytes.as_slice() == &[b'x', byte, b'y'][..],
            None => false,
        };
        assert!(rt; is_given == may_stand_in_a_value(byte), "value {byte}");
        let is_named = value_of(alloc, &[b'x', byte, b'y', b':', b'z'], "x")?.is_some();
        assert!(rt; is_named == may_stand_in_a_name(byte), "name {byte}");
    }
    Ok(())
}
