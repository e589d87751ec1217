//! Exchanges: the reply byte by byte, what bodies ask, and when tokens end.
use crate::{ExchangeError, exchange};
use dkv_base::{Bytes, MAX_MOMENT};
use dkv_token::{SECRET_BYTES, Site};
use std::alloc::Global;
use std::test::Fail;

// The reply of the site below at moment 0, whose token OpenSSL signed.
const REPLY: &[u8] = b"{\"databaseId\":\"00000000-0000-4000-8000-000000000000\",\
\"endpoints\":[{\"consistency\":\"strong\",\"url\":\"http://127.0.0.1:4512/kv\"}],\
\"expiresAt\":\"1970-01-01T01:00:00Z\",\
\"token\":\"dkv1.000000000036ee80.8c31b0f3c47d2a4f42055c8c4774a556c6eb30d1784aada1db49a531dec9139f\",\
\"version\":3}";

// Where the text of the expiry begins and ends in the replies of the site below.
const EXPIRES: usize = 138;

const EXPIRES_END: usize = 158;

// The database 00000000-0000-4000-8000-000000000000, with a secret of zeros.
fn site(alloc: Global) -> Result<Site, Fail> {
    Ok(Site {
        database_id: [0, 0, 0, 0, 0, 0, 0x40, 0, 0x80, 0, 0, 0, 0, 0, 0, 0],
        secret: [0; SECRET_BYTES],
        access: Bytes::of(Vec::new(alloc)),
        url: Bytes::copy_of(alloc, b"http://127.0.0.1:4512")?,
    })
}

// The reply to a body at a moment.
fn reply(alloc: Global, body: &[u8], at: u64) -> Result<Vec<u8>, Fail> {
    Ok(exchange(alloc, body, &site(alloc)?, at)?.into_vec())
}

#[test]
fn the_reply_is_one_text(rt: HostRuntime) -> Result<(), Fail> {
    let text = reply(rt.alloc(), b"{\"supportedVersions\":[1,2,3]}", 0)?;
    assert_eq!(rt; text.as_slice(), REPLY);
    Ok(())
}

// The version that a body is answered with, or 0 where it is refused.
fn version(alloc: Global, body: &[u8]) -> Result<u8, Fail> {
    match exchange(alloc, body, &site(alloc)?, 0) {
        Ok(text) => match text.as_slice() {
            [.., digit @ b'2'..=b'3', b'}'] => Ok(*digit - b'0'),
            _ => Ok(9),
        },
        Err(ExchangeError::BadExchange) => Ok(0),
        Err(ExchangeError::NoMemory) => Ok(8),
    }
}

#[test]
fn the_version_is_3_where_the_list_has_it_and_else_2(rt: HostRuntime) -> Result<(), Fail> {
    for (list, answered) in [
        ("[3]", 3),
        ("[2]", 2),
        ("[2,3]", 3),
        ("[3,2]", 3),
        ("[1,2]", 2),
        ("[1]", 0),
        ("[4]", 0),
        ("[]", 0),
        ("[3.0]", 0),
        ("[3e0]", 0),
        ("[3.0,30e-1,2]", 2),
        ("[03]", 0),
        ("[2,03]", 0),
        ("[+3]", 0),
        ("[-3]", 0),
        ("[-3,2]", 2),
        ("[\"3\"]", 0),
        ("[18446744073709551619]", 0),
        ("[3,1e999]", 0),
        ("[[3],{\"3\":3},null,true,2]", 2),
        ("[3,]", 0),
        ("3", 0),
        ("{\"3\":3}", 0),
        ("null", 0),
        ("[2],\"supportedVersions\":[3]", 3),
        ("[3],\"supportedVersions\":[2]", 2),
        ("[3],\"supportedVersions\":3", 0),
        ("[3],\"more\":[{\"a\":[[[]]]},\"\\u00e9\"]", 3),
    ] {
        let body = format!(in rt.alloc(); "{{\"supportedVersions\":{list}}}")?;
        assert_eq!(rt; version(rt.alloc(), body.as_bytes())?, answered, "{list}");
    }
    Ok(())
}

#[test]
fn a_body_is_an_object_with_the_list(rt: HostRuntime) -> Result<(), Fail> {
    for (body, answered) in [
        (b" \r\n\t{ \"supportedVersions\" : [ 2 ] } ".as_slice(), 2),
        (b"{\"supported\\u0056ersions\":[3]}", 3),
        (b"", 0),
        (b"[3]", 0),
        (b"{}", 0),
        (b"{\"supportedversions\":[3]}", 0),
        (b"{\"a\":{\"supportedVersions\":[3]}}", 0),
        (b"{\"supportedVersions\":[3]", 0),
        (b"{\"supportedVersions\":[3]} x", 0),
        (b"{\"supportedVersions\":[3]}{}", 0),
        (b"{supportedVersions:[3]}", 0),
        (b"\xef\xbb\xbf{\"supportedVersions\":[3]}", 0),
        (b"{\"supportedVersions\":[3],\"a\":\"\xff\"}", 0),
        (b"{\"supportedVersions\":[3],\"a\":\"\xed\xa0\x80\"}", 0),
    ] {
        assert_eq!(rt; version(rt.alloc(), body)?, answered, "{body:?}");
    }
    Ok(())
}

// A body that nests so many lists inside its object.
fn nested(alloc: Global, lists: usize) -> Result<Vec<u8>, Fail> {
    let mut body = Vec::from_slice(alloc, b"{\"supportedVersions\":[3],\"a\":")?;
    for _ in 0..lists {
        body.push(b'[')?;
    }
    for _ in 0..lists {
        body.push(b']')?;
    }
    body.push(b'}')?;
    Ok(body)
}

#[test]
fn a_body_nests_at_most_127_deep(rt: HostRuntime) -> Result<(), Fail> {
    for (lists, answered) in [(126, 3), (127, 0), (1000, 0)] {
        let body = nested(rt.alloc(), lists)?;
        assert_eq!(rt; version(rt.alloc(), body.as_slice())?, answered, "{lists}");
    }
    Ok(())
}

// Whether a reply tells this date and time as its expiry.
fn expires_at(text: &[u8], expires: &str) -> bool {
    text.get(EXPIRES..EXPIRES_END) == Some(expires.as_bytes())
}

#[test]
fn a_token_ends_an_hour_later_and_never_after_the_last_moment(rt: HostRuntime) -> Result<(), Fail> {
    for (at, expires) in [
        (0, "1970-01-01T01:00:00Z"),
        (999, "1970-01-01T01:00:00Z"),
        (1_000, "1970-01-01T01:00:01Z"),
        (951_778_799_999, "2000-02-28T23:59:59Z"),
        (951_778_800_000, "2000-02-29T00:00:00Z"),
        (1_709_251_199_000, "2024-03-01T00:59:59Z"),
        (4_107_538_800_000, "2100-03-01T00:00:00Z"),
        (MAX_MOMENT - 3_600_001, "9998-12-31T23:59:59Z"),
        (MAX_MOMENT - 3_600_000, "9999-01-01T00:00:00Z"),
        (MAX_MOMENT, "9999-01-01T00:00:00Z"),
        (u64::MAX, "9999-01-01T00:00:00Z"),
    ] {
        let text = reply(rt.alloc(), b"{\"supportedVersions\":[2]}", at)?;
        assert!(rt; expires_at(text.as_slice(), expires), "at {at}");
    }
    Ok(())
}

#[test]
fn errors_are_words(rt: HostRuntime) -> Result<(), Fail> {
    for (error, words) in [
        (ExchangeError::BadExchange, "bad exchange"),
        (ExchangeError::NoMemory, "no memory"),
    ] {
        assert_eq!(rt; format!(in rt.alloc(); "{error}")?.as_str(), words);
    }
    Ok(())
}
