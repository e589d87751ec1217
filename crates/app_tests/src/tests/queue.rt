// Messages that are enqueued, taken, acknowledged and failed.
use super::running::{ACKNOWLEDGE, FAIL, NOT_OUT, NOTHING, READ, Said, TAKE, WRITE, WRITTEN, talk};
use std::test::*;

// The message (1, 0), alone and with the payload 70.
const FIRST: &[u8] = &[1, 0, 0, 0, 0, 0, 0, 0, 0, 0, 0, 0];

const LEASED: &[u8] = b"\x0e\0\0\0\0\x01\0\0\0\0\0\0\0\0\0\0\0\x70";

// Settlements, by their commits.
const SETTLED_2: &[u8] = b"\x09\0\0\0\0\x02\0\0\0\0\0\0\0";

const SETTLED_3: &[u8] = b"\x09\0\0\0\0\x03\0\0\0\0\0\0\0";

const SETTLED_4: &[u8] = b"\x09\0\0\0\0\x04\0\0\0\0\0\0\0";

const SETTLED_5: &[u8] = b"\x09\0\0\0\0\x05\0\0\0\0\0\0\0";

const SETTLED_6: &[u8] = b"\x09\0\0\0\0\x06\0\0\0\0\0\0\0";

const SETTLED_7: &[u8] = b"\x09\0\0\0\0\x07\0\0\0\0\0\0\0";

// A read of all keys of texts, up to nine, and its reply: 70 in encoding V8 under 02 64 00, of commit 3.
const ALL: &[u8] = b"\x0a\x08\x0a\x01\x02\x12\x01\x03\x18\x09";

const UNDELIVERED: &[u8] =
    b"\x1f\0\0\0\0\x0a\x18\x0a\x16\x0a\x03\x02\x64\0\x12\x01\x70\x18\x01\x22\x0a\0\0\0\0\0\0\0\x03\0\0\x20\x01\x40\x01";

#[test]
fn a_message_that_fails_too_often_is_kept_under_its_key(rt: HostRuntime) -> Result<(), Fail> {
    // The payload 70, due at 50, with one interval of 100 and the key 02 64 00.
    let enqueue = b"\x1a\x0d\x0a\x01\x70\x10\x32\x1a\x03\x02\x64\0\x22\x01\x64";
    let said: [Said<'_>; 10] = [
        (10, WRITE, enqueue, WRITTEN),
        (49, TAKE, b"", b"\x09\0\0\0\x06\x32\0\0\0\0\0\0\0"),
        (50, TAKE, b"", LEASED),
        (60, FAIL, FIRST, SETTLED_2),
        (159, TAKE, b"", b"\x09\0\0\0\x06\xa0\0\0\0\0\0\0\0"),
        (160, TAKE, b"", LEASED),
        (160, FAIL, FIRST, SETTLED_3),
        (160, READ, ALL, UNDELIVERED),
        (160, TAKE, b"", NOTHING),
        (160, FAIL, FIRST, NOT_OUT),
    ];
    talk(&rt, rt.alloc(), &said)
}

#[test]
fn messages_of_one_write_are_taken_in_their_order(rt: HostRuntime) -> Result<(), Fail> {
    // The payloads 70 and 71, due at 0.
    let enqueues = b"\x1a\x03\x0a\x01\x70\x1a\x03\x0a\x01\x71";
    let second = b"\x0e\0\0\0\0\x01\0\0\0\0\0\0\0\x01\0\0\0\x71";
    let said: [Said<'_>; 6] = [
        (0, WRITE, enqueues, WRITTEN),
        (0, TAKE, b"", LEASED),
        (0, TAKE, b"", second),
        (0, TAKE, b"", NOTHING),
        (0, ACKNOWLEDGE, FIRST, SETTLED_2),
        (0, ACKNOWLEDGE, FIRST, NOT_OUT),
    ];
    talk(&rt, rt.alloc(), &said)
}

#[test]
fn an_empty_schedule_is_that_of_five_intervals(rt: HostRuntime) -> Result<(), Fail> {
    let enqueue = b"\x1a\x03\x0a\x01\x70";
    let said: [Said<'_>; 18] = [
        (0, WRITE, enqueue, WRITTEN),
        (0, TAKE, b"", LEASED),
        (0, FAIL, FIRST, SETTLED_2),
        (0, TAKE, b"", b"\x09\0\0\0\x06\x64\0\0\0\0\0\0\0"),
        (100, TAKE, b"", LEASED),
        (100, FAIL, FIRST, SETTLED_3),
        (100, TAKE, b"", b"\x09\0\0\0\x06\x4c\x04\0\0\0\0\0\0"),
        (1100, TAKE, b"", LEASED),
        (1100, FAIL, FIRST, SETTLED_4),
        (1100, TAKE, b"", b"\x09\0\0\0\x06\xd4\x17\0\0\0\0\0\0"),
        (6100, TAKE, b"", LEASED),
        (6100, FAIL, FIRST, SETTLED_5),
        (6100, TAKE, b"", b"\x09\0\0\0\x06\x04\x8d\0\0\0\0\0\0"),
        (36100, TAKE, b"", LEASED),
        (36100, FAIL, FIRST, SETTLED_6),
        (96100, TAKE, b"", LEASED),
        (96100, FAIL, FIRST, SETTLED_7),
        (u64::MAX, TAKE, b"", NOTHING),
    ];
    talk(&rt, rt.alloc(), &said)
}

#[test]
fn a_key_that_is_given_twice_has_the_payload_once(rt: HostRuntime) -> Result<(), Fail> {
    // The payload 70, due at 0, with one interval of 5 and twice the key 02 64 00.
    let enqueue = b"\x1a\x10\x0a\x01\x70\x1a\x03\x02\x64\0\x1a\x03\x02\x64\0\x22\x01\x05";
    let said: [Said<'_>; 7] = [
        (10, WRITE, enqueue, WRITTEN),
        (10, TAKE, b"", LEASED),
        (10, FAIL, FIRST, SETTLED_2),
        (15, TAKE, b"", LEASED),
        (15, FAIL, FIRST, SETTLED_3),
        (15, READ, ALL, UNDELIVERED),
        (15, TAKE, b"", NOTHING),
    ];
    talk(&rt, rt.alloc(), &said)
}
