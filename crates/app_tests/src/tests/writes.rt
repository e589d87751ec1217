// Atomic writes: checks, mutations, and what is refused whole.
use super::running::{FOUND, KEY, NONE_FOUND, READ, SECOND, SET, Said, WRITE, WRITTEN, talk};
use std::test::*;

#[test]
fn a_check_of_absence_fails_the_second_time(rt: HostRuntime) -> Result<(), Fail> {
    // That the key 02 61 00 has no entry, and a SET of it to 78.
    let once: &[u8] =
        b"\x0a\x05\x0a\x03\x02\x61\0\x12\x0e\x0a\x03\x02\x61\0\x12\x05\x0a\x01\x78\x10\x03\x18\x01";
    let said: [Said<'_>; 3] = [
        (5, WRITE, once, WRITTEN),
        (5, WRITE, once, b"\x06\0\0\0\0\x08\x02\x22\x01\0"),
        (5, READ, KEY, FOUND),
    ];
    talk(&rt, rt.alloc(), &said)
}

#[test]
fn a_sum_wraps_to_zero(rt: HostRuntime) -> Result<(), Fail> {
    // A SET of the key 02 61 00 to the greatest number, and a SUM of one.
    let sum: &[u8] =
        b"\x12\x15\x0a\x03\x02\x61\0\x12\x0c\x0a\x08\xff\xff\xff\xff\xff\xff\xff\xff\x10\x02\x18\x01\x12\x15\x0a\x03\x02\x61\0\x12\x0c\x0a\x08\x01\0\0\0\0\0\0\0\x10\x02\x18\x03";
    let zero: &[u8] =
        b"\x26\0\0\0\0\x0a\x1f\x0a\x1d\x0a\x03\x02\x61\0\x12\x08\0\0\0\0\0\0\0\0\x18\x02\x22\x0a\0\0\0\0\0\0\0\x01\0\0\x20\x01\x40\x01";
    let said: [Said<'_>; 2] = [(5, WRITE, sum, WRITTEN), (5, READ, KEY, zero)];
    talk(&rt, rt.alloc(), &said)
}

#[test]
fn a_sum_on_bytes_refuses_the_whole_write(rt: HostRuntime) -> Result<(), Fail> {
    // A SET of the key 02 63 00 to 78, the same with a SUM of one on 02 61 00, and a read of 02 63 00 alone.
    let set: &[u8] = b"\x12\x0e\x0a\x03\x02\x63\0\x12\x05\x0a\x01\x78\x10\x03\x18\x01";
    let with_sum: &[u8] =
        b"\x12\x0e\x0a\x03\x02\x63\0\x12\x05\x0a\x01\x78\x10\x03\x18\x01\x12\x15\x0a\x03\x02\x61\0\x12\x0c\x0a\x08\x01\0\0\0\0\0\0\0\x10\x02\x18\x03";
    let read: &[u8] = b"\x0a\x0d\x0a\x03\x02\x63\0\x12\x04\x02\x63\0\0\x18\x01";
    let said: [Said<'_>; 4] = [
        (5, WRITE, SET, WRITTEN),
        (5, WRITE, with_sum, b"\x05\0\0\0\x03\x01\0\0\0"),
        (5, READ, read, NONE_FOUND),
        (5, WRITE, set, SECOND),
    ];
    talk(&rt, rt.alloc(), &said)
}

#[test]
fn a_delete_and_a_set_are_one_commit(rt: HostRuntime) -> Result<(), Fail> {
    // A DELETE of the key 02 61 00 and a SET of 02 62 00 to 78, and a read of all keys of texts, up to nine.
    let both: &[u8] =
        b"\x12\x07\x0a\x03\x02\x61\0\x18\x02\x12\x0e\x0a\x03\x02\x62\0\x12\x05\x0a\x01\x78\x10\x03\x18\x01";
    let all: &[u8] = b"\x0a\x08\x0a\x01\x02\x12\x01\x03\x18\x09";
    let found: &[u8] =
        b"\x1f\0\0\0\0\x0a\x18\x0a\x16\x0a\x03\x02\x62\0\x12\x01\x78\x18\x03\x22\x0a\0\0\0\0\0\0\0\x02\0\0\x20\x01\x40\x01";
    let said: [Said<'_>; 3] = [
        (5, WRITE, SET, WRITTEN),
        (5, WRITE, both, SECOND),
        (5, READ, all, found),
    ];
    talk(&rt, rt.alloc(), &said)
}
