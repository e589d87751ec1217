// Reads of one key and of ranges.
use super::running::{
    FOUND, KEY, NONE_FOUND, READ, SECOND, SET, Said, THIRD, WRITE, WRITTEN, talk,
};
use std::test::*;

#[test]
fn nothing_is_asked_and_a_set_is_answered_and_then_read(rt: HostRuntime) -> Result<(), Fail> {
    let alloc = rt.alloc();
    talk(&rt, alloc, &[])?;
    let said: [Said<'_>; 3] = [
        (5, READ, KEY, NONE_FOUND),
        (5, WRITE, SET, WRITTEN),
        (5, READ, KEY, FOUND),
    ];
    talk(&rt, alloc, &said)
}

// SETs of the keys 02 62 00 and 02 63 00 to 78.
const SET_B: &[u8] = b"\x12\x0e\x0a\x03\x02\x62\0\x12\x05\x0a\x01\x78\x10\x03\x18\x01";

const SET_C: &[u8] = b"\x12\x0e\x0a\x03\x02\x63\0\x12\x05\x0a\x01\x78\x10\x03\x18\x01";

// Reads of two entries of a range, from above and from below, and of a range that ends before it begins.
const DOWN: &[u8] = b"\x0a\x0a\x0a\x01\x02\x12\x01\x03\x18\x02\x20\x01";

const UP: &[u8] = b"\x0a\x08\x0a\x01\x02\x12\x01\x03\x18\x02";

const BACK: &[u8] = b"\x0a\x08\x0a\x01\x03\x12\x01\x02\x18\x02";

// The entries of 02 63 00 (commit 3) and 02 62 00 (commit 1), and those of 02 61 00 (commit 2) and 02 62 00.
const C_AND_B: &[u8] =
    b"\x37\0\0\0\0\x0a\x30\x0a\x16\x0a\x03\x02\x63\0\x12\x01\x78\x18\x03\x22\x0a\0\0\0\0\0\0\0\x03\0\0\x0a\x16\x0a\x03\x02\x62\0\x12\x01\x78\x18\x03\x22\x0a\0\0\0\0\0\0\0\x01\0\0\x20\x01\x40\x01";

const A_AND_B: &[u8] =
    b"\x37\0\0\0\0\x0a\x30\x0a\x16\x0a\x03\x02\x61\0\x12\x01\x78\x18\x03\x22\x0a\0\0\0\0\0\0\0\x02\0\0\x0a\x16\x0a\x03\x02\x62\0\x12\x01\x78\x18\x03\x22\x0a\0\0\0\0\0\0\0\x01\0\0\x20\x01\x40\x01";

#[test]
fn a_range_is_read_up_or_down_to_its_limit(rt: HostRuntime) -> Result<(), Fail> {
    let said: [Said<'_>; 6] = [
        (5, WRITE, SET_B, WRITTEN),
        (5, WRITE, SET, SECOND),
        (5, WRITE, SET_C, THIRD),
        (5, READ, DOWN, C_AND_B),
        (5, READ, UP, A_AND_B),
        (5, READ, BACK, NONE_FOUND),
    ];
    talk(&rt, rt.alloc(), &said)
}
