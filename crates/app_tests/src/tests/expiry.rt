// Entries that end.
use super::running::{
    ACKNOWLEDGE, FOUND, KEY, NONE_FOUND, NOT_OUT, NOTHING, READ, SECOND, Said, TAKE, WRITE,
    WRITTEN, talk,
};
use std::test::*;

// SETs of the key 02 61 00 to 78, which end at these moments.
const AT_9: &[u8] = b"\x12\x10\x0a\x03\x02\x61\0\x12\x05\x0a\x01\x78\x10\x03\x18\x01\x20\x09";

const AT_100: &[u8] = b"\x12\x10\x0a\x03\x02\x61\0\x12\x05\x0a\x01\x78\x10\x03\x18\x01\x20\x64";

const AT_MINUS_1: &[u8] =
    b"\x12\x19\x0a\x03\x02\x61\0\x12\x05\x0a\x01\x78\x10\x03\x18\x01\x20\xff\xff\xff\xff\xff\xff\xff\xff\xff\x01";

const AT_THE_GREATEST: &[u8] =
    b"\x12\x18\x0a\x03\x02\x61\0\x12\x05\x0a\x01\x78\x10\x03\x18\x01\x20\xff\xff\xff\xff\xff\xff\xff\xff\x7f";

#[test]
fn a_key_is_gone_from_its_expiry_on_and_stays_gone(rt: HostRuntime) -> Result<(), Fail> {
    let said: [Said<'_>; 4] = [
        (10, WRITE, AT_100, WRITTEN),
        (99, READ, KEY, FOUND),
        (100, READ, KEY, NONE_FOUND),
        (50, READ, KEY, NONE_FOUND),
    ];
    talk(&rt, rt.alloc(), &said)
}

#[test]
fn a_key_of_no_expiry_or_of_one_beyond_the_last_moment_never_ends(
    rt: HostRuntime,
) -> Result<(), Fail> {
    for endless in [AT_MINUS_1, AT_THE_GREATEST] {
        let said: [Said<'_>; 4] = [
            (10, WRITE, endless, WRITTEN),
            (11, READ, KEY, FOUND),
            (1 << 63, READ, KEY, FOUND),
            (u64::MAX, READ, KEY, FOUND),
        ];
        talk(&rt, rt.alloc(), &said)?;
    }
    Ok(())
}

#[test]
fn an_expiry_in_the_past_leaves_the_key_absent(rt: HostRuntime) -> Result<(), Fail> {
    let said: [Said<'_>; 5] = [
        (8, WRITE, AT_9, WRITTEN),
        (8, READ, KEY, FOUND),
        (9, WRITE, AT_9, SECOND),
        (9, READ, KEY, NONE_FOUND),
        (8, READ, KEY, NONE_FOUND),
    ];
    talk(&rt, rt.alloc(), &said)?;
    let over_another: [Said<'_>; 4] = [
        (10, WRITE, AT_100, WRITTEN),
        (10, READ, KEY, FOUND),
        (10, WRITE, AT_9, SECOND),
        (10, READ, KEY, NONE_FOUND),
    ];
    talk(&rt, rt.alloc(), &over_another)
}

#[test]
fn what_is_refused_leaves_the_moment(rt: HostRuntime) -> Result<(), Fail> {
    let said: [Said<'_>; 7] = [
        (10, WRITE, AT_100, WRITTEN),
        // Malformed at place 0, a range with a limit of 0, and a message that isn't out.
        (100, READ, b"\x0a", b"\x09\0\0\0\x01\0\0\0\0\0\0\0\0"),
        (100, READ, b"\x0a\0", b"\x02\0\0\0\x02\x16"),
        (100, ACKNOWLEDGE, &[0; 12], NOT_OUT),
        (50, READ, KEY, FOUND),
        // A take that finds nothing raises it.
        (100, TAKE, b"", NOTHING),
        (50, READ, KEY, NONE_FOUND),
    ];
    talk(&rt, rt.alloc(), &said)
}
