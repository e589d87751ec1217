// What the moments of steps do.
use super::rows::{Row, go};
use dkv_base::MAX_MOMENT;
use std::test::Fail;

#[test]
fn a_moment_above_the_last_one_is_the_last_one(rt: HostRuntime) -> Result<(), Fail> {
    let rows: [Row<'_>; 9] = [
        (u64::MAX, "set a 7 9223372036854775807", "written 1"),
        (u64::MAX, "get a", "found, a 7 1"),
        (0, "now", "now 1 253370764800000 253370764800000 0"),
        (0, "check a 1; set a 7 253370764800001", "written 2"),
        (0, "get a", "found, a 7 2"),
        (0, "now", "now 2 253370764800000 253370764800000 0"),
        (
            MAX_MOMENT + 1,
            "check a 2; set a 7 253370764800000",
            "written 3",
        ),
        (MAX_MOMENT + 1, "get a", "found"),
        (0, "now", "now 3 253370764800000 253370764800000 0"),
    ];
    let _core = go(&rt, rt.alloc(), &rows)?;
    Ok(())
}

#[test]
fn an_entry_ends_at_its_expiry_and_stays_ended(rt: HostRuntime) -> Result<(), Fail> {
    let rows: [Row<'_>; 7] = [
        (10, "check a 0; set a 7 100", "written 1"),
        (99, "get a", "found, a 7 1"),
        (100, "get a", "found"),
        (50, "get a", "found"),
        // Its end is no commit: a check of its absence holds, and a check of it fails.
        (50, "check a 1; set a 7", "fails 0"),
        (50, "check a 0; set a 7", "written 2"),
        (50, "now", "now 2 100 100 0"),
    ];
    let _core = go(&rt, rt.alloc(), &rows)?;
    Ok(())
}

#[test]
fn refusals_of_a_limit_and_of_a_settlement_leave_the_moment(rt: HostRuntime) -> Result<(), Fail> {
    let rows: [Row<'_>; 6] = [
        (10, "xor a 7", "limit"),
        (10, "now", "now 0 0 0 0"),
        (10, "handled 1 0", "not out"),
        (10, "now", "now 0 0 0 0"),
        (10, "take", "nothing"),
        (10, "now", "now 0 0 10 0"),
    ];
    let _core = go(&rt, rt.alloc(), &rows)?;
    Ok(())
}
