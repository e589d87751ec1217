// What writes store, and what reads find.
use super::rows::{Row, go};
use std::test::Fail;

#[test]
fn checks_and_mutations_see_what_stood_before_the_write(rt: HostRuntime) -> Result<(), Fail> {
    let rows: [Row<'_>; 11] = [
        // A check that holds once, and fails the second time.
        (5, "check a 0; set a 18446744073709551615", "written 1"),
        (5, "check a 0; set a 7", "fails 0"),
        (5, "get a", "found, a 18446744073709551615 1"),
        // A sum wraps to zero.
        (5, "add a 1", "written 2"),
        (5, "get a", "found, a 0 2"),
        // A key that is taken away and stored in one write, beside checks of presence and of absence.
        (
            5,
            "check a 2; check b 0; delete a; set a 3; set b 4",
            "written 3",
        ),
        (5, "read a c 9", "found, a 3 3, b 4 3"),
        // A refused write leaves nothing of its first mutation.
        (
            5,
            "check a 3; check b 0; delete a; set a 3; set b 4",
            "fails 1",
        ),
        (5, "check a 2; check c 0; check b 0; delete a", "fails 0 2"),
        (5, "read a c 9", "found, a 3 3, b 4 3"),
        (5, "now", "now 3 5 5 0"),
    ];
    let _core = go(&rt, rt.alloc(), &rows)?;
    Ok(())
}

#[test]
fn ranges_are_read_up_and_down_to_their_limits(rt: HostRuntime) -> Result<(), Fail> {
    let rows: [Row<'_>; 10] = [
        (5, "set c 1", "written 1"),
        (5, "set a 1", "written 2"),
        (5, "set d 1", "written 3"),
        (5, "set b 1", "written 4"),
        (5, "set e 1", "written 5"),
        (5, "read b e 10", "found, b 1 4, c 1 1, d 1 3"),
        (5, "back b e 10", "found, d 1 3, c 1 1, b 1 4"),
        (5, "read b e 2", "found, b 1 4, c 1 1"),
        (5, "back b e 2", "found, d 1 3, c 1 1"),
        (5, "read e b 10", "found"),
    ];
    let _core = go(&rt, rt.alloc(), &rows)?;
    Ok(())
}
