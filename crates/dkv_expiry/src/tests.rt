// Endings come and go in the order of their moments.
use super::*;
use dkv_base::Bytes;
use std::alloc::Global;
use std::process::Abort;
use std::test::Fail;

fn expiry(alloc: Global, endings: &[(u64, &str)]) -> Result<Expiry, Fail> {
    let mut expiry = Expiry::new(alloc);
    for (at, key) in endings {
        expiry.reserve(1)?;
        expiry.note(Bytes::copy_of(alloc, key.as_bytes())?, *at);
    }
    Ok(expiry)
}

// Takes out what ends up to the moment, which has to be these keys in their order.
fn ends_so(
    rt: &impl Abort,
    alloc: Global,
    expiry: &mut Expiry,
    at: u64,
    keys: &[(u64, &str)],
) -> Result<(), Fail> {
    for (expire, key) in keys {
        let due = match expiry.due_upto(at) {
            Some(due) => Bytes::copy_of(alloc, due.as_slice())?,
            None => Bytes::of(Vec::new(alloc)),
        };
        assert!(rt; due.as_slice() == key.as_bytes());
        expiry.drop_key(key.as_bytes(), *expire);
    }
    assert!(rt; expiry.due_upto(at).is_none());
    Ok(())
}

#[test]
fn keys_end_by_moment_and_then_by_their_bytes(rt: HostRuntime) -> Result<(), Fail> {
    let mut expiry = expiry(
        rt.alloc(),
        &[(9, "a"), (7, "ba"), (7, "b"), (8, "c"), (10, "")],
    )?;
    ends_so(&rt, rt.alloc(), &mut expiry, 6, &[])?;
    ends_so(&rt, rt.alloc(), &mut expiry, 7, &[(7, "b"), (7, "ba")])?;
    ends_so(
        &rt,
        rt.alloc(),
        &mut expiry,
        u64::MAX,
        &[(8, "c"), (9, "a"), (10, "")],
    )
}

#[test]
fn an_ending_is_dropped_at_its_own_moment_alone(rt: HostRuntime) -> Result<(), Fail> {
    let mut expiry = expiry(rt.alloc(), &[(7, "a"), (8, "a"), (7, "a")])?;
    expiry.drop_key(b"a", 9);
    expiry.drop_key(b"a", 7);
    ends_so(&rt, rt.alloc(), &mut expiry, 9, &[(8, "a")])?;
    the_first_is_the_least();
    Ok(())
}
