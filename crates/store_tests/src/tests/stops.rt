// A term that is stopped.
use crate::tests::calls::{FIRST, Quiet, commit, store, takes, write};
use dkv_base::Call;
use dkv_store::{Refusal, Store};
use std::alloc::Global;
use std::test::Fail;

// Writes once, takes the message, and stops behind these two items.
fn stopped(alloc: Global, last: bool) -> Result<Store<Quiet>, Refusal> {
    let mut store = store(alloc, &[])?;
    let call = write(alloc)?;
    let _number = commit(&mut store, alloc, 1, call)?;
    let _taken = takes(&mut store, alloc, 5)?;
    store.stop(1, 7, last)?;
    Ok(store)
}

// The place that a refusal tells, or 99.
fn place_told(refused: Option<Refusal>) -> u64 {
    match refused {
        Some(Refusal::Stopped { place }) => place,
        _ => 99,
    }
}

// What a write and a take are told behind the stop.
fn held_back(alloc: Global) -> Result<(u64, u64), Refusal> {
    let mut store = stopped(alloc, false)?;
    let call = write(alloc)?;
    let wrote = commit(&mut store, alloc, 8, call).err();
    let took = takes(&mut store, alloc, 8).err();
    Ok((place_told(wrote), place_told(took)))
}

#[test]
fn a_write_and_a_take_are_told_the_place_of_the_stop(rt: HostRuntime) -> Result<(), Fail> {
    assert_eq!(rt; held_back(rt.alloc())?, (2, 2));
    Ok(())
}

// The number of the settlement behind the stop.
fn settles(alloc: Global) -> Result<u64, Refusal> {
    let mut store = stopped(alloc, true)?;
    commit(&mut store, alloc, 8, Call::Ack(FIRST))
}

#[test]
fn a_message_is_settled_behind_the_stop(rt: HostRuntime) -> Result<(), Fail> {
    assert_eq!(rt; settles(rt.alloc())?, 2);
    Ok(())
}

// How many items there are, and what is told of the stops.
fn told(alloc: Global, last: bool) -> Result<(u64, Option<bool>), Refusal> {
    let store = stopped(alloc, last)?;
    let peek = store.peek();
    Ok((peek.place, peek.stop))
}

#[test]
fn a_stop_is_told(rt: HostRuntime) -> Result<(), Fail> {
    assert_eq!(rt; told(rt.alloc(), false)?, (3, Some(false)));
    assert_eq!(rt; told(rt.alloc(), true)?, (3, Some(true)));
    Ok(())
}
