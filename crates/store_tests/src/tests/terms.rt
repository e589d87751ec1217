// Trails that are full, and terms that begin anew.
use crate::tests::calls::{FIRST, Quiet, commit, file, takes, write};
use dkv_base::{Call, NoMemory};
use dkv_core::Taken;
use dkv_files::Pair;
use dkv_store::{MAX_TRAIL_BYTES, Refusal, Store};
use std::alloc::Global;
use std::test::Fail;

// A new database under a limit of the weight of its items.
fn limited(alloc: Global, limit: u64) -> Result<Store<Quiet>, NoMemory> {
    let pair = Pair {
        a: file(alloc, &[])?,
        b: file(alloc, &[])?,
    };
    match Store::fresh(alloc, pair, limit.min(MAX_TRAIL_BYTES)) {
        Ok(store) => Ok(store),
        Err((_pair, none)) => Err(none),
    }
}

// ---- a trail that is full

// The number of the last of so many writes under a limit, and the weight and the limit that the last refusal told, or zeros.
fn writes_within(alloc: Global, limit: u64, times: u64) -> Result<(u64, u64, u64), NoMemory> {
    let mut store = limited(alloc, limit)?;
    let mut told = (0, 0);
    for at in 0..times {
        let call = write(alloc)?;
        if let Err(Refusal::Full { trail_bytes, limit }) = commit(&mut store, alloc, at, call) {
            told = (trail_bytes, limit);
        }
    }
    Ok((store.number(), told.0, told.1))
}

// A write weighs 103.
#[test]
fn a_write_that_passes_the_limit_finds_the_trail_full(rt: HostRuntime) -> Result<(), Fail> {
    let rows = [
        (102, 1, (0, 0, 102)),
        (103, 1, (1, 0, 0)),
        (205, 2, (1, 103, 205)),
        (206, 2, (2, 0, 0)),
        (206, 3, (2, 206, 206)),
    ];
    for (limit, times, want) in rows {
        assert_eq!(rt; writes_within(rt.alloc(), limit, times)?, want);
    }
    Ok(())
}

// A message is taken behind one write under a limit: 1, what the items weigh then and the number of its settlement; or 2, and
// the weight and the limit that the refusal told; else 0.
fn takes_within(alloc: Global, limit: u64) -> Result<(u8, u64, u64), Refusal> {
    let mut store = limited(alloc, limit)?;
    let call = write(alloc)?;
    let _number = commit(&mut store, alloc, 0, call)?;
    match store.take(alloc, 1, 5) {
        Ok(Taken::Leased(_message)) => {
            let weight = store.weight();
            let number = commit(&mut store, alloc, 5, Call::Ack(FIRST))?;
            Ok((1, weight, number))
        }
        Err(Refusal::Full { trail_bytes, limit }) => Ok((2, trail_bytes, limit)),
        _ => Ok((0, 0, 0)),
    }
}

// A take weighs 64. The settlement passes the limit, and is made.
#[test]
fn a_take_that_passes_the_limit_finds_the_trail_full(rt: HostRuntime) -> Result<(), Fail> {
    let rows = [(166, (2, 103, 166)), (167, (1, 167, 2))];
    for (limit, want) in rows {
        assert_eq!(rt; takes_within(rt.alloc(), limit)?, want);
    }
    Ok(())
}

// ---- a further term

// After a write and a take a further term begins: how many items the first had, what the items weigh, whether the message is
// out, the limit, the effective moment of a call at 0, and whether the message is given again.
fn next(alloc: Global) -> Result<(usize, u64, bool, u64, u64, bool), Refusal> {
    let mut store = limited(alloc, 1_000)?;
    let call = write(alloc)?;
    let _number = commit(&mut store, alloc, 3, call)?;
    let _taken = takes(&mut store, alloc, 5)?;
    match store.next_term(alloc, 167) {
        Ok((mut store, items)) => {
            let told = (
                items.as_slice().len(),
                store.weight(),
                store.is_out(FIRST),
                store.limit(),
                store.moment(0),
            );
            let again = takes(&mut store, alloc, 5)?;
            Ok((told.0, told.1, told.2, told.3, told.4, again))
        }
        Err((_refusal, _store)) => Err(Refusal::NoMemory),
    }
}

#[test]
fn a_further_term_forgets_what_is_out(rt: HostRuntime) -> Result<(), Fail> {
    assert_eq!(rt; next(rt.alloc())?, (2, 0, false, 167, 3, true));
    Ok(())
}
