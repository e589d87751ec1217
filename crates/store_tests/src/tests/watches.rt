// Watches of a store, by tables of what was written and of the frames between.
use crate::tests::calls::{Quiet, commit, store};
use dkv_atomic::watch_limits;
use dkv_base::{Bytes, Call, Frame, NoMemory, Run};
use dkv_hub::Watcher;
use dkv_msgs::read_atomic_write;
use dkv_store::{Refusal, Store};
use std::alloc::Global;
use std::process::Abort;
use std::test::Fail;

// ---- writes and frames

// A write that sets the keys of the texts `a` and `b`; one that sets that of `c`; and one that sets that of `a` until moment 9.
const BOTH: &[u8] = b"\x12\x0e\x0a\x03\x02a\x00\x12\x05\x0a\x01x\x10\x03\x18\x01\
    \x12\x0e\x0a\x03\x02b\x00\x12\x05\x0a\x01x\x10\x03\x18\x01";

const THIRD: &[u8] = b"\x12\x0e\x0a\x03\x02c\x00\x12\x05\x0a\x01x\x10\x03\x18\x01";

const BRIEF: &[u8] = b"\x12\x10\x0a\x03\x02a\x00\x12\x05\x0a\x01x\x10\x03\x18\x01\x20\x09";

// The write of a step.
fn write_of(alloc: Global, name: char) -> Result<Call, NoMemory> {
    let bytes = match name {
        'b' => BOTH,
        'c' => THIRD,
        _ => BRIEF,
    };
    match read_atomic_write(alloc, bytes) {
        Ok(write) => Ok(Call::Write(write)),
        Err(_) => Err(NoMemory),
    }
}

// 1, and then a digit for each key: 0 where it didn't change, 9 where it is absent, else its commit. 0 alone is no frame.
fn digits(frame: Option<Frame>) -> u64 {
    let mut digits = 0u64;
    if let Some(frame) = frame {
        digits = 1;
        for key in frame.keys.as_slice() {
            let digit = match &key.entry {
                Some(entry) => entry.commit,
                None => 9 * u64::from(key.changed),
            };
            digits = digits.wrapping_mul(10).wrapping_add(digit);
        }
    }
    digits
}

// Begins a watch of the keys of the texts `a` and `b`.
fn watch(store: &mut Store<Quiet>, alloc: Global) -> Result<Watcher, NoMemory> {
    let mut keys = Run::new(alloc);
    keys.add(Bytes::copy_of(alloc, b"\x02a\x00")?)?;
    keys.add(Bytes::copy_of(alloc, b"\x02b\x00")?)?;
    match watch_limits(keys.as_slice()) {
        Some(_) => Err(NoMemory),
        None => store.watch(keys),
    }
}

// Makes the write, and gives the number of its commit.
fn write_at(store: &mut Store<Quiet>, alloc: Global, name: char, at: u64) -> Result<u64, Refusal> {
    let call = write_of(alloc, name)?;
    commit(store, alloc, at, call)
}

// ---- tables

// A write or a poll, its moment, and the number of the commit or the digits of the frame.
type Step = (char, u64, u64);

fn take_step(
    store: &mut Store<Quiet>,
    alloc: Global,
    watcher: &mut Watcher,
    (name, at, _): Step,
) -> Result<u64, Refusal> {
    match name {
        'p' => Ok(digits(store.poll(alloc, watcher, at)?)),
        _ => {
            let call = write_of(alloc, name)?;
            commit(store, alloc, at, call)
        }
    }
}

// The place of the first step that is answered otherwise, or the number of steps.
fn first_wrong(
    store: &mut Store<Quiet>,
    alloc: Global,
    watcher: &mut Watcher,
    steps: &[Step],
) -> Result<usize, Refusal> {
    let mut place = 0usize;
    for step in steps {
        if take_step(store, alloc, watcher, *step)? != step.2 {
            return Ok(place);
        }
        place = place.saturating_add(1);
    }
    Ok(place)
}

// The place of the first step that is answered otherwise, and the digits of the last frame, at its moment.
fn goes(alloc: Global, steps: &[Step], last: u64) -> Result<(usize, u64), Refusal> {
    let mut store = store(alloc, &[])?;
    let mut watcher = watch(&mut store, alloc)?;
    let wrong = first_wrong(&mut store, alloc, &mut watcher, steps);
    let told = store.finish(alloc, watcher, last);
    Ok((wrong?, digits(told?)))
}

fn are_told(
    rt: &impl Abort,
    alloc: Global,
    steps: &[Step],
    (at, last): (u64, u64),
) -> Result<(), Fail> {
    assert_eq!(rt; goes(alloc, steps, at)?, (steps.len(), last));
    Ok(())
}

#[test]
fn one_write_of_two_keys_is_one_frame(rt: HostRuntime) -> Result<(), Fail> {
    let steps = [
        ('p', 1, 199),
        ('p', 1, 0),
        ('b', 2, 1),
        ('p', 2, 111),
        ('p', 3, 0),
    ];
    are_told(&rt, rt.alloc(), &steps, (4, 0))
}

#[test]
fn a_write_of_another_key_is_no_frame(rt: HostRuntime) -> Result<(), Fail> {
    let steps = [
        ('b', 1, 1),
        ('p', 1, 111),
        ('c', 2, 2),
        ('p', 2, 0),
        ('b', 3, 3),
        ('p', 3, 133),
    ];
    are_told(&rt, rt.alloc(), &steps, (3, 0))
}

// A poll never looks before what was seen: at moment 3 the entry that ended at 9 is still gone.
#[test]
fn an_entry_that_ends_is_a_frame(rt: HostRuntime) -> Result<(), Fail> {
    let steps = [
        ('e', 1, 1),
        ('p', 8, 119),
        ('p', 9, 190),
        ('p', 3, 0),
        ('c', 3, 2),
    ];
    are_told(&rt, rt.alloc(), &steps, (3, 0))
}

#[test]
fn the_last_poll_tells_what_changed_since(rt: HostRuntime) -> Result<(), Fail> {
    are_told(&rt, rt.alloc(), &[('b', 1, 1)], (1, 111))?;
    are_told(&rt, rt.alloc(), &[('p', 1, 199), ('b', 1, 1)], (1, 111))?;
    are_told(&rt, rt.alloc(), &[('e', 1, 1), ('p', 1, 119)], (9, 190))
}
