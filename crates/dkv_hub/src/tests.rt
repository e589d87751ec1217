// Watches of a table, by tables of its changes and of the frames between them.
use super::*;
use dkv_atomic::watch_limits;
use dkv_base::{Bytes, Entry, Frame, NoMemory, Run};
use dkv_table::{Plain, Table};
use std::alloc::Global;
use std::process::Abort;
use std::test::Fail;

// Begins a watch of keys that pass no limit.
fn enter(alloc: Global, hub: &mut Hub, keys: &[&str]) -> Result<Watcher, NoMemory> {
    let mut run = Run::new(alloc);
    for key in keys {
        run.add(Bytes::copy_of(alloc, key.as_bytes())?)?;
    }
    match watch_limits(run.as_slice()) {
        Some(_) => Err(NoMemory),
        None => hub.enter(run),
    }
}

fn put(
    alloc: Global,
    table: &mut Plain,
    key: &str,
    commit: u64,
    expire: u64,
) -> Result<(), NoMemory> {
    table.reserve(1)?;
    let _ = table.put(Entry {
        key: Bytes::copy_of(alloc, key.as_bytes())?,
        bytes: Bytes::of(Vec::new(alloc)),
        encoding: 1,
        commit,
        expire,
    });
    Ok(())
}

// 1, and then a digit for each key: 0 where it didn't change, 9 where it is absent, else its
// commit. 0 alone is no frame.
fn digits(frame: Option<Frame>) -> u64 {
    let mut digits = 0u64;
    if let Some(frame) = frame {
        digits = 1;
        for key in frame.keys.as_slice() {
            let digit = match &key.entry {
                Some(entry) => entry.commit,
                None => 9 * u64::from(key.changed),
            };
            digits = digits.wrapping_mul(10).wrapping_add(digit);
        }
    }
    digits
}

// The frame at the moment, which is shown.
fn poll(alloc: Global, table: &Plain, watcher: &mut Watcher, at: u64) -> Result<u64, NoMemory> {
    let frame = watcher.frame(alloc, table, at)?;
    let shown = watcher.shown_at(alloc, table, at)?;
    watcher.show(shown.as_slice());
    Ok(digits(frame))
}

// A put, a removal or a frame: a key, its commit and when it ends; the moment of the frame, and
// its digits.
type Step = (char, &'static str, u64, u64, u64, u64);

fn take_step(
    alloc: Global,
    table: &mut Plain,
    watcher: &mut Watcher,
    step: Step,
) -> Result<u64, NoMemory> {
    let (name, key, commit, expire, at, _) = step;
    match name {
        'p' => {
            put(alloc, table, key, commit, expire)?;
            Ok(0)
        }
        'r' => {
            let _ = table.remove(key.as_bytes());
            Ok(0)
        }
        _ => poll(alloc, table, watcher, at),
    }
}

// The place of the first step that is answered otherwise, or the number of steps.
fn first_wrong(
    alloc: Global,
    table: &mut Plain,
    watcher: &mut Watcher,
    steps: &[Step],
) -> Result<usize, NoMemory> {
    let mut place = 0usize;
    for step in steps {
        if take_step(alloc, table, watcher, *step)? != step.5 {
            return Ok(place);
        }
        place = place.saturating_add(1);
    }
    Ok(place)
}

fn are_shown(rt: &impl Abort, alloc: Global, keys: &[&str], steps: &[Step]) -> Result<(), Fail> {
    let mut hub = Hub::new(alloc);
    let mut table = Plain::new(alloc);
    let mut watcher = enter(alloc, &mut hub, keys)?;
    let wrong = first_wrong(alloc, &mut table, &mut watcher, steps);
    hub.leave(watcher);
    assert_eq!(rt; wrong?, steps.len());
    Ok(())
}

#[test]
fn a_frame_tells_the_keys_that_changed(rt: HostRuntime) -> Result<(), Fail> {
    are_shown(
        &rt,
        rt.alloc(),
        &["a", "b"],
        &[
            ('f', "", 0, 0, 5, 199),
            ('f', "", 0, 0, 5, 0),
            ('p', "a", 1, 0, 0, 0),
            ('f', "", 0, 0, 5, 110),
            ('p', "b", 2, 9, 0, 0),
            ('p', "c", 3, 0, 0, 0),
            ('f', "", 0, 0, 8, 102),
            ('f', "", 0, 0, 9, 109),
            ('p', "b", 4, 0, 0, 0),
            ('r', "a", 0, 0, 0, 0),
            ('f', "", 0, 0, 9, 194),
        ],
    )
}

#[test]
fn a_key_that_was_set_back_has_changed(rt: HostRuntime) -> Result<(), Fail> {
    are_shown(
        &rt,
        rt.alloc(),
        &["a"],
        &[
            ('p', "a", 1, 0, 0, 0),
            ('f', "", 0, 0, 5, 11),
            ('p', "a", 2, 0, 0, 0),
            ('p', "a", 3, 0, 0, 0),
            ('f', "", 0, 0, 5, 13),
            ('r', "a", 0, 0, 0, 0),
            ('f', "", 0, 0, 5, 19),
            ('p', "a", 4, 0, 0, 0),
            ('r', "a", 0, 0, 0, 0),
            ('f', "", 0, 0, 5, 0),
        ],
    )
}

// What a watcher of one key has shown: its keys, 0 or 1 for a frame, the commit, and when it ends.
fn noted(watcher: &Watcher) -> (usize, u64, u64, u64) {
    let keys = watcher.keys().len();
    match watcher.shown() {
        None => (keys, 0, 0, 0),
        Some(shown) => match shown.first() {
            None => (keys, 1, 0, 0),
            Some(first) => (keys, 1, first.commit, first.expire),
        },
    }
}

#[test]
fn each_watcher_keeps_what_it_has_shown(rt: HostRuntime) -> Result<(), Fail> {
    let alloc = rt.alloc();
    let mut hub = Hub::new(alloc);
    let mut table = Plain::new(alloc);
    put(alloc, &mut table, "a", 7, 30)?;
    let mut watcher = enter(alloc, &mut hub, &["a"])?;
    let before = noted(&watcher);
    let first = poll(alloc, &table, &mut watcher, 5);
    let after = noted(&watcher);
    hub.leave(watcher);
    assert_eq!(&rt; before, (1, 0, 0, 0));
    assert_eq!(&rt; first?, 17);
    assert_eq!(&rt; after, (1, 1, 7, 30));
    let other = enter(alloc, &mut hub, &["a"])?;
    let anew = noted(&other);
    hub.leave(other);
    assert_eq!(&rt; anew, (1, 0, 0, 0));
    shown_is_told();
    Ok(())
}
