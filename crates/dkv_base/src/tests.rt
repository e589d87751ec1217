// With ample memory each copy succeeds, and prints as what was copied.
use super::*;
use std::alloc::Global;
use std::cmp::Ordering;
use std::fmt::Debug;
use std::process::Abort;
use std::test::Fail;

fn copies<T: TryCopy + Debug + Drop>(rt: &impl Abort, alloc: Global, value: T) -> Result<(), Fail> {
    let copy = value.copy(alloc)?;
    let told = format!(in alloc; "{copy:?}")?;
    let wanted = format!(in alloc; "{value:?}")?;
    assert_eq!(rt; told.as_str(), wanted.as_str());
    Ok(())
}

fn bytes(alloc: Global) -> Result<Bytes, NoMemory> {
    Bytes::copy_of(alloc, b"abc")
}

fn run_of<T: Drop>(alloc: Global, item: T) -> Result<Run<T>, NoMemory> {
    let mut run = Run::new(alloc);
    run.add(item)?;
    Ok(run)
}

fn value(alloc: Global) -> Result<Value, NoMemory> {
    Ok(Value {
        bytes: bytes(alloc)?,
        encoding: encodings::BYTES,
    })
}

fn check(alloc: Global) -> Result<Check, NoMemory> {
    Ok(Check {
        key: bytes(alloc)?,
        versionstamp: bytes(alloc)?,
    })
}

fn mutation(alloc: Global, value: Option<Value>) -> Result<Mutation, NoMemory> {
    Ok(Mutation {
        key: bytes(alloc)?,
        value,
        kind: kinds::SET,
        expire_at_ms: -1,
    })
}

fn enqueue(alloc: Global) -> Result<Enqueue, NoMemory> {
    Ok(Enqueue {
        payload: bytes(alloc)?,
        deadline_ms: 7,
        undelivered: run_of(alloc, bytes(alloc)?)?,
        backoff: run_of(alloc, 100)?,
    })
}

fn write(alloc: Global) -> Result<AtomicWrite, NoMemory> {
    Ok(AtomicWrite {
        checks: run_of(alloc, check(alloc)?)?,
        mutations: run_of(alloc, mutation(alloc, None)?)?,
        enqueues: run_of(alloc, enqueue(alloc)?)?,
    })
}

fn entry(alloc: Global) -> Result<Entry, NoMemory> {
    Ok(Entry {
        key: bytes(alloc)?,
        bytes: bytes(alloc)?,
        encoding: encodings::V8,
        commit: 2,
        expire: 3,
    })
}

fn message(alloc: Global) -> Result<Message, NoMemory> {
    Ok(Message {
        id: ID,
        payload: bytes(alloc)?,
        due: 3,
        fails: 4,
        undelivered: run_of(alloc, bytes(alloc)?)?,
        backoff: run_of(alloc, 100)?,
    })
}

fn range(alloc: Global) -> Result<ReadRange, NoMemory> {
    Ok(ReadRange {
        start: bytes(alloc)?,
        end: bytes(alloc)?,
        limit: 6,
        reverse: true,
    })
}

const ID: MsgId = MsgId {
    commit: 1,
    index: 2,
};

#[test]
fn what_is_asked_and_stored_is_copied(rt: HostRuntime) -> Result<(), Fail> {
    let alloc = rt.alloc();
    copies(&rt, alloc, run_of(alloc, bytes(alloc)?)?)?;
    copies(&rt, alloc, mutation(alloc, Some(value(alloc)?))?)?;
    copies(&rt, alloc, write(alloc)?)?;
    copies(&rt, alloc, range(alloc)?)?;
    copies(&rt, alloc, entry(alloc)?)?;
    copies(&rt, alloc, message(alloc)?)
}

#[test]
fn each_commit_is_copied(rt: HostRuntime) -> Result<(), Fail> {
    let alloc = rt.alloc();
    let (who, at, id) = (1, 5, ID);
    let write = write(alloc)?;
    copies(&rt, alloc, Commit::Wrote { who, at, write })?;
    copies(&rt, alloc, Commit::Acked { who, at, id })?;
    copies(&rt, alloc, Commit::Failed { who, at, id })
}

#[test]
fn each_item_is_copied(rt: HostRuntime) -> Result<(), Fail> {
    let alloc = rt.alloc();
    let (who, at, id, last) = (1, 5, ID, true);
    copies(&rt, alloc, ID)?;
    copies(&rt, alloc, Item::Made(Commit::Acked { who, at, id }))?;
    copies(&rt, alloc, Item::Took { who, at, id })?;
    copies(&rt, alloc, Item::Doubt { who, at })?;
    copies(&rt, alloc, Item::Stop { who, at, last })
}

#[test]
fn bytes_are_joined_and_codes_and_numbers_are_the_stated_ones(rt: HostRuntime) -> Result<(), Fail> {
    let joined = Bytes::joined(rt.alloc(), b"ab", b"c")?;
    assert_eq!(rt; joined.as_slice(), b"abc".as_slice());
    let codes = [
        (Limit::TooManyChecks, 1),
        (Limit::CheckKey, 3),
        (Limit::ValueLength, 12),
        (Limit::WatchKey, 25),
    ];
    for (limit, code) in codes {
        assert_eq!(rt; limit.code(), code);
    }
    for (number, cut) in [
        (-1, 0),
        (0, 0),
        (1, 1),
        (i64::MAX, 9_223_372_036_854_775_807),
    ] {
        assert_eq!(rt; from_zero(number), cut);
    }
    Ok(())
}

#[test]
fn keys_compare_by_their_bytes(rt: HostRuntime) -> Result<(), Fail> {
    for (key, other, order) in [
        (&b""[..], &b"a"[..], Ordering::Less),
        (b"abcdefgh", b"abcdefghi", Ordering::Less),
        (b"abcdefgi", b"abcdefhh", Ordering::Less),
        (b"zbcdefgh", b"abcdefghi", Ordering::Greater),
        (
            b"abcdefghabcdefgh\x80",
            b"abcdefghabcdefgh\x7f",
            Ordering::Greater,
        ),
        (b"abcdefghi", b"abcdefghi", Ordering::Equal),
    ] {
        assert_eq!(&rt; compare(key, other), order);
    }
    Ok(())
}
