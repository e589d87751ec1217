// Steps of a core, from their parts.
use super::parts::{Part, parts_of};
use super::telling::{say, say_answer};
use dkv_base::{
    Answer, Ask, AtomicWrite, Bytes, Check, Enqueue, MsgId, Mutation, ReadRange, Run, Step, Value,
};
use dkv_core::Core;
use std::alloc::Global;
use std::process::Abort;
use std::test::Fail;

fn key(alloc: Global, letter: u8) -> Result<Bytes, Fail> {
    Ok(Bytes::copy_of(alloc, &[letter])?)
}

fn check(alloc: Global, part: &Part) -> Result<Check, Fail> {
    let mut stamp = Vec::new(alloc);
    if part.first > 0 {
        stamp.extend_from_slice(&part.first.to_be_bytes())?;
        stamp.extend_from_slice(&[0, 0])?;
    }
    Ok(Check {
        key: key(alloc, part.key)?,
        versionstamp: Bytes::of(stamp),
    })
}

fn signed(number: u64) -> i64 {
    i64::try_from(number).unwrap_or(i64::MAX)
}

fn mutation(alloc: Global, part: &Part) -> Result<Mutation, Fail> {
    let kind = match part.word {
        b's' => 1,
        b'd' => 2,
        b'a' => 3,
        _ => 6,
    };
    let bytes = Bytes::copy_of(alloc, &part.first.to_le_bytes())?;
    Ok(Mutation {
        key: key(alloc, part.key)?,
        value: Some(Value { bytes, encoding: 2 }),
        kind,
        expire_at_ms: signed(part.second),
    })
}

// The waits and keys behind an enqueue, up to the next one.
fn with_rest(alloc: Global, mut enqueue: Enqueue, rest: &[Part]) -> Result<Enqueue, Fail> {
    for part in rest {
        match part.word {
            b'w' => enqueue
                .backoff
                .push(u32::try_from(part.first).unwrap_or(0))?,
            b'k' => enqueue.undelivered.push(key(alloc, part.key)?)?,
            _ => return Ok(enqueue),
        }
    }
    Ok(enqueue)
}

fn enqueue(alloc: Global, part: &Part, rest: &[Part]) -> Result<Enqueue, Fail> {
    let payload = u8::try_from(part.first).unwrap_or(0);
    let enqueue = Enqueue {
        payload: Bytes::copy_of(alloc, &[payload])?,
        deadline_ms: signed(part.second),
        undelivered: Run::new(alloc),
        backoff: Run::new(alloc),
    };
    with_rest(alloc, enqueue, rest)
}

fn add_part(
    alloc: Global,
    write: &mut AtomicWrite,
    part: &Part,
    rest: &[Part],
) -> Result<(), Fail> {
    match part.word {
        b'c' => write.checks.push(check(alloc, part)?)?,
        b'e' => write.enqueues.push(enqueue(alloc, part, rest)?)?,
        b'w' | b'k' => {}
        _ => write.mutations.push(mutation(alloc, part)?)?,
    }
    Ok(())
}

pub fn write(alloc: Global, parts: &[Part]) -> Result<AtomicWrite, Fail> {
    let mut write = AtomicWrite {
        checks: Run::new(alloc),
        mutations: Run::new(alloc),
        enqueues: Run::new(alloc),
    };
    for place in 0..parts.len() {
        add_part(alloc, &mut write, &parts[place], &parts[place + 1..])?;
    }
    Ok(write)
}

/// The range of a `get`, a `read` or a `back`.
pub fn range(alloc: Global, part: &Part) -> Result<ReadRange, Fail> {
    let (end, limit) = match part.word {
        b'g' => (part.key.wrapping_add(1), 1),
        _ => (part.end, i32::try_from(part.first).unwrap_or(0)),
    };
    Ok(ReadRange {
        start: key(alloc, part.key)?,
        end: key(alloc, end)?,
        limit,
        reverse: part.word == b'b',
    })
}

fn ranges(alloc: Global, part: &Part) -> Result<Run<ReadRange>, Fail> {
    let mut ranges = Run::new(alloc);
    ranges.push(range(alloc, part)?)?;
    Ok(ranges)
}

pub fn id_of(part: &Part) -> MsgId {
    MsgId {
        commit: part.first,
        index: u32::try_from(part.second).unwrap_or(u32::MAX),
    }
}

/// The keys of a `watch`.
pub fn watched(alloc: Global, part: &Part) -> Result<Run<Bytes>, Fail> {
    let mut keys = Run::new(alloc);
    for letter in [part.key, part.end] {
        if letter > 0 {
            keys.push(key(alloc, letter)?)?;
        }
    }
    Ok(keys)
}

/// What the parts of a step ask.
pub fn ask(alloc: Global, parts: &[Part], first: &Part) -> Result<Ask, Fail> {
    Ok(match first.word {
        b'w' => Ask::Watch(watched(alloc, first)?),
        b'p' => Ask::Poll,
        b't' => Ask::Take,
        b'h' => Ask::Settle {
            id: id_of(first),
            done: true,
        },
        b'f' => Ask::Settle {
            id: id_of(first),
            done: false,
        },
        b'g' | b'r' | b'b' => Ask::Read(ranges(alloc, first)?),
        _ => Ask::Write(write(alloc, parts)?),
    })
}

fn run(rt: &impl Abort, alloc: Global, core: &mut Core, step: Step) -> Result<Run<Answer>, Fail> {
    let mut steps = Vec::new(alloc);
    steps.push(step)?;
    assert!(rt; core.number() < 1000);
    assert!(rt; steps.len() == 1);
    Ok(core.run(alloc, &steps)?)
}

fn now(alloc: Global, core: &Core) -> Result<String, Fail> {
    let waiting = core.queue().len() as u64;
    say(
        alloc,
        "now",
        &[core.number(), core.now(), core.moment(0), waiting],
    )
}

/// How the core answers a caller's step.
pub fn answer_to(
    rt: &impl Abort,
    alloc: Global,
    core: &mut Core,
    (who, at): (u32, u64),
    parts: &[Part],
) -> Result<String, Fail> {
    let Some(first) = parts.first() else {
        return say(alloc, "no parts", &[]);
    };
    match first.word {
        b'n' => return now(alloc, core),
        b'o' => return say(alloc, "out", &[u64::from(core.is_out(id_of(first)))]),
        _ => {}
    }
    let ask = ask(alloc, parts, first)?;
    let answers = run(rt, alloc, core, Step { who, at, ask })?;
    match answers.as_slice() {
        [answer] => say_answer(alloc, answer),
        _ => say(alloc, "not one answer", &[]),
    }
}

/// What a text asks for.
pub fn write_of(alloc: Global, text: &str) -> Result<AtomicWrite, Fail> {
    let parts = parts_of(alloc, text)?;
    write(alloc, &parts)
}
