// Messages come, go out, come again and go, by tables of calls.
use super::*;
use dkv_base::limits::MAX_INTERVAL_MS;
use dkv_base::{Bytes, MAX_MOMENT, Message, MsgId, NoMemory, Run};
use std::alloc::Global;
use std::process::Abort;
use std::test::Fail;

// A message with two intervals: its id's commit and index, when it is due, and the intervals.
type Waiting = (u64, u32, u64, u32, u32);

// Adds a message, if there is none of its id and its intervals aren't too long.
fn add(alloc: Global, queue: &mut Queue, message: Waiting) -> Result<bool, NoMemory> {
    let (commit, index, due, first, second) = message;
    let id = MsgId { commit, index };
    if queue.get(id).is_some() || first > MAX_INTERVAL_MS || second > MAX_INTERVAL_MS {
        return Ok(false);
    }
    queue.reserve(1)?;
    queue.add(Message {
        id,
        payload: Bytes::of(Vec::new(alloc)),
        due,
        fails: 0,
        undelivered: Run::new(alloc),
        backoff: Run::of(Vec::from_slice(alloc, &[first, second])?),
    });
    Ok(true)
}

// Takes the message that is due first, and gives its id, or 0 and when one will be due.
fn take(queue: &mut Queue, at: u64) -> (u64, u64) {
    match queue.next_due(at) {
        Due::Now(first) => {
            queue.take(first);
            (first.commit, first.index as u64)
        }
        Due::Nothing { next } => (0, next.unwrap_or(0)),
    }
}

// Fails a message that is out, and gives 1 and when it is due again, or 0 and how often it had failed.
fn fail(queue: &mut Queue, id: MsgId, at: u64) -> (u64, u64) {
    if !queue.is_out(id) {
        return (9, 9);
    }
    match queue.retry(id, at) {
        Retry::Again { due } => (1, due),
        Retry::Exhausted(message) => (0, message.fails as u64),
    }
}

// Settles a message that is out, and gives how many are left.
fn settle(queue: &mut Queue, id: MsgId) -> (u64, u64) {
    if !queue.is_out(id) {
        return (9, 9);
    }
    queue.settle(id);
    (1, queue.len() as u64)
}

// A call's name, the commit and the index of the id, the moment, and the two numbers of the answer.
type Call = (char, u64, u32, u64, u64, u64);

fn call(queue: &mut Queue, call: Call) -> (u64, u64) {
    let (name, commit, index, at, _, _) = call;
    let id = MsgId { commit, index };
    match name {
        't' => take(queue, at),
        'f' => fail(queue, id, at),
        _ => settle(queue, id),
    }
}

fn answers(
    rt: &impl Abort,
    alloc: Global,
    messages: &[Waiting],
    calls: &[Call],
) -> Result<Queue, Fail> {
    let mut queue = Queue::new(alloc);
    for message in messages {
        assert!(rt; add(alloc, &mut queue, *message)?);
    }
    for each in calls {
        assert_eq!(rt;
            call(&mut queue, *each),
            (each.4, each.5),
            "{} at {}",
            each.0,
            each.3
        );
    }
    Ok(queue)
}

#[test]
fn a_failure_waits_an_interval_and_the_third_is_the_last(rt: HostRuntime) -> Result<(), Fail> {
    let queue = answers(
        &rt,
        rt.alloc(),
        &[(1, 0, 5, 100, 1000)],
        &[
            ('t', 0, 0, 5, 1, 0),
            ('f', 1, 0, 10, 1, 110),
            ('t', 0, 0, 109, 0, 110),
            ('t', 0, 0, 110, 1, 0),
            ('f', 1, 0, 200, 1, 1200),
            ('t', 0, 0, 1200, 1, 0),
            ('f', 1, 0, 1200, 0, 2),
            ('t', 0, 0, u64::MAX, 0, 0),
        ],
    )?;
    assert_eq!(rt; queue.len(), 0);
    Ok(())
}

#[test]
fn messages_come_by_moment_and_then_by_id(rt: HostRuntime) -> Result<(), Fail> {
    let queue = answers(
        &rt,
        rt.alloc(),
        &[(1, 0, 9, 1, 1), (2, 0, 7, 1, 1), (1, 1, 7, 1, 1)],
        &[
            ('t', 0, 0, 6, 0, 7),
            ('t', 0, 0, 8, 1, 1),
            ('f', 1, 0, 8, 9, 9),
            ('s', 1, 1, 8, 1, 2),
            ('t', 0, 0, 8, 2, 0),
            ('t', 0, 0, 8, 0, 9),
            ('t', 0, 0, 9, 1, 0),
            ('t', 0, 0, 9, 0, 0),
        ],
    )?;
    assert_eq!(rt; queue.len(), 2);
    Ok(())
}

// The commits of the messages from the least id on, as the digits of a number.
fn order(queue: &Queue) -> u64 {
    let mut digits = 0u64;
    let mut last = None;
    for _ in 0..queue.len() {
        if let Some(message) = queue.above(last) {
            digits = digits.wrapping_mul(10).wrapping_add(message.id.commit);
            last = Some(message.id);
        }
    }
    digits
}

#[test]
fn a_copy_goes_its_own_way(rt: HostRuntime) -> Result<(), Fail> {
    let mut queue = answers(
        &rt,
        rt.alloc(),
        &[(4, 0, 4, 1, 1), (2, 0, 2, 1, 1), (3, 0, 3, 1, 1)],
        &[('t', 0, 0, 9, 2, 0)],
    )?;
    let mut copy = queue.copy(rt.alloc())?;
    let id = MsgId {
        commit: 2,
        index: 0,
    };
    assert_eq!(rt; settle(&mut copy, id), (1, 2));
    assert_eq!(rt; take(&mut copy, 9), (3, 0));
    assert_eq!(rt; (order(&queue), order(&copy)), (234, 34));
    assert_eq!(rt; fail(&mut queue, id, u64::MAX), (1, MAX_MOMENT + 1));
    Ok(())
}
