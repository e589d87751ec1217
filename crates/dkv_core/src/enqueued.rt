// The messages that a write puts into the queue, and what becomes of them.
ghost use Rattle.std.specs.Prelude.{ℕ, ◌≡◌, ◌+◌, ◌≤◌, [], ◌∷◌, ◌++◌, length, map, true, IfOk, IsTrue, Some};
ghost use Rattle.std.specs.List.{list_all};
ghost use Rattle.std.specs.Option.{option_map_or};
ghost use Rattle.dkv_base.specs.After.{payload_entry};
ghost use Rattle.dkv_base.specs.Messages.{made, made_from, schedule_of};
ghost use Rattle.dkv_base.specs.State.{is_in_id_order};
ghost use Rattle.dkv_base.specs.declared.moments.TheConstants.{MAX_MOMENT};
ghost use Rattle.dkv_queue.specs.Rows.{messages_of, has_schedule, is_row_out, out_of};
ghost use Rattle.dkv_core.specs.Settling.{payloads};
ghost use Rattle.dkv_core.specs.Rows.{is_above, settled_rows};

use crate::prepared::Settled;
use dkv_base::limits::MAX_CHANGES;
use dkv_base::{
    Bytes, Enqueue, Entry, Message, MsgId, NoMemory, Run, TryCopy, encodings, from_zero,
};
use dkv_queue::Queue;
use std::alloc::Global;

// The intervals of an enqueue that gives none, in milliseconds.
const DEFAULT_BACKOFF: [u32; 5] = [100, 1000, 5000, 30000, 60000];

// The intervals that an enqueue gives, or the default ones.
fn schedule(alloc: Global, backoff: &Run<u32>) -> Result<Run<u32>, NoMemory>
    ensures { IfOk result (λ schedule. schedule ≡ schedule_of backoff.now) }
{
    if !backoff.is_empty() {
        return backoff.copy(alloc);
    }
    Ok(Run::of(Vec::from_slice(alloc, &DEFAULT_BACKOFF)?))
}

// The message of enqueue `index` of commit `n`.
fn message_of(alloc: Global, n: u64, index: u32, enqueue: &Enqueue) -> Result<Message, NoMemory>
    ensures { IfOk result (λ message. message ≡ made n index enqueue.now) }
{
    Ok(Message {
        id: MsgId { commit: n, index },
        payload: enqueue.payload.copy(alloc)?,
        due: from_zero(enqueue.deadline_ms),
        fails: 0,
        undelivered: enqueue.undelivered.copy(alloc)?,
        backoff: schedule(alloc, &enqueue.backoff)?,
    })
}

/// The messages of commit `n`, in the order of its enqueues.
pub(crate) fn messages_made(
    alloc: Global,
    n: u64,
    enqueues: &[Enqueue],
) -> Result<Run<Message>, NoMemory>
    requires { length enqueues.now ≤ MAX_CHANGES }
    ensures { IfOk result (λ messages. messages ≡ made_from n 0 enqueues.now) }
{
    let mut messages = Run::new(alloc);
    let mut index = 0u32;
    for enqueue in enqueues {
        messages.add(message_of(alloc, n, index, enqueue)?)?;
        index += 1;
    }
    Ok(messages)
}

// The payload under the key, as commit `n` stores it.
fn payload_under(alloc: Global, message: &Message, n: u64, key: &Bytes) -> Result<Entry, NoMemory>
    ensures { IfOk result (λ entry. entry ≡ payload_entry message.now n key.now) }
{
    Ok(Entry {
        key: key.copy(alloc)?,
        bytes: message.payload.copy(alloc)?,
        encoding: encodings::V8,
        commit: n,
        expire: 0,
    })
}

/// The payload under each of the message's undelivered keys, as commit `n` stores it.
pub(crate) fn payload_entries(
    alloc: Global,
    message: &Message,
    n: u64,
) -> Result<Run<Entry>, NoMemory>
    ensures { IfOk result (λ entries. entries ≡ payloads n (Some message.now)) }
{
    let keys = message.undelivered.as_slice();
    let mut entries = Run::new(alloc);
    for key in keys {
        entries.add(payload_under(alloc, message, n, key)?)?;
    }
    Ok(entries)
}

/// Settles a message that is out, if one is to be. The moment is in milliseconds since 1970. Takes no memory.
pub(crate) fn settle(queue: &mut Queue, settled: Option<Settled>, at: u64)
    requires out { IsTrue (option_map_or (λ t. is_row_out t.id queue.old.rows) settled true) }
    requires within { at ≤ MAX_MOMENT }
    ensures rows { queue.new.rows ≡ settled_rows settled at queue.old.rows }
    ensures kept { queue.old.spare ≤ queue.new.spare }
{
    match settled {
        None => {}
        Some(Settled { id, done: true }) => queue.settle(id),
        Some(Settled { id, done: false }) => {
            let _ = queue.retry(id, at);
        }
    }
}

// Adds a message behind those that are there.
fn add_last(queue: &mut Queue, message: Message)
    requires room { 1 ≤ queue.old.spare }
    requires above { IsTrue (is_above (messages_of queue.old.rows) message) }
    requires schedule { IsTrue (has_schedule message) }
    ensures messages { messages_of queue.new.rows ≡ messages_of queue.old.rows ++ message ∷ [] }
    ensures out { out_of queue.new.rows ≡ out_of queue.old.rows }
    ensures kept { queue.old.spare ≤ queue.new.spare + 1 }
{
    queue.add(message);
}

/// Adds the messages in their order, behind those that are there. Takes no memory.
pub(crate) fn add_all(queue: &mut Queue, messages: Run<Message>)
    requires room { length messages ≤ queue.old.spare }
    requires order { IsTrue (is_in_id_order messages) }
    requires above { IsTrue (list_all (is_above (messages_of queue.old.rows)) messages) }
    requires schedules { IsTrue (list_all has_schedule messages) }
    ensures messages { messages_of queue.new.rows ≡ messages_of queue.old.rows ++ messages }
    ensures out { out_of queue.new.rows ≡ out_of queue.old.rows }
    ensures kept { queue.old.spare ≤ queue.new.spare + length messages }
{
    for message in messages.into_vec() {
        add_last(queue, message);
    }
}

/// A queue of these messages, none of which is out. Takes memory for it.
pub(crate) fn queue_of(alloc: Global, messages: Run<Message>) -> Result<Queue, NoMemory>
    requires order { IsTrue (is_in_id_order messages) }
    requires schedules { IsTrue (list_all has_schedule messages) }
    ensures messages { IfOk result (λ queue. messages_of queue.rows ≡ messages) }
    ensures out { IfOk result (λ queue. out_of queue.rows ≡ []) }
{
    let mut queue = Queue::new(alloc);
    queue.reserve(messages.len())?;
    add_all(&mut queue, messages);
    Ok(queue)
}
