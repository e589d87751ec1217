// How long the image of a table and a queue is.
ghost use Rattle.std.specs.Prelude.{◌≡◌, ◌+◌, ◌-◌, ◌^◌, min, length, flat_map};
ghost use Rattle.dkv_queue.specs.Rows.{messages_of};
ghost use Rattle.dkv_image.specs.Image.{image, entry_bytes, message_bytes, sized};
ghost use Rattle.dkv_image_io.specs.Sizes.{HasImage};

use crate::walk::Walk;
use dkv_base::{Bytes, Entry, Message, Run};
use dkv_queue::Queue;
use dkv_table::{Cursor, Table};

/// The length in bytes of the image that `write_image` writes. Stays at the last `u64`. Takes no memory.
pub fn image_len<T: Table>(table: &T, queue: &Queue) -> u64
    requires { HasImage (T.content table.now) (messages_of queue.now.rows) }
    ensures { result ≡ min (2 ^ 64 - 1)
        (length (image (T.content table.now) (messages_of queue.now.rows))) }
{
    let entries = entries_len(16, table.all());
    messages_len(entries, Walk::over(queue))
}

// So many bytes, and those of these entries.
fn entries_len(before: u64, mut entries: Cursor<'_>) -> u64
    ensures { result ≡ min (2 ^ 64 - 1) (before + length (flat_map entry_bytes entries.entry)) }
{
    let mut len = before;
    while let Some(entry) = entries.next() {
        len = len.saturating_add(entry_len(entry));
    }
    len
}

// So many bytes, and those of these messages.
fn messages_len(before: u64, mut messages: Walk<'_>) -> u64
    ensures { result ≡ min (2 ^ 64 - 1) (before + length (flat_map message_bytes messages.entry)) }
{
    let mut len = before;
    while let Some(message) = messages.next() {
        len = len.saturating_add(message_len(message));
    }
    len
}

fn entry_len(entry: &Entry) -> u64
    ensures { result ≡ min (2 ^ 64 - 1) (length (entry_bytes entry.now)) }
{
    let fields = 25u64.saturating_add(entry.key.len() as u64);
    fields.saturating_add(entry.bytes.len() as u64)
}

fn message_len(message: &Message) -> u64
    ensures { result ≡ min (2 ^ 64 - 1) (length (message_bytes message.now)) }
{
    let fields = 36u64.saturating_add(message.payload.len() as u64);
    let keys = keys_len(fields, &message.undelivered);
    keys.saturating_add((message.backoff.len() as u64).saturating_mul(4))
}

// So many bytes, and those of these keys.
fn keys_len(before: u64, keys: &Run<Bytes>) -> u64
    ensures { result ≡ min (2 ^ 64 - 1) (before + length (flat_map sized keys.now)) }
{
    let mut len = before;
    for key in keys.as_slice() {
        len = len.saturating_add(4).saturating_add(key.len() as u64);
    }
    len
}
