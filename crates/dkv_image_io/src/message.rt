// A message of an image.
ghost use Rattle.std.specs.Prelude.{◌≡◌, Some, None, IfOk, IfSome, IfNone, MatchOption, true};
ghost use Rattle.std.specs.Option.{option_copied, option_map_or};
ghost use Rattle.std.specs.Ordering.{is_lt};
ghost use Rattle.dkv_base.specs.State.{id_cmp};
ghost use Rattle.std.specs.Int.{w32};
ghost use Rattle.dkv_image.specs.Image.{number_at, sized_at, counted_at, message_at_front, may_follow_message};
ghost use Rattle.dkv_image_io.specs.Fields.{message_behind};

use crate::front::Front;
use crate::item::Item;
use crate::standing::message_stands;
use dkv_base::{Bytes, Message, MsgId, NoMemory, Run};
use std::alloc::Global;

// Keys, with their number before them.
fn read_keys(alloc: Global, front: &mut Front<'_>) -> Result<Option<Run<Bytes>>, NoMemory>
    ensures { IfOk result (λ found. MatchOption found (counted_at sized_at front.old ≡ None)
        (λ keys. counted_at sized_at front.old ≡ Some (keys, front.new))) }
{
    let Some(count) = front.number_4() else {
        return Ok(None);
    };
    let mut keys = Run::new(alloc);
    let mut left = count;
    while left > 0 {
        match front.sized() {
            Some(key) => keys.add(Bytes::copy_of(alloc, key)?)?,
            None => return Ok(None),
        }
        left -= 1;
    }
    Ok(Some(keys))
}

// Intervals, with their number before them.
fn read_intervals(alloc: Global, front: &mut Front<'_>) -> Result<Option<Run<u32>>, NoMemory>
    ensures { IfOk result (λ found. MatchOption found (counted_at (number_at w32) front.old ≡ None)
        (λ intervals. counted_at (number_at w32) front.old ≡ Some (intervals, front.new))) }
{
    let Some(count) = front.number_4() else {
        return Ok(None);
    };
    let mut intervals = Run::new(alloc);
    let mut left = count;
    while left > 0 {
        match front.number_4() {
            Some(interval) => intervals.add(interval)?,
            None => return Ok(None),
        }
        left -= 1;
    }
    Ok(Some(intervals))
}

// What a message begins with, up to its keys.
#[derive(Drop)]
pub(crate) struct MessageHead<'a> {
    pub(crate) commit: u64,
    pub(crate) index: u32,
    pub(crate) due: u64,
    pub(crate) fails: u32,
    pub(crate) payload: &'a [u8],
}

fn message_head<'a>(front: &mut Front<'a>) -> Option<MessageHead<'a>>
    ensures found { IfSome result
        (λ head. message_at_front front.old ≡ message_behind head front.new) }
    ensures none { IfNone result (message_at_front front.old ≡ None) }
{
    let commit = front.number_8()?;
    let index = front.number_4()?;
    let due = front.number_8()?;
    let fails = front.number_4()?;
    let payload = front.sized()?;
    Some(MessageHead {
        commit,
        index,
        due,
        fails,
        payload,
    })
}

// The message at the front. Takes memory for it.
fn read_message(alloc: Global, front: &mut Front<'_>) -> Result<Option<Message>, NoMemory>
    ensures { IfOk result (λ found. MatchOption found (message_at_front front.old ≡ None)
        (λ message. message_at_front front.old ≡ Some (message, front.new))) }
{
    let Some(head) = message_head(front) else {
        return Ok(None);
    };
    let Some(undelivered) = read_keys(alloc, front)? else {
        return Ok(None);
    };
    let Some(backoff) = read_intervals(alloc, front)? else {
        return Ok(None);
    };
    Ok(Some(Message {
        id: MsgId {
            commit: head.commit,
            index: head.index,
        },
        payload: Bytes::copy_of(alloc, head.payload)?,
        due: head.due,
        fails: head.fails,
        undelivered,
        backoff,
    }))
}

// Whether its id is above that of the one before it, if there is one.
fn is_above(id: MsgId, before: Option<&Message>) -> bool
    ensures { result
        ≡ option_map_or (λ m. is_lt (id_cmp m.id id)) (option_copied before.entry) true }
{
    match before {
        Some(other) => other.id < id,
        None => true,
    }
}

impl Item for Message {
    ghost front = { message_at_front };

    ghost may_follow = { may_follow_message };

    fn read(alloc: Global, bytes: &[u8]) -> Result<Option<(Message, usize)>, NoMemory> {
        let mut front = Front::of(bytes);
        match read_message(alloc, &mut front)? {
            Some(message) => Ok(Some((message, bytes.len() - front.rest().len()))),
            None => Ok(None),
        }
    }

    fn follows(&self, before: Option<&Message>, n: u64, _now: u64) -> bool {
        message_stands(self, n) && is_above(self.id, before)
    }
}
