// The replies, each as the frame that tells it.
ghost use Rattle.std.specs.Prelude.{◌≡◌, ◌++◌, ◌≤◌, [], length};
ghost use Rattle.std.specs.Int.{w64, to_le_bytes};
ghost use Rattle.dkv_base.specs.Replies.{full};
ghost use Rattle.dkv_base.specs.declared.types.Answer.TheVariants.{Leased, NoLease, Nothing, NotU64};
ghost use Rattle.dkv_base.specs.Spelling.{id_bytes};
ghost use Rattle.dkv_pipe.specs.ReplyFrames.{answer_bytes, bytes_of_reply, done_bytes, limit_bytes, malformed_bytes, reply_bytes};
ghost use Rattle.dkv_pipe.specs.Told.{is_write, made_bytes, IsFaultlessTake, IsUnstopped, IsUnstoppedTake, Tells, TellsTake};
ghost use Rattle.dkv_pipe.specs.declared.reply_status.ReplyStatus.TheVariants as status;
ghost use Rattle.dkv_pipe.specs.declared.sizes.TheConstants.{MAX_FRONT_BYTES};

use crate::reply::Reply;
use crate::reply_status::ReplyStatus;
use crate::sizes::ID_BYTES;
use dkv_base::{Bytes, Call, Limit, Message, MsgId, NoMemory};
use dkv_core::Taken;
use dkv_msgs::{fails_reply, written_body};
use dkv_store::{Done, Refusal};
use std::alloc::Global;

/// Whether the call is a write.
pub(crate) fn is_write(call: &Call) -> bool
    ensures { result ≡ is_write call.now }
{
    matches!(call, Call::Write(_))
}

// A reply whose body is short. Takes no memory.
fn short(alloc: Global, status: ReplyStatus, body: &[u8]) -> Reply
    requires { length body.now ≤ MAX_FRONT_BYTES }
    ensures { result ≡ reply_bytes status body.now }
{
    Reply::of(status, body, Bytes::of(Vec::new(alloc)))
}

/// The reply that it was done, with this answer. Takes no memory.
pub(crate) fn done(body: Bytes) -> Reply
    ensures { result ≡ reply_bytes status.Done body }
{
    Reply::of(ReplyStatus::Done, &[], body)
}

/// The reply to a body that is malformed at this place, counted in bytes from its start. Takes no
/// memory.
pub(crate) fn malformed(alloc: Global, at: u64) -> Reply
    ensures { result ≡ malformed_bytes at }
{
    short(alloc, ReplyStatus::Malformed, &at.to_le_bytes())
}

/// The reply to a request that passes this limit. Takes no memory.
pub(crate) fn limited(alloc: Global, passed: Limit) -> Reply
    ensures { result ≡ limit_bytes passed }
{
    short(alloc, ReplyStatus::Limit, &[passed.code()])
}

/// The reply to the settlement of a message that isn't out. Takes no memory.
pub(crate) fn no_lease(alloc: Global) -> Reply
    ensures { result ≡ answer_bytes NoLease }
{
    short(alloc, ReplyStatus::NoLease, &[])
}

/// The reply that a further term began. Takes no memory.
pub(crate) fn begun(alloc: Global) -> Reply
    ensures { result ≡ done_bytes [] }
{
    short(alloc, ReplyStatus::Done, &[])
}

/// The reply that no term begins, since the last commit has this number. Takes no memory.
pub(crate) fn worn(alloc: Global, n: u64) -> Reply
    ensures { result ≡ reply_bytes status.Worn (to_le_bytes w64 n) }
{
    short(alloc, ReplyStatus::Worn, &n.to_le_bytes())
}

// The reply to a write that was made as commit `n`, or to a settlement. Takes no memory.
fn made(alloc: Global, writes: bool, n: u64) -> Reply
    ensures { result ≡ made_bytes writes n }
{
    if writes {
        short(alloc, ReplyStatus::Done, &written_body(n))
    } else {
        short(alloc, ReplyStatus::Done, &n.to_le_bytes())
    }
}

// Two numbers in eight bytes each, least first.
fn both_numbers(first: u64, second: u64) -> [u8; 16]
    ensures { result ≡ to_le_bytes w64 first ++ to_le_bytes w64 second }
{
    let [a, b, c, d, e, f, g, h] = first.to_le_bytes();
    let [i, j, k, l, m, n, o, p] = second.to_le_bytes();
    [a, b, c, d, e, f, g, h, i, j, k, l, m, n, o, p]
}

// The reply where the items of the term weigh so many bytes, and one more would pass the limit. Takes no memory.
fn full(alloc: Global, trail_bytes: u64, limit: u64) -> Reply
    ensures { result ≡ bytes_of_reply (full trail_bytes limit) }
{
    short(alloc, ReplyStatus::Full, &both_numbers(trail_bytes, limit))
}

/// The reply that tells what a commit of a write, or else of a settlement, came to. Takes memory
/// for the places of checks that fail, and for nothing else.
pub(crate) fn tell(
    alloc: Global,
    writes: bool,
    came: Result<Done, Refusal>,
) -> Result<Reply, NoMemory>
    requires { IsUnstopped came }
    ensures { Tells writes came result }
{
    match came {
        Ok(Done::Committed { n }) => Ok(made(alloc, writes, n)),
        Ok(Done::Fails(places)) => Ok(done(fails_reply(alloc, places)?)),
        Ok(Done::NotU64 { index }) => {
            Ok(short(alloc, ReplyStatus::NotU64, &index.to_le_bytes()))
        }
        Ok(Done::Limit(passed)) => Ok(limited(alloc, passed)),
        Err(Refusal::DiskFault) => Ok(short(alloc, ReplyStatus::DiskFault, &[])),
        Err(Refusal::Stopped { .. }) => unreachable!(),
        Err(Refusal::Full { trail_bytes, limit }) => Ok(full(alloc, trail_bytes, limit)),
        Err(Refusal::NoMemory) => Err(NoMemory),
    }
}

// The commit of a message's id in eight bytes, and its index in four.
fn id_bytes(id: MsgId) -> [u8; ID_BYTES]
    ensures { result ≡ id_bytes id }
{
    let [a, b, c, d, e, f, g, h] = id.commit.to_le_bytes();
    let [i, j, k, l] = id.index.to_le_bytes();
    [a, b, c, d, e, f, g, h, i, j, k, l]
}

// The reply to a take that gives this message. Takes no memory.
fn leased(message: Message) -> Reply
    ensures { result ≡ answer_bytes (Leased message) }
{
    Reply::of(ReplyStatus::Done, &id_bytes(message.id), message.payload)
}

// The reply to a take that finds nothing due: when something will be, or eight bytes FF where
// nothing waits. Takes no memory.
fn nothing(alloc: Global, next: Option<u64>) -> Reply
    ensures { result ≡ answer_bytes (Nothing next) }
{
    match next {
        Some(moment) => short(alloc, ReplyStatus::Nothing, &moment.to_le_bytes()),
        None => short(alloc, ReplyStatus::Nothing, &[0xff; 8]),
    }
}

/// The reply that tells what a take came to. Takes no memory.
pub(crate) fn tell_take(alloc: Global, came: Result<Taken, Refusal>) -> Result<Reply, NoMemory>
    requires faultless { IsFaultlessTake came }
    requires unstopped { IsUnstoppedTake came }
    ensures { TellsTake came result }
{
    match came {
        Ok(Taken::Leased(message)) => Ok(leased(message)),
        Ok(Taken::Nothing { next }) => Ok(nothing(alloc, next)),
        Err(Refusal::Full { trail_bytes, limit }) => Ok(full(alloc, trail_bytes, limit)),
        Err(Refusal::NoMemory) => Err(NoMemory),
        Err(Refusal::DiskFault) => unreachable!(),
        Err(Refusal::Stopped { .. }) => unreachable!(),
    }
}
