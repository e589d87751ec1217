// Bodies, as they are written.
ghost use Rattle.std.specs.Prelude.{◌≡◌, ◌++◌, IfOk, Some, IsTrue};
ghost use Rattle.dkv_base.specs.Fits.{FitsHead, FitsId};
ghost use Rattle.dkv_base.specs.Spelling.{record_head, id_bytes, record_body};
ghost use Rattle.dkv_msgs.specs.Readings.{reads_atomic_write};
ghost use Rattle.dkv_record.specs.Records.{commit_of, is_settlement};

use crate::{ACKED, FAILED, WROTE};
use dkv_base::{Bytes, Commit, MsgId, NoMemory};
use dkv_msgs::write_atomic_write;
use std::alloc::Global;

/// The body of a commit's record: the kind in one byte, the caller in four and the moment in eight, then a write in its canonical
/// spelling (proto3), or the id of the message, its commit in eight bytes and its index in four. Numbers have their least byte
/// first. Takes memory for it.
pub fn write_commit(alloc: Global, commit: &Commit) -> Result<Bytes, NoMemory>
    ensures spelled { IfOk result (λ b. b ≡ record_body commit.now) }
    ensures back { IfOk result (λ b. commit_of reads_atomic_write b ≡ Some commit.now) }
{
    match commit {
        Commit::Wrote { who, at, write } => {
            let spelled = write_atomic_write(alloc, write)?;
            Bytes::joined(alloc, &head(WROTE, *who, *at), spelled.as_slice())
        }
        Commit::Acked { who, at, id } => Bytes::copy_of(alloc, &settled(ACKED, *who, *at, *id)),
        Commit::Failed { who, at, id } => Bytes::copy_of(alloc, &settled(FAILED, *who, *at, *id)),
    }
}

/// The same bytes for an acknowledgement or a failure. Takes no memory.
pub fn settlement_body(commit: &Commit) -> [u8; 25]
    requires { IsTrue (is_settlement commit.now) }
    ensures { result ≡ record_body commit.now }
{
    match commit {
        Commit::Wrote { .. } => unreachable!(),
        Commit::Acked { who, at, id } => settled(ACKED, *who, *at, *id),
        Commit::Failed { who, at, id } => settled(FAILED, *who, *at, *id),
    }
}

// The kind, the caller and the moment.
fn head(kind: u8, who: u32, at: u64) -> [u8; 13]
    ensures bytes { result ≡ record_head kind who at }
    ensures fits { FitsHead who at }
{
    let w = who.to_le_bytes();
    let a = at.to_le_bytes();
    [
        kind, w[0], w[1], w[2], w[3], a[0], a[1], a[2], a[3], a[4], a[5], a[6], a[7],
    ]
}

// A head, and a message's id.
fn settled(kind: u8, who: u32, at: u64, id: MsgId) -> [u8; 25]
    ensures bytes { result ≡ record_head kind who at ++ id_bytes id }
    ensures head { FitsHead who at }
    ensures fits { FitsId id }
{
    let h = head(kind, who, at);
    let c = id.commit.to_le_bytes();
    let i = id.index.to_le_bytes();
    [
        h[0], h[1], h[2], h[3], h[4], h[5], h[6], h[7], h[8], h[9], h[10], h[11], h[12], c[0],
        c[1], c[2], c[3], c[4], c[5], c[6], c[7], i[0], i[1], i[2], i[3],
    ]
}
