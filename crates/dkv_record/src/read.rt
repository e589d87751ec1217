// Bodies, as they are read.
ghost use Rattle.std.specs.Prelude.{◌≡◌, IfOk, Err};
ghost use Rattle.dkv_base.specs.declared.types.Commit.{Commit};
ghost use Rattle.dkv_base.specs.Fits.{AreBytes, FitsCommit};
ghost use Rattle.dkv_base.specs.Spelling.{record_body};
ghost use Rattle.dkv_msgs.specs.Readings.{reads_atomic_write};
ghost use Rattle.dkv_record.specs.Records.{IsCommitOf, IsLikely};
ghost use Rattle.dkv_record.specs.declared.read.RecordError.TheVariants as error;

use crate::{ACKED, FAILED, WROTE, write_commit};
use dkv_base::{Commit, MsgId, NoMemory};
use dkv_msgs::{ReadError, read_atomic_write};
use std::alloc::Global;
use thiserror::Error;

/// Why a body was not read.
#[derive(Clone, Copy, Debug, Error, PartialEq, Eq)]
pub enum RecordError {
    /// The body is not what `write_commit` gives for any commit.
    #[error("no record")]
    NotARecord,
    /// The allocator had no room.
    #[error("no memory")]
    NoMemory,
}

impl From<NoMemory> for RecordError {
    ghost use Rattle.dkv_record.specs.declared.read.RecordError.TheVariants as error;

    ghost from_gives = { λ _ e. e ≡ error.NoMemory };

    fn from(_none: NoMemory) -> RecordError {
        RecordError::NoMemory
    }
}

/// Reads the body of a commit's record. Takes memory for the commit, and for its spelling.
pub fn read_commit(alloc: Global, body: &[u8]) -> Result<Commit, RecordError>
    ensures read { IsCommitOf reads_atomic_write body.now result }
    // It is the body that `write_commit` gives for the commit.
    ensures spelled { IfOk result (λ c. FitsCommit c × (body.now ≡ record_body c)) }
    // No commit has this body.
    ensures refused { result ≡ Err error.NotARecord
        → (c : Commit) → FitsCommit c → body.now ≡ record_body c → ⊥ }
{
    let commit = match likely(alloc, body) {
        Ok(commit) => commit,
        Err(error) => return Err(error),
    };
    let spelled = write_commit(alloc, &commit)?;
    if spelled.as_slice() == body {
        Ok(commit)
    } else {
        Err(RecordError::NotARecord)
    }
}

// The one commit that the body can be the bytes of.
fn likely(alloc: Global, body: &[u8]) -> Result<Commit, RecordError>
    ensures found { IsLikely reads_atomic_write body.now result }
    ensures bytes { AreBytes body.now }
{
    if body.len() < 13 {
        return Err(RecordError::NotARecord);
    }
    let (head, rest) = body.split_at(13);
    let who = u32::from_le_bytes([head[1], head[2], head[3], head[4]]);
    let at = u64::from_le_bytes([
        head[5], head[6], head[7], head[8], head[9], head[10], head[11], head[12],
    ]);
    if head[0] == WROTE {
        return match read_atomic_write(alloc, rest) {
            Ok(write) => Ok(Commit::Wrote { who, at, write }),
            Err(ReadError::Malformed { .. }) => Err(RecordError::NotARecord),
            Err(ReadError::NoMemory) => Err(RecordError::NoMemory),
        };
    }
    if rest.len() < 12 {
        return Err(RecordError::NotARecord);
    }
    let id = MsgId {
        commit: u64::from_le_bytes([
            rest[0], rest[1], rest[2], rest[3], rest[4], rest[5], rest[6], rest[7],
        ]),
        index: u32::from_le_bytes([rest[8], rest[9], rest[10], rest[11]]),
    };
    if head[0] == ACKED {
        Ok(Commit::Acked { who, at, id })
    } else if head[0] == FAILED {
        Ok(Commit::Failed { who, at, id })
    } else {
        Err(RecordError::NotARecord)
    }
}
