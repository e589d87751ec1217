// The messages of requests and replies, as they are read.
ghost use Rattle.std.specs.Prelude.{◌≡◌};
ghost use Rattle.dkv_msgs.specs.Readings.{IsReading, reads_snapshot_read, reads_snapshot_read_output, reads_atomic_write, reads_atomic_write_output, reads_watch, reads_watch_output};

use crate::read_counts::WriteCounts;
use crate::read_fields::{last_bytes, last_number, numbers};
use crate::read_messages::{each, low_signed, write_of};
use crate::read_places::{Kind, first_bad};
use crate::types::{AtomicWriteOutput, SnapshotRead, SnapshotReadOutput, Watch, WatchOutput};
use dkv_base::{AtomicWrite, Bytes, NoMemory};
use std::alloc::Global;
use thiserror::Error;

/// Why a body was not read.
#[derive(Clone, Copy, Debug, Error, PartialEq, Eq)]
pub enum ReadError {
    /// The body is no message: at this place, in bytes from its start, no field begins.
    #[error("no field begins at byte {at}")]
    Malformed { at: u64 },
    /// The allocator had no room.
    #[error("no memory")]
    NoMemory,
}

impl From<NoMemory> for ReadError {
    ghost use Rattle.dkv_msgs.specs.declared.read.ReadError.TheVariants as error;

    ghost from_gives = { λ _ e. e ≡ error.NoMemory };

    fn from(_none: NoMemory) -> ReadError {
        ReadError::NoMemory
    }
}

/// Reads the ranges of a read. Takes memory for what it holds.
pub fn read_snapshot_read(alloc: Global, body: &[u8]) -> Result<SnapshotRead, ReadError>
    ensures { IsReading (reads_snapshot_read body.now) result }
{
    match first_bad(Kind::SnapshotRead, 0, body) {
        Some(at) => Err(ReadError::Malformed { at }),
        None => Ok(SnapshotRead {
            ranges: each(alloc, 1, body)?,
        }),
    }
}

/// Reads the reply to a read. Takes memory for what it holds.
pub fn read_snapshot_read_output(
    alloc: Global,
    body: &[u8],
) -> Result<SnapshotReadOutput, ReadError>
    ensures { IsReading (reads_snapshot_read_output body.now) result }
{
    match first_bad(Kind::SnapshotReadOutput, 0, body) {
        Some(at) => Err(ReadError::Malformed { at }),
        None => Ok(SnapshotReadOutput {
            ranges: each(alloc, 1, body)?,
            read_disabled: last_number(0, 2, body) != 0,
            strong: last_number(0, 4, body) != 0,
            status: low_signed(last_number(0, 8, body)),
        }),
    }
}

/// Reads the checks, mutations and enqueues of a write. Takes memory for what it holds.
pub fn read_atomic_write(alloc: Global, body: &[u8]) -> Result<AtomicWrite, ReadError>
    ensures { IsReading (reads_atomic_write body.now) result }
{
    match first_bad(Kind::AtomicWrite, 0, body) {
        Some(at) => Err(ReadError::Malformed { at }),
        None => Ok(write_of(alloc, WriteCounts::of(body), body)?),
    }
}

/// Reads the reply to a write. Takes memory for what it holds.
pub fn read_atomic_write_output(alloc: Global, body: &[u8]) -> Result<AtomicWriteOutput, ReadError>
    ensures { IsReading (reads_atomic_write_output body.now) result }
{
    match first_bad(Kind::AtomicWriteOutput, 0, body) {
        Some(at) => Err(ReadError::Malformed { at }),
        None => Ok(AtomicWriteOutput {
            status: low_signed(last_number(0, 1, body)),
            versionstamp: Bytes::copy_of(alloc, last_bytes(&[], 2, body))?,
            failed_checks: numbers(alloc, 4, body)?,
        }),
    }
}

/// Reads the keys of a watch. Takes memory for what it holds.
pub fn read_watch(alloc: Global, body: &[u8]) -> Result<Watch, ReadError>
    ensures { IsReading (reads_watch body.now) result }
{
    match first_bad(Kind::Watch, 0, body) {
        Some(at) => Err(ReadError::Malformed { at }),
        None => Ok(Watch {
            keys: each(alloc, 1, body)?,
        }),
    }
}

/// Reads a frame of a watch. Takes memory for what it holds.
pub fn read_watch_output(alloc: Global, body: &[u8]) -> Result<WatchOutput, ReadError>
    ensures { IsReading (reads_watch_output body.now) result }
{
    match first_bad(Kind::WatchOutput, 0, body) {
        Some(at) => Err(ReadError::Malformed { at }),
        None => Ok(WatchOutput {
            status: low_signed(last_number(0, 1, body)),
            keys: each(alloc, 2, body)?,
        }),
    }
}
