// The bodies of requests, which are refused by their counts before anything is built.
ghost use Rattle.std.specs.Prelude.{◌≡◌, None, IfOk};
ghost use Rattle.dkv_base.specs.Limits.{write_limit_at, read_limit, watch_limit};
ghost use Rattle.dkv_msgs.specs.Readings.{reads_snapshot_read, reads_atomic_write, reads_watch};
ghost use Rattle.dkv_msgs.specs.Requests.{IsRequest, write_counts, read_counts, watch_counts, limit_of_counts, limit_of_ranges, limit_of_keys};

use crate::read_counts::{WriteCounts, count};
use crate::read_messages::{each, write_of};
use crate::read_places::{Kind, first_bad};
use crate::types::{SnapshotRead, Watch};
use dkv_base::limits::{MAX_CHANGES, MAX_CHECKS, MAX_RANGES, MAX_WATCHED_KEYS};
use dkv_base::{AtomicWrite, Limit, NoMemory};
use std::alloc::Global;
use thiserror::Error;

/// Why the body of a request was not read.
#[derive(Clone, Copy, Debug, Error, PartialEq, Eq)]
pub enum RequestError {
    /// The body is no message: at this place, in bytes from its start, no field begins.
    #[error("no field begins at byte {at}")]
    Malformed { at: u64 },
    /// There are too many parts of the message itself, or no keys to watch.
    #[error("the limit {0:?} is passed")]
    Limit(Limit),
    /// The allocator had no room.
    #[error("no memory")]
    NoMemory,
}

impl From<NoMemory> for RequestError {
    ghost use Rattle.dkv_msgs.specs.declared.requests.RequestError.TheVariants as error;

    ghost from_gives = { λ _ e. e ≡ error.NoMemory };

    fn from(_none: NoMemory) -> RequestError {
        RequestError::NoMemory
    }
}

fn limit_of_counts(counts: WriteCounts) -> Option<Limit>
    ensures { result ≡ limit_of_counts counts.checks counts.mutations counts.enqueues }
{
    if counts.checks > MAX_CHECKS {
        Some(Limit::TooManyChecks)
    } else if counts.mutations.saturating_add(counts.enqueues) > MAX_CHANGES {
        Some(Limit::TooManyMutations)
    } else {
        None
    }
}

fn limit_of_keys(keys: usize) -> Option<Limit>
    ensures { result ≡ limit_of_keys keys }
{
    if keys == 0 || keys > MAX_WATCHED_KEYS {
        Some(Limit::WatchCount)
    } else {
        None
    }
}

fn limit_of_ranges(ranges: usize) -> Option<Limit>
    ensures { result ≡ limit_of_ranges ranges }
{
    if ranges > MAX_RANGES {
        Some(Limit::TooManyRanges)
    } else {
        None
    }
}

/// Reads the ranges of a read that a client asks for. Takes memory for what it holds, and none where the count of the
/// ranges is passed.
pub fn request_snapshot_read(alloc: Global, body: &[u8]) -> Result<SnapshotRead, RequestError>
    ensures request { IsRequest (λ _ m. read_limit m.ranges) (reads_snapshot_read body.now) result }
    ensures counts { IfOk result (λ m. read_counts m ≡ None) }
{
    if let Some(at) = first_bad(Kind::SnapshotRead, 0, body) {
        return Err(RequestError::Malformed { at });
    }
    if let Some(passed) = limit_of_ranges(count(1, body)) {
        return Err(RequestError::Limit(passed));
    }
    Ok(SnapshotRead {
        ranges: each(alloc, 1, body)?,
    })
}

/// Reads the checks, mutations and enqueues of a write that a client asks for. Takes memory for what it holds, and none
/// where a count of them is passed.
pub fn request_atomic_write(alloc: Global, body: &[u8]) -> Result<AtomicWrite, RequestError>
    ensures request { IsRequest write_limit_at (reads_atomic_write body.now) result }
    ensures counts { IfOk result (λ w. write_counts w ≡ None) }
{
    if let Some(at) = first_bad(Kind::AtomicWrite, 0, body) {
        return Err(RequestError::Malformed { at });
    }
    let counts = WriteCounts::of(body);
    if let Some(passed) = limit_of_counts(counts) {
        return Err(RequestError::Limit(passed));
    }
    Ok(write_of(alloc, counts, body)?)
}

/// Reads the keys of a watch that a client asks for. Takes memory for what it holds, and none where their count is passed.
pub fn request_watch(alloc: Global, body: &[u8]) -> Result<Watch, RequestError>
    ensures request { IsRequest (λ _ m. watch_limit m.keys) (reads_watch body.now) result }
    ensures counts { IfOk result (λ m. watch_counts m ≡ None) }
{
    if let Some(at) = first_bad(Kind::Watch, 0, body) {
        return Err(RequestError::Malformed { at });
    }
    if let Some(passed) = limit_of_keys(count(1, body)) {
        return Err(RequestError::Limit(passed));
    }
    Ok(Watch {
        keys: each(alloc, 1, body)?,
    })
}
