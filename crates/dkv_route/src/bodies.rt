// What the body of a request wants.
ghost use Rattle.std.specs.Prelude.{◌≡◌, None, IfOk};
ghost use Rattle.dkv_base.specs.Limits.{read_limit, write_limit, watch_limit};
ghost use Rattle.dkv_msgs.specs.Readings.{reads_ranges, reads_atomic_write, reads_keys};
ghost use Rattle.dkv_route.specs.Access.{within, wanted_by, read, write, watch};
ghost use Rattle.dkv_route.specs.Plans.{IsWanted, IsPlanned, IsWithin};
ghost use Rattle.dkv_route.specs.declared.targets.Path.TheVariants as path;

use crate::access::Cause;
use crate::kinds::Plan;
use crate::targets::Path;
use crate::texts::response;
use dkv_atomic::{limits, read_limits, watch_limits};
use dkv_base::{AtomicWrite, Bytes, NoMemory, ReadRange, Run};
use dkv_heads::statuses::OK;
use dkv_http::Kind;
use dkv_meta::{ExchangeError, exchange};
use dkv_msgs::{RequestError, request_atomic_write, request_snapshot_read, request_watch};
use dkv_token::Site;
use std::alloc::Global;
use thiserror::Error;

/// Why a request has no plan so far.
#[derive(Clone, Copy, Debug, Error, PartialEq, Eq)]
pub(crate) enum Unplanned {
    /// It is refused.
    #[error("refused: {0:?}")]
    Refused(Cause),
    /// The allocator had no room.
    #[error("no memory")]
    NoMemory,
}

impl From<NoMemory> for Unplanned {
    ghost use Rattle.dkv_route.specs.declared.bodies.Unplanned.TheVariants as unplanned;

    ghost from_gives = { λ _ e. e ≡ unplanned.NoMemory };

    fn from(_none: NoMemory) -> Unplanned {
        Unplanned::NoMemory
    }
}

impl From<RequestError> for Unplanned {
    ghost use Rattle.dkv_route.specs.Plans.{unplanned_of};

    ghost from_gives = { λ error e. e ≡ unplanned_of error };

    fn from(error: RequestError) -> Unplanned {
        match error {
            RequestError::Malformed { at } => Unplanned::Refused(Cause::Malformed { at }),
            RequestError::Limit(passed) => Unplanned::Refused(Cause::Limited(passed)),
            RequestError::NoMemory => Unplanned::NoMemory,
        }
    }
}

fn read_of(alloc: Global, body: &[u8]) -> Result<Run<ReadRange>, Unplanned>
    ensures wanted { IsWanted read (within read_limit read (reads_ranges body.now)) result }
    ensures unlimited { IfOk result (λ ranges. read_limit ranges ≡ None) }
{
    let request = request_snapshot_read(alloc, body)?;
    match read_limits(request.ranges.as_slice()) {
        Some(passed) => Err(Unplanned::Refused(Cause::Limited(passed))),
        None => Ok(request.ranges),
    }
}

fn write_of(alloc: Global, body: &[u8]) -> Result<AtomicWrite, Unplanned>
    ensures wanted { IsWanted write
        (within write_limit write (reads_atomic_write body.now)) result }
    ensures unlimited { IfOk result (λ w. write_limit w ≡ None) }
{
    let request = request_atomic_write(alloc, body)?;
    match limits(&request) {
        Some(passed) => Err(Unplanned::Refused(Cause::Limited(passed))),
        None => Ok(request),
    }
}

fn watch_of(alloc: Global, body: &[u8]) -> Result<Run<Bytes>, Unplanned>
    ensures wanted { IsWanted watch (within watch_limit watch (reads_keys body.now)) result }
    ensures unlimited { IfOk result (λ keys. watch_limit keys ≡ None) }
{
    let request = request_watch(alloc, body)?;
    match watch_limits(request.keys.as_slice()) {
        Some(passed) => Err(Unplanned::Refused(Cause::Limited(passed))),
        None => Ok(request.keys),
    }
}

// The reply to an exchange is the whole response.
fn exchanged(
    alloc: Global,
    site: &Site,
    at: u64,
    body: &[u8],
    close: bool,
) -> Result<Plan, Unplanned>
    ensures planned { IsPlanned site.now close at (wanted_by path.Root body.now) result }
    ensures unlimited { IfOk result IsWithin }
{
    match exchange(alloc, body, site, at) {
        Ok(text) => Ok(Plan::Reply(response(alloc, OK, Kind::Json, text.as_slice(), close)?)),
        Err(ExchangeError::BadExchange) => Err(Unplanned::Refused(Cause::BadExchange)),
        Err(ExchangeError::NoMemory) => Err(Unplanned::NoMemory),
    }
}

/// The plan for what a body wants at a path and a moment, in milliseconds since 1970. Takes memory for it.
pub(crate) fn planned_by(
    alloc: Global,
    site: &Site,
    at: u64,
    path: Path,
    body: &[u8],
    close: bool,
) -> Result<Plan, Unplanned>
    ensures planned { IsPlanned site.now close at (wanted_by path body.now) result }
    ensures unlimited { IfOk result IsWithin }
{
    match path {
        Path::Root => exchanged(alloc, site, at, body, close),
        Path::Read => Ok(Plan::Read(read_of(alloc, body)?)),
        Path::Write => Ok(Plan::Write(write_of(alloc, body)?)),
        Path::Watch => Ok(Plan::Watch(watch_of(alloc, body)?)),
        Path::Stop => Ok(Plan::Stop),
    }
}
