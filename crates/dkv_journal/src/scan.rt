// The records of a file, read one after the other.
ghost use Rattle.std.specs.Prelude.{◌≡◌, ◌↔◌, ◌≤◌, ◌+◌, IsTrue, length, IfOk, IfSome, Err};
ghost use Rattle.dkv_base.specs.declared.types.Profile.TheVariants.{Narrow};
ghost use Rattle.dkv_base.specs.Profiles.{body_most};
ghost use Rattle.dkv_io.specs.Causes.{HasCause, Rose};
ghost use Rattle.dkv_io.specs.Disks.{LeavesOnly};
ghost use Rattle.dkv_journal.specs.Crashes.{WhereTold};
ghost use Rattle.dkv_journal.specs.Scanning.{IsGate, IsNext, IsWithin, IsScan, IsBodyAt, EndsBehind};
ghost use Rattle.dkv_journal.specs.declared.scan.Missed.TheVariants as missed;
ghost use Rattle.dkv_journal.specs.declared.scan.ScanRefusal.TheVariants as refusal;

use crate::{Journal, OPEN_GATE};
use dkv_base::limits::MAX_RECORD_BYTES;
use dkv_base::{Bytes, Run};
use dkv_io::{Disk, Failed};
use std::alloc::Global;
use thiserror::Error;

/// Why a scan found no closed gate.
#[derive(Debug, Drop, Error)]
pub enum ScanRefusal {
    /// A call of the disk failed.
    #[error("the disk failed")]
    DiskFault,
    /// At this gate the file ends, or its record is cut short or longer than a record may be. `at` counts bytes from the file's
    /// start. Before it are the records of these bodies.
    #[error("damaged at byte {at}")]
    Damaged { at: u64, before: Run<Bytes> },
    /// The allocator had no room.
    #[error("no memory")]
    NoMemory,
}

// A gate, and the length that is told behind it.
#[derive(Clone, Copy)]
pub(crate) enum Gate {
    Closed,
    Opens { count: u32 },
    // The file ends at the gate, or behind an open one before the length does.
    Ends,
}

// What stands at a gate.
#[derive(Drop)]
pub(crate) enum Next {
    Closed,
    Record(Bytes),
    Damaged,
}

// Why there is no answer.
#[derive(Clone, Copy)]
pub(crate) enum Missed {
    DiskFault,
    NoMemory,
}

// Reads a gate and the length behind it.
fn gate_at<D: Disk>(disk: &mut D, at: u64) -> Result<Gate, Failed>
    ensures gate { WhereTold (D.seen disk.old) (λ file. IfOk result (IsGate at file)) }
    ensures seen { D.seen disk.new ≡ D.seen disk.old }
    ensures leaves { LeavesOnly D.moment D.left_since disk.old disk.new (D.may_leave disk.old) }
    ensures cause { HasCause (D.faults disk.old) (D.faults disk.new) result }
{
    let mut head = [0; 5];
    let count = match disk.read(at, &mut head) {
        Ok(count) => count,
        Err(failed) => return Err(failed),
    };
    if count == 0 {
        return Ok(Gate::Ends);
    }
    if head[0] != OPEN_GATE {
        return Ok(Gate::Closed);
    }
    if count < 5 {
        return Ok(Gate::Ends);
    }
    Ok(Gate::Opens {
        count: u32::from_le_bytes([head[1], head[2], head[3], head[4]]),
    })
}

// Reads so many bytes, if there are as many.
fn body_at<D: Disk>(
    alloc: Global,
    disk: &mut D,
    at: u64,
    count: u32,
) -> Result<Option<Bytes>, Missed>
    ensures body { WhereTold (D.seen disk.old) (λ file. IfOk result (IsBodyAt at count file)) }
    ensures count { IfOk result (λ found. IfSome found (λ body. length body ≡ count)) }
    ensures seen { D.seen disk.new ≡ D.seen disk.old }
    ensures leaves { LeavesOnly D.moment D.left_since disk.old disk.new (D.may_leave disk.old) }
    ensures later { D.faults disk.old ≤ D.faults disk.new }
    ensures cause { result ≡ Err missed.DiskFault → Rose (D.faults disk.old) (D.faults disk.new) }
{
    let mut bytes = Vec::new(alloc);
    if bytes.resize(count as usize, 0).is_err() {
        return Err(Missed::NoMemory);
    }
    match disk.read(at, &mut bytes) {
        Ok(read) => {
            if read == count as usize {
                Ok(Some(Bytes::of(bytes)))
            } else {
                Ok(None)
            }
        }
        Err(_) => Err(Missed::DiskFault),
    }
}

// Whether a record may have a body of this length, and ends within so many bytes of its gate.
fn is_whole(count: u32, left: u64) -> bool
    ensures { IsTrue result ↔ (count ≤ body_most Narrow) × (5 + count ≤ left) }
{
    count as usize <= MAX_RECORD_BYTES && 5 + u64::from(count) <= left
}

// Looks at the gate at a place of a disk of so many bytes, and reads the body behind it.
fn look<D: Disk>(alloc: Global, disk: &mut D, at: u64, len: u64) -> Result<Next, Missed>
    requires { WhereTold (D.seen disk.old) (λ file. len ≡ length file) }
    ensures next { WhereTold (D.seen disk.old) (λ file. IfOk result (IsNext at file)) }
    ensures within { IfOk result (IsWithin at len) }
    ensures seen { D.seen disk.new ≡ D.seen disk.old }
    ensures leaves { LeavesOnly D.moment D.left_since disk.old disk.new (D.may_leave disk.old) }
    ensures later { D.faults disk.old ≤ D.faults disk.new }
    ensures cause { result ≡ Err missed.DiskFault → Rose (D.faults disk.old) (D.faults disk.new) }
{
    let count = match gate_at(disk, at) {
        Ok(Gate::Opens { count }) => count,
        Ok(Gate::Closed) => return Ok(Next::Closed),
        Ok(Gate::Ends) => return Ok(Next::Damaged),
        Err(_) => return Err(Missed::DiskFault),
    };
    if !is_whole(count, len.saturating_sub(at)) {
        return Ok(Next::Damaged);
    }
    match body_at(alloc, disk, at + 5, count) {
        Ok(Some(body)) => Ok(Next::Record(body)),
        Ok(None) => Ok(Next::Damaged),
        Err(missed) => Err(missed),
    }
}

impl Journal {
    /// Reads the bodies of the records from a gate on, up to the first closed gate, where the journal goes on. `place` counts
    /// bytes from the file's start. Writes nothing. Takes memory for the bodies, one after the other.
    pub fn scan<D: Disk>(
        alloc: Global,
        disk: &mut D,
        place: u64,
    ) -> Result<(Run<Bytes>, Journal), ScanRefusal>
        ensures scanned { WhereTold (D.seen disk.old) (λ file. IsScan place file result) }
        ensures ends { EndsBehind place result }
        ensures seen { D.seen disk.new ≡ D.seen disk.old }
        ensures leaves { LeavesOnly D.moment D.left_since
            disk.old disk.new (D.may_leave disk.old) }
        ensures later { D.faults disk.old ≤ D.faults disk.new }
        ensures cause { result ≡ Err refusal.DiskFault
            → Rose (D.faults disk.old) (D.faults disk.new) }
    {
        let len = match disk.len() {
            Ok(len) => len,
            Err(_) => return Err(ScanRefusal::DiskFault),
        };
        let mut bodies = Run::new(alloc);
        let mut at = place;
        loop {
            match look(alloc, disk, at, len) {
                Ok(Next::Record(body)) => {
                    let size = 5 + body.len() as u64;
                    if bodies.push(body).is_err() {
                        return Err(ScanRefusal::NoMemory);
                    }
                    at += size;
                }
                Ok(Next::Closed) => return Ok((bodies, Journal::at(at))),
                Ok(Next::Damaged) => return Err(ScanRefusal::Damaged { at, before: bodies }),
                Err(Missed::DiskFault) => return Err(ScanRefusal::DiskFault),
                Err(Missed::NoMemory) => return Err(ScanRefusal::NoMemory),
            }
        }
    }
}
