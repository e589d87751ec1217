// The messages of requests and replies, as they are written.
ghost use Rattle.std.specs.Prelude.{◌≡◌, IfOk, Ok};
ghost use Rattle.dkv_msgs.specs.Spellings.{spell_ranges, spell_keys, spell_snapshot_read_output, spell_atomic_write_output, spell_watch_output};
ghost use Rattle.dkv_base.specs.Spelling.{spell_write};
ghost use Rattle.dkv_msgs.specs.Readings.{reads_snapshot_read, reads_snapshot_read_output, reads_atomic_write, reads_atomic_write_output, reads_watch, reads_watch_output};

use crate::types::{AtomicWriteOutput, SnapshotRead, SnapshotReadOutput, Watch, WatchOutput};
use crate::write_fields::{add_bytes, add_flag, add_messages, add_numbers, add_signed};
use dkv_base::{AtomicWrite, Bytes, NoMemory};
use dkv_wire::Out;
use std::alloc::Global;

/// The canonical spelling of a read.
pub fn write_snapshot_read(alloc: Global, message: &SnapshotRead) -> Result<Bytes, NoMemory>
    ensures spelled { IfOk result (λ b. b ≡ spell_ranges message.now.ranges) }
    ensures back { IfOk result (λ b. reads_snapshot_read b ≡ Ok message.now) }
{
    let mut out = Out::new(alloc);
    add_messages(&mut out, 1, message.ranges.as_slice())?;
    Ok(out.finish())
}

/// The canonical spelling of the reply to a read.
pub fn write_snapshot_read_output(
    alloc: Global,
    message: &SnapshotReadOutput,
) -> Result<Bytes, NoMemory>
    ensures spelled { IfOk result (λ b. b ≡ spell_snapshot_read_output message.now) }
    ensures back { IfOk result (λ b. reads_snapshot_read_output b ≡ Ok message.now) }
{
    let mut out = Out::new(alloc);
    add_messages(&mut out, 1, message.ranges.as_slice())?;
    add_flag(&mut out, 2, message.read_disabled)?;
    add_flag(&mut out, 4, message.strong)?;
    add_signed(&mut out, 8, i64::from(message.status))?;
    Ok(out.finish())
}

/// The canonical spelling of an atomic write.
pub fn write_atomic_write(alloc: Global, message: &AtomicWrite) -> Result<Bytes, NoMemory>
    ensures spelled { IfOk result (λ b. b ≡ spell_write message.now) }
    ensures back { IfOk result (λ b. reads_atomic_write b ≡ Ok message.now) }
{
    let mut out = Out::new(alloc);
    add_messages(&mut out, 1, message.checks.as_slice())?;
    add_messages(&mut out, 2, message.mutations.as_slice())?;
    add_messages(&mut out, 3, message.enqueues.as_slice())?;
    Ok(out.finish())
}

/// The canonical spelling of the reply to an atomic write.
pub fn write_atomic_write_output(
    alloc: Global,
    message: &AtomicWriteOutput,
) -> Result<Bytes, NoMemory>
    ensures spelled { IfOk result (λ b. b ≡ spell_atomic_write_output message.now) }
    ensures back { IfOk result (λ b. reads_atomic_write_output b ≡ Ok message.now) }
{
    let mut out = Out::new(alloc);
    add_signed(&mut out, 1, i64::from(message.status))?;
    add_bytes(&mut out, 2, message.versionstamp.as_slice())?;
    add_numbers(&mut out, 4, message.failed_checks.as_slice())?;
    Ok(out.finish())
}

/// The canonical spelling of a watch.
pub fn write_watch(alloc: Global, message: &Watch) -> Result<Bytes, NoMemory>
    ensures spelled { IfOk result (λ b. b ≡ spell_keys message.now.keys) }
    ensures back { IfOk result (λ b. reads_watch b ≡ Ok message.now) }
{
    let mut out = Out::new(alloc);
    add_messages(&mut out, 1, message.keys.as_slice())?;
    Ok(out.finish())
}

/// The canonical spelling of a watch's frame, without the length before it.
pub fn write_watch_output(alloc: Global, message: &WatchOutput) -> Result<Bytes, NoMemory>
    ensures spelled { IfOk result (λ b. b ≡ spell_watch_output message.now) }
    ensures back { IfOk result (λ b. reads_watch_output b ≡ Ok message.now) }
{
    let mut out = Out::new(alloc);
    add_signed(&mut out, 1, i64::from(message.status))?;
    add_messages(&mut out, 2, message.keys.as_slice())?;
    Ok(out.finish())
}
