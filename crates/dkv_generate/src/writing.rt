// A workload, written to a sink.
ghost use Rattle.std.specs.Prelude.{◌≡◌, ◌<◌, ◌≤◌, ◌+◌, flat_map, All, Err, OnOk, OnErr};
ghost use Rattle.std.specs.Io.KnownBytes.{Appends};
ghost use Rattle.dkv_io.specs.Causes.{Rose};
ghost use Rattle.dkv_io.specs.Streams.{AppendsFront};
ghost use Rattle.dkv_generate.specs.declared.sizes.TheConstants.{GROUP_NUMBERS};
ghost use Rattle.dkv_generate.specs.declared.writing.GenerateEnd.TheVariants.{WriteFault, NoMemory};
ghost use Rattle.dkv_generate.specs.Frames.{IsFrame, frame_bytes};
ghost use Rattle.dkv_generate.specs.Numbers.{number_after};
ghost use Rattle.dkv_generate.specs.Steps.{group_steps, steps_of};
ghost use Rattle.dkv_generate.specs.Workload.{workload, WritesSome};

use crate::groups::put_group;
use crate::numbers::Numbers;
use crate::sizes::{GROUP_BYTES, GROUPS};
use dkv_io::Sink;
use std::alloc::Global;
use thiserror::Error;

/// Why a workload isn't written whole.
#[derive(Clone, Copy, Debug, Error, PartialEq, Eq)]
pub enum GenerateEnd {
    /// A write to the sink failed.
    #[error("write fault")]
    WriteFault,
    /// The allocator had no room.
    #[error("no memory")]
    NoMemory,
}

// Writes the frames of a group, which the page holds meanwhile.
fn write_group<K: Sink>(
    alloc: Global,
    group: u64,
    numbers: &mut Numbers,
    page: &mut Vec<u8>,
    sink: &mut K,
) -> Result<(), GenerateEnd>
    requires { group < GROUPS }
    ensures all { OnOk result (Appends (K.held sink.old) (K.held sink.new)
        (flat_map frame_bytes (group_steps group numbers.old.last))) }
    ensures front { OnErr result (AppendsFront (K.held sink.old) (K.held sink.new)
        (flat_map frame_bytes (group_steps group numbers.old.last))) }
    ensures none { result ≡ Err NoMemory → sink.new ≡ sink.old }
    ensures last { OnOk result
        (numbers.new.last ≡ number_after GROUP_NUMBERS numbers.old.last) }
    ensures fault { result ≡ Err WriteFault → Rose (K.faults sink.old) (K.faults sink.new) }
    ensures later { K.faults sink.old ≤ K.faults sink.new }
{
    page.clear();
    if put_group(alloc, page, group, numbers).is_err() {
        return Err(GenerateEnd::NoMemory);
    }
    match sink.write(page) {
        Ok(()) => Ok(()),
        Err(_) => Err(GenerateEnd::WriteFault),
    }
}

/// Writes the workload of a number: 24,000 frames that `pipe` answers, 4,000 groups of six. Takes memory for one group at a
/// time. It waits where the sink does.
pub fn generate<K: Sink>(alloc: Global, number: u64, sink: &mut K) -> Result<(), GenerateEnd>
    ensures all { OnOk result (Appends (K.held sink.old) (K.held sink.new) (workload number)) }
    ensures front { OnErr result
        (AppendsFront (K.held sink.old) (K.held sink.new) (workload number)) }
    // Where memory was wanted, whole groups were written.
    ensures memory { result ≡ Err NoMemory
        → WritesSome number (K.held sink.old) (K.held sink.new) }
    ensures fault { result ≡ Err WriteFault → Rose (K.faults sink.old) (K.faults sink.new) }
    ensures later { K.faults sink.old ≤ K.faults sink.new }
    // Each step has room in a frame.
    ensures frames { All IsFrame (steps_of GROUPS number) }
{
    let mut numbers = Numbers { last: number };
    let Ok(mut page) = Vec::with_capacity(alloc, GROUP_BYTES) else {
        return Err(GenerateEnd::NoMemory);
    };
    for group in 0..GROUPS {
        if let Err(end) = write_group(alloc, group, &mut numbers, &mut page, sink) {
            return Err(end);
        }
    }
    Ok(())
}
