// `generate`: the workload of a number.
ghost use Rattle.dkv_io.specs.Causes.{Rose};
ghost use Rattle.dkv_app.specs.Generating.{Generates, AreTheFrames};

use crate::status::Status;
use dkv_generate::{GenerateEnd, generate};
use dkv_io::Sink;
use std::alloc::Global;

/// Writes the workload of the number to the sink. Takes memory for one group of its steps at a time.
pub(crate) fn run_generate<K: Sink>(alloc: Global, sink: &mut K, number: u64) -> Status
    ensures writes { Generates result number (K.held sink.old) (K.held sink.new)
        (Rose (K.faults sink.old) (K.faults sink.new)) }
    ensures frames { AreTheFrames number }
{
    match generate(alloc, number, sink) {
        Ok(()) => Status::Ok,
        Err(GenerateEnd::WriteFault) => Status::WriteFault,
        Err(GenerateEnd::NoMemory) => Status::NoMemory,
    }
}
